ghost use Rattle.std.specs.Prelude.{◌≡◌, ◌+◌, ◌<◌, ◌^◌, All, Bool, List, IfOk, false, length, map, replicate};
ghost use Rattle.std.specs.List.{count_by};
ghost use Rattle.fan_base.specs.declared.doc.Doc.{Doc};
ghost use Rattle.shard_index.specs.Places.{places_where};
ghost use Rattle.shard_index.specs.Totals.{marked_at};

use std::alloc::{AllocError, Global};

/// So many marks, none set.
pub fn no_marks(alloc: Global, count: usize) -> Result<Vec<bool>, AllocError>
    ensures { IfOk result (λ marks. marks.items ≡ replicate count false) }
{
    vec![in alloc; false; count]
}

/// Sets the marks at these places. Of how many places there was no mark before.
pub fn mark_at(marks: &mut Vec<bool>, places: &[u32]) -> u64
    requires { All (λ place. place < length marks.old.items) places.now }
    ensures marks { marks.new.items ≡ marked_at marks.old.items places.now }
    ensures new { count_by (λ mark. mark) marks.old.items + result ≡ count_by (λ mark. mark) marks.new.items }
{
    let mut new = 0;
    for place in places {
        new += u64::from(!marks[*place as usize]);
        marks[*place as usize] = true;
    }
    new
}

/// The places that are marked, in order.
pub fn marked(alloc: Global, marks: &[bool]) -> Result<Vec<u32>, AllocError>
    requires { length marks.now < 2 ^ 32 }
    ensures { (test : Doc → Bool) (docs : List Doc) → marks.now ≡ map test docs → IfOk result (λ places. places.items ≡ places_where test docs) }
{
    let mut places = Vec::new(alloc);
    for i in 0..marks.len() {
        if marks[i] {
            places.push(i as u32)?;
        }
    }
    Ok(places)
}

/// How many marks are set.
pub fn count_marks(marks: &[bool]) -> u64
    ensures { result ≡ count_by (λ mark. mark) marks.now }
{
    let mut count = 0;
    for mark in marks {
        count += u64::from(*mark);
    }
    count
}
