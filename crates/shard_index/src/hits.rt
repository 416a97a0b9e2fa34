ghost use Rattle.std.specs.Prelude.{◌≡◌, ◌<◌, ◌^◌, All, List, Bool, true, not, IfOk, get_or, length, map, take, nat_lt};
ghost use Rattle.fan_base.specs.declared.doc.Doc.{Doc};
ghost use Rattle.query_model.specs.Limits.{most_listed};
ghost use Rattle.query_model.specs.Sorting.{sorted_by, IsInOrder};
ghost use Rattle.shard_index.specs.Places.{places_where};
ghost use Rattle.shard_index.specs.Selections.{AreSelected, Selects, hits_where};

use crate::best::{greatest_id, keep_id};
use crate::selection::{Selection, without};
use fan_base::Ids;
use query_model::Hits;
use query_model::limits::MOST_LISTED;
use std::alloc::{AllocError, Global};

/// The first 100 ids, ascending, of the selected ones of the documents with these ids, and how many are selected. Where all ids
/// ascend, they are those of the first places.
pub fn hits(
    alloc: Global,
    ids: &[u32],
    ascending: bool,
    selection: &Selection<'_>,
) -> Result<Hits, AllocError>
    requires selected { AreSelected ids.now selection.now }
    requires ascends { ascending ≡ true → IsInOrder nat_lt ids.now }
    ensures { (test : Doc → Bool) (docs : List Doc) → ids.now ≡ map (λ doc. doc.id) docs → Selects selection.now test docs
        → IfOk result (λ hits. hits ≡ hits_where test docs) }
{
    match selection {
        Selection::Those(places) => hits_at(alloc, ids, ascending, places.as_slice()),
        Selection::AllBut(places) => {
            let kept = all_but(alloc, ids.len(), places.as_slice())?;
            hits_at(alloc, ids, ascending, kept.as_slice())
        }
    }
}

/// The first 100 ids, ascending, at these places, and how many places there are.
fn hits_at(alloc: Global, ids: &[u32], ascending: bool, places: &[u32]) -> Result<Hits, AllocError>
    requires places { All (λ place. place < length ids.now) places.now }
    requires ascends { ascending ≡ true → IsInOrder nat_lt (map (λ place. get_or ids.now place 0) places.now) }
    ensures ids { IfOk result (λ hits. hits.ids ≡ take most_listed (sorted_by nat_lt (map (λ place. get_or ids.now place 0) places.now))) }
    ensures total { IfOk result (λ hits. hits.total ≡ length places.now) }
{
    let first = first_ids(alloc, ids, ascending, places)?;
    Ok(Hits {
        ids: Ids::from_vec(first),
        total: places.len() as u64,
    })
}

/// The first 100 ids, ascending, at these places.
fn first_ids(
    alloc: Global,
    ids: &[u32],
    ascending: bool,
    places: &[u32],
) -> Result<Vec<u32>, AllocError>
    requires places { All (λ place. place < length ids.now) places.now }
    requires ascends { ascending ≡ true → IsInOrder nat_lt (map (λ place. get_or ids.now place 0) places.now) }
    ensures { IfOk result (λ first. first.items ≡ take most_listed (sorted_by nat_lt (map (λ place. get_or ids.now place 0) places.now))) }
{
    if ascending {
        ids_at(alloc, ids, places, MOST_LISTED)
    } else {
        smallest_ids(alloc, ids, places)
    }
}

/// The ids at the first `most` places, in the order of the places.
fn ids_at(alloc: Global, ids: &[u32], places: &[u32], most: usize) -> Result<Vec<u32>, AllocError>
    requires { All (λ place. place < length ids.now) places.now }
    ensures { IfOk result (λ first. first.items ≡ map (λ place. get_or ids.now place 0) (take most places.now)) }
{
    let many = places.len().min(most);
    let mut first = Vec::with_capacity(alloc, many)?;
    for i in 0..many {
        first.push(ids[places[i] as usize])?;
    }
    Ok(first)
}

/// The first 100 ids, ascending, at these places, whatever the order of the ids.
fn smallest_ids(alloc: Global, ids: &[u32], places: &[u32]) -> Result<Vec<u32>, AllocError>
    requires { All (λ place. place < length ids.now) places.now }
    ensures { IfOk result (λ first. first.items ≡ take most_listed (sorted_by nat_lt (map (λ place. get_or ids.now place 0) places.now))) }
{
    let mut kept = Vec::with_capacity(alloc, places.len().min(MOST_LISTED) + 1)?;
    let mut greatest = u32::MAX;
    for place in places {
        let id = ids[*place as usize];
        if id <= greatest {
            keep_id(&mut kept, MOST_LISTED, id)?;
            greatest = greatest_id(kept.as_slice(), MOST_LISTED);
        }
    }
    Ok(kept)
}

/// The places of so many documents but these.
fn all_but(alloc: Global, count: usize, left_out: &[u32]) -> Result<Vec<u32>, AllocError>
    requires { count < 2 ^ 32 }
    ensures { (test : Doc → Bool) (docs : List Doc) → length docs ≡ count → left_out.now ≡ places_where (λ doc. not (test doc)) docs
        → IfOk result (λ places. places.items ≡ places_where test docs) }
{
    without(alloc, places_below(alloc, count)?.as_slice(), left_out)
}

/// All places of so many documents.
fn places_below(alloc: Global, count: usize) -> Result<Vec<u32>, AllocError>
    requires { count < 2 ^ 32 }
    ensures { IfOk result (λ places. (docs : List Doc) → length docs ≡ count → places.items ≡ places_where (λ _. true) docs) }
{
    let mut places = Vec::with_capacity(alloc, count)?;
    for place in 0..count as u32 {
        places.push(place)?;
    }
    Ok(places)
}
