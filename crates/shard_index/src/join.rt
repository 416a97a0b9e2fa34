ghost use Rattle.std.specs.Prelude.{◌≡◌, ◌+◌, ◌≤◌, ◌&&◌, ◌||◌, List, Bool, IfOk, get_or, length, nat_eq, nat_lt, if◌then◌else◌};
ghost use Rattle.fan_base.specs.declared.doc.Doc.{Doc};
ghost use Rattle.shard_index.specs.Places.{places_where};

use crate::narrow::{first_far, is_at};
use std::alloc::{AllocError, Global};

/// The places that one of two ascending lists has, or both.
pub fn all(alloc: Global, first: &[u32], second: &[u32]) -> Result<Vec<u32>, AllocError>
    ensures { (p q : Doc → Bool) (docs : List Doc) → first.now ≡ places_where p docs → second.now ≡ places_where q docs
        → IfOk result (λ kept. kept.items ≡ places_where (λ doc. p doc || q doc) docs) }
{
    if first.len() < second.len() / 16 {
        all_far(alloc, first, second)
    } else if second.len() < first.len() / 16 {
        all_far(alloc, second, first)
    } else {
        all_near(alloc, first, second)
    }
}

/// The same where the second list is far longer: what it has between the places of the first is copied as it is.
fn all_far(alloc: Global, few: &[u32], many: &[u32]) -> Result<Vec<u32>, AllocError>
    ensures { (p q : Doc → Bool) (docs : List Doc) → few.now ≡ places_where p docs → many.now ≡ places_where q docs
        → IfOk result (λ kept. kept.items ≡ places_where (λ doc. p doc || q doc) docs) }
{
    let mut kept = Vec::with_capacity(alloc, few.len().saturating_add(many.len()))?;
    let mut at = 0;
    for place in few {
        let end = first_far(many, at, *place);
        kept.extend_from_slice(&many[at..end])?;
        kept.push(*place)?;
        at = behind(many, end, *place);
    }
    kept.extend_from_slice(&many[at..])?;
    Ok(kept)
}

/// The index behind a place that stands at this one, or else this one.
fn behind(places: &[u32], at: usize, place: u32) -> usize
    requires { at ≤ length places.now }
    ensures within { result ≤ length places.now }
    ensures value { result ≡ (if nat_lt at (length places.now) && nat_eq (get_or places.now at 0) place then at + 1 else at) }
{
    if is_at(places, at, place) { at + 1 } else { at }
}

/// The same, one place after another. How far each list is gone is counted without a branch: which of two places is lower can't be foreseen.
fn all_near(alloc: Global, first: &[u32], second: &[u32]) -> Result<Vec<u32>, AllocError>
    ensures { (p q : Doc → Bool) (docs : List Doc) → first.now ≡ places_where p docs → second.now ≡ places_where q docs
        → IfOk result (λ kept. kept.items ≡ places_where (λ doc. p doc || q doc) docs) }
{
    let mut kept = Vec::with_capacity(alloc, first.len().saturating_add(second.len()))?;
    let mut i = 0;
    let mut j = 0;
    'places: while i < first.len() && j < second.len() {
        let x = first[i];
        let y = second[j];
        kept.push(least(x, y))?;
        i += usize::from(x <= y);
        j += usize::from(y <= x);
    }
    kept.extend_from_slice(&first[i..])?;
    kept.extend_from_slice(&second[j..])?;
    Ok(kept)
}

/// The lower of two places.
fn least(x: u32, y: u32) -> u32
    ensures { result ≡ (if nat_lt y x then y else x) }
{
    if y < x { y } else { x }
}
