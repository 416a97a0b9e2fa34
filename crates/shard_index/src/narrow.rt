ghost use Rattle.std.specs.Prelude.{◌≡◌, ◌-◌, ◌<◌, ◌≤◌, ◌&&◌, ◌++◌, ◌∷◌, [], List, Bool, IfOk, OnOk, get_or, length, nat_eq, nat_lt, not, if◌then◌else◌};
ghost use Rattle.fan_base.specs.declared.doc.Doc.{Doc};
ghost use Rattle.shard_index.specs.Narrowing.{StandWhere};
ghost use Rattle.shard_index.specs.Places.{places_where};

use std::alloc::{AllocError, Global};

/// The places of one list that are among others, or, where those aren't wanted, that are not. Both ascend.
pub fn narrow(
    alloc: Global,
    places: &[u32],
    others: &[u32],
    wanted: bool,
) -> Result<Vec<u32>, AllocError>
    ensures { (p q : Doc → Bool) (docs : List Doc) → places.now ≡ places_where p docs → StandWhere others.now q docs
        → IfOk result (λ kept. kept.items ≡ places_where (λ doc. p doc && (if wanted then q doc else not (q doc))) docs) }
{
    if places.len() < others.len() / 16 {
        narrow_far(alloc, places, others, wanted)
    } else if wanted {
        common_near(alloc, places, others)
    } else {
        without_near(alloc, places, others)
    }
}

/// The same where the others are many more: it goes by steps that double.
fn narrow_far(
    alloc: Global,
    places: &[u32],
    others: &[u32],
    wanted: bool,
) -> Result<Vec<u32>, AllocError>
    ensures { (p q : Doc → Bool) (docs : List Doc) → places.now ≡ places_where p docs → StandWhere others.now q docs
        → IfOk result (λ kept. kept.items ≡ places_where (λ doc. p doc && (if wanted then q doc else not (q doc))) docs) }
{
    let mut kept = Vec::with_capacity(alloc, places.len())?;
    let mut at = 0;
    for place in places {
        at = first_far(others, at, *place);
        let has = is_at(others, at, *place);
        push_if(&mut kept, is_kept(wanted, has), *place)?;
    }
    Ok(kept)
}

/// The places that are among the others, one step after another. How far each list is gone is counted without a branch: which of two places
/// is lower can't be foreseen.
fn common_near(alloc: Global, places: &[u32], others: &[u32]) -> Result<Vec<u32>, AllocError>
    ensures { (p q : Doc → Bool) (docs : List Doc) → places.now ≡ places_where p docs → StandWhere others.now q docs
        → IfOk result (λ kept. kept.items ≡ places_where (λ doc. p doc && q doc) docs) }
{
    let mut kept = Vec::with_capacity(alloc, places.len())?;
    let mut i = 0;
    let mut at = 0;
    'places: while i < places.len() && at < others.len() {
        let place = places[i];
        let other = others[at];
        push_if(&mut kept, place == other, place)?;
        i += usize::from(place <= other);
        at += usize::from(other <= place);
    }
    Ok(kept)
}

/// The places that aren't among the others, in the same way. Each is written where the next one that is kept belongs.
fn without_near(alloc: Global, places: &[u32], others: &[u32]) -> Result<Vec<u32>, AllocError>
    ensures { (p q : Doc → Bool) (docs : List Doc) → places.now ≡ places_where p docs → StandWhere others.now q docs
        → IfOk result (λ kept. kept.items ≡ places_where (λ doc. p doc && not (q doc)) docs) }
{
    let mut kept = vec![in alloc; 0; places.len()]?;
    let mut many = 0;
    let mut i = 0;
    let mut at = 0;
    'places: while i < places.len() && at < others.len() {
        let place = places[i];
        let other = others[at];
        kept[many] = place;
        many += usize::from(place < other);
        i += usize::from(place <= other);
        at += usize::from(other <= place);
    }
    kept.truncate(many);
    kept.extend_from_slice(&places[i..])?;
    Ok(kept)
}

/// Where the first place from an index on stands that isn't below this one: by steps that double, and then by halving.
pub fn first_far(places: &[u32], from: usize, place: u32) -> usize
    requires { from ≤ length places.now }
    ensures order { from ≤ result }
    ensures within { result ≤ length places.now }
    ensures front { from < result → get_or places.now (result - 1) 0 < place }
    ensures behind { result < length places.now → place ≤ get_or places.now result 0 }
{
    let mut low = from;
    let mut high = from;
    let mut step = 1;
    'steps: while high < places.len() && places[high] < place {
        low = high + 1;
        high = low.saturating_add(step).min(places.len());
        step = step.saturating_mul(2);
    }
    'halves: while low < high {
        let middle = low + (high - low) / 2;
        if places[middle] < place {
            low = middle + 1;
        } else {
            high = middle;
        }
    }
    low
}

/// Whether a place stands at an index.
pub fn is_at(places: &[u32], at: usize, place: u32) -> bool
    ensures { result ≡ (nat_lt at (length places.now) && nat_eq (get_or places.now at 0) place) }
{
    at < places.len() && places[at] == place
}

/// Whether a place is kept where those that have the bit are wanted, or the others.
pub fn is_kept(wanted: bool, has: bool) -> bool
    ensures { result ≡ (if wanted then has else not has) }
{
    if wanted { has } else { !has }
}

fn push_if(kept: &mut Vec<u32>, wanted: bool, place: u32) -> Result<(), AllocError>
    ensures { OnOk result (kept.new.items ≡ kept.old.items ++ (if wanted then place ∷ [] else [])) }
{
    if wanted {
        kept.push(place)?;
    }
    Ok(())
}
