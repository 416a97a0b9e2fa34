ghost use Rattle.std.specs.Prelude.{◌≡◌, ◌+◌, ◌*◌, ◌^◌, ◌<◌, ◌||◌, ℕ, All, Bool, List, IfOk, get_or, length, map, nat_lt, take, if◌then◌else◌};
ghost use Rattle.fan_base.specs.declared.doc.Doc.{Doc};
ghost use Rattle.fan_base.specs.declared.word.Word.{Word};
ghost use Rattle.query_model.specs.Answers.{ranked, times_in};
ghost use Rattle.shard_index.specs.Places.{has_word};
ghost use Rattle.shard_index.specs.Scored.{AreScored, HasRoomAt, StandAt};

use crate::best::{keep_score, least_total};
use fan_base::Scores;
use std::alloc::{AllocError, Global};

/// The scores of documents by their places, with one word more: the places where it stands, beside each how often, and its weight. All
/// places ascend. How far each list is gone is counted without a branch: which of two places is lower can't be foreseen.
pub fn with_places(
    alloc: Global,
    scored: &[(u32, u64)],
    places: &[u32],
    times: &[u16],
    weight: u64,
) -> Result<Vec<(u32, u64)>, AllocError>
    requires { HasRoomAt scored.now places.now times.now weight }
    ensures { (test : Doc → Bool) (score : Doc → ℕ) (word : Word) (docs : List Doc) → AreScored scored.now test score docs → StandAt places.now times.now word docs
        → IfOk result (λ more. AreScored more.items (λ doc. test doc || has_word word doc) (λ doc. score doc + times_in doc word * weight) docs) }
{
    let mut more = Vec::with_capacity(alloc, scored.len().saturating_add(places.len()))?;
    let mut i = 0;
    let mut j = 0;
    'both: while i < scored.len() && j < places.len() {
        let (place, total) = scored[i];
        let other = places[j];
        let added = u64::from(times[j]) * weight;
        more.push_reserved((place.min(other), at_lower(place, total, other, added)));
        i += usize::from(place <= other);
        j += usize::from(other <= place);
    }
    'places: while j < places.len() {
        more.push_reserved((places[j], u64::from(times[j]) * weight));
        j += 1;
    }
    more.extend_from_slice(&scored[i..])?;
    Ok(more)
}

/// The number at the lower of two places, or the sum of both where the places are one.
fn at_lower(place: u32, total: u64, other: u32, added: u64) -> u64
    requires { place ≡ other → total + added < 2 ^ 64 }
    ensures { result ≡ (if nat_lt place other then total else if nat_lt other place then added else total + added) }
{
    if place == other {
        total + added
    } else if place < other {
        total
    } else {
        added
    }
}

/// The first `k` of these scores, those above 0 alone, in the order of ranks, each with the id of its place.
pub fn first_scores(
    alloc: Global,
    ids: &[u32],
    scored: &[(u32, u64)],
    k: usize,
) -> Result<Scores, AllocError>
    requires { All (λ score. score.0 < length ids.now) scored.now }
    ensures { IfOk result (λ scores. scores ≡ take k (ranked (map (λ score. (get_or ids.now score.0 0, score.1)) scored.now))) }
{
    let mut kept = Vec::with_capacity(alloc, scored.len().min(k).saturating_add(1))?;
    let mut least = 1;
    for score in scored {
        let (place, total) = *score;
        if total >= least {
            keep_score(&mut kept, k, (ids[place as usize], total))?;
            least = least_total(kept.as_slice(), k);
        }
    }
    Ok(Scores::from_vec(kept))
}
