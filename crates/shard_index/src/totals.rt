ghost use Rattle.std.specs.Prelude.{◌≡◌, ◌<◌, ◌^◌, All, IfOk, length, replicate, take, zip};
ghost use Rattle.query_model.specs.Answers.{ranked};
ghost use Rattle.word_table.specs.Told.{repeated};
ghost use Rattle.shard_index.specs.Totals.{added_at};

use crate::best::{keep_score, least_total};
use fan_base::Scores;
use std::alloc::{AllocError, Global};

/// So many totals, each 0.
pub fn zeros(alloc: Global, count: usize) -> Result<Vec<u64>, AllocError>
    ensures { IfOk result (λ totals. totals.items ≡ replicate count 0) }
{
    vec![in alloc; 0; count]
}

/// Adds a weight to the totals at these places, at each as often as is told beside it.
pub fn add_at(totals: &mut Vec<u64>, places: &[u32], times: &[u16], weight: u64)
    requires many { length times.now ≡ length places.now }
    requires places { All (λ place. place < length totals.old.items) places.now }
    requires fits { All (λ total. total < 2 ^ 64) (added_at weight totals.old.items (repeated places.now times.now)) }
    ensures { totals.new.items ≡ added_at weight totals.old.items (repeated places.now times.now) }
{
    for i in 0..places.len() {
        totals[places[i] as usize] += u64::from(times[i]) * weight;
    }
}

/// The first `k` of all ids with their totals, those above 0 alone, in the order of ranks.
pub fn first_of_all(
    alloc: Global,
    ids: &[u32],
    totals: &[u64],
    k: usize,
) -> Result<Scores, AllocError>
    requires { length ids.now ≡ length totals.now }
    ensures { IfOk result (λ scores. scores ≡ take k (ranked (zip ids.now totals.now))) }
{
    let mut kept = Vec::with_capacity(alloc, totals.len().min(k).saturating_add(1))?;
    let mut least = 1;
    for at in 0..totals.len() {
        if totals[at] >= least {
            keep_score(&mut kept, k, (ids[at], totals[at]))?;
            least = least_total(kept.as_slice(), k);
        }
    }
    Ok(Scores::from_vec(kept))
}
