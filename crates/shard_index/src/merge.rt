ghost use Rattle.std.specs.Prelude.{◌≡◌, ◌<◌, ◌^◌, All, ℕ, IfOk, length, map, nat_lt, sum, take, true};
ghost use Rattle.std.specs.List.{flat_map};
ghost use Rattle.query_model.specs.Parts.{merged_hits, merged_scores};
ghost use Rattle.query_model.specs.Sorting.{sorted_by, IsInOrder};
ghost use Rattle.shard_index.specs.Parts.{total_with, weight_by, weights_by};

use crate::best::{ascend, keep_ids, keep_scores};
use crate::counts::Counts;
use crate::heads::least_ids;
use fan_base::{Ids, Memory, Scores};
use query_model::Hits;
use query_model::limits::MOST_LISTED;
use std::alloc::{AllocError, Global};

/// The hits of all parts together: the 100 smallest ids, ascending, or all where there are fewer, and the sum of the totals.
pub fn merge_hits(alloc: Global, parts: &[Hits]) -> Result<Hits, Memory>
    requires { sum (map (λ hits. hits.total) parts.now) < 2 ^ 64 }
    ensures { IfOk result (λ hits. hits ≡ merged_hits parts.now) }
{
    let ids = first_of_parts(alloc, parts, MOST_LISTED)?;
    Ok(Hits {
        ids: Ids::from_vec(ids),
        total: total_of(parts),
    })
}

/// The `most` smallest ids of all parts, ascending. Where those of each part ascend, as those of a shard do, all parts are gone over at once.
/// One or two, or such as don't ascend, are merged one after another.
fn first_of_parts(alloc: Global, parts: &[Hits], most: usize) -> Result<Vec<u32>, AllocError>
    ensures { IfOk result (λ first. first.items ≡ take most (sorted_by nat_lt (flat_map (λ hits. hits.ids) parts.now))) }
{
    if parts.len() > 2 && all_ascend(parts) {
        return least_ids(alloc, parts, most);
    }
    let mut kept = Vec::new(alloc);
    for part in parts {
        keep_ids(&mut kept, most, part.ids.as_slice())?;
    }
    Ok(kept)
}

/// Whether the ids of each part ascend.
fn all_ascend(parts: &[Hits]) -> bool
    ensures { result ≡ true → All (λ hits. IsInOrder nat_lt hits.ids) parts.now }
{
    for part in parts {
        if !ascend(part.ids.as_slice()) {
            return false;
        }
    }
    true
}

/// The sum of the totals.
fn total_of(parts: &[Hits]) -> u64
    requires { sum (map (λ hits. hits.total) parts.now) < 2 ^ 64 }
    ensures { result ≡ sum (map (λ hits. hits.total) parts.now) }
{
    let mut total = 0;
    for part in parts {
        total += part.total;
    }
    total
}

/// The first `k` scores of all parts together, the greater score first, then the smaller id.
pub fn merge_scores(alloc: Global, parts: &[Scores], k: u32) -> Result<Scores, Memory>
    ensures { IfOk result (λ scores. scores ≡ merged_scores k parts.now) }
{
    let mut kept = Vec::new(alloc);
    for part in parts {
        keep_scores(&mut kept, k as usize, part.as_slice())?;
    }
    Ok(Scores::from_vec(kept))
}

/// The weights of so many words among so many documents, by what all parts count.
pub fn weights(
    alloc: Global,
    docs: u64,
    words: usize,
    parts: &[Counts],
) -> Result<Vec<u64>, AllocError>
    requires each { All (λ part. length part.with ≡ words) parts.now }
    requires fits { (i : ℕ) → i < words → total_with i parts.now < 2 ^ 64 }
    ensures { IfOk result (λ weights. weights.items ≡ weights_by docs words parts.now) }
{
    let mut weights = Vec::new(alloc);
    for i in 0..words {
        weights.push(weight_by(docs, total_with(parts, i)))?;
    }
    Ok(weights)
}

/// How many documents of all parts have the word at a place.
fn total_with(parts: &[Counts], i: usize) -> u64
    requires each { All (λ part. i < length part.with) parts.now }
    requires fits { total_with i parts.now < 2 ^ 64 }
    ensures { result ≡ total_with i parts.now }
{
    let mut total = 0;
    for part in parts {
        total += part.with.as_slice()[i];
    }
    total
}

/// The weight of a word that so many of all documents have.
fn weight_by(docs: u64, with: u64) -> u64
    ensures { result ≡ weight_by docs with }
{
    if with == 0 { 0 } else { docs / with }
}
