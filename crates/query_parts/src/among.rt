ghost use Rattle.std.specs.Prelude.{◌≡◌, ◌<◌, ◌^◌, IfOk, OnOk, map, sum, ◌++◌, ◌∷◌, []};
ghost use Rattle.std.specs.List.{filter_map};
ghost use Rattle.query_parts.specs.Parts.{counts_in, hits_in, mark_in};

use crate::part::PartAnswer;
use fan_base::Memory;
use query_model::Hits;
use shard_index::Counts;
use std::alloc::Global;

/// The hits among parts, in order.
pub fn hits_among(alloc: Global, parts: Vec<PartAnswer>) -> Result<Vec<Hits>, Memory>
    ensures { IfOk result (λ all. all.items ≡ filter_map hits_in parts.items) }
{
    let mut all = Vec::with_capacity(alloc, parts.len())?;
    for part in parts {
        if let Some(hits) = part.into_hits() {
            push(&mut all, hits)?;
        }
    }
    Ok(all)
}

/// The counts among parts, in order.
pub fn counts_among(alloc: Global, parts: Vec<PartAnswer>) -> Result<Vec<Counts>, Memory>
    ensures { IfOk result (λ all. all.items ≡ filter_map counts_in parts.items) }
{
    let mut all = Vec::with_capacity(alloc, parts.len())?;
    for part in parts {
        if let Some(counts) = part.into_counts() {
            push(&mut all, counts)?;
        }
    }
    Ok(all)
}

/// The marks of parts together.
pub fn total_of(parts: &[PartAnswer]) -> u64
    requires { sum (map mark_in parts.now) < 2 ^ 64 }
    ensures { result ≡ sum (map mark_in parts.now) }
{
    let mut total = 0;
    for part in parts {
        total += part.mark();
    }
    total
}

/// Puts an item behind the others.
pub fn push<X: Drop>(items: &mut Vec<X>, item: X) -> Result<(), Memory>
    ensures { OnOk result (items.new.items ≡ items.old.items ++ item ∷ []) }
{
    match items.push(item) {
        Ok(()) => Ok(()),
        Err(_) => Err(Memory),
    }
}
