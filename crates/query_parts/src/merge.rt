ghost use Rattle.std.specs.Prelude.{◌≡◌, ℕ, List, IfOk, take};
ghost use Rattle.fan_base.specs.declared.doc.Doc.{Doc};
ghost use Rattle.query_parts.specs.Merging.{merged_of};
ghost use Rattle.query_parts.specs.Parts.{AreParts, ArePartsOfSome};

use crate::among::{counts_among, hits_among, total_of};
use crate::part::PartAnswer;
use crate::ranking::Ranking;
use fan_base::Memory;
use query_model::{Ask, Reply};
use shard_index::{merge_hits, merged_hits_are_the_whole};
use std::alloc::Global;

/// What the parts of all shards come to.
#[derive(Debug, Drop)]
pub enum Merged {
    /// The reply.
    Reply(Reply),
    /// For `top`, by what the shards are scored next.
    Ranking(Ranking),
}

/// What the parts of all shards, in the order of their numbers, come to for a query that stands behind the first `before` of all
/// documents.
pub fn merge_parts(
    alloc: Global,
    ask: &Ask,
    before: u32,
    parts: Vec<PartAnswer>,
) -> Result<Merged, Memory>
    requires { ArePartsOfSome ask.now before parts.items }
    ensures { (docs : List Doc) (shards : ℕ) → AreParts ask.now docs shards before parts.items →
        IfOk result (λ merged. merged ≡ merged_of ask.now (take before docs)) }
{
    merged_hits_are_the_whole();
    match ask {
        Ask::Find(_) => {
            let hits = hits_among(alloc, parts)?;
            Ok(Merged::Reply(Reply::Find(merge_hits(alloc, hits.as_slice())?)))
        }
        Ask::Count(_) => Ok(Merged::Reply(Reply::Count(total_of(parts.as_slice())))),
        Ask::Present(_) => Ok(Merged::Reply(Reply::Present(total_of(parts.as_slice()) > 0))),
        Ask::Top(k, words) => {
            let counts = counts_among(alloc, parts)?;
            Ok(Merged::Ranking(Ranking::by_counts(alloc, *k, words, before, counts.as_slice())?))
        }
    }
}
