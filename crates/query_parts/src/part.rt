ghost use Rattle.std.specs.Prelude.{◌≡◌, ℕ, List, IfOk};
ghost use Rattle.fan_base.specs.declared.doc.Doc.{Doc};
ghost use Rattle.query_model.specs.Parts.{part_before};
ghost use Rattle.shard_index.specs.Standing.{Stands, StandsFor};
ghost use Rattle.query_parts.specs.Parts.{counts_in, hits_in, mark_in, part_answer};

use fan_base::Memory;
use query_model::{Ask, Hits};
use shard_index::{Counts, Shard};

/// What one shard gives for a query, over its documents before the query.
#[derive(Debug, Drop)]
pub enum PartAnswer {
    /// The first 100 ids of the documents that hold, ascending, and how many hold.
    Find(Hits),
    /// How many documents hold.
    Count(u64),
    /// How many documents hold, where it is asked whether one does.
    Present(u64),
    /// Of how many documents each word is one, and how many have one of the words.
    Top(Counts),
}

impl PartAnswer {
    /// How many documents it tells of: those that hold, or for `top` those that have one of the words.
    pub fn mark(&self) -> u64
        ensures { result ≡ mark_in self.now }
    {
        match self {
            PartAnswer::Find(hits) => hits.total,
            PartAnswer::Count(total) | PartAnswer::Present(total) => *total,
            PartAnswer::Top(counts) => counts.any,
        }
    }

    /// The hits that it has.
    pub(crate) fn into_hits(self) -> Option<Hits>
        ensures { result ≡ hits_in self }
    {
        match self {
            PartAnswer::Find(hits) => Some(hits),
            _ => None,
        }
    }

    /// The counts that it has.
    pub(crate) fn into_counts(self) -> Option<Counts>
        ensures { result ≡ counts_in self }
    {
        match self {
            PartAnswer::Top(counts) => Some(counts),
            _ => None,
        }
    }
}

/// What a shard gives for a query that stands behind the first `before` of all documents. It takes memory where the shard does.
pub fn answer_part(shard: &Shard, ask: &Ask, before: u32) -> Result<PartAnswer, Memory>
    requires { Stands shard.now }
    ensures { (docs : List Doc) (shards number : ℕ) → StandsFor shard.now docs shards number →
        IfOk result (λ part. part ≡ part_answer ask.now (part_before docs shards number before)) }
{
    match ask {
        Ask::Find(e) => Ok(PartAnswer::Find(shard.find(e, before)?)),
        Ask::Count(e) => Ok(PartAnswer::Count(shard.count(e, before)?)),
        Ask::Present(e) => Ok(PartAnswer::Present(shard.count(e, before)?)),
        Ask::Top(_, words) => Ok(PartAnswer::Top(shard.counts(words, before)?)),
    }
}
