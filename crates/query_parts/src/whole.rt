ghost use Rattle.std.specs.Prelude.{◌≡◌, ◌*◌, ◌≤◌, ◌^◌, List, IfOk, length, take};
ghost use Rattle.fan_base.specs.declared.doc.Doc.{Doc};
ghost use Rattle.query_model.specs.Answers.{answer};
ghost use Rattle.query_model.specs.Limits.{most_words};
ghost use Rattle.query_model.specs.Parts.{part_before};
ghost use Rattle.shard_index.specs.Parts.{by_shard};
ghost use Rattle.shard_index.specs.Standing.{AreShort};
ghost use Rattle.query_parts.specs.Merging.{AreAsked, AreAskedOf};
ghost use Rattle.query_parts.specs.Parts.{AreShards, part_answer};

use crate::among::push;
use crate::merge::{Merged, merge_parts};
use crate::part::{PartAnswer, answer_part};
use fan_base::{Docs, Memory};
use query_model::{Ask, Reply};
use shard_index::Shard;
use std::alloc::Global;

/// So many shards of the documents, 1 to 64, in the order of their numbers.
pub fn build_shards(alloc: Global, docs: &Docs, shards: u32) -> Result<Vec<Shard>, Memory>
    requires some { 1 ≤ shards }
    requires many { shards ≤ 64 }
    requires few { length docs.now * most_words ≤ 2 ^ 32 }
    requires short { AreShort docs.now }
    ensures shards { IfOk result (λ all. AreShards all.items docs.now) }
    ensures many { IfOk result (λ all. length all.items ≡ shards) }
{
    let mut all = Vec::new(alloc);
    for number in 0..shards {
        let shard = Shard::build(alloc, docs, shards, number)?;
        push(&mut all, shard)?;
    }
    Ok(all)
}

/// The answer of a query over the first `before` documents, shard by shard on one thread.
pub fn answer_by_parts(
    alloc: Global,
    shards: &[Shard],
    ask: &Ask,
    before: u32,
) -> Result<Reply, Memory>
    requires { AreAsked shards.now before }
    ensures { (docs : List Doc) → AreAskedOf shards.now docs before → IfOk result (λ reply. reply ≡ answer ask.now (take before docs)) }
{
    let parts = answer_each(alloc, shards, ask, before)?;
    match merge_parts(alloc, ask, before, parts)? {
        Merged::Reply(reply) => Ok(reply),
        Merged::Ranking(ranking) => ranking.answer(alloc, shards, before),
    }
}

/// What each shard gives.
fn answer_each(
    alloc: Global,
    shards: &[Shard],
    ask: &Ask,
    before: u32,
) -> Result<Vec<PartAnswer>, Memory>
    requires { AreAsked shards.now before }
    ensures { (docs : List Doc) → AreShards shards.now docs → IfOk result (λ parts. parts.items
        ≡ by_shard (λ number. part_answer ask.now (part_before docs (length shards.now) number before)) (length shards.now)) }
{
    let mut parts = Vec::new(alloc);
    for shard in shards {
        push(&mut parts, answer_part(shard, ask, before)?)?;
    }
    Ok(parts)
}
