ghost use Rattle.std.specs.Prelude.{◌≡◌, ◌≤◌, ℕ, [], IfErr, IfOk, length};
ghost use Rattle.query_model.specs.declared.line.Ask.{Ask};
ghost use Rattle.fan_parts.specs.Facts.{IsAnswerAt, IsAskOf};
ghost use Rattle.run_gathering.specs.Merging.{HasGathered, LacksContent, part_by, parts_by};

use collect_ops::Listed;
use fan_base::{Fault, Try};
use fan_parts::{NumberedAsk, Part, PlacedReply, RunName};
use query_parts::{Merged, PartAnswer, Ranking, merge_parts};
use std::alloc::Global;

/// What the parts of all shards come to.
pub(crate) enum Gathered<N: RunName> {
    Reply(PlacedReply<N>),
    Ranking(Ranking),
}

/// What these parts come to for a query whose reply is the one at this place. A fault comes where a part is one, or where there is no
/// memory; and `Broken` where a part is none of this query and its shard.
pub(crate) fn gather_parts<N: RunName>(
    alloc: Global,
    ask: &NumberedAsk<'_, N>,
    place: u32,
    list: Listed<Try<Part<N>>>,
) -> Result<Gathered<N>, Fault>
    requires answer { IsAnswerAt N.asked place ask.now.number ask.now.asks ask.now.before }
    requires all { length list ≡ N.asked.shards }
    ensures { IfOk result (λ gathered. HasGathered N.asked ask.now gathered) }
{
    let parts = contents(alloc, ask.number(), list)?;
    match merge_parts(alloc, ask.ask(), ask.before(), parts) {
        Ok(Merged::Reply(reply)) => Ok(Gathered::Reply(PlacedReply::new(
            place,
            ask.number(),
            reply,
        ))),
        Ok(Merged::Ranking(ranking)) => Ok(Gathered::Ranking(ranking)),
        Err(_) => Err(Fault::Memory),
    }
}

/// What the parts hold, in the order of the shards, where each is that of this query and its shard.
fn contents<N: RunName>(
    alloc: Global,
    number: u32,
    list: Listed<Try<Part<N>>>,
) -> Result<Vec<PartAnswer>, Fault>
    requires { length list ≤ 64 }
    ensures { (asks : Ask) (before : ℕ) → IsAskOf N.asked number asks before →
        IfOk result (λ parts. parts.items ≡ parts_by N.asked asks before (length list)) }
{
    let mut list = list;
    let mut parts = with_room(alloc, list.len())?;
    let mut shard: u32 = 0;
    while let Some(outcome) = list.pop() {
        let content = content_of(number, shard, outcome)?;
        match parts.push(content) {
            Ok(()) => {}
            Err(_) => return Err(Fault::Memory),
        }
        shard += 1;
    }
    Ok(parts)
}

/// No parts, with room for so many.
fn with_room(alloc: Global, count: usize) -> Result<Vec<PartAnswer>, Fault>
    ensures empty { IfOk result (λ parts. parts.items ≡ []) }
    ensures fault { IfErr result (λ fault. fault ≡ Fault.Memory) }
{
    match Vec::with_capacity(alloc, count) {
        Ok(parts) => Ok(parts),
        Err(_) => Err(Fault::Memory),
    }
}

/// What a part holds, where it is that of this query and this shard.
fn content_of<N: RunName>(
    number: u32,
    shard: u32,
    outcome: Try<Part<N>>,
) -> Result<PartAnswer, Fault>
    ensures content { (asks : Ask) (before : ℕ) → IsAskOf N.asked number asks before →
        IfOk result (λ content. content ≡ part_by N.asked asks before shard) }
    ensures fault { IfErr result (λ fault. LacksContent number shard outcome fault) }
{
    match outcome {
        Try::Value(part) => {
            if part.number() == number && part.shard() == shard {
                Ok(part.into_content())
            } else {
                Err(Fault::Broken)
            }
        }
        Try::Broken => Err(Fault::Broken),
        Try::Memory => Err(Fault::Memory),
        Try::Cancelled(number) => Err(Fault::Cancelled(number)),
    }
}
