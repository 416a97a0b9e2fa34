ghost use Rattle.std.specs.Prelude.{◌≡◌, ◌<◌, false, IfOk};
ghost use Rattle.job_trait.specs.Marks.{IsDone, IsMarkOf};
ghost use Rattle.run_tasks.specs.Heads.{TellsPart, count_at};

use fan_base::{Mark, Memory, Try};
use fan_parts::{NumberedAsk, Part, RunName, RunShards};
use query_parts::{answer_part, marks_are_counts};
use std::alloc::Global;

/// A part, and how many documents it tells of.
struct Answered<N: RunName> {
    part: Part<N>,
    count: u64,
}

/// What the task of a query over a shard sets as its core's result, and the mark of its run. Want of memory is noted.
pub fn answer_task<N: RunName>(
    alloc: Global,
    shards: &RunShards<'_, N>,
    ask: &NumberedAsk<'_, N>,
    shard: u32,
    refused: &mut bool,
) -> (Try<Part<N>>, Mark)
    requires { shard < N.asked.shards }
    ensures part { TellsPart ask.now shard result.0 result.1 }
    ensures mark { IsMarkOf (count_at N.asked ask.now shard) result.1 }
    ensures noted { refused.new ≡ false → (refused.old ≡ false) × IsDone result.1 }
{
    match answer_shard(alloc, shards, ask, shard) {
        Ok(Answered { part, count }) => (Try::Value(part), Mark::Done(count)),
        Err(Memory) => {
            *refused = true;
            (Try::Memory, Mark::Memory)
        }
    }
}

/// What a shard gives for a query.
fn answer_shard<N: RunName>(
    alloc: Global,
    shards: &RunShards<'_, N>,
    ask: &NumberedAsk<'_, N>,
    shard: u32,
) -> Result<Answered<N>, Memory>
    requires { shard < N.asked.shards }
    ensures part { IfOk result (λ answered. (answered.part.number ≡ ask.now.number) × (answered.part.shard ≡ shard)) }
    ensures count { IfOk result (λ answered. answered.count ≡ count_at N.asked ask.now shard) }
{
    marks_are_counts();
    let number = ask.number();
    let content = answer_part(&shards.all()[shard as usize], ask.ask(), ask.before())?;
    let count = content.mark();
    Ok(Answered {
        part: Part::new(alloc, number, shard, content)?,
        count,
    })
}
