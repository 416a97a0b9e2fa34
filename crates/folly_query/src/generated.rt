ghost use Rattle.std.specs.Prelude.{◌≡◌, IfSome, None};
ghost use Rattle.fan_base.specs.Outside.{shown};
ghost use Rattle.query_model.specs.Generated.{summary_of};
ghost use Rattle.query_words.specs.Laws.{AreNumbersInRange, AreSettingsInRange};
ghost use Rattle.run_ending.specs.Ends.{IsPoolTold};
ghost use Rattle.folly_query.specs.Endings.{GainsNoReply, SumsUpAs, WritesAs, asked_of};
ghost use Rattle.folly_query.specs.Reports.{IsRefusal, TellsNothing};

use crate::answer::answer;
use crate::buffer::Buffer;
use crate::report::{Report, Status};
use fan_base::{Gate, Memory, Sink};
use fanout::{FanEnd, FanOutcome};
use query_gen::laws::generated_is_within_limits;
use query_gen::{generate, summary_text};
use query_words::{Generation, Settings};
use reply_printer::write_all;
use std::alloc::Global;
use std::sync::Wait;
use std::thread::Threads;

/// Answers the input that is made up by these numbers into memory, and writes the line that sums up its replies.
pub fn sum_up<K: Sink, G: Gate, R: Threads + Wait + Sync>(
    rt: &R,
    alloc: Global,
    generation: Generation,
    settings: Settings,
    sink: &mut K,
    gate: &G,
) -> Report
    requires numbers { AreNumbersInRange generation }
    requires settings { AreSettingsInRange settings }
    ensures ends { SumsUpAs generation settings (shown (K.holds sink.old) (K.faults sink.old)) (shown (K.holds sink.new) (K.faults sink.new)) result }
    ensures unmade { result.pool ≡ None → TellsNothing result }
    ensures unanswered { result.pool ≡ None →
        GainsNoReply (shown (K.holds sink.old) (K.faults sink.old)) (shown (K.holds sink.new) (K.faults sink.new)) result.status }
    ensures stopped { IfSome result.pool (IsPoolTold (asked_of generation settings)) }
{
    generated_is_within_limits();
    let Generation {
        seed,
        docs,
        queries,
    } = generation;
    let table = match generate(alloc, seed, docs, queries) {
        Ok(table) => table,
        Err(Memory) => return Report::empty(alloc, Status::Memory),
    };
    let mut replies = Buffer::new(alloc);
    let FanEnd {
        outcome,
        pool,
        queues,
        tally,
    } = answer(rt, alloc, table, settings, &mut replies, gate);
    match outcome {
        FanOutcome::Done => Report {
            status: write_summary(alloc, docs, queries, replies.bytes(), sink),
            pool,
            queues,
            tally,
        },
        // The replies found no memory.
        FanOutcome::Memory | FanOutcome::WriteFault => Report {
            status: Status::Memory,
            pool,
            queues,
            tally,
        },
    }
}

/// Writes the line that sums up these replies, and tells how that ended.
fn write_summary<K: Sink>(
    alloc: Global,
    docs: u32,
    queries: u32,
    replies: &[u8],
    sink: &mut K,
) -> Status
    ensures { WritesAs (summary_of docs queries replies.now) (shown (K.holds sink.old) (K.faults sink.old)) (shown (K.holds sink.new) (K.faults sink.new)) result }
{
    let line = match summary_text(alloc, docs, queries, replies) {
        Ok(line) => line,
        Err(Memory) => return Status::Memory,
    };
    match write_all(sink, line.as_slice()) {
        Ok(()) => Status::Done,
        Err(_) => Status::WriteFault,
    }
}
