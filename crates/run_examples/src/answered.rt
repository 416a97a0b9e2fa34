//! A text, its documents in shards, and the replies to its queries.
ghost use Rattle.std.specs.Prelude.{◌≡◌, ◌≤◌, Err, IfOk, length};
ghost use Rattle.fan_base.specs.Outside.{shown};
ghost use Rattle.query_model.specs.declared.fault.BadInput.{BadInput};
ghost use Rattle.query_model.specs.declared.fault.InputFault.{InputFault};
ghost use Rattle.query_model.specs.declared.line.Input.{Input};
ghost use Rattle.query_model.specs.Documents.{IsWithinLimits, docs_of};
ghost use Rattle.query_model.specs.Reading.{Accepts, Refuses};
ghost use Rattle.query_parts.specs.Parts.{AreShards};
ghost use Rattle.fanout.specs.Asked.{AreKnobs, Writes};

use fan_base::{Gate, Sink};
use fanout::{FanEnd, Knobs, fan_run};
use query_model::laws::accepted_is_within_limits;
use query_model::{Input, InputFault};
use query_parts::build_shards_beside;
use query_text::{read_input, read_lines};
use shard_index::Shard;
use std::alloc::Global;
use std::sync::Wait;
use std::thread::Threads;

/// Answers the queries of a text over so many shards of its documents, 1 to 64, and writes the replies to the sink. A worker calls the gate round
/// each task that it takes. What of a text isn't an input is refused, and then nothing is written.
pub fn answer_text<K: Sink + Send, G: Gate, R: Threads + Wait + Sync>(
    rt: &R,
    alloc: Global,
    text: &[u8],
    shards: u32,
    knobs: Knobs,
    sink: &mut K,
    gate: &G,
) -> Result<FanEnd, InputFault>
    requires some { 1 ≤ shards }
    requires many { shards ≤ 64 }
    requires knobs { AreKnobs knobs }
    ensures writes { IfOk result (λ end. (input : Input) × Accepts text.now shards input
        × Writes input (shown (K.holds sink.old) (K.faults sink.old)) (shown (K.holds sink.new) (K.faults sink.new)) end.outcome) }
    ensures refused { (bad : BadInput) → result ≡ Err (InputFault.Bad bad) → Refuses text.now shards bad }
    ensures unwritten { (fault : InputFault) → result ≡ Err fault → sink.new ≡ sink.old }
{
    let (input, shards) = input_and_shards(rt, alloc, text, shards)?;
    Ok(fan_run(rt, alloc, &input, shards.as_slice(), knobs, sink, gate))
}

/// The input of a text, and its shards.
fn input_and_shards<R: Threads + Sync>(
    rt: &R,
    alloc: Global,
    text: &[u8],
    shards: u32,
) -> Result<(Input, Vec<Shard>), InputFault>
    requires some { 1 ≤ shards }
    requires many { shards ≤ 64 }
    ensures limits { IfOk result (λ made. IsWithinLimits made.0.lines (length made.1.items)) }
    ensures input { IfOk result (λ made. Accepts text.now shards made.0) }
    ensures shards { IfOk result (λ made. AreShards made.1.items (docs_of made.0.lines)) }
    ensures few { IfOk result (λ made. length made.1.items ≤ 64) }
    ensures refused { (bad : BadInput) → result ≡ Err (InputFault.Bad bad) → Refuses text.now shards bad }
{
    accepted_is_within_limits();
    let input = read_input(alloc, text, shards)?;
    let (docs, _bare) = read_lines(alloc, text, shards)?.into_parts(alloc)?;
    let shards = build_shards_beside(rt, alloc, &docs, shards)?;
    Ok((input, shards))
}
