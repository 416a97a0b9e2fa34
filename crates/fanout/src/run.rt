ghost use Rattle.std.specs.Prelude.{◌≡◌, ◌≤◌, None, IfSome, length};
ghost use Rattle.fan_base.specs.Outside.{shown};
ghost use Rattle.query_model.specs.Documents.{IsWithinLimits, docs_of};
ghost use Rattle.query_parts.specs.Parts.{AreShards};
ghost use Rattle.run_ending.specs.Ends.{IsPoolTold, Reports, TellsNoRun};
ghost use Rattle.fanout.specs.Asked.{AreKnobs, Writes, asking_of};

use crate::levels::fan_run_named;
use fan_base::{Gate, Sink};
use query_model::Input;
use run_ending::FanEnd;
use shard_index::Shard;
use std::alloc::Global;
use std::marker::Brand;
use std::sync::Wait;
use std::thread::Threads;

/// How many workers and gathering bases a run has, 1 to 32 and 1 to 8, and behind how many answered queries its pool is stopped.
#[derive(Clone, Copy, Debug, PartialEq, Eq)]
pub struct Knobs {
    pub workers: u32,
    pub bases: u32,
    pub stop_at: Option<u64>,
}

/// Answers all queries of an input over these shards, which stand for its documents.
pub fn fan_run<K: Sink + Send, G: Gate, R: Threads + Wait + Sync>(
    rt: &R,
    alloc: Global,
    input: &Input,
    shards: &[Shard],
    knobs: Knobs,
    sink: &mut K,
    gate: &G,
) -> FanEnd
    requires limits { IsWithinLimits input.now.lines (length shards.now) }
    requires shards { AreShards shards.now (docs_of input.now.lines) }
    requires few { length shards.now ≤ 64 }
    requires knobs { AreKnobs knobs }
    ensures writes { Writes input.now (shown (K.holds sink.old) (K.faults sink.old)) (shown (K.holds sink.new) (K.faults sink.new)) result.outcome }
    ensures reports { Reports (asking_of input.now.lines (length shards.now) knobs) result }
    ensures unmade { result.pool ≡ None → TellsNoRun result }
    ensures untouched { result.pool ≡ None → shown (K.holds sink.new) (K.faults sink.new) ≡ shown (K.holds sink.old) (K.faults sink.old) }
    ensures stopped { IfSome result.pool (IsPoolTold (asking_of input.now.lines (length shards.now) knobs)) }
{
    fan_run_named::<Brand, K, G, R>(rt, alloc, &input.lines, shards, knobs, sink, gate)
}
