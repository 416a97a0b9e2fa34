ghost use Rattle.std.specs.Prelude.{◌≡◌, ◌≤◌, IfOk, IfSome, None, length, map};
ghost use Rattle.fan_base.specs.Outside.{shown};
ghost use Rattle.query_model.specs.Alike.{without_words};
ghost use Rattle.query_model.specs.Documents.{IsWithinLimits, docs_of};
ghost use Rattle.query_parts.specs.Parts.{AreShards};
ghost use Rattle.query_words.specs.Laws.{AreSettingsInRange};
ghost use Rattle.run_ending.specs.Ends.{IsEndOf, IsPoolTold, Reports, TellsNoRun};
ghost use Rattle.fanout.specs.Asked.{Writes};
ghost use Rattle.folly_query.specs.Reports.{asked_by, knobs_of};

use fan_base::{Gate, Memory, Sink};
use fanout::{FanEnd, Knobs, RunName, fan_run_named};
use line_table::LineTable;
use query_model::Lines;
use query_model::laws::{alike_lines, alike_lines_are_within_limits};
use query_parts::build_shards_beside;
use query_words::Settings;
use shard_index::Shard;
use std::alloc::Global;
use std::marker::Brand;
use std::sync::Wait;
use std::thread::Threads;

/// Answers the queries of an accepted input over threads, and writes the replies.
pub fn answer<K: Sink + Send, G: Gate, R: Threads + Wait + Sync>(
    rt: &R,
    alloc: Global,
    table: LineTable,
    settings: Settings,
    sink: &mut K,
    gate: &G,
) -> FanEnd
    requires limits { IsWithinLimits table settings.shards }
    requires settings { AreSettingsInRange settings }
    ensures writes { Writes (record { lines = table }) (shown (K.holds sink.old) (K.faults sink.old))
        (shown (K.holds sink.new) (K.faults sink.new)) result.outcome }
    ensures reports { Reports (asked_by settings table) result }
    ensures unmade { result.pool ≡ None → TellsNoRun result }
    ensures untouched { result.pool ≡ None → shown (K.holds sink.new) (K.faults sink.new) ≡ shown (K.holds sink.old) (K.faults sink.old) }
    ensures stopped { IfSome result.pool (IsPoolTold (asked_by settings table)) }
{
    answer_named::<Brand, K, G, R>(rt, alloc, table, settings, sink, gate)
}

/// The run of this name. The words of the documents are dropped once the shards stand.
fn answer_named<
    N: RunName + Send + Sync + 'static,
    K: Sink + Send,
    G: Gate,
    R: Threads + Wait + Sync,
>(rt: &R, alloc: Global, table: LineTable, settings: Settings, sink: &mut K, gate: &G) -> FanEnd
    requires asked { N.asked ≡ asked_by settings table }
    requires limits { IsWithinLimits table settings.shards }
    requires settings { AreSettingsInRange settings }
    ensures { IsEndOf N.asked (shown (K.holds sink.old) (K.faults sink.old)) (shown (K.holds sink.new) (K.faults sink.new)) result }
{
    alike_lines();
    alike_lines_are_within_limits();
    let (lines, shards) = match with_shards(rt, alloc, table, settings.shards) {
        Ok(parts) => parts,
        Err(Memory) => return FanEnd::refused(alloc),
    };
    let knobs = knobs_of(settings);
    fan_run_named::<N, K, G, R>(rt, alloc, &lines, shards.as_slice(), knobs, sink, gate)
}

/// What these settings ask of a run.
fn knobs_of(settings: Settings) -> Knobs
    ensures { result ≡ knobs_of settings }
{
    Knobs {
        workers: settings.workers,
        bases: settings.bases,
        stop_at: settings.stop_at,
    }
}

/// The lines without the words of their documents, and so many shards of the documents, built beside each other.
fn with_shards<R: Threads + Sync>(
    rt: &R,
    alloc: Global,
    table: LineTable,
    shards: u32,
) -> Result<(Lines, Vec<Shard>), Memory>
    requires limits { IsWithinLimits table shards }
    requires some { 1 ≤ shards }
    requires many { shards ≤ 64 }
    ensures lines { IfOk result (λ made. made.0 ≡ map without_words table) }
    ensures shards { IfOk result (λ made. AreShards made.1.items (docs_of table)) }
    ensures many { IfOk result (λ made. length made.1.items ≡ shards) }
{
    let (docs, lines) = table.into_parts(alloc)?;
    let shards = build_shards_beside(rt, alloc, &docs, shards)?;
    Ok((lines, shards))
}
