ghost use Rattle.std.specs.Prelude.{◌≡◌, ◌+◌, ◌<◌, ◌≤◌, IfOk, false, length};
ghost use Rattle.std.specs.List.{All};
ghost use Rattle.core_cells.specs.Seen.{AreAll};
ghost use Rattle.core_word.specs.Seen.{SeenHome};
ghost use Rattle.fan_base.specs.Outside.{shown};
ghost use Rattle.query_model.specs.Alike.{AreAlike};
ghost use Rattle.query_model.specs.Documents.{IsWithinLimits, docs_of};
ghost use Rattle.fan_model.specs.Answered.{answered_in, tops_in};
ghost use Rattle.query_parts.specs.Parts.{AreShards};
ghost use Rattle.run_ending.specs.Ends.{IsEndOf};
ghost use Rattle.fanout.specs.Asked.{AreKnobs, IsAskedBy};
ghost use Rattle.run_desks.specs.Tables.{AreTablesOf};
ghost use Rattle.run_gathering.specs.Dealt.{AreAllDealt};
ghost use Rattle.run_tasks.specs.Leaving.{MakesMore};
ghost use Rattle.fanout.specs.Homes.{AreEnough, cells_of};
ghost use Rattle.fanout.specs.Plans.{IsPlanned};

use crate::inside::run_over_cells;
use crate::plan::{RunPlan, counts_of_run, turns_of_run};
use crate::run::Knobs;
use core_cells::Cells;
use core_word::Tally;
use fan_base::{ExecId, Gate, Memory, Sink};
use fan_model::laws::comings_in_order;
use fan_parts::{InnerKey, ReplyHome, ReplyKey, RunName, RunShards, TaskHome};
use query_model::Lines;
use run_desks::{AwaitedQueries, DeskKeys, await_queries, known_turns};
use run_ending::FanEnd;
use run_homes::{close_reply_homes, close_task_homes, keys_of, new_homes};
use run_plan::laws::place_by_place;
use run_plan::stop_place;
use run_setup::{TaskCellPass, TaskCells};
use shard_index::Shard;
use std::alloc::Global;
use std::sync::Wait;
use std::thread::Threads;

// Homes, or those that were made before memory ran out.
type MadeReplyHomes<'i, N> = Result<Vec<ReplyHome<'i, N>>, Vec<ReplyHome<'i, N>>>;

type MadeTaskHomes<N> = Result<Vec<TaskHome<N>>, Vec<TaskHome<N>>>;

// The most homes that the cores of tasks have.
const MOST_CELLS: u64 = 1_024;

/// Answers all queries of the run of this name over these shards, which stand for its documents. The lines are the run's, and may have lost
/// the words of their documents: they are gone through for queries, ticks and cancels alone. A caller that lets words go picks the name before,
/// by `Brand`, where it has the lines with them: so it is itself generic in the name from there on.
pub fn fan_run_named<
    N: RunName + Send + Sync + 'static,
    K: Sink + Send,
    G: Gate,
    R: Threads + Wait + Sync,
>(
    rt: &R,
    alloc: Global,
    lines: &Lines,
    shards: &[Shard],
    knobs: Knobs,
    sink: &mut K,
    gate: &G,
) -> FanEnd
    requires asked { IsAskedBy N.asked (length shards.now) knobs }
    requires limits { IsWithinLimits N.asked.lines (length shards.now) }
    requires alike { AreAlike lines.now N.asked.lines }
    requires walked { IsWithinLimits lines.now (length shards.now) }
    requires shards { AreShards shards.now (docs_of N.asked.lines) }
    requires few { length shards.now ≤ 64 }
    requires knobs { AreKnobs knobs }
    ensures { IsEndOf N.asked (shown (K.holds sink.old) (K.faults sink.old)) (shown (K.holds sink.new) (K.faults sink.new)) result }
{
    let Ok(turns) = turns_of_run::<N, R>(rt, alloc, ExecId(knobs.bases + 2), lines) else {
        return FanEnd::refused(alloc);
    };
    let Ok(counted) = counts_of_run::<N>(alloc, lines, turns.as_slice(), knobs.bases) else {
        return FanEnd::refused(alloc);
    };
    let Ok(mut homes) = new_homes(alloc, counted.tops as usize) else {
        return FanEnd::refused(alloc);
    };
    let plan = RunPlan::<N, G> {
        lines,
        shards: RunShards::new(shards),
        turns: turns.as_slice(),
        counted: &counted,
        stop: stop_place(turns.as_slice(), knobs.stop_at),
        knobs,
        gate,
    };
    let Ok(inners) = keys_of(alloc, homes.as_mut_slice()) else {
        return FanEnd::refused(alloc);
    };
    over_inner_keys(rt, alloc, &plan, inners, sink)
}

/// Makes the homes of replies.
fn over_inner_keys<
    'i,
    'l: 'i,
    'g,
    N: RunName + Send + Sync + 'static,
    K: Sink + Send,
    G: Gate,
    R: Threads + Wait + Sync,
>(
    rt: &R,
    alloc: Global,
    plan: &RunPlan<'l, 'g, N, G>,
    inners: Vec<InnerKey<'i, N>>,
    sink: &mut K,
) -> FanEnd
    requires plan { IsPlanned N.asked plan.now.lines.now plan.now.turns.now plan.now.counted.now plan.now.stop plan.now.knobs }
    requires inners { tops_in (answered_in N.asked.lines) ≤ length inners.items }
    ensures { IsEndOf N.asked (shown (K.holds sink.old) (K.faults sink.old)) (shown (K.holds sink.new) (K.faults sink.new)) result }
{
    let made: MadeReplyHomes<'i, N> = new_homes(alloc, plan.counted.answered as usize);
    match made {
        Ok(mut homes) => {
            let end = over_reply_homes(rt, alloc, plan, homes.as_mut_slice(), inners, sink);
            close_reply_homes(homes);
            end
        }
        Err(homes) => {
            close_reply_homes(homes);
            FanEnd::refused(alloc)
        }
    }
}

/// Takes the keys of the homes of replies.
fn over_reply_homes<
    'r,
    'i: 'r,
    'l: 'i,
    'g,
    N: RunName + Send + Sync + 'static,
    K: Sink + Send,
    G: Gate,
    R: Threads + Wait + Sync,
>(
    rt: &R,
    alloc: Global,
    plan: &RunPlan<'l, 'g, N, G>,
    homes: &'r mut [ReplyHome<'i, N>],
    inners: Vec<InnerKey<'i, N>>,
    sink: &mut K,
) -> FanEnd
    requires plan { IsPlanned N.asked plan.now.lines.now plan.now.turns.now plan.now.counted.now plan.now.stop plan.now.knobs }
    requires untaken { All (λ (home : SeenHome). home.taken ≡ false) homes.old }
    requires homes { length (answered_in N.asked.lines) ≤ length homes.old }
    requires inners { tops_in (answered_in N.asked.lines) ≤ length inners.items }
    ensures { IsEndOf N.asked (shown (K.holds sink.old) (K.faults sink.old)) (shown (K.holds sink.new) (K.faults sink.new)) result }
{
    match keys_of(alloc, homes) {
        Ok(replies) => over_reply_keys(rt, alloc, plan, replies, inners, sink),
        Err(Memory) => FanEnd::refused(alloc),
    }
}

/// Puts together what the queries are begun with.
fn over_reply_keys<
    'r,
    'i: 'r,
    'l: 'i,
    'g,
    N: RunName + Send + Sync + 'static,
    K: Sink + Send,
    G: Gate,
    R: Threads + Wait + Sync,
>(
    rt: &R,
    alloc: Global,
    plan: &RunPlan<'l, 'g, N, G>,
    replies: Vec<ReplyKey<'r, 'i, N>>,
    inners: Vec<InnerKey<'i, N>>,
    sink: &mut K,
) -> FanEnd
    requires plan { IsPlanned N.asked plan.now.lines.now plan.now.turns.now plan.now.counted.now plan.now.stop plan.now.knobs }
    requires replies { length (answered_in N.asked.lines) ≤ length replies.items }
    requires inners { tops_in (answered_in N.asked.lines) ≤ length inners.items }
    ensures { IsEndOf N.asked (shown (K.holds sink.old) (K.faults sink.old)) (shown (K.holds sink.new) (K.faults sink.new)) result }
{
    let keys = DeskKeys {
        replies,
        inners,
        lines: &*plan.lines,
        shards: plan.shards.all().len() as u32,
        bases: plan.knobs.bases,
        alloc,
        tally: Tally::new(),
    };
    over_keys(rt, alloc, plan, keys, sink)
}

/// Has all queries awaited.
fn over_keys<
    'r,
    'i: 'r,
    'l: 'i,
    'g,
    N: RunName + Send + Sync + 'static,
    K: Sink + Send,
    G: Gate,
    R: Threads + Wait + Sync,
>(
    rt: &R,
    alloc: Global,
    plan: &RunPlan<'l, 'g, N, G>,
    keys: DeskKeys<'r, 'i, N>,
    sink: &mut K,
) -> FanEnd
    requires plan { IsPlanned N.asked plan.now.lines.now plan.now.turns.now plan.now.counted.now plan.now.stop plan.now.knobs }
    requires keys { AreEnough N.asked keys }
    requires nothing { keys.tally.handed ≡ 0 }
    requires none { MakesMore 0 keys.tally }
    ensures { IsEndOf N.asked (shown (K.holds sink.old) (K.faults sink.old)) (shown (K.holds sink.new) (K.faults sink.new)) result }
{
    comings_in_order();
    known_turns::<N>();
    place_by_place();
    match await_queries(rt, plan.turns, keys) {
        Ok(queries) => over_queries(rt, alloc, plan, queries, sink),
        Err(Memory) => FanEnd::refused(alloc),
    }
}

/// Makes the homes of tasks.
fn over_queries<
    'r,
    'i: 'r,
    'l: 'i,
    'g,
    N: RunName + Send + Sync + 'static,
    K: Sink + Send,
    G: Gate,
    R: Threads + Wait + Sync,
>(
    rt: &R,
    alloc: Global,
    plan: &RunPlan<'l, 'g, N, G>,
    queries: AwaitedQueries<'r, 'i, N>,
    sink: &mut K,
) -> FanEnd
    requires plan { IsPlanned N.asked plan.now.lines.now plan.now.turns.now plan.now.counted.now plan.now.stop plan.now.knobs }
    requires queries { AreTablesOf N.asked queries.tables.items }
    requires dealt { AreAllDealt N.asked queries.tables.items }
    requires opening { queries.tally.handed ≡ 0 }
    requires begun { MakesMore (length (answered_in N.asked.lines)) queries.tally }
    ensures { IsEndOf N.asked (shown (K.holds sink.old) (K.faults sink.old)) (shown (K.holds sink.new) (K.faults sink.new)) result }
{
    let made: MadeTaskHomes<N> = new_homes(alloc, plan.cells());
    match made {
        Ok(mut tasks) => {
            let end = match make_cells(rt, alloc, tasks.as_mut_slice(), plan.knobs.workers + 1) {
                Ok(made) => over_cells(rt, alloc, plan, made, queries, sink),
                Err(Memory) => {
                    queries.give_up();
                    FanEnd::refused(alloc)
                }
            };
            close_task_homes(tasks);
            end
        }
        Err(tasks) => {
            close_task_homes(tasks);
            queries.give_up();
            FanEnd::refused(alloc)
        }
    }
}

/// The cells of the tasks' cores, and all their passes.
struct MadeCells<'t, N: RunName> {
    cells: TaskCells<'t, N>,
    passes: Vec<TaskCellPass<'t, N>>,
}

/// Cells of these homes, with so many passes.
fn make_cells<'t, N: RunName, R: Wait>(
    rt: &R,
    alloc: Global,
    tasks: &'t mut [TaskHome<N>],
    passes: u32,
) -> Result<MadeCells<'t, N>, Memory>
    requires untaken { All (λ (home : SeenHome). home.taken ≡ false) tasks.old }
    requires tasks { (0 < length tasks.old) × (length tasks.old ≤ 65536) }
    requires passes { (0 < passes) × (passes ≤ 64) }
    ensures number { IfOk result (λ made. made.cells.size ≡ length tasks.old) }
    ensures passes { IfOk result (λ made. length made.passes.items ≡ passes) }
    ensures all { IfOk result (λ made. AreAll made.cells made.passes.items) }
{
    let (cells, passes) = Cells::new(rt, alloc, tasks, passes)?;
    Ok(MadeCells { cells, passes })
}

/// Runs over these cells, and lets them go.
fn over_cells<
    't,
    'r: 't,
    'i: 'r,
    'l: 'i,
    'g,
    N: RunName + Send + Sync + 'static,
    K: Sink + Send,
    G: Gate,
    R: Threads + Wait + Sync,
>(
    rt: &R,
    alloc: Global,
    plan: &RunPlan<'l, 'g, N, G>,
    made: MadeCells<'t, N>,
    queries: AwaitedQueries<'r, 'i, N>,
    sink: &mut K,
) -> FanEnd
    requires plan { IsPlanned N.asked plan.now.lines.now plan.now.turns.now plan.now.counted.now plan.now.stop plan.now.knobs }
    requires number { made.cells.size ≡ cells_of N.asked }
    requires passes { length made.passes.items ≡ plan.now.knobs.workers + 1 }
    requires all { AreAll made.cells made.passes.items }
    requires queries { AreTablesOf N.asked queries.tables.items }
    requires dealt { AreAllDealt N.asked queries.tables.items }
    requires opening { queries.tally.handed ≡ 0 }
    requires begun { MakesMore (length (answered_in N.asked.lines)) queries.tally }
    ensures { IsEndOf N.asked (shown (K.holds sink.old) (K.faults sink.old)) (shown (K.holds sink.new) (K.faults sink.new)) result }
{
    let MadeCells { cells, passes } = made;
    let AwaitedQueries { tables, tally } = queries;
    let end = run_over_cells(rt, alloc, plan, &cells, passes, tables, tally, sink);
    let_go(cells);
    end
}

/// Lets cells go. Their homes are closed behind it.
fn let_go<'h, T, C, P>(cells: Cells<'h, T, C, P>) {
    drop(cells);
}

impl<'l, 'g, N: RunName, G> RunPlan<'l, 'g, N, G> {
    /// How many homes the cores of tasks get: as many as there are tasks, 1 to 1,024.
    fn cells(&self) -> usize
        requires { IsPlanned N.asked self.now.lines.now self.now.turns.now self.now.counted.now self.now.stop self.now.knobs }
        ensures number { result ≡ cells_of N.asked }
        ensures few { (0 < result) × (result ≤ 1024) }
    {
        let shards = self.shards.all().len() as u64;
        let tasks = self.counted.answered.saturating_mul(shards);
        tasks.clamp(1, MOST_CELLS) as usize
    }
}
