ghost use Rattle.std.specs.Prelude.{◌≡◌, ◌+◌, List, length};
ghost use Rattle.core_cells.specs.Seen.{AreAll};
ghost use Rattle.fan_base.specs.Outside.{shown};
ghost use Rattle.fan_model.specs.Answered.{answered_in};
ghost use Rattle.run_printing.specs.Ends.{HasPrinted, IsBaseOf, IsNewBase};
ghost use Rattle.run_stages.specs.Stages.{AllRan, AllReady};
ghost use Rattle.run_tasks.specs.Leaving.{MakesMore};
ghost use Rattle.run_tasks.specs.Worlds.{TaskRan};
ghost use Rattle.run_threads.specs.Beside.{HasRunAll, MayRunAll};
ghost use Rattle.run_threads.specs.Slots.{HasGatheredIn, HasWorked, IsReadyToGather, IsReadyToWork};
ghost use Rattle.run_setup.specs.Ids.{RunIds};
ghost use Rattle.run_setup.specs.Opening.{IsSetup};
ghost use Rattle.run_setup.specs.Slots.{HaveTables};
ghost use Rattle.run_desks.specs.Tables.{AreTablesOf};
ghost use Rattle.run_gathering.specs.Awaited.{TableSeen};
ghost use Rattle.run_gathering.specs.Dealt.{AreAllDealt};
ghost use Rattle.fanout.specs.Beside.{CanEndFront, HasBegunFront, HasEndedFront, IsReadyFront};
ghost use Rattle.run_ending.specs.Ends.{IsEndOf};
ghost use Rattle.fanout.specs.Homes.{cells_of};
ghost use Rattle.fanout.specs.Plans.{IsPlanned};

use crate::ending::put_together;
use crate::front::{FrontRun, SideRoom};
use crate::plan::RunPlan;
use core_word::Tally;
use event_base::EventBase;
use fan_base::{Gate, Memory, Sink};
use fan_parts::{PrintJob, RunName};
use prio_pool::{Pool, new_passes_are_unused};
use run_ending::FanEnd;
use run_front::Front;
use run_gathering::PartTable;
use run_phases::FrontStart;
use run_printing::PrintStage;
use run_setup::{
    Setup, TaskCellPass, TaskCells, a_setup_is_ready, open_run, what_ran_can_be_closed,
};
use run_tasks::ShardTask;
use run_threads::{GatherSlot, PrinterSlot, TaskSlot, run_all_beside};
use std::alloc::Global;
use std::sync::Wait;
use std::thread::Threads;

/// Opens the bases, the worlds and the pool over as many cells as the run has, runs all stages on their threads, and closes all.
pub(crate) fn run_over_cells<
    'c,
    't,
    'r: 't,
    'i: 'r,
    'l: 'i,
    'g,
    N: RunName + Send + Sync + 'static,
    K: Sink + Send,
    G: Gate,
    R: Threads + Wait + Sync,
>(
    rt: &R,
    alloc: Global,
    plan: &RunPlan<'l, 'g, N, G>,
    cells: &'c TaskCells<'t, N>,
    passes: Vec<TaskCellPass<'t, N>>,
    tables: Vec<PartTable<'r, 'i, N>>,
    tally: Tally,
    sink: &mut K,
) -> FanEnd
    requires plan { IsPlanned N.asked plan.now.lines.now plan.now.turns.now plan.now.counted.now plan.now.stop plan.now.knobs }
    requires number { cells.now.size ≡ cells_of N.asked }
    requires passes { length passes.items ≡ plan.now.knobs.workers + 1 }
    requires all { AreAll cells.now passes.items }
    requires tables { AreTablesOf N.asked tables.items }
    requires dealt { AreAllDealt N.asked tables.items }
    requires opening { tally.handed ≡ 0 }
    requires begun { MakesMore (length (answered_in N.asked.lines)) tally }
    ensures { IsEndOf N.asked (shown (K.holds sink.old) (K.faults sink.old)) (shown (K.holds sink.new) (K.faults sink.new)) result }
{
    let workers = plan.knobs.workers;
    let bases = plan.knobs.bases;
    let shards = plan.shards.again();
    match open_run(rt, alloc, cells, passes, &shards, tables, workers, bases) {
        Ok(setup) => run_opened(rt, alloc, plan, setup, tally, sink),
        Err(Memory) => FanEnd::refused(alloc),
    }
}

/// Runs all stages beside each other, and closes all.
fn run_opened<
    'c,
    't,
    'r: 't,
    'i: 'r,
    'l: 'i,
    'g,
    N: RunName + Send + Sync + 'static,
    K: Sink + Send,
    G: Gate,
    R: Threads + Wait + Sync,
>(
    rt: &R,
    alloc: Global,
    plan: &RunPlan<'l, 'g, N, G>,
    setup: Setup<'c, 't, 'r, 'i, N>,
    tally: Tally,
    sink: &mut K,
) -> FanEnd
    requires plan { IsPlanned N.asked plan.now.lines.now plan.now.turns.now plan.now.counted.now plan.now.stop plan.now.knobs }
    requires setup { (ids : RunIds) × (ids.workers ≡ plan.now.knobs.workers) × IsSetup N.asked ids setup }
    requires tables { (tables : List TableSeen) × HaveTables setup.gatherers.items tables × AreAllDealt N.asked tables }
    requires opening { tally.handed ≡ 0 }
    requires begun { MakesMore (length (answered_in N.asked.lines)) tally }
    ensures { IsEndOf N.asked (shown (K.holds sink.old) (K.faults sink.old)) (shown (K.holds sink.new) (K.faults sink.new)) result }
{
    let Setup {
        gatherers,
        printer,
        workers,
        world,
        poster,
        pool,
        owner,
        keep,
        adders,
        helper,
        ends,
        helped,
        back,
    } = setup;
    let start = FrontStart {
        front: Front {
            world,
            printer: poster,
            lines: &*plan.lines,
            shards: plan.shards.all().len() as u32,
            bases: plan.knobs.bases,
        },
        owner,
        keep,
        adders,
        helper,
    };
    let room = SideRoom { ends, helped };
    let front = FrontRun::new(start, room, plan.turns, plan.stop, alloc);
    a_setup_is_ready::<N>();
    new_passes_are_unused();
    what_ran_can_be_closed::<N>();
    let StagesEnd {
        printed,
        gatherers,
        front,
    } = run_stages(
        rt, alloc, printer, sink, gatherers, pool, workers, plan.gate, front,
    );
    let end = front.into_end();
    put_together(rt, alloc, plan, back, gatherers, printed, end, tally)
}

/// What the stages come to.
struct StagesEnd<'g, 'c, 't, 'r: 't, 'i: 'r, N: RunName> {
    printed: PrintStage<PrintJob<N>>,
    gatherers: Vec<GatherSlot<'r, 'i, N>>,
    front: FrontRun<'g, 'c, 't, 'i, N>,
}

/// The printer, the gatherers, the workers and the front, all beside each other.
fn run_stages<
    'g,
    'c,
    't,
    'r: 't,
    'i: 'r,
    N: RunName + Send + Sync + 'static,
    K: Sink + Send,
    G: Gate,
    R: Threads + Wait + Sync,
>(
    rt: &R,
    alloc: Global,
    printer: EventBase<PrintJob<N>>,
    sink: &mut K,
    gatherers: Vec<GatherSlot<'r, 'i, N>>,
    pool: Pool<ShardTask<'t, 'i, N>>,
    workers: Vec<TaskSlot<'c, 't, 'i, N>>,
    gate: &G,
    front: FrontRun<'g, 'c, 't, 'i, N>,
) -> StagesEnd<'g, 'c, 't, 'r, 'i, N>
    requires printer { IsNewBase printer }
    requires gatherers { AllReady (IsReadyToGather N.asked) gatherers.items }
    requires workers { AllReady (IsReadyToWork pool.id) workers.items }
    requires front { MayRunAll (IsReadyFront N.asked) (HasBegunFront N.asked) (CanEndFront N.asked) (HasWorked TaskRan)
        front pool workers.items }
    ensures printed { HasPrinted N.asked.lines (shown (K.holds sink.old) (K.faults sink.old))
        (shown (K.holds sink.new) (K.faults sink.new)) result.printed }
    ensures base { IsBaseOf printer result.printed.base }
    ensures gatherers { AllRan HasGatheredIn gatherers.entry.items result.gatherers.items }
    ensures front { HasRunAll (HasBegunFront N.asked) (HasEndedFront N.asked) (HasWorked TaskRan)
        front.entry pool.entry workers.entry.items result.front }
{
    let mut gatherers = gatherers;
    let mut front = front;
    let mut base = Some(printer);
    let mut stage = None;
    let mut slot = PrinterSlot {
        base: &mut base,
        sink,
        stage: &mut stage,
        alloc,
    };
    run_all_beside(
        rt,
        &mut slot,
        &mut gatherers,
        pool,
        workers,
        gate,
        &mut front,
    );
    let PrinterSlot {
        base: _,
        sink: _,
        stage: _,
        alloc: _,
    } = slot;
    let None = base else { unreachable!() };
    let Some(printed) = stage else { unreachable!() };
    StagesEnd {
        printed,
        gatherers,
        front,
    }
}
