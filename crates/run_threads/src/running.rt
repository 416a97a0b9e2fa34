//! All stages of a run beside each other. What is lent keeps its value here, which a type that names lifetimes loses.
ghost use Rattle.std.specs.Prelude.{◌≡◌, None};
ghost use Rattle.run_stages.specs.Stages.{AllRan, AllReady};
ghost use Rattle.run_threads.specs.Beside.{HasRunAll, HasRunSide, MayRunAll, MayRunSide};
ghost use Rattle.run_threads.specs.Slots.{HasWorked, IsReadyToWork};
ghost use denote.Param.Send.{IsSend, IsSync};

use crate::front::PoolFront;
use crate::worker::{WorkerSlot, work_all_beside};
use fan_base::Gate;
use job_trait::{Headed, Job};
use prio_pool::Pool;
use run_stages::{Stage, run_before, run_beside};
use std::sync::Wait;
use std::thread::Threads;

/// A pool and its workers.
pub(crate) struct PoolSide<J: Headed, W> {
    pub(crate) pool: Pool<J>,
    pub(crate) workers: Vec<WorkerSlot<J, W>>,
}

/// Runs the printer's stage, the gathering stages and the workers of this pool, each on a thread of its own, beside the front, which runs on this
/// thread: it begins beside the workers, and ends the pool behind them. Where no thread can be made the front begins, then the workers work, then
/// the front ends the pool, then the gathering stages run, and the printer's last.
pub fn run_all_beside<
    P: Stage<()> + Send,
    S: Stage<()> + Send,
    J: Job<W> + Send,
    W: Send,
    G: Gate,
    F: PoolFront<Pool<J>, WorkerSlot<J, W>>,
    R: Threads + Wait + Sync,
>(
    rt: &R,
    printer: &mut P,
    gatherers: &mut Vec<S>,
    pool: Pool<J>,
    workers: Vec<WorkerSlot<J, W>>,
    gate: &G,
    front: &mut F,
)
    requires printer { P.ready tt printer.old }
    requires gatherers { AllReady (S.ready tt) gatherers.old.items }
    requires workers { AllReady (IsReadyToWork pool.id) workers.items }
    requires front { MayRunAll F.ready F.begun F.can_end (HasWorked J.runs) front.old pool workers.items }
    ensures printer { P.ran tt printer.old printer.new }
    ensures gatherers { AllRan (S.ran tt) gatherers.old.items gatherers.new.items }
    ensures front { HasRunAll F.begun F.ended (HasWorked J.runs) front.old pool workers.items front.new }
{
    let mut held = Some(PoolSide { pool, workers });
    print_beside(rt, printer, gatherers, &mut held, gate, front);
    let None = held else { unreachable!() };
}

/// The printer's stage beside all others.
fn print_beside<
    P: Stage<()> + Send,
    S: Stage<()> + Send,
    J: Job<W> + Send,
    W: Send,
    G: Gate,
    F: PoolFront<Pool<J>, WorkerSlot<J, W>>,
    R: Threads + Wait + Sync,
>(
    rt: &R,
    printer: &mut P,
    gatherers: &mut Vec<S>,
    held: &mut Option<PoolSide<J, W>>,
    gate: &G,
    front: &mut F,
)
    requires printer { P.ready tt printer.old }
    requires gatherers { AllReady (S.ready tt) gatherers.old.items }
    requires front { MayRunSide F.ready F.begun F.can_end (HasWorked J.runs) front.old held.old }
    ensures printer { P.ran tt printer.old printer.new }
    ensures gatherers { AllRan (S.ran tt) gatherers.old.items gatherers.new.items }
    ensures front { HasRunSide F.begun F.ended (HasWorked J.runs) front.old held.old front.new }
    ensures spent { held.new ≡ None }
{
    let stages = gatherers.as_mut_slice();
    let mut others = ||
        requires stages { IsSync R.row × IsSend S.row × IsSend J.row × IsSend W.row × AllReady (S.ready tt) stages.now }
        requires front { MayRunSide F.ready F.begun F.can_end (HasWorked J.runs) front.now held.now }
        ensures stages { AllRan (S.ran tt) stages.entry.now stages.exit.now }
        ensures front { HasRunSide F.begun F.ended (HasWorked J.runs) front.entry.now held.entry.now front.exit.now }
        ensures spent { held.exit.now ≡ None }
    { gather_beside(rt, stages, held, gate, front) };
    run_before(rt, &(), printer, &mut others);
}

/// The gathering stages beside the front and the workers.
fn gather_beside<
    S: Stage<()> + Send,
    J: Job<W> + Send,
    W: Send,
    G: Gate,
    F: PoolFront<Pool<J>, WorkerSlot<J, W>>,
    R: Threads + Wait + Sync,
>(rt: &R, stages: &mut [S], held: &mut Option<PoolSide<J, W>>, gate: &G, front: &mut F)
    requires stages { AllReady (S.ready tt) stages.old }
    requires front { MayRunSide F.ready F.begun F.can_end (HasWorked J.runs) front.old held.old }
    ensures stages { AllRan (S.ran tt) stages.old stages.new }
    ensures front { HasRunSide F.begun F.ended (HasWorked J.runs) front.old held.old front.new }
    ensures spent { held.new ≡ None }
{
    let mut side = ||
        requires crosses { IsSync R.row × IsSend J.row × IsSend W.row }
        requires front { MayRunSide F.ready F.begun F.can_end (HasWorked J.runs) front.now held.now }
        ensures front { HasRunSide F.begun F.ended (HasWorked J.runs) front.entry.now held.entry.now front.exit.now }
        ensures spent { held.exit.now ≡ None }
    { run_side(rt, held, gate, front) };
    run_beside(rt, &(), stages, &mut side);
}

/// The front begins beside the workers, and ends the pool behind them.
fn run_side<
    J: Job<W> + Send,
    W: Send,
    G: Gate,
    F: PoolFront<Pool<J>, WorkerSlot<J, W>>,
    R: Threads + Wait + Sync,
>(rt: &R, held: &mut Option<PoolSide<J, W>>, gate: &G, front: &mut F)
    requires { MayRunSide F.ready F.begun F.can_end (HasWorked J.runs) front.old held.old }
    ensures front { HasRunSide F.begun F.ended (HasWorked J.runs) front.old held.old front.new }
    ensures spent { held.new ≡ None }
{
    let Some(side) = held.take() else {
        unreachable!()
    };
    let PoolSide { pool, mut workers } = side;
    begin_beside(rt, &pool, &mut workers, gate, front);
    front.end(rt, pool, workers);
}

/// The front begins on this thread, beside the workers.
fn begin_beside<
    J: Job<W> + Send,
    W: Send,
    G: Gate,
    F: PoolFront<Pool<J>, WorkerSlot<J, W>>,
    R: Threads + Wait + Sync,
>(rt: &R, pool: &Pool<J>, workers: &mut Vec<WorkerSlot<J, W>>, gate: &G, front: &mut F)
    requires workers { AllReady (IsReadyToWork pool.now.id) workers.old.items }
    requires front { F.ready front.old pool.now }
    ensures workers { AllRan (HasWorked J.runs) workers.old.items workers.new.items }
    ensures front { F.begun front.old pool.now front.new }
{
    let mut begin = ||
        requires { F.ready front.now pool.now }
        ensures { F.begun front.entry.now pool.entry.now front.exit.now }
    { front.begin(rt, pool) };
    work_all_beside(rt, pool, workers, gate, &mut begin);
}
