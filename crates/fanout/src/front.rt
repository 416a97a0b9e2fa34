ghost use Rattle.std.specs.Prelude.{◌≡◌, List, Some, None, IsSome};
ghost use Rattle.run_phases.specs.declared.first.FrontStart.{FrontStart};
ghost use Rattle.run_setup.specs.Ids.{RunIds};
ghost use Rattle.run_stages.specs.Stages.{AllRan};
ghost use Rattle.run_tasks.specs.Seen.{TaskSeen, WorldSeen};
ghost use Rattle.run_tasks.specs.Worlds.{TaskRan};
ghost use Rattle.run_threads.specs.declared.worker.WorkerSlot.{WorkerSlot};
ghost use Rattle.run_threads.specs.Slots.{HasWorked};
ghost use Rattle.fanout.specs.Beside.{CanEndFront, HasEndedFront, IsBehind};
ghost use Rattle.fanout.specs.First.{IsFirstEnd, IsFirstStart};
ghost use Rattle.fanout.specs.Fronts.{IsSideEnd, IsSideStart};
ghost use Rattle.fanout.specs.Plans.{IsTimed};

use fan_base::OpenGate;
use fan_parts::RunName;
use prio_pool::{HelperEnd, Pool};
use run_phases::{FrontLeft, FrontMid, FrontStart, first_phase, second_phase};
use run_plan::Turn;
use run_setup::{WorkerEnds, what_ran_can_be_closed, worker_ends};
use run_tasks::{ShardTask, TaskEnds};
use run_threads::{PoolFront, TaskSlot};
use std::alloc::Global;
use std::sync::Wait;

/// Room for what the workers and the helper leave.
pub(crate) struct SideRoom<'t, 'i: 't, N: RunName> {
    pub(crate) ends: WorkerEnds<'t, 'i, N>,
    pub(crate) helped: Vec<HelperEnd<ShardTask<'t, 'i, N>>>,
}

/// What the front and the workers leave: what is left of the workers' worlds, by worker, and what the front leaves.
pub(crate) struct SideEnd<'t, N: RunName> {
    pub(crate) worlds: Vec<TaskEnds<'t, N>>,
    pub(crate) left: FrontLeft<'t, N>,
}

/// The front of a run: what it has before it has begun, beside the workers, and what it leaves behind them. The turns are lent.
pub(crate) struct FrontRun<'g, 'c, 't, 'i: 't, N: RunName> {
    pub(crate) start: Option<FrontStart<'c, 't, 'i, N>>,
    pub(crate) mid: Option<FrontMid<'c, 't, 'i, N>>,
    pub(crate) room: Option<SideRoom<'t, 'i, N>>,
    pub(crate) end: Option<SideEnd<'t, N>>,
    pub(crate) turns: &'g [Turn],
    pub(crate) stop: Option<usize>,
    pub(crate) alloc: Global,
}

impl<'g, 'c, 't, 'i: 't, N: RunName> FrontRun<'g, 'c, 't, 'i, N> {
    /// A front that has not begun.
    pub(crate) fn new(
        start: FrontStart<'c, 't, 'i, N>,
        room: SideRoom<'t, 'i, N>,
        turns: &'g [Turn],
        stop: Option<usize>,
        alloc: Global,
    ) -> FrontRun<'g, 'c, 't, 'i, N>
        ensures start { result.start ≡ Some start.entry }
        ensures room { result.room ≡ Some room.entry }
        ensures none { (result.mid ≡ None) × (result.end ≡ None) }
        ensures turns { (result.turns.now ≡ turns.now) × (result.stop ≡ stop) }
    {
        FrontRun {
            start: Some(start),
            mid: None,
            room: Some(room),
            end: None,
            turns,
            stop,
            alloc,
        }
    }

    /// What a front leaves that has ended: all else is spent.
    pub(crate) fn into_end(self) -> SideEnd<'t, N>
        requires spent { (self.start ≡ None) × (self.mid ≡ None) × (self.room ≡ None) }
        requires ended { IsSome self.end }
        ensures { self.entry.end ≡ Some result }
    {
        let FrontRun {
            start,
            mid,
            room,
            end,
            turns: _,
            stop: _,
            alloc: _,
        } = self;
        let None = start else { unreachable!() };
        let None = mid else { unreachable!() };
        let None = room else { unreachable!() };
        let Some(end) = end else { unreachable!() };
        end
    }
}

impl<'g, 'c, 't, 'i: 't, N: RunName + 'static> PoolFront<
    Pool<ShardTask<'t, 'i, N>>,
    TaskSlot<'c, 't, 'i, N>,
> for FrontRun<'g, 'c, 't, 'i, N> {
    ghost use Rattle.fanout.specs.Beside.{CanEndFront, HasBegunFront, HasEndedFront, IsReadyFront};

    ghost ready = { IsReadyFront N.asked };

    ghost begun = { HasBegunFront N.asked };

    ghost can_end = { CanEndFront N.asked };

    ghost ended = { HasEndedFront N.asked };

    /// The tasks of all early queries are added, and the pool's end has begun.
    fn begin<R: Wait>(&mut self, rt: &R, pool: &Pool<ShardTask<'t, 'i, N>>) {
        let Some(start) = self.start.take() else {
            unreachable!()
        };
        let mid = first(rt, pool, self.turns, self.stop, start);
        let none = self.mid.replace(mid);
        let None = none else { unreachable!() };
    }

    /// The pool is ended, and the late queries are run here.
    fn end<R: Wait>(
        &mut self,
        rt: &R,
        pool: Pool<ShardTask<'t, 'i, N>>,
        workers: Vec<TaskSlot<'c, 't, 'i, N>>,
    )
        requires { CanEndFront N.asked self.old pool workers.items }
        ensures { HasEndedFront N.asked self.old pool.entry workers.entry.items self.new }
    {
        let Some(mid) = self.mid.take() else {
            unreachable!()
        };
        let Some(room) = self.room.take() else {
            unreachable!()
        };
        let end = end_side(
            rt, self.alloc, self.turns, self.stop, pool, workers, mid, room,
        );
        let none = self.end.replace(end);
        let None = none else { unreachable!() };
    }
}

/// The first phase of the front: the tasks of all early queries are added, and the pool's end has begun. Where it helps with a task, no gate is met.
fn first<'c, 't, 'i: 't, N: RunName + 'static, R: Wait>(
    rt: &R,
    pool: &Pool<ShardTask<'t, 'i, N>>,
    turns: &[Turn],
    stop: Option<usize>,
    start: FrontStart<'c, 't, 'i, N>,
) -> FrontMid<'c, 't, 'i, N>
    requires timed { IsTimed N.asked turns.now stop }
    requires start { IsFirstStart N.asked pool.now start }
    ensures { IsFirstEnd N.asked stop pool.now start.entry result }
{
    first_phase(rt, pool, &OpenGate::new(), turns, stop, start)
}

/// The second phase of the front, behind all workers.
fn end_side<'c, 't, 'i: 't, N: RunName + 'static, R: Wait>(
    rt: &R,
    alloc: Global,
    turns: &[Turn],
    stop: Option<usize>,
    pool: Pool<ShardTask<'t, 'i, N>>,
    workers: Vec<TaskSlot<'c, 't, 'i, N>>,
    mid: FrontMid<'c, 't, 'i, N>,
    room: SideRoom<'t, 'i, N>,
) -> SideEnd<'t, N>
    requires timed { IsTimed N.asked turns.now stop }
    requires behind { IsBehind N.asked stop pool workers.items mid room }
    ensures { (ids : RunIds) (start : FrontStart N) (old : List (WorkerSlot TaskSeen (WorldSeen N))) →
        IsSideStart N.asked ids start pool.entry old room.entry → IsFirstEnd N.asked stop pool.entry start mid.entry → AllRan (HasWorked TaskRan) old workers.entry.items →
        IsSideEnd N.asked ids result }
{
    what_ran_can_be_closed::<N>();
    let SideRoom { ends, helped } = room;
    let WorkerEnds { ends, worlds } = worker_ends(rt, workers, ends);
    let left = second_phase(rt, alloc, pool, ends, helped, turns, stop, mid);
    SideEnd { worlds, left }
}
