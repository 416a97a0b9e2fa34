ghost use Rattle.std.specs.Prelude.{◌≡◌};
ghost use Rattle.run_tasks.specs.Worlds.{TaskRan};
ghost use Rattle.run_threads.specs.Slots.{HasWorked, IsStageOf, IsWorked};
ghost use Rattle.run_threads.specs.declared.worker.WorkerSlot.{WorkerSlot};

use crate::worker::WorkerSlot;
use fan_parts::RunName;
use run_tasks::{ShardTask, TaskWorld, WorkerStage, tasks_keep_their_world};
use std::sync::Wait;

/// A worker for the tasks of a run.
pub type TaskSlot<'c, 't, 'i, N> = WorkerSlot<ShardTask<'t, 'i, N>, TaskWorld<'c, 't, 'i, N>>;

/// Takes a worker apart that has worked, and ends its world.
pub fn end_worker<'c, 't, 'i: 't, N: RunName + 'static, R: Wait>(
    rt: &R,
    worker: TaskSlot<'c, 't, 'i, N>,
) -> WorkerStage<'t, 'i, N>
    requires { IsWorked worker }
    ensures stage { (old : WorkerSlot _ _) → HasWorked TaskRan old worker.entry → IsStageOf old result }
    ensures noted { result.ends.refused ≡ worker.entry.world.refused }
{
    tasks_keep_their_world::<N>();
    let WorkerSlot { pass, end, world } = worker;
    let None = pass else { unreachable!() };
    let Some(end) = end else { unreachable!() };
    WorkerStage {
        end,
        ends: world.end(rt),
    }
}
