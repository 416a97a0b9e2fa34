ghost use Rattle.std.specs.Prelude.{◌≡◌, ◌≤◌, List, [], length, vec_capacity};
ghost use Rattle.run_stages.specs.Stages.{AllRan};
ghost use Rattle.run_tasks.specs.Seen.{TaskSeen, WorldSeen};
ghost use Rattle.run_tasks.specs.Worlds.{TaskRan};
ghost use Rattle.run_threads.specs.declared.worker.WorkerSlot.{WorkerSlot};
ghost use Rattle.run_threads.specs.Slots.{HasWorked};
ghost use Rattle.run_setup.specs.Closing.{AreEndsOf, HaveWorked};

use fan_parts::RunName;
use prio_pool::WorkerEnd;
use run_tasks::{ShardTask, TaskEnds, WorkerStage};
use run_threads::{TaskSlot, end_worker};
use std::sync::Wait;

/// What the workers leave, by worker.
pub struct WorkerEnds<'t, 'i: 't, N: RunName> {
    /// Their ends, which the pool's end asks for.
    pub ends: Vec<WorkerEnd<ShardTask<'t, 'i, N>>>,
    /// What is left of their worlds, for the close.
    pub worlds: Vec<TaskEnds<'t, N>>,
}

/// Takes the workers apart that have worked, in order, and ends their worlds. `room` has no ends yet, and room for those of each. It takes no
/// memory.
pub fn worker_ends<'c, 't, 'i: 't, N: RunName + 'static, R: Wait>(
    rt: &R,
    slots: Vec<TaskSlot<'c, 't, 'i, N>>,
    room: WorkerEnds<'t, 'i, N>,
) -> WorkerEnds<'t, 'i, N>
    requires slots { HaveWorked slots.items }
    requires empty { (room.ends.items ≡ []) × (room.worlds.items ≡ []) }
    requires room { (length slots.items ≤ vec_capacity room.ends) × (length slots.items ≤ vec_capacity room.worlds) }
    ensures { (old : List (WorkerSlot TaskSeen (WorldSeen N))) → AllRan (HasWorked TaskRan) old slots.entry.items
        → AreEndsOf old result.ends.items result.worlds.items }
{
    let WorkerEnds {
        mut ends,
        mut worlds,
    } = room;
    let mut left = slots.into_iter();
    while let Some(slot) = left.next() {
        let WorkerStage { end, ends: world } = end_worker(rt, slot);
        ends.push_reserved(end);
        worlds.push_reserved(world);
    }
    left.destroy_empty();
    WorkerEnds { ends, worlds }
}
