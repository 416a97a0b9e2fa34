ghost use Rattle.std.specs.Prelude.{◌≡◌, false, length, map};
ghost use Rattle.std.specs.List.{All};
ghost use Rattle.job_trait.specs.Marks.{IsDone};
ghost use Rattle.run_tasks.specs.Leaving.{CountsTasks};
ghost use Rattle.run_tasks.specs.Worlds.{AreEndsFor, Follows, StaysPass, told_of};

use crate::task::ShardTask;
use crate::world::{TaskEnds, TaskWorld};
use fan_base::Gate;
use fan_parts::RunName;
use prio_pool::{Pool, WorkerEnd, WorkerPass};
use std::sync::Wait;

/// What a worker leaves: its end, which the pool's end asks for, and what is left of its world.
pub struct WorkerStage<'t, 'i: 't, N: RunName> {
    pub end: WorkerEnd<ShardTask<'t, 'i, N>>,
    pub ends: TaskEnds<'t, N>,
}

/// Works for the pool on a world of its own, until the pool's end, and then ends the world.
pub fn work_tasks<'c, 't, 'i: 't, N: RunName + 'static, G: Gate, R: Wait>(
    rt: &R,
    pool: &Pool<ShardTask<'t, 'i, N>>,
    pass: WorkerPass<ShardTask<'t, 'i, N>>,
    mut world: TaskWorld<'c, 't, 'i, N>,
    gate: &G,
) -> WorkerStage<'t, 'i, N>
    requires { pass.pool ≡ pool.now.id }
    ensures end { (result.end.pool ≡ pass.entry.pool) × (result.end.number ≡ pass.entry.number) }
    ensures marks { result.ends.refused ≡ false → All (λ r. IsDone r.mark) result.end.records }
    ensures tally { result.ends.refused ≡ false → CountsTasks (length result.end.records) world.entry.tally result.ends.tally }
    ensures refused { result.ends.refused ≡ false → world.entry.refused ≡ false }
    ensures posters { AreEndsFor (map told_of world.entry.posters) result.ends.posters.items }
    ensures pass { StaysPass world.entry.pass result.ends.pass }
{
    let end = work_on(rt, pool, pass, &mut world, gate);
    WorkerStage {
        end,
        ends: world.end(rt),
    }
}

/// Works for the pool until its end.
fn work_on<'c, 't, 'i: 't, N: RunName + 'static, G: Gate, R: Wait>(
    rt: &R,
    pool: &Pool<ShardTask<'t, 'i, N>>,
    pass: WorkerPass<ShardTask<'t, 'i, N>>,
    world: &mut TaskWorld<'c, 't, 'i, N>,
    gate: &G,
) -> WorkerEnd<ShardTask<'t, 'i, N>>
    requires { pass.pool ≡ pool.now.id }
    ensures end { (result.pool ≡ pass.entry.pool) × (result.number ≡ pass.entry.number) }
    ensures marks { world.new.refused ≡ false → All (λ r. IsDone r.mark) result.records }
    ensures tally { world.new.refused ≡ false → CountsTasks (length result.records) world.old.tally world.new.tally }
    ensures follows { Follows world.old world.new }
{
    pool.work(rt, pass, world, gate)
}
