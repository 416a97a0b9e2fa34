//! How the pool is ended.
ghost use Rattle.std.specs.Prelude.{◌≡◌, ℕ, ◌+◌, ◌<◌, ◌≤◌, ◌++◌, [], true, false, length};
ghost use Rattle.keep_alive.specs.Answers.{receipt_of};
ghost use Rattle.pool_model.specs.Accounts.{AllRun};
ghost use Rattle.pool_model.specs.declared.task.Ending.TheVariants.{Joins as PoolJoins, Stops as PoolStops};
ghost use Rattle.pool_model.specs.Passes.{AreAllEnds, AreAllPasses, adds_total};
ghost use Rattle.prio_pool.specs.Begun.{HasBegun};
ghost use Rattle.query_tasks.specs.Ends.{end_for, is_stop, seen_of};
ghost use Rattle.run_notes.specs.Accounts.{AccountsFor, AllDone, HaveAllRun, SomeLed};
ghost use Rattle.run_tasks.specs.Heads.{task_head};
ghost use Rattle.run_tasks.specs.Worlds.{Follows, MadeFor, TaskRan};

use crate::pool::{TaskAdder, TaskPool};
use fan_parts::RunName;
use job_trait::WorldFact;
use keep_alive::{KeepOwner, Released};
use prio_pool::{HelperEnd, Joining, Stopping, WorkerEnd};
use run_notes::{PoolNotes, end_joined, end_stopped};
use run_tasks::{ShardTask, TaskWorld};
use std::alloc::Global;
use std::sync::Wait;

/// A pool whose end has begun. It is spent by [`end_pool`].
pub enum Ending<'t, 'i: 't, N: RunName> {
    /// It is joined: its workers end once each queue is found empty.
    Joins(Joining<ShardTask<'t, 'i, N>>),
    /// It is stopped: its workers take no further task.
    Stops(Stopping<ShardTask<'t, 'i, N>>),
}

/// Waits until each keep-alive of the pool is released, and begins to stop it, or to join it. The front's own was released: this is what its
/// release answered.
pub fn begin_end<'t, 'i: 't, N: RunName + 'static, R: Wait>(
    rt: &R,
    pool: &TaskPool<'t, 'i, N>,
    owner: KeepOwner,
    passes: Vec<TaskAdder<'t, 'i, N>>,
    released: Released,
    stops: bool,
) -> Ending<'t, 'i, N>
    requires owner { owner.count ≡ pool.now.count }
    requires passes { AreAllPasses pool.now.id pool.now.adders passes.items }
    requires released { (receipt_of released).count ≡ pool.now.count }
    ensures begun { HasBegun (end_for stops) pool.now passes.entry.items (seen_of result) }
    ensures stops { is_stop result ≡ stops }
{
    drop(released);
    if stops {
        Ending::Stops(begin_stop(rt, pool, owner, passes))
    } else {
        Ending::Joins(begin_join(rt, pool, owner, passes))
    }
}

/// Ends the pool with the ends of all workers and helpers. All that still waits, or is handed back, is run on this world, whether its records
/// find memory or not.
pub fn end_pool<'c, 't, 'i: 't, N: RunName + 'static, R: Wait>(
    rt: &R,
    alloc: Global,
    pool: TaskPool<'t, 'i, N>,
    ending: Ending<'t, 'i, N>,
    ends: Vec<WorkerEnd<ShardTask<'t, 'i, N>>>,
    helped: Vec<HelperEnd<ShardTask<'t, 'i, N>>>,
    world: &mut TaskWorld<'c, 't, 'i, N>,
) -> PoolNotes
    requires pool { (seen_of ending).pool ≡ pool.id }
    requires ending { AreAllPasses pool.id pool.adders (seen_of ending).passes }
    requires ends { AreAllEnds pool.id pool.workers ends.items }
    requires helped { AreAllEnds pool.id pool.helpers helped.items }
    ensures follows { Follows world.old world.new }
    ensures accepted { result.accepted ≡ adds_total (seen_of ending.entry).passes }
    ensures ran { is_stop ending.entry ≡ false → AllRun (seen_of ending.entry).passes result.ran.records }
    ensures all { is_stop ending.entry ≡ true →
        HaveAllRun (task_head N.asked) TaskRan (seen_of ending.entry).passes result.ran.records result.returned world.old world.new }
    ensures account { world.new.refused ≡ false → AllDone (ends.entry.items ++ helped.entry.items) → result.missed ≡ false →
        AccountsFor (seen_of ending.entry).passes result }
    ensures stopped { result.ran.stopped ≡ is_stop ending.entry }
    ensures joined { is_stop ending.entry ≡ false → (result.returned ≡ []) × (result.missed ≡ false) }
    ensures few { is_stop ending.entry ≡ true → length result.ran.records + length result.returned ≤ result.accepted }
    ensures missed { result.missed ≡ true → length result.ran.records + length result.returned < result.accepted }
    ensures made { (n : ℕ) → MadeFor n world.old → MadeFor n world.new }
{
    match ending {
        Ending::Joins(joining) => join_all(rt, alloc, pool, joining, ends, helped, world),
        Ending::Stops(stopping) => stop_all(rt, alloc, pool, stopping, ends, helped, world),
    }
}

/// That a world notes no refusal of memory.
struct NoneRefused;

impl<'c, 't, 'i: 't, N: RunName> WorldFact<TaskWorld<'c, 't, 'i, N>> for NoneRefused {
    ghost use Rattle.std.specs.Prelude.{◌≡◌, false};

    ghost holds = { λ w. w.refused ≡ false };
}

/// Begins to join the pool.
fn begin_join<'t, 'i: 't, N: RunName + 'static, R: Wait>(
    rt: &R,
    pool: &TaskPool<'t, 'i, N>,
    owner: KeepOwner,
    passes: Vec<TaskAdder<'t, 'i, N>>,
) -> Joining<ShardTask<'t, 'i, N>>
    requires owner { owner.count ≡ pool.now.count }
    requires passes { AreAllPasses pool.now.id pool.now.adders passes.items }
    ensures { HasBegun PoolJoins pool.now passes.entry.items result }
{
    pool.begin_join(rt, owner, passes)
}

/// Begins to stop the pool.
fn begin_stop<'t, 'i: 't, N: RunName + 'static, R: Wait>(
    rt: &R,
    pool: &TaskPool<'t, 'i, N>,
    owner: KeepOwner,
    passes: Vec<TaskAdder<'t, 'i, N>>,
) -> Stopping<ShardTask<'t, 'i, N>>
    requires owner { owner.count ≡ pool.now.count }
    requires passes { AreAllPasses pool.now.id pool.now.adders passes.items }
    ensures { HasBegun PoolStops pool.now passes.entry.items result }
{
    pool.begin_stop(rt, owner, passes)
}

/// Joins the pool.
fn join_all<'c, 't, 'i: 't, N: RunName + 'static, R: Wait>(
    rt: &R,
    alloc: Global,
    pool: TaskPool<'t, 'i, N>,
    joining: Joining<ShardTask<'t, 'i, N>>,
    ends: Vec<WorkerEnd<ShardTask<'t, 'i, N>>>,
    helped: Vec<HelperEnd<ShardTask<'t, 'i, N>>>,
    world: &mut TaskWorld<'c, 't, 'i, N>,
) -> PoolNotes
    requires pool { joining.pool ≡ pool.id }
    requires joining { AreAllPasses pool.id pool.adders joining.passes }
    requires ends { AreAllEnds pool.id pool.workers ends.items }
    requires helped { AreAllEnds pool.id pool.helpers helped.items }
    ensures led { SomeLed TaskRan world.old world.new }
    ensures accepted { result.accepted ≡ adds_total joining.entry.passes }
    ensures all { AllRun joining.entry.passes result.ran.records }
    ensures account { world.new.refused ≡ false → AllDone (ends.entry.items ++ helped.entry.items) → AccountsFor joining.entry.passes result }
    ensures joined { (result.ran.stopped ≡ false) × (result.returned ≡ []) × (result.missed ≡ false) }
{
    end_joined::<ShardTask<'t, 'i, N>, TaskWorld<'c, 't, 'i, N>, NoneRefused, R>(
        rt, alloc, pool, joining, ends, helped, world,
    )
}

/// Stops the pool, and runs what is handed back.
fn stop_all<'c, 't, 'i: 't, N: RunName + 'static, R: Wait>(
    rt: &R,
    alloc: Global,
    pool: TaskPool<'t, 'i, N>,
    stopping: Stopping<ShardTask<'t, 'i, N>>,
    ends: Vec<WorkerEnd<ShardTask<'t, 'i, N>>>,
    helped: Vec<HelperEnd<ShardTask<'t, 'i, N>>>,
    world: &mut TaskWorld<'c, 't, 'i, N>,
) -> PoolNotes
    requires pool { stopping.pool ≡ pool.id }
    requires stopping { AreAllPasses pool.id pool.adders stopping.passes }
    requires ends { AreAllEnds pool.id pool.workers ends.items }
    requires helped { AreAllEnds pool.id pool.helpers helped.items }
    ensures accepted { result.accepted ≡ adds_total stopping.entry.passes }
    ensures all { HaveAllRun (task_head N.asked) TaskRan stopping.entry.passes result.ran.records result.returned world.old world.new }
    ensures account { world.new.refused ≡ false → AllDone (ends.entry.items ++ helped.entry.items) → result.missed ≡ false →
        AccountsFor stopping.entry.passes result }
    ensures stopped { result.ran.stopped ≡ true }
    ensures few { length result.ran.records + length result.returned ≤ result.accepted }
    ensures missed { result.missed ≡ true → length result.ran.records + length result.returned < result.accepted }
{
    end_stopped::<ShardTask<'t, 'i, N>, TaskWorld<'c, 't, 'i, N>, NoneRefused, R>(
        rt, alloc, pool, stopping, ends, helped, world,
    )
}
