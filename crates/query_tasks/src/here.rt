//! How the tasks of a query are run without the pool.
ghost use Rattle.std.specs.Prelude.{◌≡◌, ℕ, ◌+◌, ◌<◌, ◌++◌, List, [], ◌∷◌, false, length, map, OnErr, OnOk};
ghost use Rattle.fan_model.specs.Notes.{base_of};
ghost use Rattle.fan_model.specs.Tasks.{Run};
ghost use Rattle.prio_pool.specs.Running.{RanDirect};
ghost use Rattle.query_tasks.specs.Starting.{HasRunSome, HasToldSome, run_at, runs_for};
ghost use Rattle.run_notes.specs.Told.{TellOf, run_of_direct, unmarked};
ghost use Rattle.run_tasks.specs.Heads.{task_head};
ghost use Rattle.run_tasks.specs.Worlds.{Follows, MadeFor, TaskRan};

use fan_base::{ExecId, Memory};
use fan_parts::{NumberedAsk, PartCallback, RunName, TaskConsumer, TaskProducer};
use prio_pool::{DirectRecord, run_direct};
use query_opening::task_callback;
use run_notes::DirectRecords;
use run_tasks::{ShardTask, TaskWorld};
use std::sync::Wait;

/// Runs the tasks of a query over all shards here, one after another, on the front's executor: behind the pool's end. It helps with nothing: a
/// core is begun as soon as a cell is free. It ends at the first record that finds no memory; that record's task has run, and none behind it.
pub fn run_tasks_here<'c, 't, 'i: 't, N: RunName + 'static, R: Wait>(
    rt: &R,
    world: &mut TaskWorld<'c, 't, 'i, N>,
    ask: &NumberedAsk<'i, N>,
    shards: u32,
    queue: u32,
    front: ExecId,
    base: ExecId,
    direct: &mut DirectRecords,
) -> Result<(), Memory>
    requires shards { shards ≡ N.asked.shards }
    requires base { base ≡ record { 0 = base_of N.asked.bases ask.now.number } }
    ensures follows { Follows world.old world.new }
    ensures direct { OnOk result (world.new.refused ≡ false →
        map run_of_direct direct.new ≡ map run_of_direct direct.old ++ runs_for N.asked ask.now queue front shards) }
    ensures some { OnErr result (world.new.refused ≡ false → HasRunSome direct.old (runs_for N.asked ask.now queue front) shards direct.new) }
    ensures told { OnOk result ((before : List Run) → TellOf direct.old before → TellOf direct.new (before ++ runs_for N.asked ask.now queue front shards)) }
    ensures told_some { OnErr result (HasToldSome direct.old (runs_for N.asked ask.now queue front) shards direct.new) }
    ensures made { (n : ℕ) → MadeFor (n + length direct.old) world.old →
        OnOk result (MadeFor (n + length direct.new) world.new) }
{
    for shard in 0..shards {
        let callback = task_callback(ask.number(), shard, base);
        let record = run_task_here(rt, world, ask.again(), shard, queue, front, callback);
        direct.push(record)?;
    }
    Ok(())
}

/// Runs the task of a query over a shard here, and then sets its callback.
fn run_task_here<'c, 't, 'i: 't, N: RunName + 'static, R: Wait>(
    rt: &R,
    world: &mut TaskWorld<'c, 't, 'i, N>,
    ask: NumberedAsk<'i, N>,
    shard: u32,
    queue: u32,
    front: ExecId,
    callback: PartCallback<N>,
) -> DirectRecord
    requires shard { shard < N.asked.shards }
    requires callback { (callback.number ≡ ask.number) × (callback.shard ≡ shard) }
    ensures follows { Follows world.old world.new }
    ensures ran { world.new.refused ≡ false → run_of_direct result ≡ run_at N.asked ask.entry queue front shard }
    ensures told { unmarked (run_of_direct result) ≡ unmarked (run_at N.asked ask.entry queue front shard) }
    ensures made { (n : ℕ) → MadeFor n world.old → MadeFor (n + 1) world.new }
{
    let no = 64 * u64::from(ask.number()) + u64::from(shard);
    let (producer, consumer) = core_in_turn(rt, world, no);
    let task = ShardTask::new(producer, ask, shard, front);
    let record = run_once(rt, queue, task, world);
    world.give(rt, consumer, callback);
    record
}

/// The core of a task, as soon as a cell is free.
fn core_in_turn<'c, 't, 'i: 't, N: RunName + 'static, R: Wait>(
    rt: &R,
    world: &mut TaskWorld<'c, 't, 'i, N>,
    no: u64,
) -> (TaskProducer<'t, N>, TaskConsumer<'t, N>)
    ensures numbers { (result.0.no ≡ no) × (result.1.no ≡ no) }
    ensures follows { Follows world.old world.new }
    ensures made { (n : ℕ) → MadeFor n world.old → MadeFor (n + 1) world.new }
{
    for _ in rt.forever() {
        if let Some(halves) = world.begin_core(rt, no) {
            return halves;
        }
    }
    unreachable!()
}

/// Runs a task.
fn run_once<'c, 't, 'i: 't, N: RunName + 'static, R: Wait>(
    rt: &R,
    queue: u32,
    task: ShardTask<'t, 'i, N>,
    world: &mut TaskWorld<'c, 't, 'i, N>,
) -> DirectRecord
    ensures { RanDirect TaskRan (task_head N.asked task.entry) queue world.old world.new result }
{
    run_direct(rt, queue, task, world)
}
