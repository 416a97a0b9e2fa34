//! How the tasks of a query are started on the pool.
ghost use Rattle.std.specs.Prelude.{◌≡◌, ℕ, ◌+◌, ◌<◌, ◌≤◌, [], ◌∷◌, true, OnOk, OnErr, IfErr, length};
ghost use Rattle.fan_base.specs.declared.refusal.Refused.TheVariants.{Memory as GivenBack};
ghost use Rattle.fan_model.specs.Notes.{base_of};
ghost use Rattle.fan_model.specs.Tasks.{pool_exec};
ghost use Rattle.pool_model.specs.Passes.{adds_of};
ghost use Rattle.prio_pool.specs.Adders.{add_on};
ghost use Rattle.prio_pool.specs.Priority.{queue_in};
ghost use Rattle.query_tasks.specs.Starting.{HasAdded, HasAddedSome, HasHelped, adds_for, head_on_pool};
ghost use Rattle.run_tasks.specs.Heads.{task_head};
ghost use Rattle.run_tasks.specs.Worlds.{MadeFor};

use crate::pool::{TaskAdder, TaskHelper, TaskPool};
use fan_base::{ExecId, Gate, Memory, Refused};
use fan_parts::{NumberedAsk, PartCallback, RunName, TaskConsumer, TaskProducer};
use keep_alive::KeepAlive;
use query_opening::task_callback;
use run_tasks::{ShardTask, TaskWorld};
use std::sync::Wait;

/// Starts the tasks of a query over all shards. It ends at the first that finds no memory: that task's part is want of memory, and the parts of
/// those behind it don't come.
pub fn start_tasks<'c, 't, 'i: 't, N: RunName + 'static, G: Gate, R: Wait>(
    rt: &R,
    pool: &TaskPool<'t, 'i, N>,
    keep: &KeepAlive,
    adder: &mut TaskAdder<'t, 'i, N>,
    helper: &mut TaskHelper<'t, 'i, N>,
    world: &mut TaskWorld<'c, 't, 'i, N>,
    gate: &G,
    ask: &NumberedAsk<'i, N>,
    shards: u32,
    priority: i8,
    exec: ExecId,
) -> Result<(), Memory>
    requires pool { pool.now.exec ≡ pool_exec }
    requires keep { keep.now.count ≡ pool.now.count }
    requires adder { adder.old.pool ≡ pool.now.id }
    requires room { length (adds_of adder.old) + shards ≤ 4294967295 }
    requires helper { helper.old.pool ≡ pool.now.id }
    requires shards { shards ≡ N.asked.shards }
    requires exec { exec ≡ record { 0 = base_of N.asked.bases ask.now.number } }
    ensures helped { HasHelped world.old helper.old world.new helper.new }
    ensures added { OnOk result (HasAdded adder.old (adds_for N.asked ask.now (queue_in pool.now.id priority) shards) adder.new) }
    ensures same { (adder.new.pool ≡ adder.old.pool) × (adder.new.number ≡ adder.old.number) }
    ensures refused { OnErr result (world.new.refused ≡ true) }
    ensures some { OnErr result (HasAddedSome adder.old (adds_for N.asked ask.now (queue_in pool.now.id priority)) shards adder.new) }
    ensures made { MadeFor (length (adds_of adder.old)) world.old → MadeFor (length (adds_of adder.new)) world.new }
{
    for shard in 0..shards {
        let callback = task_callback(ask.number(), shard, exec);
        start_task(
            rt,
            pool,
            keep,
            adder,
            helper,
            world,
            gate,
            ask.again(),
            shard,
            priority,
            callback,
        )?;
    }
    Ok(())
}

/// Starts the task of a query over a shard: its core, its place in the pool, and its callback. Where the pool has no memory for it, its core
/// gets want of memory, and so does its desk.
fn start_task<'c, 't, 'i: 't, N: RunName + 'static, G: Gate, R: Wait>(
    rt: &R,
    pool: &TaskPool<'t, 'i, N>,
    keep: &KeepAlive,
    adder: &mut TaskAdder<'t, 'i, N>,
    helper: &mut TaskHelper<'t, 'i, N>,
    world: &mut TaskWorld<'c, 't, 'i, N>,
    gate: &G,
    ask: NumberedAsk<'i, N>,
    shard: u32,
    priority: i8,
    callback: PartCallback<N>,
) -> Result<(), Memory>
    requires pool { pool.now.exec ≡ pool_exec }
    requires keep { keep.now.count ≡ pool.now.count }
    requires adder { adder.old.pool ≡ pool.now.id }
    requires room { length (adds_of adder.old) < 4294967295 }
    requires helper { helper.old.pool ≡ pool.now.id }
    requires shard { shard < N.asked.shards }
    requires callback { (callback.number ≡ ask.number) × (callback.shard ≡ shard) }
    ensures helped { HasHelped world.old helper.old world.new helper.new }
    ensures added { OnOk result
        (HasAdded adder.old (add_on (queue_in pool.now.id priority) (head_on_pool N.asked ask.entry shard) ∷ []) adder.new) }
    ensures refused { OnErr result ((world.new.refused ≡ true) × (adder.new ≡ adder.old)) }
    ensures made { MadeFor (length (adds_of adder.old)) world.old → MadeFor (length (adds_of adder.new)) world.new }
{
    let no = 64 * u64::from(ask.number()) + u64::from(shard);
    let (producer, consumer) = core_or_help(rt, pool, helper, world, gate, no);
    let task = ShardTask::new(producer, ask, shard, ExecId(0));
    match add_task(rt, pool, keep, adder, priority, task) {
        Ok(()) => {
            world.give(rt, consumer, callback);
            Ok(())
        }
        Err(Refused::Memory(task)) => {
            world.give(rt, consumer, callback);
            world.spend(rt, task);
            Err(Memory)
        }
    }
}

/// Adds a task to the pool, or gives it back.
fn add_task<'t, 'i: 't, N: RunName + 'static, R: Wait>(
    rt: &R,
    pool: &TaskPool<'t, 'i, N>,
    keep: &KeepAlive,
    adder: &mut TaskAdder<'t, 'i, N>,
    priority: i8,
    task: ShardTask<'t, 'i, N>,
) -> Result<(), Refused<ShardTask<'t, 'i, N>>>
    requires keep { keep.now.count ≡ pool.now.count }
    requires adder { adder.old.pool ≡ pool.now.id }
    requires exec { task.exec ≡ pool.now.exec }
    requires room { length (adds_of adder.old) < 4294967295 }
    ensures added { OnOk result (HasAdded adder.old (add_on (queue_in pool.now.id priority) (task_head N.asked task.entry) ∷ []) adder.new) }
    ensures refused { OnErr result (adder.new ≡ adder.old) }
{
    match pool.add(rt, keep, adder, priority, task) {
        Ok(_ticket) => Ok(()),
        Err(refused) => Err(refused),
    }
}

/// The core of a task in a free cell. Where none is free, the pool is helped with one task, and it is tried again.
fn core_or_help<'c, 't, 'i: 't, N: RunName + 'static, G: Gate, R: Wait>(
    rt: &R,
    pool: &TaskPool<'t, 'i, N>,
    helper: &mut TaskHelper<'t, 'i, N>,
    world: &mut TaskWorld<'c, 't, 'i, N>,
    gate: &G,
    no: u64,
) -> (TaskProducer<'t, N>, TaskConsumer<'t, N>)
    requires { helper.old.pool ≡ pool.now.id }
    ensures numbers { (result.0.no ≡ no) × (result.1.no ≡ no) }
    ensures helped { HasHelped world.old helper.old world.new helper.new }
    ensures made { (n : ℕ) → MadeFor n world.old → MadeFor (n + 1) world.new }
{
    for _ in rt.forever() {
        if let Some(halves) = world.begin_core(rt, no) {
            return halves;
        }
        help_once(rt, pool, helper, world, gate);
    }
    unreachable!()
}

/// Helps the pool with one task, if it has one.
fn help_once<'c, 't, 'i: 't, N: RunName + 'static, G: Gate, R: Wait>(
    rt: &R,
    pool: &TaskPool<'t, 'i, N>,
    helper: &mut TaskHelper<'t, 'i, N>,
    world: &mut TaskWorld<'c, 't, 'i, N>,
    gate: &G,
)
    requires { helper.old.pool ≡ pool.now.id }
    ensures helped { HasHelped world.old helper.old world.new helper.new }
    ensures made { (n : ℕ) → MadeFor n world.old → MadeFor n world.new }
{
    let _helped = pool.help(rt, helper, world, gate);
}
