ghost use Rattle.std.specs.Prelude.{◌≡◌, ◌+◌, ◌<◌, ◌≤◌, [], ℕ, List, OnErr, OnOk, length, map, take, drop};
ghost use Rattle.fan_model.specs.Comings.{comings_of};
ghost use Rattle.fan_model.specs.Tasks.{Run, pool_exec, task_runs};
ghost use Rattle.fan_parts.specs.declared.jobs.PrintJob.{PrintJob};
ghost use Rattle.front_walk.specs.Following.{IsInput};
ghost use Rattle.pool_model.specs.Passes.{adds_of};
ghost use Rattle.query_opening.specs.Turns.{IsBegun};
ghost use Rattle.query_tasks.specs.Starting.{HasHelped};
ghost use Rattle.run_notes.specs.Told.{run_of_add};
ghost use Rattle.run_plan.specs.Turns.{AreTurnsOf, begun_in};
ghost use Rattle.run_tasks.specs.Worlds.{MadeFor, told_of};
ghost use Rattle.run_front.specs.Fronts.{AreRunsTo, AreSomeOf, AreSomeRunsTo, IsFrontOf};
ghost use Rattle.run_front.specs.Posted.{HasPosted};
ghost use Rattle.run_desks.specs.Turns.{IsTurnAt};

use crate::cancelling::cancel_query;
use crate::front::Front;
use crate::priority::{gathering_exec, prio_at, priority_of};
use fan_base::{Gate, Memory};
use fan_parts::RunName;
use keep_alive::KeepAlive;
use query_model::laws::alike_lines_ask_the_same;
use query_opening::numbered_ask;
use query_tasks::{TaskAdder, TaskHelper, TaskPool, start_tasks, tasks_are_runs};
use run_desks::{begun_query_is_asked, known_turns};
use run_plan::laws::place_by_place;
use run_plan::{BegunQuery, Turn};
use std::sync::Wait;
use std::thread::yield_now;

/// How many tasks are begun, at least, before other threads are let run. Where threads share a processor, the parts of a thousand tasks and
/// more lie in no cache any more when they are gathered.
const TASKS_AT_A_TIME: u32 = 128;

/// The turns before a place, all of whose queries are early: their tasks are added to the pool, which has three queues. It ends at the first
/// turn that finds no memory: no task behind it is added.
pub fn early_turns<'c, 't, 'i: 't, N: RunName + 'static, G: Gate, R: Wait>(
    rt: &R,
    front: &mut Front<'c, 't, 'i, N>,
    pool: &TaskPool<'t, 'i, N>,
    keep: &KeepAlive,
    adder: &mut TaskAdder<'t, 'i, N>,
    helper: &mut TaskHelper<'t, 'i, N>,
    gate: &G,
    turns: &[Turn],
    end: usize,
) -> Result<(), Memory>
    requires turns { AreTurnsOf N.asked.lines turns.now }
    requires end { end ≤ length turns.now }
    requires input { IsInput N.asked.lines }
    requires front { IsFrontOf N.asked front.old }
    requires pool { pool.now.exec ≡ pool_exec }
    requires queues { length pool.now.id.queues ≡ 3 }
    requires keep { keep.now.count ≡ pool.now.count }
    requires adder { adder.old.pool ≡ pool.now.id }
    requires unused { adds_of adder.old ≡ [] }
    requires helper { helper.old.pool ≡ pool.now.id }
    ensures added { OnOk result (map run_of_add (adds_of adder.new)
        ≡ task_runs N.asked.lines N.asked.shards pool_exec (begun_in (take end (comings_of N.asked.lines)))) }
    ensures some { OnErr result (AreSomeOf [] (task_runs N.asked.lines N.asked.shards pool_exec
        (begun_in (take end (comings_of N.asked.lines)))) (map run_of_add (adds_of adder.new))) }
    ensures adder { (adder.new.pool ≡ adder.old.pool) × (adder.new.number ≡ adder.old.number) }
    ensures helped { HasHelped front.old.world helper.old front.new.world helper.new }
    ensures made { MadeFor (length (adds_of adder.old)) front.old.world →
        MadeFor (length (adds_of adder.new)) front.new.world }
    ensures front { IsFrontOf N.asked front.new }
    ensures printer { told_of front.new.printer ≡ told_of front.old.printer }
    ensures posted { (first : List (PrintJob N)) → HasPosted N.asked 0 first front.old.printer
        → OnOk result (HasPosted N.asked end first front.new.printer) }
{
    known_turns::<N>();
    place_by_place();
    let mut begun = 0;
    for place in 0..end {
        early_turn(
            rt,
            front,
            pool,
            keep,
            adder,
            helper,
            gate,
            turns[place],
            place as u32,
        )?;
        begun = pause(begun, front.shards);
    }
    Ok(())
}

/// Counts the tasks of a turn, also of one that is cancelled. Once there are enough it lets other threads run, and counts from 0 again.
fn pause(begun: u32, more: u32) -> u32 {
    let begun = begun.saturating_add(more);
    if begun < TASKS_AT_A_TIME {
        return begun;
    }
    yield_now();
    0
}

/// One turn, whose query is early if it begins one.
fn early_turn<'c, 't, 'i: 't, N: RunName + 'static, G: Gate, R: Wait>(
    rt: &R,
    front: &mut Front<'c, 't, 'i, N>,
    pool: &TaskPool<'t, 'i, N>,
    keep: &KeepAlive,
    adder: &mut TaskAdder<'t, 'i, N>,
    helper: &mut TaskHelper<'t, 'i, N>,
    gate: &G,
    turn: Turn,
    place: u32,
) -> Result<(), Memory>
    requires turn { IsTurnAt N.asked place turn }
    requires front { IsFrontOf N.asked front.old }
    requires pool { pool.now.exec ≡ pool_exec }
    requires queues { length pool.now.id.queues ≡ 3 }
    requires keep { keep.now.count ≡ pool.now.count }
    requires adder { adder.old.pool ≡ pool.now.id }
    requires room { length (adds_of adder.old) + 64 ≤ 4294967295 }
    requires helper { helper.old.pool ≡ pool.now.id }
    ensures added { (first : List Run) → AreRunsTo N.asked pool_exec 0 place first (map run_of_add (adds_of adder.old))
        → OnOk result (AreRunsTo N.asked pool_exec 0 (place + 1) first (map run_of_add (adds_of adder.new))) }
    ensures some { (first : List Run) → AreRunsTo N.asked pool_exec 0 place first (map run_of_add (adds_of adder.old))
        → OnErr result (AreSomeRunsTo N.asked pool_exec 0 (place + 1) first (map run_of_add (adds_of adder.new))) }
    ensures few { OnOk result (length (adds_of adder.new) ≤ length (adds_of adder.old) + 64) }
    ensures adder { (adder.new.pool ≡ adder.old.pool) × (adder.new.number ≡ adder.old.number) }
    ensures helped { HasHelped front.old.world helper.old front.new.world helper.new }
    ensures made { MadeFor (length (adds_of adder.old)) front.old.world →
        MadeFor (length (adds_of adder.new)) front.new.world }
    ensures front { IsFrontOf N.asked front.new }
    ensures printer { told_of front.new.printer ≡ told_of front.old.printer }
    ensures posted { (first : List (PrintJob N)) → HasPosted N.asked place first front.old.printer →
        OnOk result (HasPosted N.asked (place + 1) first front.new.printer) }
{
    place_by_place();
    match turn {
        Turn::Begin(query) => early_query(rt, front, pool, keep, adder, helper, gate, query, place),
        Turn::Cancel(number) => cancel_query(rt, front, place, number),
    }
}

/// Adds the tasks of an early query to the pool.
fn early_query<'c, 't, 'i: 't, N: RunName + 'static, G: Gate, R: Wait>(
    rt: &R,
    front: &mut Front<'c, 't, 'i, N>,
    pool: &TaskPool<'t, 'i, N>,
    keep: &KeepAlive,
    adder: &mut TaskAdder<'t, 'i, N>,
    helper: &mut TaskHelper<'t, 'i, N>,
    gate: &G,
    query: BegunQuery,
    place: u32,
) -> Result<(), Memory>
    requires begun { IsBegun N.asked place query.number query.line query.documents }
    requires front { IsFrontOf N.asked front.old }
    requires pool { pool.now.exec ≡ pool_exec }
    requires queues { length pool.now.id.queues ≡ 3 }
    requires keep { keep.now.count ≡ pool.now.count }
    requires adder { adder.old.pool ≡ pool.now.id }
    requires room { length (adds_of adder.old) + 64 ≤ 4294967295 }
    requires helper { helper.old.pool ≡ pool.now.id }
    ensures added { (first : List Run) → AreRunsTo N.asked pool_exec 0 place first (map run_of_add (adds_of adder.old))
        → OnOk result (AreRunsTo N.asked pool_exec 0 (place + 1) first (map run_of_add (adds_of adder.new))) }
    ensures some { (first : List Run) → AreRunsTo N.asked pool_exec 0 place first (map run_of_add (adds_of adder.old))
        → OnErr result (AreSomeRunsTo N.asked pool_exec 0 (place + 1) first (map run_of_add (adds_of adder.new))) }
    ensures few { OnOk result (length (adds_of adder.new) ≤ length (adds_of adder.old) + 64) }
    ensures adder { (adder.new.pool ≡ adder.old.pool) × (adder.new.number ≡ adder.old.number) }
    ensures helped { HasHelped front.old.world helper.old front.new.world helper.new }
    ensures made { MadeFor (length (adds_of adder.old)) front.old.world →
        MadeFor (length (adds_of adder.new)) front.new.world }
    ensures front { IsFrontOf N.asked front.new }
    ensures printer { told_of front.new.printer ≡ told_of front.old.printer }
    ensures posted { (first : List (PrintJob N)) → HasPosted N.asked place first front.old.printer →
        OnOk result (HasPosted N.asked (place + 1) first front.new.printer) }
{
    alike_lines_ask_the_same();
    begun_query_is_asked::<N>();
    place_by_place();
    tasks_are_runs();
    let ask = numbered_ask(
        front.lines,
        place,
        query.number,
        query.line,
        query.documents,
    );
    let number = ask.number();
    let priority = priority_of(prio_at(front.lines, query.line));
    let exec = gathering_exec(number, front.bases);
    let shards = front.shards;
    start_tasks(
        rt,
        pool,
        keep,
        adder,
        helper,
        &mut front.world,
        gate,
        &ask,
        shards,
        priority,
        exec,
    )
}
