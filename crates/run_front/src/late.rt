ghost use Rattle.std.specs.Prelude.{◌≡◌, ◌+◌, ◌≤◌, ◌++◌, List, ℕ, false, OnErr, OnOk, length, map, drop};
ghost use Rattle.fan_model.specs.Comings.{comings_of};
ghost use Rattle.fan_model.specs.Tasks.{Run, front_exec, task_runs};
ghost use Rattle.fan_parts.specs.declared.jobs.PrintJob.{PrintJob};
ghost use Rattle.front_walk.specs.Following.{IsInput};
ghost use Rattle.query_opening.specs.Turns.{IsBegun};
ghost use Rattle.run_notes.specs.Told.{run_of_direct};
ghost use Rattle.run_plan.specs.Turns.{AreTurnsOf, begun_in};
ghost use Rattle.run_tasks.specs.Worlds.{Follows, MadeFor, told_of};
ghost use Rattle.run_front.specs.Fronts.{AreRunsTo, AreSomeOf, AreSomeRunsTo, IsFrontOf, TellRunsTo, TellSomeOf, TellSomeRunsTo};
ghost use Rattle.run_front.specs.Posted.{HasPosted};
ghost use Rattle.run_desks.specs.Turns.{IsTurnAt};

use crate::cancelling::cancel_query;
use crate::front::Front;
use crate::priority::{gathering_exec, prio_at, queue_number};
use fan_base::{ExecId, Memory};
use fan_parts::RunName;
use query_model::laws::alike_lines_ask_the_same;
use query_opening::numbered_ask;
use query_tasks::{run_tasks_here, tasks_are_runs};
use run_desks::{begun_query_is_asked, known_turns};
use run_notes::DirectRecords;
use run_plan::laws::place_by_place;
use run_plan::{BegunQuery, Turn};
use std::sync::Wait;

/// The turns from a place on, all of whose queries are late: their tasks run here, one after another. It ends at the first turn that finds no
/// memory: no task behind it is run.
pub fn late_turns<'c, 't, 'i: 't, N: RunName + 'static, R: Wait>(
    rt: &R,
    front: &mut Front<'c, 't, 'i, N>,
    turns: &[Turn],
    start: usize,
    direct: &mut DirectRecords,
) -> Result<(), Memory>
    requires turns { AreTurnsOf N.asked.lines turns.now }
    requires start { start ≤ length turns.now }
    requires input { IsInput N.asked.lines }
    requires front { IsFrontOf N.asked front.old }
    ensures direct { OnOk result (front.new.world.refused ≡ false → map run_of_direct direct.new ≡ map run_of_direct direct.old
        ++ task_runs N.asked.lines N.asked.shards (front_exec N.asked.bases) (begun_in (drop start (comings_of N.asked.lines)))) }
    ensures some { OnErr result (front.new.world.refused ≡ false → AreSomeOf (map run_of_direct direct.old)
        (task_runs N.asked.lines N.asked.shards (front_exec N.asked.bases) (begun_in (drop start (comings_of N.asked.lines)))) (map run_of_direct direct.new)) }
    ensures told { TellSomeOf (map run_of_direct direct.old)
        (task_runs N.asked.lines N.asked.shards (front_exec N.asked.bases) (begun_in (drop start (comings_of N.asked.lines)))) direct.new }
    ensures follows { Follows front.old.world front.new.world }
    ensures made { (n : ℕ) → MadeFor (n + length direct.old) front.old.world →
        OnOk result (MadeFor (n + length direct.new) front.new.world) }
    ensures front { IsFrontOf N.asked front.new }
    ensures printer { told_of front.new.printer ≡ told_of front.old.printer }
    ensures posted { (first : List (PrintJob N)) → HasPosted N.asked start first front.old.printer →
        OnOk result (HasPosted N.asked (length turns.now) first front.new.printer) }
{
    known_turns::<N>();
    place_by_place();
    for place in start..turns.len() {
        late_turn(rt, front, turns[place], place as u32, direct)?;
    }
    Ok(())
}

/// One turn, whose query is late if it begins one.
fn late_turn<'c, 't, 'i: 't, N: RunName + 'static, R: Wait>(
    rt: &R,
    front: &mut Front<'c, 't, 'i, N>,
    turn: Turn,
    place: u32,
    direct: &mut DirectRecords,
) -> Result<(), Memory>
    requires turn { IsTurnAt N.asked place turn }
    requires front { IsFrontOf N.asked front.old }
    ensures direct { (start : ℕ) (first : List Run) → start ≤ place →
        AreRunsTo N.asked (front_exec N.asked.bases) start place first (map run_of_direct direct.old) →
        OnOk result (front.new.world.refused ≡ false
        → AreRunsTo N.asked (front_exec N.asked.bases) start (place + 1) first (map run_of_direct direct.new)) }
    ensures some { (start : ℕ) (first : List Run) → start ≤ place →
        AreRunsTo N.asked (front_exec N.asked.bases) start place first (map run_of_direct direct.old) →
        OnErr result (front.new.world.refused ≡ false
        → AreSomeRunsTo N.asked (front_exec N.asked.bases) start (place + 1) first (map run_of_direct direct.new)) }
    ensures told { (start : ℕ) (first : List Run) → start ≤ place → TellRunsTo N.asked (front_exec N.asked.bases) start place first direct.old →
        OnOk result (TellRunsTo N.asked (front_exec N.asked.bases) start (place + 1) first direct.new) }
    ensures told_some { (start : ℕ) (first : List Run) → start ≤ place → TellRunsTo N.asked (front_exec N.asked.bases) start place first direct.old →
        OnErr result (TellSomeRunsTo N.asked (front_exec N.asked.bases) start (place + 1) first direct.new) }
    ensures follows { Follows front.old.world front.new.world }
    ensures made { (n : ℕ) → MadeFor (n + length direct.old) front.old.world →
        OnOk result (MadeFor (n + length direct.new) front.new.world) }
    ensures front { IsFrontOf N.asked front.new }
    ensures printer { told_of front.new.printer ≡ told_of front.old.printer }
    ensures posted { (first : List (PrintJob N)) → HasPosted N.asked place first front.old.printer →
        OnOk result (HasPosted N.asked (place + 1) first front.new.printer) }
{
    place_by_place();
    match turn {
        Turn::Begin(query) => late_query(rt, front, query, place, direct),
        Turn::Cancel(number) => cancel_query(rt, front, place, number),
    }
}

/// Runs the tasks of a late query here.
fn late_query<'c, 't, 'i: 't, N: RunName + 'static, R: Wait>(
    rt: &R,
    front: &mut Front<'c, 't, 'i, N>,
    query: BegunQuery,
    place: u32,
    direct: &mut DirectRecords,
) -> Result<(), Memory>
    requires begun { IsBegun N.asked place query.number query.line query.documents }
    requires front { IsFrontOf N.asked front.old }
    ensures direct { (start : ℕ) (first : List Run) → start ≤ place →
        AreRunsTo N.asked (front_exec N.asked.bases) start place first (map run_of_direct direct.old) →
        OnOk result (front.new.world.refused ≡ false
        → AreRunsTo N.asked (front_exec N.asked.bases) start (place + 1) first (map run_of_direct direct.new)) }
    ensures some { (start : ℕ) (first : List Run) → start ≤ place →
        AreRunsTo N.asked (front_exec N.asked.bases) start place first (map run_of_direct direct.old) →
        OnErr result (front.new.world.refused ≡ false
        → AreSomeRunsTo N.asked (front_exec N.asked.bases) start (place + 1) first (map run_of_direct direct.new)) }
    ensures told { (start : ℕ) (first : List Run) → start ≤ place → TellRunsTo N.asked (front_exec N.asked.bases) start place first direct.old →
        OnOk result (TellRunsTo N.asked (front_exec N.asked.bases) start (place + 1) first direct.new) }
    ensures told_some { (start : ℕ) (first : List Run) → start ≤ place → TellRunsTo N.asked (front_exec N.asked.bases) start place first direct.old →
        OnErr result (TellSomeRunsTo N.asked (front_exec N.asked.bases) start (place + 1) first direct.new) }
    ensures follows { Follows front.old.world front.new.world }
    ensures made { (n : ℕ) → MadeFor (n + length direct.old) front.old.world →
        OnOk result (MadeFor (n + length direct.new) front.new.world) }
    ensures front { IsFrontOf N.asked front.new }
    ensures printer { told_of front.new.printer ≡ told_of front.old.printer }
    ensures posted { (first : List (PrintJob N)) → HasPosted N.asked place first front.old.printer →
        OnOk result (HasPosted N.asked (place + 1) first front.new.printer) }
{
    alike_lines_ask_the_same();
    begun_query_is_asked::<N>();
    place_by_place();
    tasks_are_runs();
    let ask = numbered_ask(
        front.lines,
        place,
        query.number,
        query.line,
        query.documents,
    );
    let number = ask.number();
    let queue = queue_number(prio_at(front.lines, query.line));
    let base = gathering_exec(number, front.bases);
    let shards = front.shards;
    let exec = ExecId(front.bases + 2);
    run_tasks_here(
        rt,
        &mut front.world,
        &ask,
        shards,
        queue,
        exec,
        base,
        direct,
    )
}
