ghost use Rattle.std.specs.Prelude.{◌≡◌, ◌+◌, ◌≤◌, ◌++◌, ◌∷◌, [], ℕ, List, None, Some, false, true, not, length, map, take, vec_capacity};
ghost use Rattle.std.specs.Bool.{OnTrue};
ghost use Rattle.fan_model.specs.Answered.{answered_in, is_stopped};
ghost use Rattle.fan_model.specs.Comings.{comings_of};
ghost use Rattle.fan_model.specs.Report.{IsPoolReport};
ghost use Rattle.fan_model.specs.Tasks.{early_runs, late_runs};
ghost use Rattle.fan_parts.specs.declared.jobs.PrintJob.{PrintJob};
ghost use Rattle.front_walk.specs.Following.{IsInput};
ghost use Rattle.pool_model.specs.Passes.{AreAllEnds, AreAllPasses, adds_total};
ghost use Rattle.query_tasks.specs.Ends.{is_stop, seen_of};
ghost use Rattle.run_front.specs.Fronts.{AreSomeOf, IsFrontOf, TellSomeOf};
ghost use Rattle.run_front.specs.Posted.{HasPosted, cancelled_from};
ghost use Rattle.run_notes.specs.Accounts.{AllDone, runs_added};
ghost use Rattle.run_notes.specs.Told.{run_of_direct, told_of as told_by};
ghost use Rattle.run_plan.specs.Turns.{AreTurnsOf};
ghost use Rattle.run_tasks.specs.Leaving.{MakesMore};
ghost use Rattle.run_tasks.specs.Worlds.{AreEndsFor, Follows, MadeFor, StaysPass, told_of};
ghost use Rattle.run_phases.specs.Phases.{IsDoneBy, IsJoinAccount, IsLeftAsItWas, IsStopAccount, StopsAt};

use crate::first::FrontMid;
use fan_base::Memory;
use fan_parts::RunName;
use prio_pool::{HelperEnd, WorkerEnd};
use query_tasks::{TaskPool, end_pool};
use run_front::{Front, FrontEnds, late_turns};
use run_notes::{DirectRecords, PoolNote, PoolNotes};
use run_plan::Turn;
use run_tasks::ShardTask;
use std::alloc::Global;
use std::sync::Wait;

/// What the front leaves: what became of the pool's tasks, the ends of its posters with what was counted, and whether memory was refused.
pub struct FrontLeft<'t, N: RunName> {
    pub note: PoolNote,
    pub ends: FrontEnds<'t, N>,
    pub refused: bool,
}

/// Ends the pool with the ends of all workers, runs what still waited or was handed back, then the tasks of all late queries, and ends the
/// front's posters. `helped` is an empty list with room for the helper's end.
pub fn second_phase<'c, 't, 'i: 't, N: RunName + 'static, R: Wait>(
    rt: &R,
    alloc: Global,
    pool: TaskPool<'t, 'i, N>,
    ends: Vec<WorkerEnd<ShardTask<'t, 'i, N>>>,
    helped: Vec<HelperEnd<ShardTask<'t, 'i, N>>>,
    turns: &[Turn],
    stop: Option<usize>,
    mid: FrontMid<'c, 't, 'i, N>,
) -> FrontLeft<'t, N>
    requires turns { AreTurnsOf N.asked.lines turns.now }
    requires stop { StopsAt N.asked turns.now stop }
    requires input { IsInput N.asked.lines }
    requires front { IsFrontOf N.asked mid.front }
    requires pool { (seen_of mid.ending).pool ≡ pool.id }
    requires passes { AreAllPasses pool.id pool.adders (seen_of mid.ending).passes }
    requires ends { AreAllEnds pool.id pool.workers ends.items }
    requires helper { AreAllEnds pool.id pool.helpers (mid.helper ∷ []) }
    requires helped { (helped.items ≡ []) × (1 ≤ vec_capacity helped) }
    requires added { mid.refused ≡ false → runs_added (seen_of mid.ending).passes ≡ early_runs N.asked.lines N.asked.shards N.asked.stop_at }
    requires stops { is_stop mid.ending ≡ is_stopped N.asked.stop_at (answered_in N.asked.lines) }
    ensures report { result.refused ≡ false → result.ends.tasks.refused ≡ false → AllDone (ends.entry.items ++ mid.entry.helper ∷ [])
        → IsPoolReport N.asked (told_by result.note) }
    ensures stopped { result.note.ran.stopped ≡ is_stopped N.asked.stop_at (answered_in N.asked.lines) }
    ensures account { result.note.ran.stopped ≡ true → IsStopAccount N.asked mid.entry result }
    ensures ran { result.note.ran.stopped ≡ false → IsJoinAccount mid.entry result }
    ensures late { result.ends.tasks.refused ≡ false →
        AreSomeOf [] (late_runs N.asked.lines N.asked.shards N.asked.bases N.asked.stop_at) (map run_of_direct result.note.direct) }
    ensures refused { result.ends.tasks.refused ≡ false → mid.entry.front.world.refused ≡ false }
    ensures handed { result.ends.tasks.refused ≡ false → result.ends.tasks.tally.handed ≡ mid.entry.front.world.tally.handed }
    ensures made { MadeFor (adds_total (seen_of mid.entry.ending).passes) mid.entry.front.world → result.refused ≡ false →
        result.ends.tasks.refused ≡ false → MakesMore (result.note.accepted + length result.note.direct) result.ends.tasks.tally }
    ensures posters { AreEndsFor (map told_of mid.entry.front.world.posters) result.ends.tasks.posters.items }
    ensures pass { StaysPass mid.entry.front.world.pass result.ends.tasks.pass }
    ensures printer { IsDoneBy mid.entry.front.printer result.ends.printer }
    ensures posted { (place : ℕ) (first : List (PrintJob N)) → stop ≡ Some place → HasPosted N.asked place first mid.entry.front.printer →
        result.refused ≡ false → result.ends.printer.sent ≡ first ++ cancelled_from N.asked 0 (take (length turns.now) (comings_of N.asked.lines)) }
    ensures joined { stop ≡ None → IsLeftAsItWas mid.entry result.refused result.ends }
{
    let FrontMid {
        mut front,
        ending,
        helper,
        refused,
    } = mid;
    let mut helped = helped;
    helped.push_reserved(helper.end());
    let PoolNotes {
        accepted,
        ran,
        returned,
        missed,
    } = end_pool(rt, alloc, pool, ending, ends, helped, &mut front.world);
    let mut direct = DirectRecords::new(alloc);
    let done = turns_behind(rt, &mut front, turns, stop, refused, &mut direct);
    FrontLeft {
        note: PoolNote {
            accepted,
            ran,
            returned,
            direct,
        },
        ends: front.end(rt),
        refused: missed || !done,
    }
}

/// The late turns, where the pool was stopped and the first phase didn't say that memory was refused. Whether all of them were made.
fn turns_behind<'c, 't, 'i: 't, N: RunName + 'static, R: Wait>(
    rt: &R,
    front: &mut Front<'c, 't, 'i, N>,
    turns: &[Turn],
    stop: Option<usize>,
    refused: bool,
    direct: &mut DirectRecords,
) -> bool
    requires turns { AreTurnsOf N.asked.lines turns.now }
    requires stop { StopsAt N.asked turns.now stop }
    requires input { IsInput N.asked.lines }
    requires front { IsFrontOf N.asked front.old }
    requires none { direct.old ≡ [] }
    ensures fine { OnTrue result (refused ≡ false) }
    ensures direct { OnTrue result (front.new.world.refused ≡ false
        → map run_of_direct direct.new ≡ late_runs N.asked.lines N.asked.shards N.asked.bases N.asked.stop_at) }
    ensures some { front.new.world.refused ≡ false →
        AreSomeOf [] (late_runs N.asked.lines N.asked.shards N.asked.bases N.asked.stop_at) (map run_of_direct direct.new) }
    ensures told { TellSomeOf [] (late_runs N.asked.lines N.asked.shards N.asked.bases N.asked.stop_at) direct.new }
    ensures follows { Follows front.old.world front.new.world }
    ensures made { (n : ℕ) → MadeFor n front.old.world → OnTrue result (MadeFor (n + length direct.new) front.new.world) }
    ensures printer { told_of front.new.printer ≡ told_of front.old.printer }
    ensures posted { (place : ℕ) (first : List (PrintJob N)) → stop ≡ Some place → HasPosted N.asked place first front.old.printer →
        OnTrue result (HasPosted N.asked (length turns.now) first front.new.printer) }
    ensures joined { stop ≡ None → (result ≡ not refused) × (front.new ≡ front.old) }
    ensures none { stop ≡ None → direct.new ≡ direct.old }
    ensures untold { refused ≡ true → direct.new ≡ direct.old }
{
    if refused {
        return false;
    }
    let Some(place) = stop else {
        return true;
    };
    match late_turns(rt, front, turns, place, direct) {
        Ok(()) => true,
        Err(Memory) => false,
    }
}
