ghost use Rattle.std.specs.Prelude.{◌≡◌, ◌≤◌, ℕ, List, [], false, length, take};
ghost use Rattle.fan_model.specs.Answered.{answered_in, early_of, is_stopped};
ghost use Rattle.fan_model.specs.Comings.{comings_of};
ghost use Rattle.fan_model.specs.Tasks.{early_runs, pool_exec};
ghost use Rattle.fan_parts.specs.declared.jobs.PrintJob.{PrintJob};
ghost use Rattle.front_walk.specs.Following.{IsInput};
ghost use Rattle.pool_model.specs.Passes.{AreAllPasses, adds_total};
ghost use Rattle.query_tasks.specs.Ends.{is_stop, seen_of};
ghost use Rattle.query_tasks.specs.Starting.{HasHelped};
ghost use Rattle.run_front.specs.Fronts.{AreSomeOf, IsFrontOf};
ghost use Rattle.run_front.specs.Posted.{HasPosted};
ghost use Rattle.run_notes.specs.Accounts.{runs_added};
ghost use Rattle.run_plan.specs.Turns.{AreTurnsOf, begun_in};
ghost use Rattle.run_tasks.specs.Worlds.{MadeFor, told_of};
ghost use Rattle.run_phases.specs.Phases.{AreOfOneAdder, IsOneAdder, StopsAt, early_place};

use fan_base::{Gate, Memory};
use fan_parts::RunName;
use keep_alive::{KeepAlive, KeepOwner};
use pool_model::passes_in_order_are_all;
use query_tasks::{Ending, TaskAdder, TaskHelper, TaskPool, begin_end};
use run_front::{Front, early_turns};
use run_plan::Turn;
use run_plan::laws::place_by_place;
use std::sync::Wait;

/// What the front has before the pool has a task: what it works with, the owner and the first of the pool's keep-alives, the one adder's pass,
/// and the helper's.
pub struct FrontStart<'c, 't, 'i: 't, N: RunName> {
    pub front: Front<'c, 't, 'i, N>,
    pub owner: KeepOwner,
    pub keep: KeepAlive,
    pub adders: Vec<TaskAdder<'t, 'i, N>>,
    pub helper: TaskHelper<'t, 'i, N>,
}

/// What it has once the pool's end has begun, and whether memory was refused.
pub struct FrontMid<'c, 't, 'i: 't, N: RunName> {
    pub front: Front<'c, 't, 'i, N>,
    pub ending: Ending<'t, 'i, N>,
    pub helper: TaskHelper<'t, 'i, N>,
    pub refused: bool,
}

/// Adds the tasks of all early queries to the pool, in the order of answers, and begins the pool's end. `stop` is the place behind which the
/// pool is stopped; without it the pool is joined. Where memory runs out the end begins earlier, and only the tasks before that were added.
pub fn first_phase<'c, 't, 'i: 't, N: RunName + 'static, G: Gate, R: Wait>(
    rt: &R,
    pool: &TaskPool<'t, 'i, N>,
    gate: &G,
    turns: &[Turn],
    stop: Option<usize>,
    start: FrontStart<'c, 't, 'i, N>,
) -> FrontMid<'c, 't, 'i, N>
    requires turns { AreTurnsOf N.asked.lines turns.now }
    requires stop { StopsAt N.asked turns.now stop }
    requires input { IsInput N.asked.lines }
    requires front { IsFrontOf N.asked start.front }
    requires pool { (pool.now.exec ≡ pool_exec) × (length pool.now.id.queues ≡ 3) }
    requires owner { start.owner.count ≡ pool.now.count }
    requires keep { start.keep.count ≡ pool.now.count }
    requires adders { IsOneAdder pool.now.id start.adders.items }
    requires one { pool.now.adders ≡ 1 }
    requires helper { start.helper.pool ≡ pool.now.id }
    ensures added { result.refused ≡ false → runs_added (seen_of result.ending).passes ≡ early_runs N.asked.lines N.asked.shards N.asked.stop_at }
    ensures some { AreSomeOf [] (early_runs N.asked.lines N.asked.shards N.asked.stop_at) (runs_added (seen_of result.ending).passes) }
    ensures pool { (seen_of result.ending).pool ≡ pool.now.id }
    ensures passes { AreAllPasses pool.now.id pool.now.adders (seen_of result.ending).passes }
    ensures adders { AreOfOneAdder (seen_of result.ending).passes }
    ensures stops { is_stop result.ending ≡ is_stopped N.asked.stop_at (answered_in N.asked.lines) }
    ensures helped { HasHelped start.entry.front.world start.entry.helper result.front.world result.helper }
    ensures made { MadeFor 0 start.entry.front.world → MadeFor (adds_total (seen_of result.ending).passes) result.front.world }
    ensures front { IsFrontOf N.asked result.front }
    ensures printer { told_of result.front.printer ≡ told_of start.entry.front.printer }
    ensures posted { (first : List (PrintJob N)) → HasPosted N.asked 0 first start.entry.front.printer → result.refused ≡ false →
        HasPosted N.asked (early_place stop turns.now) first result.front.printer }
{
    let FrontStart {
        mut front,
        owner,
        keep,
        mut adders,
        mut helper,
    } = start;
    passes_in_order_are_all();
    let end = early_end::<N>(turns, stop);
    let added = early_turns(
        rt,
        &mut front,
        pool,
        &keep,
        &mut adders[0],
        &mut helper,
        gate,
        turns,
        end,
    );
    let released = keep.release();
    let ending = begin_end(rt, pool, owner, adders, released, stop.is_some());
    let refused = match added {
        Ok(()) => false,
        Err(Memory) => true,
    };
    FrontMid {
        front,
        ending,
        helper,
        refused,
    }
}

/// Behind how many turns all early queries were begun.
fn early_end<N: RunName>(turns: &[Turn], stop: Option<usize>) -> usize
    requires turns { AreTurnsOf N.asked.lines turns.now }
    requires stop { StopsAt N.asked turns.now stop }
    ensures within { result ≤ length turns.now }
    ensures early { begun_in (take result (comings_of N.asked.lines)) ≡ early_of N.asked.stop_at (answered_in N.asked.lines) }
    ensures at { result ≡ early_place stop turns.now }
{
    place_by_place();
    match stop {
        Some(place) => place,
        None => turns.len(),
    }
}
