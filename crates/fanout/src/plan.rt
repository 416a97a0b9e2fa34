ghost use Rattle.std.specs.Prelude.{◌≡◌, ◌≤◌, IfOk};
ghost use Rattle.query_model.specs.Alike.{AreAlike};
ghost use Rattle.front_walk.specs.Following.{IsInput};
ghost use Rattle.run_notes.specs.Counting.{HasCounted};
ghost use Rattle.run_plan.specs.Turns.{AreTurnsOf};
ghost use Rattle.fanout.specs.Plans.{AreFew};

use crate::run::Knobs;
use fan_base::{ExecId, Memory};
use fan_parts::{RunName, RunShards};
use query_model::Lines;
use run_notes::Counted;
use run_plan::laws::alike_lines_have_the_same_turns;
use run_plan::{Turn, count, plan};
use std::alloc::Global;
use std::sync::Wait;

/// What a run is over: its lines and its shards, the turns of its queries, how many are answered, behind how many turns its pool is stopped,
/// how it is to be made, and its gate.
#[derive(Drop)]
pub(crate) struct RunPlan<'i, 'g, N: RunName, G> {
    pub(crate) lines: &'i Lines,
    pub(crate) shards: RunShards<'i, N>,
    pub(crate) turns: &'g [Turn],
    pub(crate) counted: &'g Counted,
    pub(crate) stop: Option<usize>,
    pub(crate) knobs: Knobs,
    pub(crate) gate: &'g G,
}

/// The turns of the run, of lines that are alike to its own.
pub(crate) fn turns_of_run<N: RunName, R: Wait>(
    rt: &R,
    alloc: Global,
    exec: ExecId,
    lines: &Lines,
) -> Result<Vec<Turn>, Memory>
    requires input { IsInput lines.now }
    requires alike { AreAlike lines.now N.asked.lines }
    ensures walked { IfOk result (λ turns. AreTurnsOf lines.now turns.items) }
    ensures turns { IfOk result (λ turns. AreTurnsOf N.asked.lines turns.items) }
{
    alike_lines_have_the_same_turns();
    plan(rt, alloc, exec, lines)
}

/// How many queries of the run are answered, of lines that are alike to its own.
pub(crate) fn counts_of_run<N: RunName>(
    alloc: Global,
    lines: &Lines,
    turns: &[Turn],
    bases: u32,
) -> Result<Counted, Memory>
    requires input { IsInput lines.now }
    requires alike { AreAlike lines.now N.asked.lines }
    requires turns { AreTurnsOf lines.now turns.now }
    requires bases { (1 ≤ bases) × (bases ≡ N.asked.bases) }
    ensures counted { IfOk result (HasCounted N.asked.lines N.asked.bases) }
    ensures few { IfOk result AreFew }
{
    alike_lines_have_the_same_turns();
    count(alloc, lines, turns, bases)
}
