ghost use Rattle.std.specs.Prelude.{◌≡◌, ◌≤◌, ◌++◌, ◌∷◌, [], List, length, OnOk, IfOk};
ghost use Rattle.query_model.specs.declared.line.Line.{Line};
ghost use Rattle.query_model.specs.Documents.{queries_of};
ghost use Rattle.front_walk.specs.Following.{IsInput};
ghost use Rattle.run_plan.specs.Turns.{AreTurnsOf};
ghost use Rattle.run_plan.specs.Planning.{IsNoted};

use crate::laws::comings_are_queries;
use crate::turn::{BegunQuery, Turn};
use fan_base::{ExecId, Memory};
use front_walk::{AtTurn, QueryTurn, walk};
use query_model::{Lines, Query};
use std::alloc::Global;
use std::marker::{Brand, PhantomData};
use std::sync::Wait;

// The lines that are planned.
pub(crate) trait Planned {
    ghost lines: { List Line };
}

impl Planned for Brand {
    ghost lines = { [] };
}

// A hook that notes what comes.
#[derive(Drop)]
struct Planner<N: Planned> {
    turns: Vec<Turn>,
    of: PhantomData<N>,
    ghost few: { length (queries_of N.lines) ≤ 50000 },
}

impl<N: Planned> AtTurn for Planner<N> {
    ghost lines = { N.lines };

    ghost does = { λ place coming before sufficed after. IsNoted N.lines coming sufficed before.turns.items after.turns.items };

    fn begin<R: Wait>(
        &mut self,
        _rt: &R,
        _place: u64,
        turn: QueryTurn,
        _query: &Query,
    ) -> Result<(), Memory> {
        comings_are_queries();
        note(
            &mut self.turns,
            Turn::Begin(BegunQuery {
                number: turn.number as u32,
                line: turn.line,
                documents: turn.documents,
            }),
        )
    }

    fn cancel<R: Wait>(&mut self, _rt: &R, _place: u64, number: u64) -> Result<(), Memory> {
        comings_are_queries();
        note(&mut self.turns, Turn::Cancel(number as u32))
    }
}

fn note(turns: &mut Vec<Turn>, turn: Turn) -> Result<(), Memory>
    ensures { OnOk result (turns.new.items ≡ turns.old.items ++ turn ∷ []) }
{
    match turns.push(turn) {
        Ok(()) => Ok(()),
        Err(_) => Err(Memory),
    }
}

/// The turns of all queries, place by place. The lines are gone through once, with a timer base of this executor (of which no clause speaks).
pub fn plan<R: Wait>(
    rt: &R,
    alloc: Global,
    exec: ExecId,
    lines: &Lines,
) -> Result<Vec<Turn>, Memory>
    requires input { IsInput lines.now }
    ensures turns { IfOk result (λ turns. AreTurnsOf lines.now turns.items) }
{
    plan_named::<Brand, R>(rt, alloc, exec, lines)
}

// The same, under a name of these lines.
fn plan_named<N: Planned, R: Wait>(
    rt: &R,
    alloc: Global,
    exec: ExecId,
    lines: &Lines,
) -> Result<Vec<Turn>, Memory>
    requires input { IsInput lines.now }
    requires lines { lines.now ≡ N.lines }
    ensures turns { IfOk result (λ turns. AreTurnsOf lines.now turns.items) }
{
    let mut planner = Planner::<N> {
        turns: Vec::new(alloc),
        of: PhantomData,
    };
    let Ok(()) = walk(rt, alloc, exec, lines, &mut planner) else {
        return Err(Memory);
    };
    Ok(planner.turns)
}
