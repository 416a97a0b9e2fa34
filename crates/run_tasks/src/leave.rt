//! How a task's core is left.
ghost use Rattle.std.specs.Prelude.{◌≡◌};
ghost use Rattle.core_cells.specs.Seen.{next_key};
ghost use Rattle.core_word.specs.Answers.{MatchLeft};
ghost use Rattle.run_tasks.specs.Leaving.{HasDemanded, LeavesCell, PutsBack, with_reopened};

use core_cells::{CellPass, Cells};
use core_word::{Left, LeftC, LeftP, Tally};
use std::sync::Wait;

/// Leaves a core of a cell on the producer's side. The later half gives the cell back, and drops what was left over.
pub fn leave_cell<'h, T: Drop, C, P: Drop, R: Wait>(
    rt: &R,
    cells: &Cells<'h, T, C, P>,
    pass: &mut CellPass<'h, T, C, P>,
    left: LeftP<'h, T, C, P>,
    t: &mut Tally,
)
    requires { pass.old.cells ≡ cells.now }
    ensures { LeavesCell left.entry.home left.entry.use_number pass.old t.old pass.new t.new }
{
    give_back_last(rt, cells, pass, left.leave(), t);
}

/// Leaves a core of a cell on the consumer's side, whose callback is set. The later half gives the cell back, and drops what was left over.
pub fn leave_by_consumer<'h, T: Drop, C, P: Drop, R: Wait>(
    rt: &R,
    cells: &Cells<'h, T, C, P>,
    pass: &mut CellPass<'h, T, C, P>,
    left: LeftC<'h, T, C, P>,
    t: &mut Tally,
)
    requires of { pass.old.cells ≡ cells.now }
    requires set { HasDemanded left.demand }
    ensures { LeavesCell left.entry.home left.entry.use_number pass.old t.old pass.new t.new }
{
    give_back_last(rt, cells, pass, left.leave(), t);
}

/// Gives the cell of a core back whose last half has left, and drops what was left over.
#[tactic(auto, using(crate::proofs::LeavingLemmas::full_back))]
fn give_back_last<'h, T: Drop, C, P: Drop, R: Wait>(
    rt: &R,
    cells: &Cells<'h, T, C, P>,
    pass: &mut CellPass<'h, T, C, P>,
    left: Left<'h, T, C, P>,
    t: &mut Tally,
)
    requires { pass.old.cells ≡ cells.now }
    ensures { MatchLeft left.entry (λ receipt. (pass.new ≡ pass.old) × (t.new ≡ t.old))
        (λ leftover husk. PutsBack (next_key husk) pass.old pass.new × (t.new ≡ with_reopened t.old)) }
{
    match left {
        Left::First(_receipt) => {}
        Left::Last(_leftover, husk) => match cells.give_back(rt, pass, husk, t) {
            Ok(()) => {}
            Err(_key) => {}
        },
    }
}
