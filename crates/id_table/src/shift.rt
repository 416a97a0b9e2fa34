//! The removal: the cells after a gap move back.
ghost use Rattle.std.specs.Prelude.{◌≡◌, ◌≢◌, ℕ, ◌<◌, ◌∷◌, IsPermutation, None, Some, length, slice_index_or, slice_set};
ghost use Rattle.id_table.specs.Cells.{id_at, mark_at, pairs_of};
ghost use Rattle.id_table.specs.Probed.{IsProbed, IsShifting, IsSized};
ghost use Rattle.id_table.specs.Ring.{next};

use crate::cell::Cell;
use crate::probe::put;
use crate::ring::{after, home, steps_from};

// Moves a cell into the hole where its id's home allows it, and gives the place of the hole then.
fn shift<V>(cells: &mut [Option<Cell<V>>], bits: u32, hole: usize, cell: usize, id: u64) -> usize
    requires sized { IsSized bits cells.old }
    requires hole { hole < length cells.old }
    requires cell { cell < length cells.old }
    requires apart { hole ≢ cell }
    requires empty { mark_at cells.old hole ≡ 0 }
    requires filled { 0 < mark_at cells.old cell }
    requires id { id ≡ id_at cells.old cell }
    ensures len { length cells.new ≡ length cells.old }
    ensures pairs { IsPermutation (pairs_of cells.new) (pairs_of cells.old) }
    ensures shifting { (end : ℕ) → IsShifting bits cells.old hole cell end
        → IsShifting bits cells.new result (next (length cells.old) cell) end }
{
    let from = home(bits, id);
    let own = steps_from(cells.len(), from, cell);
    let gap = steps_from(cells.len(), hole, cell);
    if own < gap {
        return hole;
    }
    let moved = cells[cell].take();
    put(cells, hole, moved);
    cell
}

// Takes what a cell holds, and moves back those that were put after it because it was filled.
#[inline(always)]
pub(crate) fn take_out<V>(cells: &mut [Option<Cell<V>>], bits: u32, gone: usize) -> Cell<V>
    requires probed { IsProbed bits cells.old }
    requires within { gone < length cells.old }
    requires filled { 0 < mark_at cells.old gone }
    ensures was { slice_index_or cells.old gone None ≡ Some result }
    ensures probed { IsProbed bits cells.new }
    ensures pairs { IsPermutation (pairs_of cells.old) ((result.id, result.value) ∷ pairs_of cells.new) }
{
    let size = cells.len();
    let Some(taken) = cells[gone].take() else {
        unreachable!()
    };
    let first = after(size, gone);
    let mut hole = gone;
    let mut cell = first;
    while let Some(other) = &cells[cell] {
        let id = other.id;
        hole = shift(cells, bits, hole, cell, id);
        cell = after(size, cell);
    }
    taken
}
