//! The look for an id, and the cells that are filled.
ghost use Rattle.std.specs.Prelude.{◌≡◌, ◌≢◌, ℕ, ◌+◌, ◌*◌, ◌<◌, ◌≤◌, ◌∷◌, IsPermutation, None, Some, length, slice_index_or, slice_set};
ghost use Rattle.id_table.specs.Cells.{filled, held, pairs_of};
ghost use Rattle.id_table.specs.Pairs.{has_id};
ghost use Rattle.id_table.specs.Probed.{IsProbed, EndsLook};

use crate::cell::Cell;
use crate::ring::{after, home};
use std::mem::replace;

// The cell that has the id, or else the empty one at which the look for it ends.
pub(crate) fn look<V>(cells: &[Option<Cell<V>>], bits: u32, id: u64) -> usize
    requires probed { IsProbed bits cells.now }
    ensures { EndsLook bits cells.now id result }
{
    let mut cell = home(bits, id);
    while let Some(other) = &cells[cell] {
        if other.id == id {
            return cell;
        }
        cell = after(cells.len(), cell);
    }
    cell
}

// Puts something into an empty cell.
pub(crate) fn put<V>(cells: &mut [Option<Cell<V>>], at: usize, new: Option<Cell<V>>)
    requires within { at < length cells.old }
    requires empty { slice_index_or cells.old at None ≡ None }
    ensures { cells.new ≡ slice_set cells.old at new }
{
    let old = replace(&mut cells[at], new);
    let None = old else { unreachable!() };
}

// Fills a cell with an id that no cell has. There is room for one more.
pub(crate) fn fill<V>(cells: &mut [Option<Cell<V>>], bits: u32, new: Cell<V>)
    requires probed { IsProbed bits cells.old }
    requires free { held (has_id new.id) cells.old ≡ 0 }
    requires room { 3 * (filled cells.old + 1) ≤ 2 * length cells.old }
    ensures probed { IsProbed bits cells.new }
    ensures pairs { IsPermutation (pairs_of cells.new) ((new.id, new.value) ∷ pairs_of cells.old) }
{
    let cell = look(cells, bits, new.id);
    put(cells, cell, Some(new));
}
