//! More cells, with what the old ones held.
ghost use Rattle.std.specs.Prelude.{◌≡◌, ℕ, ◌+◌, ◌*◌, ◌^◌, ◌<◌, ◌≤◌, [], ◌++◌, IsPermutation, None, length, nat_eq, replicate, IfOk, OnOk, OnErr, if◌then◌else◌};
ghost use Rattle.id_table.specs.Cells.{filled, held, id_of, mark_of, pair_of, pairs_of};
ghost use Rattle.id_table.specs.Pairs.{has_id};
ghost use Rattle.id_table.specs.Probed.{IsProbed, IsOnce};
ghost use Rattle.id_table.specs.Table.{IsTable, HasRoom};

use crate::cell::Cell;
use crate::probe::fill;
use std::alloc::{AllocError, Global};
use std::mem::replace;

// There are three times 2^3 cells at first, and never more than three times 2^56, which no memory holds.
const FIRST_BITS: u32 = 3;

const MOST_BITS: u32 = 56;

// How many cells that is.
fn size_of(bits: u32) -> usize
    requires { bits ≤ 56 }
    ensures { result ≡ 3 * 2 ^ bits }
{
    3 * (1usize << bits)
}

fn empty_cells<V>(alloc: Global, bits: u32) -> Result<Vec<Option<Cell<V>>>, AllocError>
    requires { bits ≤ 56 }
    ensures { IfOk result (λ cells. cells.items ≡ replicate (3 * 2 ^ bits) None) }
{
    let size = size_of(bits);
    let mut cells = Vec::with_capacity(alloc, size)?;
    for _ in 0..size {
        cells.push_reserved(None);
    }
    Ok(cells)
}

// Fills a cell with what another one held, where it held something.
fn carry<V>(cells: &mut [Option<Cell<V>>], bits: u32, cell: Option<Cell<V>>)
    requires probed { IsProbed bits cells.old }
    requires free { 0 < mark_of cell → held (has_id (id_of cell)) cells.old ≡ 0 }
    requires room { 0 < mark_of cell → 3 * (filled cells.old + 1) ≤ 2 * length cells.old }
    ensures probed { IsProbed bits cells.new }
    ensures pairs { IsPermutation (pairs_of cells.new) (pair_of cell ++ pairs_of cells.old) }
{
    let Some(cell) = cell else { return };
    fill(cells, bits, cell);
}

// Fills empty cells with all that others held.
fn pour<V>(cells: &mut [Option<Cell<V>>], bits: u32, mut old: Vec<Option<Cell<V>>>)
    requires probed { IsProbed bits cells.old }
    requires none { pairs_of cells.old ≡ [] }
    requires once { IsOnce old.items }
    requires room { 3 * filled old.items ≤ 2 * length cells.old }
    ensures probed { IsProbed bits cells.new }
    ensures pairs { IsPermutation (pairs_of cells.new) (pairs_of old.items) }
{
    while let Some(cell) = old.pop() {
        carry(cells, bits, cell);
    }
    old.destroy_empty();
}

// The number of bits of the next size: twice the cells, or the first ones.
fn more_bits<V>(cells: &[Option<Cell<V>>], bits: u32, len: usize) -> u32
    requires { IsTable bits len cells.now }
    ensures next { result ≡ (if nat_eq (length cells.now) 0 then 3 else bits + 1) }
    ensures some { 2 < result }
    ensures room { len + 1 ≤ 2 * 2 ^ result }
{
    let size = cells.len();
    if size == 0 {
        return FIRST_BITS;
    }
    bits + 1
}

// Puts twice as many cells in place of these, with what they hold. A call that finds no memory leaves them as they were.
fn grow<V>(alloc: Global, cells: &mut Vec<Option<Cell<V>>>, bits: u32) -> Result<(), AllocError>
    requires some { 2 < bits }
    requires within { bits ≤ 56 }
    requires once { IsOnce cells.old.items }
    requires room { filled cells.old.items ≤ 2 * 2 ^ bits }
    ensures probed { OnOk result (IsProbed bits cells.new.items) }
    ensures pairs { OnOk result (IsPermutation (pairs_of cells.new.items) (pairs_of cells.old.items)) }
    ensures refused { OnErr result (cells.new ≡ cells.old) }
{
    let new = empty_cells(alloc, bits)?;
    let old = replace(cells, new);
    pour(cells, bits, old);
    Ok(())
}

// Sees to it that there is room for one more. A call that finds no memory leaves all as it was, and so does one that finds room.
pub(crate) fn make_room<V>(
    alloc: Global,
    cells: &mut Vec<Option<Cell<V>>>,
    bits: &mut u32,
    len: usize,
) -> Result<(), AllocError>
    requires { IsTable bits.old len cells.old.items }
    ensures still { 3 * (len + 1) ≤ 2 * length cells.old.items → cells.new ≡ cells.old }
    ensures next { OnOk result (2 * length cells.old.items < 3 * (len + 1) → bits.new ≡ (if nat_eq (length cells.old.items) 0 then 3 else bits.old + 1)) }
    ensures room { OnOk result (HasRoom bits.new len cells.new.items) }
    ensures pairs { OnOk result (IsPermutation (pairs_of cells.new.items) (pairs_of cells.old.items)) }
    ensures bits { OnErr result (bits.new ≡ bits.old) }
    ensures cells { OnErr result (cells.new ≡ cells.old) }
{
    let most = cells.len() / 3 * 2;
    if len < most {
        return Ok(());
    }
    let more = more_bits(cells, *bits, len);
    if more > MOST_BITS {
        return Err(AllocError);
    }
    grow(alloc, cells, more)?;
    *bits = more;
    Ok(())
}
