//! The table from ids to values.
ghost use Rattle.std.specs.Prelude.{◌≡◌, ◌≢◌, ℕ, ◌<◌, ◌++◌, true, false, None, Some, length, slice_index_or, IfOk, OnOk};
ghost use Rattle.std.specs.List.{flat_map};
ghost use Rattle.id_table.specs.Cells.{id_list_of, mark_at, pairs_of, renumbered, replaced};

use crate::cell::Cell;
use crate::probe::{fill, look, put};
use crate::refill::make_room;
use crate::ring::home;
use crate::shift::take_out;
use std::alloc::{AllocError, Global};
use std::marker::Model;

/// A table of values by their ids, each id held once. Contracts see the list of its pairs, in an order that means nothing.
#[derive(Debug, Drop)]
pub struct IdTable<V> {
    alloc: Global,
    bits: u32,
    len: usize,
    // How many of the cells that were touched held something: so they are read, though nothing needs it.
    touched: u32,
    cells: Vec<Option<Cell<V>>>,
}

impl<V> Model for IdTable<V> {
    ghost use Rattle.std.specs.Prelude.{ℕ, List};
    ghost use Rattle.id_table.specs.Cells.{pairs_of};
    ghost use Rattle.id_table.specs.Table.{IsTable};

    ghost Value = { List (ℕ × V) };

    ghost view = { λ table. pairs_of table.cells.items };

    ghost invariant = { λ table. IsTable table.bits table.len table.cells.items };
}

// Notes the id of what a cell holds.
fn note_id<V>(ids: &mut Vec<u64>, cell: &Option<Cell<V>>) -> Result<(), AllocError>
    ensures { OnOk result (ids.new.items ≡ ids.old.items ++ id_list_of cell.now) }
{
    let Some(cell) = cell else { return Ok(()) };
    ids.push(cell.id)?;
    Ok(())
}

// The ids of what the cells hold.
fn ids_in<V>(alloc: Global, cells: &[Option<Cell<V>>]) -> Result<Vec<u64>, AllocError>
    ensures { IfOk result (λ ids. ids.items ≡ flat_map id_list_of cells.now) }
{
    let mut ids = Vec::new(alloc);
    for cell in cells {
        note_id(&mut ids, cell)?;
    }
    Ok(ids)
}

/// Lets empty cells go, also where what they could hold may not be dropped.
pub fn destroy_cells<V>(mut cells: Vec<Option<Cell<V>>>)
    requires { (k : ℕ) → slice_index_or cells.items k None ≡ None }
{
    while let Some(cell) = cells.pop() {
        let None = cell else { unreachable!() };
    }
    cells.destroy_empty();
}

// Gives what a cell holds another number in the first half of its value.
fn renumber<X>(cells: &mut [Option<Cell<(u64, X)>>], at: usize, number: u64)
    requires within { at < length cells.old }
    requires filled { 0 < mark_at cells.old at }
    ensures { (cell : Cell (ℕ × X)) → slice_index_or cells.old at None ≡ Some cell → cells.new ≡ replaced cells.old at (renumbered cell number) }
{
    let Some(
        Cell {
            id,
            value: (_, rest),
        },
    ) = cells[at].take()
    else {
        unreachable!()
    };
    let new = Cell {
        id,
        value: (number, rest),
    };
    put(cells, at, Some(new));
}

// The same where it has a certain number there, and whether it has. The number is written where it is.
fn renumber_where<X>(
    cells: &mut Vec<Option<Cell<(u64, X)>>>,
    at: usize,
    before: u64,
    number: u64,
) -> bool
    requires within { at < length cells.old.items }
    ensures filled { result ≡ true → 0 < mark_at cells.old.items at }
    ensures had { result ≡ true → (cell : Cell (ℕ × X)) → slice_index_or cells.old.items at None ≡ Some cell → cell.value.0 ≡ before }
    ensures set { result ≡ true → (cell : Cell (ℕ × X)) → slice_index_or cells.old.items at None ≡ Some cell
        → cells.new.items ≡ replaced cells.old.items at (renumbered cell number) }
    ensures other { result ≡ false → (cell : Cell (ℕ × X)) → slice_index_or cells.old.items at None ≡ Some cell → cell.value.0 ≢ before }
    ensures same { result ≡ false → cells.new.items ≡ cells.old.items }
{
    let Some(cell) = &mut cells[at] else {
        return false;
    };
    if cell.value.0 != before {
        return false;
    }
    cell.value.0 = number;
    true
}

impl<V> IdTable<V> {
    ghost use Rattle.std.specs.Prelude.{◌≡◌, ℕ, ◌+◌, ◌∷◌, ◌↔◌, ◌==◌, [], length, map, option_copied, IsPermutation, IsTrue, Some, None, IfSome, IfOk, IfErr, OnOk, OnErr, if◌then◌else◌};
    ghost use Rattle.std.specs.List.{flat_map};
    ghost use Rattle.id_table.specs.Cells.{pair_of};
    ghost use Rattle.id_table.specs.Pairs.{value_of, AreDistinct};

    /// Holds nothing. It takes no memory before the first [`IdTable::insert`].
    pub fn new(alloc: Global) -> IdTable<V>
        ensures { result ≡ [] }
    {
        IdTable {
            alloc,
            bits: 0,
            len: 0,
            touched: 0,
            cells: Vec::new(alloc),
        }
    }

    /// How many ids are held.
    pub fn len(&self) -> usize
        ensures { result ≡ length self.now }
    {
        self.len
    }

    /// Whether no id is held.
    pub fn is_empty(&self) -> bool
        ensures { IsTrue result ↔ (length self.now ≡ 0) }
    {
        self.len == 0
    }

    /// The value of an id, None exactly where the id isn't held.
    pub fn get(&self, id: u64) -> Option<&V>
        ensures value { option_copied result ≡ value_of self.now id }
        ensures distinct { AreDistinct self.now }
    {
        let len = self.len;
        if len == 0 {
            return None;
        }
        let at = look(&self.cells, self.bits, id);
        let Some(cell) = &self.cells[at] else {
            return None
        };
        Some(&cell.value)
    }

    /// Reads the cell at which the look for an id begins, so that it is near when the id is looked for. Nothing changes.
    pub fn touch(&mut self, id: u64)
        ensures { self.new ≡ self.old }
    {
        let len = self.len;
        if len == 0 {
            return;
        }
        let at = home(self.bits, id);
        let filled = self.cells[at].is_some();
        self.touched = self.touched.wrapping_add(filled as u32);
    }

    /// Holds an id with its value. A call that finds no memory leaves all as it was, and gives the value back.
    pub fn insert(&mut self, id: u64, value: V) -> Result<(), V>
        requires free { value_of self.old id ≡ None }
        ensures values { OnOk result ((q : ℕ) → value_of self.new q ≡ (if q == id then Some value else value_of self.old q)) }
        ensures pairs { OnOk result (IsPermutation self.new ((id, value) ∷ self.old)) }
        ensures len { OnOk result (length self.new ≡ length self.old + 1) }
        ensures distinct { OnOk result (AreDistinct self.new) }
        ensures back { IfErr result (λ back. back ≡ value) }
        ensures refused { OnErr result (self.new ≡ self.old) }
    {
        if let Err(_) = make_room(self.alloc, &mut self.cells, &mut self.bits, self.len) {
            return Err(value);
        }
        fill(&mut self.cells, self.bits, Cell { id, value });
        self.len += 1;
        Ok(())
    }

    /// Takes an id out and gives its value, None exactly where the id isn't held. It takes no memory.
    // As a call it would hand the value over in memory, twice.
    #[inline(always)]
    pub fn remove(&mut self, id: u64) -> Option<V>
        ensures value { result ≡ value_of self.old id }
        ensures values { (q : ℕ) → value_of self.new q ≡ (if q == id then None else value_of self.old q) }
        ensures pairs { IfSome result (λ value. IsPermutation self.old ((id, value) ∷ self.new)) }
        ensures len { IfSome result (λ value. length self.old ≡ length self.new + 1) }
        ensures none { result ≡ None → self.new ≡ self.old }
        ensures distinct { AreDistinct self.new }
    {
        let len = self.len;
        if len == 0 {
            return None;
        }
        let at = look(&self.cells, self.bits, id);
        if self.cells[at].is_none() {
            return None;
        }
        let Cell { value, .. } = take_out(&mut self.cells, self.bits, at);
        self.len -= 1;
        Some(value)
    }

    /// The ids that are held.
    pub fn ids(&self, alloc: Global) -> Result<Vec<u64>, AllocError>
        ensures { IfOk result (λ ids. ids.items ≡ map (λ (pair : ℕ × V). pair.0) self.now) }
    {
        let ids = ids_in(alloc, &self.cells)?;
        Ok(ids)
    }

    /// The cells alone, without memory.
    pub fn into_cells(self) -> Vec<Option<Cell<V>>>
        ensures { flat_map pair_of result.items ≡ self }
    {
        let IdTable { cells, .. } = self;
        cells
    }

    /// Lets a table go that holds nothing, also where what it could hold may not be dropped.
    pub fn destroy_empty(self)
        requires { self ≡ [] }
    {
        let IdTable { cells, .. } = self;
        destroy_cells(cells);
    }
}

impl<X> IdTable<(u64, X)> {
    ghost use Rattle.std.specs.Prelude.{◌≡◌, ◌≢◌, true, false, None, Some};
    ghost use Rattle.id_table.specs.Pairs.{number_of, value_of, IsRenumbered};

    /// Gives an id that is held another number in the first half of its value.
    pub fn set(&mut self, id: u64, number: u64)
        requires held { value_of self.old id ≢ None }
        ensures { IsRenumbered self.old self.new id number }
    {
        let at = look(&self.cells, self.bits, id);
        renumber(&mut self.cells, at, number);
    }

    /// The same where the id is held with this number there, and whether it is. Else nothing changes.
    pub fn set_where(&mut self, id: u64, before: u64, number: u64) -> bool
        ensures held { result ≡ true → number_of self.old id ≡ Some before }
        ensures set { result ≡ true → IsRenumbered self.old self.new id number }
        ensures other { result ≡ false → number_of self.old id ≢ Some before }
        ensures same { result ≡ false → self.new ≡ self.old }
    {
        let len = self.len;
        if len == 0 {
            return false;
        }
        let at = look(&self.cells, self.bits, id);
        renumber_where(&mut self.cells, at, before, number)
    }
}
