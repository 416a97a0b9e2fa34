//! Cells: homes that are used again and again, through a queue of the free ones.
ghost use Rattle.std.specs.Prelude.{◌≡◌, ◌<◌, ◌≤◌, ◌+◌, [], ◌∷◌, ◌++◌, false, ℕ, List, length, map, sum_by, All, IfOk, IfErr};
ghost use Rattle.crossbeam_queue.specs.Passes.{view, IsPassOf, ruled_capacity};
ghost use Rattle.core_word.specs.Count.{raised};
ghost use Rattle.core_word.specs.Seen.{SeenHome, SeenKey};
ghost use Rattle.core_word.specs.declared.view.Sight.{Sight};
ghost use Rattle.core_cells.specs.Rule.{opening};
ghost use Rattle.core_cells.specs.Seen.{SeenPass, new_pass, first_key, key_of_half, next_key, AreAll, FreeByAll, WereFree, KnowHomes, took_by, put_by, queue_id};

use crate::pass::CellPass;
use crate::rule::{Counts, Fills, FreePass, FreeQueue, Makes, Puts, Takes, TakesIn};
use core_word::{Consumer, Home, Husk, Key, Producer, Tally};
use fan_base::Memory;
use std::alloc::Global;
use std::marker::Model;
use std::sync::Wait;

/// No cell was free.
#[derive(Clone, Copy, PartialEq, Eq, Debug)]
pub struct NoCell;

/// Homes, and the queue of the keys of those that are free. It is shared by `&`; each thread has a pass.
pub struct Cells<'h, T, C, P> {
    free: FreeQueue<'h, T, C, P>,
}

impl<'h, T, C, P> Model for Cells<'h, T, C, P> {
    ghost use Rattle.crossbeam_queue.specs.Passes.{ruled_capacity};
    ghost use Rattle.core_cells.specs.Seen.{SeenCells, queue_id};

    ghost Value = { SeenCells };

    ghost view = { λ c. record { id = queue_id c.free; size = ruled_capacity c.free } };
}

impl<'h, T, C, P> Cells<'h, T, C, P> {
    /// Cells over these homes, all free, with so many passes: 1 to 65,536 homes whose keys nobody has taken, and 1 to 64
    /// passes. `Memory` where there is none for the queue or the passes; then some keys may have been taken.
    pub fn new(
        rt: &impl Wait,
        alloc: Global,
        homes: &'h mut [Home<T, C, P>],
        passes: u32,
    ) -> Result<(Cells<'h, T, C, P>, Vec<CellPass<'h, T, C, P>>), Memory>
        requires homes { (0 < length homes.old) × (length homes.old ≤ 65536) }
        requires untaken { All (λ (home : SeenHome). home.taken ≡ false) homes.old }
        requires passes { (0 < passes) × (passes ≤ 64) }
        ensures cells { IfOk result (λ made. made.0.size ≡ length homes.old) }
        ensures passes { IfOk result (λ made. (length made.1.items ≡ passes) × All (λ (pass : SeenPass). pass ≡ new_pass made.0 (map first_key homes.old) passes) made.1.items) }
    {
        let Ok((free, mut pass)) = FreeQueue::ruled(alloc, homes.len()) else {
            return Err(Memory);
        };
        fill(rt, &free, &mut pass, homes);
        count(&free, &mut pass, passes);
        let made = passes_of(&free, &mut pass, passes, alloc)?;
        Ok((Cells { free }, made))
    }

    /// Begins a core with this number, which may be any, in a free cell. The pass is of these cells. `NoCell` comes only
    /// where no cell was free at a moment of this call: for a pass that is the only one, by what it took and put. Then
    /// pass and tally stay as they were.
    pub fn core(
        &self,
        rt: &impl Wait,
        pass: &mut CellPass<'h, T, C, P>,
        no: u64,
        t: &mut Tally,
    ) -> Result<(Producer<'h, T, C, P>, Consumer<'h, T, C, P>), NoCell>
        requires { pass.old.cells ≡ self.now }
        ensures pass { pass.new.cells ≡ pass.old.cells }
        ensures took { IfOk result (λ halves. pass.new ≡ record pass.old { took = pass.old.took ++ key_of_half halves.1 ∷ [] }) }
        ensures halves { IfOk result (λ halves. (halves.0 ≡ record { home = halves.1.home; use_number = halves.1.use_number; no = no; sight = Sight.Unseen; looks = 0 }) × (halves.1.no ≡ no)) }
        ensures counted { IfOk result (λ _. t.new ≡ record t.old { made = raised t.old.made }) }
        ensures none { IfErr result (λ _. (pass.new ≡ pass.old) × (t.new ≡ t.old)) }
        ensures empty { IfErr result (λ _. WereFree 0 pass.old) }
    {
        let Some(key) = self.free.pop_as::<Takes, _>(rt, &mut pass.pass) else {
            return Err(NoCell);
        };
        Ok(key.start(no, t))
    }

    /// Reopens the husk's cell and puts its key into the free queue. The pass is of these cells, and so is the husk, if
    /// all are to be used again. An `Err`, with the key, comes only where as many cells were free at a moment of this call
    /// as there are homes: for a pass that is the only one, by what it took and put. Then the cell is reopened too, and
    /// the pass stays as it was. Tests show that a husk of these cells doesn't meet that.
    pub fn give_back(
        &self,
        rt: &impl Wait,
        pass: &mut CellPass<'h, T, C, P>,
        husk: Husk<'h, T, C, P>,
        t: &mut Tally,
    ) -> Result<(), Key<'h, T, C, P>>
        requires { pass.old.cells ≡ self.now }
        ensures pass { pass.new.cells ≡ pass.old.cells }
        ensures counted { t.new ≡ record t.old { freed = raised t.old.freed; reopened = raised t.old.reopened } }
        ensures put { IfOk result (λ _. pass.new ≡ record pass.old { put = pass.old.put ++ next_key husk.entry ∷ [] }) }
        ensures back { IfErr result (λ key. (key ≡ next_key husk.entry) × (pass.new ≡ pass.old)) }
        ensures full { IfErr result (λ _. WereFree self.now.size pass.old) }
    {
        let key = husk.reopen(t);
        if let Err(key) = self.free.push_as::<Puts, _>(rt, &mut pass.pass, key) {
            return Err(key);
        }
        Ok(())
    }

    /// Ends the cells, all of whose passes come back, in any order, and says how many were free: 0 to the number of homes.
    /// Their keys end with them.
    pub fn close(self, rt: &impl Wait, mut passes: Vec<CellPass<'h, T, C, P>>) -> usize
        requires all { AreAll self passes.items }
        ensures most { result ≤ self.entry.size }
        ensures free { (homes : List SeenKey) → KnowHomes homes passes.entry.items → FreeByAll result homes passes.entry.items }
    {
        let Cells { free } = self;
        let Some(last) = passes.pop() else {
            unreachable!()
        };
        let mut whole = last.into_pass();
        take_in(&free, &mut whole, passes);
        free.len_as::<Puts, _>(rt, &mut whole)
    }
}

impl<'h, T, C, P> Drop for Cells<'h, T, C, P> {
    fn drop(self) {
        let Self { free: _ } = self;
    }
}

// Puts the first key of each home into the free queue.
fn fill<'h, T, C, P>(
    rt: &impl Wait,
    free: &FreeQueue<'h, T, C, P>,
    pass: &mut FreePass<'h, T, C, P>,
    homes: &'h mut [Home<T, C, P>],
)
    requires pass { IsPassOf free.now pass.old × (view pass.old ≡ opening) }
    requires room { ruled_capacity free.now ≡ length homes.old }
    requires untaken { All (λ (home : SeenHome). home.taken ≡ false) homes.old }
    ensures { IsPassOf free.now pass.new × (view pass.new ≡ record { made = 1; held = 1; passes = 0; homes = map first_key homes.old; took = []; put = map first_key homes.old }) }
{
    for home in homes.iter_mut() {
        let Some(key) = home.key() else {
            unreachable!()
        };
        let Ok(()) = free.push_as::<Fills, _>(rt, pass, key) else {
            unreachable!()
        };
    }
}

// Counts the passes that there are to be.
fn count<'h, T, C, P>(free: &FreeQueue<'h, T, C, P>, pass: &mut FreePass<'h, T, C, P>, passes: u32)
    requires pass { IsPassOf free.now pass.old × ((view pass.old).made ≡ 1) × ((view pass.old).held ≡ 1) }
    ensures { IsPassOf free.now pass.new × (view pass.new ≡ record (view pass.old) { passes = (view pass.old).passes + passes }) }
{
    for _ in 0..passes {
        let _ = free.another::<Counts>(pass);
    }
}

// Makes the passes that were counted.
fn passes_of<'h, T, C, P>(
    free: &FreeQueue<'h, T, C, P>,
    pass: &mut FreePass<'h, T, C, P>,
    count: u32,
    alloc: Global,
) -> Result<Vec<CellPass<'h, T, C, P>>, Memory>
    requires pass { IsPassOf free.now pass.old × ((view pass.old).made ≡ 1) × ((view pass.old).passes ≡ count) }
    ensures pass { IfOk result (λ _. IsPassOf free.now pass.new × (pass.new.table_id ≡ pass.old.table_id) × (view pass.new ≡ record (view pass.old) { made = 1 + count })) }
    ensures made { IfOk result (λ made. (length made.items ≡ count) × All (λ (p : SeenPass). p ≡ new_pass record { id = pass.old.table_id; size = length (view pass.old).homes } (view pass.old).homes count) made.items) }
{
    let mut made = Vec::new(alloc);
    for _ in 0..count {
        let another = free.another::<Makes>(pass);
        if made.push(CellPass { pass: another }).is_err() {
            return Err(Memory);
        }
    }
    Ok(made)
}

// A pass takes in others of its cells.
fn take_in<'h, T, C, P>(
    free: &FreeQueue<'h, T, C, P>,
    whole: &mut FreePass<'h, T, C, P>,
    mut passes: Vec<CellPass<'h, T, C, P>>,
)
    requires whole { IsPassOf free.now whole.old × ((view whole.old).made ≡ 0) × ((view whole.old).held ≡ 1) }
    requires passes { All (λ (pass : SeenPass). pass.cells.id ≡ queue_id free.now) passes.items }
    ensures whole { IsPassOf free.now whole.new × ((view whole.new).made ≡ 0) × ((view whole.new).held ≡ 1 + length passes.entry.items) }
    ensures knows { ((view whole.new).passes ≡ (view whole.old).passes) × ((view whole.new).homes ≡ (view whole.old).homes) }
    ensures took { (weight : SeenKey → ℕ) → sum_by weight (view whole.new).took ≡ sum_by weight (view whole.old).took + took_by weight passes.entry.items }
    ensures put { (weight : SeenKey → ℕ) → sum_by weight (view whole.new).put ≡ sum_by weight (view whole.old).put + put_by weight passes.entry.items }
{
    while let Some(pass) = passes.pop() {
        free.absorb::<TakesIn>(whole, pass.into_pass());
    }
}
