//! The book: the timers by their ids in a table, their ids in the lists of the slots, and the count of the steps that a tick takes.
ghost use Rattle.std.specs.Prelude.{◌≡◌, ◌+◌, ◌*◌, ◌<◌, ◌++◌, length, true, false, Some, None, IfOk, IfErr, IfSome, IfNone, OnOk, OnErr};
ghost use Rattle.tick_wheel.specs.Book.{IsBook, IsDueFrom, IsGone, IsHeldAs, IsPut, key_list, key_option, keys_from, moves_of};
ghost use Rattle.tick_wheel.specs.Held.{seen_pairs};
ghost use Rattle.tick_wheel.specs.Table.{held_at, IsLeft, PlacesAnew};

use crate::place::slot_of;
use crate::timed::Timed;
use crate::timer::ScheduleFault;
use fan_base::Memory;
use id_table::{Cell, IdTable};
use std::alloc::{AllocError, Global};
use std::marker::Model;
use std::sync::ledger::{Blank, Book as Tally, Ledger, Share};
use timer_slots::{MOST_WAITING, Slots, spot_of};

/// How many steps were taken. It takes no bytes, and only an entry that a tick takes out of its slot raises it.
#[derive(Drop)]
pub struct Steps<L: Ledger> {
    tally: Tally<L>,
    share: Share<L>,
}

impl<L: Ledger> Model for Steps<L> {
    ghost use Rattle.std.specs.Prelude.{ℕ, ◌<◌};

    ghost Value = { ℕ };

    ghost view = { λ steps. steps.tally.total };

    ghost invariant = { λ steps. 0 < steps.share.parts };
}

impl<L: Ledger> Steps<L> {
    ghost use Rattle.std.specs.Prelude.{◌≡◌, ◌+◌, ◌<◌};

    /// A count of the ledger L that begins at 0.
    pub fn new(blank: Blank) -> Steps<L>
        requires name { blank.name ≡ L.name }
        requires parts { blank.parts ≡ L.parts }
        requires some { 0 < blank.parts }
        ensures { result ≡ 0 }
    {
        let (tally, share) = blank.open();
        Steps { tally, share }
    }

    fn tick(&mut self)
        ensures { self.new ≡ self.old + 1 }
    {
        self.tally.add(&mut self.share, 1);
    }
}

// Touches ids in a table, one behind the other.
fn touch_all<T>(table: &mut IdTable<(u64, Timed<T>)>, ids: &[u64])
    ensures { table.new ≡ table.old }
{
    for id in ids {
        table.touch(*id);
    }
}

// From how many ids on a table is too large for a processor's own cache, so that it pays to touch what is needed soon.
const WORTH_TOUCHING: usize = 65536;

// Touches, in a large table, the ids that may move as the spots that wait are cleared.
fn touch_moving<T>(table: &mut IdTable<(u64, Timed<T>)>, slots: &Slots)
    ensures { table.new ≡ table.old }
{
    if table.len() < WORTH_TOUCHING {
        return;
    }
    for place in 0..slots.waits() {
        let next = slots.move_to_waiting(place);
        table.touch(next.id);
    }
}

// Clears one of the spots that wait. Where the table has the last id of its list there, it is told at once where the id will be.
fn clear_one<T>(table: &mut IdTable<(u64, Timed<T>)>, slots: &mut Slots)
    requires book { IsBook table.old slots.old }
    requires waits { 0 < length slots.old.late }
    ensures book { IsBook table.new slots.new }
    ensures seen { seen_pairs table.new ≡ seen_pairs table.old }
    ensures waits { length slots.new.late + 1 ≡ length slots.old.late }
{
    let next = slots.move_to_waiting(slots.waits() - 1);
    if table.set_where(next.id, next.from, next.to) {
        slots.clear_moving();
        return;
    }
    slots.clear_left();
}

// Clears all spots that wait. The ids that may move are touched before, so that the processor fetches what the table has of them side by side.
fn clear_all<T>(table: &mut IdTable<(u64, Timed<T>)>, slots: &mut Slots)
    requires book { IsBook table.old slots.old }
    ensures book { IsBook table.new slots.new }
    ensures seen { seen_pairs table.new ≡ seen_pairs table.old }
    ensures none { length slots.new.late ≡ 0 }
{
    touch_moving(table, slots);
    while slots.waits() > 0 {
        clear_one(table, slots);
    }
}

// Sees to it that there is room for one more spot that waits: where there is, nothing changes.
fn make_room<T>(table: &mut IdTable<(u64, Timed<T>)>, slots: &mut Slots)
    requires book { IsBook table.old slots.old }
    ensures book { IsBook table.new slots.new }
    ensures seen { seen_pairs table.new ≡ seen_pairs table.old }
    ensures room { length slots.new.late < 64 }
    ensures still { length slots.old.late < 64 → (table.new ≡ table.old) × (slots.new ≡ slots.old) }
{
    if slots.waits() < MOST_WAITING {
        return;
    }
    clear_all(table, slots);
}

// Puts a timer into a slot, or gives its item back where there is no memory.
fn put<T>(
    table: &mut IdTable<(u64, Timed<T>)>,
    slots: &mut Slots,
    slot: usize,
    id: u64,
    timed: Timed<T>,
) -> Result<(), ScheduleFault<T>>
    requires slot { slot < 1024 }
    requires book { IsBook table.old slots.old }
    requires free { held_at (seen_pairs table.old) id ≡ None }
    requires room { length slots.old.late < 64 }
    ensures book { IsBook table.new slots.new }
    ensures ok { OnOk result (IsPut (seen_pairs table.old) (seen_pairs table.new) slot id timed) }
    ensures back { IfErr result (λ fault. fault ≡ ScheduleFault.Memory timed.item) }
    ensures refused { OnErr result (table.new ≡ table.old) }
{
    let spot = match slots.append(slot, id) {
        Ok(spot) => spot,
        Err(_) => return Err(ScheduleFault::Memory(timed.item)),
    };
    if let Err((_, timed)) = table.insert(id, (spot, timed)) {
        slots.leave(spot);
        return Err(ScheduleFault::Memory(timed.item));
    }
    Ok(())
}

// Takes an id's timer out.
fn take_out<T>(table: &mut IdTable<(u64, Timed<T>)>, slots: &mut Slots, id: u64) -> Option<Timed<T>>
    requires book { IsBook table.old slots.old }
    requires room { length slots.old.late < 64 }
    ensures book { IsBook table.new slots.new }
    ensures some { IfSome result (λ timed. IsHeldAs (seen_pairs table.old) id timed) }
    ensures none { IfNone result (held_at (seen_pairs table.old) id ≡ None) }
    ensures same { IfNone result (table.new ≡ table.old) }
    ensures gone { IsGone (seen_pairs table.old) (seen_pairs table.new) id }
{
    let (spot, timed) = table.remove(id)?;
    slots.leave(spot);
    Some(timed)
}

// The same of an id whose slot is known.
fn take_from<T>(
    table: &mut IdTable<(u64, Timed<T>)>,
    slots: &mut Slots,
    slot: usize,
    id: u64,
) -> Option<Timed<T>>
    requires slot { slot < 1024 }
    requires book { IsBook table.old slots.old }
    requires room { length slots.old.late < 64 }
    ensures book { IsBook table.new slots.new }
    ensures some { IfSome result (λ timed. IsHeldAs (seen_pairs table.old) id timed) }
    ensures none { IfNone result (held_at (seen_pairs table.old) id ≡ None) }
    ensures same { IfNone result (table.new ≡ table.old) }
    ensures gone { IsGone (seen_pairs table.old) (seen_pairs table.new) id }
{
    let (spot, timed) = table.remove(id)?;
    slots.leave_from(slot, spot);
    Some(timed)
}

// Places the last timer of a slot anew, which is one step, and gives false where the slot has none. Where there is no memory, nothing
// has changed.
fn move_last<T, L: Ledger>(
    table: &mut IdTable<(u64, Timed<T>)>,
    slots: &mut Slots,
    from: usize,
    tick: u64,
    steps: &mut Steps<L>,
) -> Result<bool, Memory>
    requires slot { from < 1024 }
    requires book { IsBook table.old slots.old }
    requires none { length slots.old.late ≡ 0 }
    requires due { IsDueFrom (seen_pairs table.old) from tick }
    ensures book { IsBook table.new slots.new }
    ensures some { IfOk result (λ one. one ≡ true → PlacesAnew (seen_pairs table.old) (seen_pairs table.new) from tick) }
    ensures none { IfOk result (λ one. one ≡ false → IsLeft from (seen_pairs table.old)) }
    ensures same { IfOk result (λ one. one ≡ false → table.new ≡ table.old) }
    ensures refused { OnErr result (table.new ≡ table.old) }
    ensures steps { steps.new ≡ steps.old + moves_of result }
{
    let Some(found) = slots.last(from) else {
        return Ok(false)
    };
    let Some((_, timed)) = table.get(found.id) else {
        unreachable!()
    };
    let to = slot_of(timed.due, tick);
    let spot = slots.move_last(found, to)?;
    table.set(found.id, spot);
    steps.tick();
    Ok(true)
}

// The number of scheduling and the id of a timer, where it stands at this spot.
fn key_at<T>(table: &IdTable<(u64, Timed<T>)>, spot: u64, id: u64) -> Option<(u64, u64)>
    ensures { result ≡ key_option table.now spot id }
{
    let (own, timed) = table.get(id)?;
    if *own != spot {
        return None;
    }
    Some((timed.order, id))
}

// Notes the number of scheduling and the id of a timer, where it stands at this spot. The first that is noted takes room for all that are left.
fn note_key<T>(
    table: &IdTable<(u64, Timed<T>)>,
    spot: u64,
    id: u64,
    left: usize,
    keys: &mut Vec<(u64, u64)>,
) -> Result<(), AllocError>
    ensures { OnOk result (keys.new.items ≡ keys.old.items ++ key_list table.now spot id) }
{
    let Some(key) = key_at(table, spot, id) else {
        return Ok(())
    };
    keys.reserve(left)?;
    keys.push(key)?;
    Ok(())
}

// Those of a slot's list. An id that stands there and isn't at its spot has left, or is at another place of the list, too.
fn keys_in<T>(
    alloc: Global,
    table: &IdTable<(u64, Timed<T>)>,
    slot: usize,
    ids: &[u64],
) -> Result<Vec<(u64, u64)>, AllocError>
    requires slot { slot < 1024 }
    requires short { length ids.now < 18014398509481984 }
    ensures { IfOk result (λ keys. keys.items ≡ keys_from table.now (slot * 18014398509481984) ids.now) }
{
    let mut keys = Vec::new(alloc);
    for place in 0..ids.len() {
        note_key(
            table,
            spot_of(slot, place),
            ids[place],
            ids.len() - place,
            &mut keys,
        )?;
    }
    Ok(keys)
}

// Timers by their ids, each in a slot. Contracts see the list of the ids with what is held of them.
#[derive(Debug, Drop)]
pub(crate) struct Book<T> {
    table: IdTable<(u64, Timed<T>)>,
    slots: Slots,
}

impl<T> Model for Book<T> {
    ghost use Rattle.tick_wheel.specs.Held.{seen_pairs};
    ghost use Rattle.tick_wheel.specs.Table.{Index};
    ghost use Rattle.tick_wheel.specs.Book.{IsBook};

    ghost Value = { Index T };

    ghost view = { λ book. seen_pairs book.table };

    ghost invariant = { λ book. IsBook book.table book.slots };
}

impl<T> Book<T> {
    ghost use Rattle.std.specs.Prelude.{◌≡◌, ℕ, ◌+◌, ◌<◌, ◌≤◌, ◌==◌, [], ◌∷◌, length, true, false, is_some, Some, None, IfSome, IfNone, IfOk, IfErr, OnOk, OnErr, if◌then◌else◌, option_to_list};
    ghost use Rattle.std.specs.List.{flat_map};
    ghost use Rattle.std.specs.Map.{keys_of};
    ghost use Rattle.std.specs.List.Sorted.{IsNonDecreasingBy};
    ghost use Rattle.id_table.specs.Cells.{pair_of};
    ghost use Rattle.tick_wheel.specs.Book.{IsHeldAs, moves_of};
    ghost use Rattle.tick_wheel.specs.Held.{Held, held_in, seen_pairs};
    ghost use Rattle.tick_wheel.specs.Table.{held_at, IsUnique, IsLeft, PlacesAnew, ListsIds};

    pub(crate) fn new(alloc: Global) -> Result<Book<T>, Memory>
        ensures { IfOk result (λ book. book ≡ []) }
    {
        let slots = Slots::new(alloc)?;
        Ok(Book {
            table: IdTable::new(alloc),
            slots,
        })
    }

    // How many entries there are.
    pub(crate) fn len(&self) -> usize
        ensures { result ≡ length self.now }
    {
        self.table.len()
    }

    // Whether there is an entry of this id.
    pub(crate) fn holds(&self, id: u64) -> bool
        ensures { result ≡ is_some (held_at self.now id) }
    {
        self.table.get(id).is_some()
    }

    // Puts an entry into a slot, or gives its item back where there is no memory.
    pub(crate) fn insert(
        &mut self,
        slot: usize,
        id: u64,
        timed: Timed<T>,
    ) -> Result<(), ScheduleFault<T>>
        requires slot { slot < 1024 }
        requires free { held_at self.old id ≡ None }
        ensures ok { OnOk result ((q : ℕ) → held_at self.new q ≡ (if id == q then Some (held_in slot timed) else held_at self.old q)) }
        ensures unique { OnOk result (IsUnique self.new) }
        ensures back { IfErr result (λ fault. fault ≡ ScheduleFault.Memory timed.item) }
        ensures refused { OnErr result (self.new ≡ self.old) }
    {
        make_room(&mut self.table, &mut self.slots);
        put(&mut self.table, &mut self.slots, slot, id, timed)
    }

    // Takes an id's entry out, which is no step of a tick.
    pub(crate) fn remove(&mut self, id: u64) -> Option<Timed<T>>
        ensures some { IfSome result (λ timed. IsHeldAs self.old id timed) }
        ensures none { IfNone result (held_at self.old id ≡ None) }
        ensures same { IfNone result (self.new ≡ self.old) }
        ensures gone { (q : ℕ) → held_at self.new q ≡ (if id == q then None else held_at self.old q) }
        ensures unique { IsUnique self.new }
    {
        make_room(&mut self.table, &mut self.slots);
        take_out(&mut self.table, &mut self.slots, id)
    }

    // Takes an id's entry out, which is one step. It is quickest where the entry stands in this slot.
    pub(crate) fn take<L: Ledger>(
        &mut self,
        slot: usize,
        id: u64,
        steps: &mut Steps<L>,
    ) -> Option<Timed<T>>
        requires { slot < 1024 }
        ensures some { IfSome result (λ timed. IsHeldAs self.old id timed) }
        ensures none { IfNone result (held_at self.old id ≡ None) }
        ensures same { IfNone result (self.new ≡ self.old) }
        ensures gone { (q : ℕ) → held_at self.new q ≡ (if id == q then None else held_at self.old q) }
        ensures unique { IsUnique self.new }
        ensures steps { steps.new ≡ steps.old + length (option_to_list result) }
    {
        make_room(&mut self.table, &mut self.slots);
        let timed = take_from(&mut self.table, &mut self.slots, slot, id)?;
        steps.tick();
        Some(timed)
    }

    // Places an entry of a slot anew, which is one step, and gives false where the slot has none. Where there is no memory, nothing
    // has changed.
    pub(crate) fn place_one<L: Ledger>(
        &mut self,
        from: usize,
        tick: u64,
        steps: &mut Steps<L>,
    ) -> Result<bool, Memory>
        requires slot { from < 1024 }
        requires due { (id : ℕ) (held : Held T) → held_at self.old id ≡ Some held → held.slot ≡ from → tick ≤ held.due }
        ensures some { IfOk result (λ one. one ≡ true → PlacesAnew self.old self.new from tick) }
        ensures none { IfOk result (λ one. one ≡ false → IsLeft from self.old) }
        ensures same { IfOk result (λ one. one ≡ false → self.new ≡ self.old) }
        ensures refused { OnErr result (self.new ≡ self.old) }
        ensures steps { steps.new ≡ steps.old + moves_of result }
    {
        clear_all(&mut self.table, &mut self.slots);
        move_last(&mut self.table, &mut self.slots, from, tick, steps)
    }

    // Touches the ids of a slot in the table. Nothing changes.
    pub(crate) fn touch_slot(&mut self, slot: usize)
        requires { slot < 1024 }
        ensures { self.new ≡ self.old }
    {
        touch_all(&mut self.table, self.slots.ids(slot));
    }

    // The number of scheduling and the id of a slot's only entry, where it is told at once that there is no other.
    pub(crate) fn only(&self, slot: usize) -> Option<(u64, u64)>
        requires { slot < 1024 }
        ensures { IfSome result (λ key. ListsIds self.now slot (key ∷ [])) }
    {
        let ids = self.slots.ids(slot);
        if ids.len() != 1 {
            return None;
        }
        let key = key_at(&self.table, spot_of(slot, 0), ids[0])?;
        Some(key)
    }

    // Whether a slot has no entry, which is told at once.
    pub(crate) fn is_left(&self, slot: usize) -> bool
        requires { slot < 1024 }
        ensures { result ≡ true → ListsIds self.now slot [] }
    {
        let ids = self.slots.ids(slot);
        ids.len() == 0
    }

    // The entries of a slot in the order of their scheduling: the number that each got, and its id.
    pub(crate) fn gather(&self, alloc: Global, slot: usize) -> Result<Vec<(u64, u64)>, Memory>
        requires { slot < 1024 }
        ensures lists { IfOk result (λ found. ListsIds self.now slot found.items) }
        ensures rises { IfOk result (λ found. IsNonDecreasingBy (λ (g : ℕ × ℕ). g.0) found.items) }
    {
        let mut found = keys_in(alloc, &self.table, slot, self.slots.ids(slot))?;
        found.sort_unstable_by_key(|key| key.0);
        Ok(found)
    }

    // All ids.
    pub(crate) fn ids(&self, alloc: Global) -> Result<Vec<u64>, AllocError>
        ensures { IfOk result (λ ids. ids.items ≡ keys_of self.now) }
    {
        let ids = self.table.ids(alloc)?;
        Ok(ids)
    }

    // The table's cells alone, without memory.
    pub(crate) fn into_cells(self) -> Vec<Option<Cell<(u64, Timed<T>)>>>
        ensures { seen_pairs (flat_map pair_of result.items) ≡ self }
    {
        let Book { table, .. } = self;
        table.into_cells()
    }

    // Lets a book go that holds nothing, also where its items may not be dropped.
    pub(crate) fn destroy_empty(self)
        requires { self ≡ [] }
    {
        let Book { table, .. } = self;
        table.destroy_empty();
    }
}
