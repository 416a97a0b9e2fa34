//! The slots, and the spots that wait to be cleared.
use crate::lists::{empty_lists, is_last, pop_last, push_last, set_id};
use crate::slot::Slot;
use crate::spot::{place_of, slot_of, spot_of};
use crate::waiting::Waiting;
use std::alloc::{AllocError, Global};
use std::marker::Model;

/// An id and its spot.
#[derive(Clone, Copy, Debug)]
pub struct Found {
    pub id: u64,
    pub spot: u64,
}

/// An id that moves, from a spot to another.
#[derive(Clone, Copy, Debug)]
pub struct Moved {
    pub id: u64,
    pub from: u64,
    pub to: u64,
}

/// The ids of 1,024 slots, each at a spot. Contracts see the slots' lists, and the spots that wait to be cleared.
#[derive(Debug, Drop)]
pub struct Slots {
    lists: Vec<Slot>,
    late: Waiting,
}

impl Model for Slots {
    ghost use Rattle.timer_slots.specs.Seen.{SlotsSeen};
    ghost use Rattle.timer_slots.specs.Slots.{AreSlots};

    ghost Value = { SlotsSeen };

    ghost view = { λ slots. record { lists = slots.lists.items; late = slots.late } };

    ghost invariant = { λ slots. AreSlots slots.lists.items slots.late };
}

impl Slots {
    ghost use Rattle.std.specs.Prelude.{◌≡◌, ◌≢◌, ℕ, ◌+◌, ◌/◌, ◌%◌, ◌<◌, ◌≤◌, ◌==◌, true, None, Some, IsSome, IfSome, IfNone, IfOk, OnErr, if◌then◌else◌, length, slice_index_or};
    ghost use Rattle.timer_slots.specs.Seen.{list_of, next_of, spot_at, tail_at, tail_of};
    ghost use Rattle.timer_slots.specs.Steps.{Puts, Moves, IsLast};

    /// Slots without ids. `AllocError` comes where there is no memory for them.
    pub fn new(alloc: Global) -> Result<Slots, AllocError>
        ensures none { IfOk result (λ slots. (spot : ℕ) → spot_at slots spot ≡ None) }
        ensures late { IfOk result (λ slots. length slots.late ≡ 0) }
    {
        let late = Waiting::new(alloc)?;
        let lists = empty_lists(alloc)?;
        Ok(Slots { lists, late })
    }

    /// Puts an id at the end of a slot's list, and gives its spot. A refused call changes nothing. `AllocError` comes where there is no memory, and
    /// where the list has 2^54 - 1 ids, for which no machine has the memory.
    pub fn append(&mut self, slot: usize, id: u64) -> Result<u64, AllocError>
        requires { slot < 1024 }
        ensures ok { IfOk result (λ spot. Puts self.old self.new slot id spot) }
        ensures late { self.new.late ≡ self.old.late }
        ensures refused { OnErr result (self.new ≡ self.old) }
    {
        let spot = push_last(&mut self.lists, slot, id)?;
        Ok(spot)
    }

    /// How many spots wait to be cleared.
    pub fn waits(&self) -> usize
        ensures count { result ≡ length self.now.late }
        ensures few { result ≤ 64 }
    {
        self.late.len()
    }

    /// The id at a spot leaves. Where it is the last of its list it is taken out, and otherwise its spot waits from now on and its list stays.
    pub fn leave(&mut self, spot: u64)
        requires held { IsSome (spot_at self.old spot) }
        requires room { length self.old.late < 64 }
        ensures values { (q : ℕ) → spot_at self.new q ≡ (if q == spot then None else spot_at self.old q) }
        ensures late { length self.new.late ≤ length self.old.late + 1 }
        ensures last { spot % 18014398509481984 + 1 ≡ length (list_of self.old.lists (spot / 18014398509481984)) → self.new.late ≡ self.old.late }
    {
        let slot = slot_of(spot);
        if place_of(spot) + 1 == self.lists[slot].len() {
            pop_last(&mut self.lists, slot);
            return;
        }
        self.late.push(spot);
    }

    /// The same, for who knows the slot: which list may be written to is then known before the spot is.
    pub fn leave_from(&mut self, slot: usize, spot: u64)
        requires slot { slot < 1024 }
        requires held { IsSome (spot_at self.old spot) }
        requires room { length self.old.late < 64 }
        ensures values { (q : ℕ) → spot_at self.new q ≡ (if q == spot then None else spot_at self.old q) }
        ensures late { length self.new.late ≤ length self.old.late + 1 }
        ensures last { slot ≡ spot / 18014398509481984 → spot % 18014398509481984 + 1 ≡ length (list_of self.old.lists slot)
            → self.new.late ≡ self.old.late }
    {
        if is_last(&self.lists, slot, spot) {
            pop_last(&mut self.lists, slot);
            return;
        }
        self.late.push(spot);
    }

    /// Clears the last of the spots that wait, where the last id of its list is held: that id comes there.
    pub fn clear_moving(&mut self)
        requires waits { 0 < length self.old.late }
        requires held { IsSome (spot_at self.old (tail_of self.old)) }
        ensures fewer { length self.new.late + 1 ≡ length self.old.late }
        ensures moves { (id : ℕ) → spot_at self.old (tail_of self.old) ≡ Some id
            → Moves self.old self.new (tail_of self.old / 18014398509481984) id (tail_of self.old) (next_of self.old) }
        ensures apart { tail_of self.old ≢ next_of self.old }
    {
        let to = self.late.pop();
        let slot = slot_of(to);
        let id = pop_last(&mut self.lists, slot);
        set_id(&mut self.lists, slot, place_of(to), id);
    }

    /// Clears it where that id has left, or stood there: no id moves.
    pub fn clear_left(&mut self)
        requires waits { 0 < length self.old.late }
        requires left { spot_at self.old (tail_of self.old) ≡ None }
        ensures fewer { length self.new.late + 1 ≡ length self.old.late }
        ensures same { (q : ℕ) → spot_at self.new q ≡ spot_at self.old q }
    {
        let to = self.late.pop();
        let slot = slot_of(to);
        pop_last(&mut self.lists, slot);
        let from = spot_of(slot, self.lists[slot].len());
        if from == to {
            return;
        }
        let Some(place) = self.late.find(from) else {
            unreachable!()
        };
        self.late.set(place, to);
    }

    /// What a clearing of the spot that waits at this place moves, where it is held: the last id in the list of that spot.
    pub fn move_to_waiting(&self, place: usize) -> Moved
        requires { place < length self.now.late }
        ensures from { result.from ≡ tail_at self.now place }
        ensures to { result.to ≡ slice_index_or self.now.late place 0 }
        ensures id { (id : ℕ) → spot_at self.now result.from ≡ Some id → id ≡ result.id }
    {
        let to = self.late.at(place);
        let slot = slot_of(to);
        let ids = self.lists[slot].as_slice();
        let last = ids.len() - 1;
        let from = spot_of(slot, last);
        Moved {
            id: ids[last],
            from,
            to,
        }
    }

    /// The last id of a slot, where it has one. No spot waits.
    pub fn last(&self, slot: usize) -> Option<Found>
        requires slot { slot < 1024 }
        requires late { length self.now.late ≡ 0 }
        ensures some { IfSome result (λ found. IsLast self.now found.id found.spot) }
        ensures slot { IfSome result (λ found. found.spot / 18014398509481984 ≡ slot) }
        ensures none { IfNone result ((q id : ℕ) → spot_at self.now q ≡ Some id → q / 18014398509481984 ≢ slot) }
    {
        let ids = self.lists[slot].as_slice();
        let id = ids.last().copied()?;
        let spot = spot_of(slot, ids.len() - 1);
        Some(Found { id, spot })
    }

    /// Moves the last id of its slot to another slot, which may be the same, and gives its spot there. A refused call changes nothing. `AllocError`
    /// comes as from [`Slots::append`].
    pub fn move_last(&mut self, last: Found, to: usize) -> Result<u64, AllocError>
        requires slot { to < 1024 }
        requires late { length self.old.late ≡ 0 }
        requires last { IsLast self.old last.id last.spot }
        ensures ok { IfOk result (λ spot. Moves self.old self.new to last.id last.spot spot) }
        ensures last { IfOk result (λ spot. IsLast self.new last.id spot) }
        ensures late { self.new.late ≡ self.old.late }
        ensures refused { OnErr result (self.new ≡ self.old) }
    {
        let from = slot_of(last.spot);
        if from == to {
            return Ok(last.spot);
        }
        let spot = push_last(&mut self.lists, to, last.id)?;
        pop_last(&mut self.lists, from);
        Ok(spot)
    }

    /// The list of a slot: its ids, each at the place that its spot tells, and those of who left while their spots wait.
    pub fn ids(&self, slot: usize) -> &[u64]
        requires { slot < 1024 }
        ensures list { result.now ≡ list_of self.now.lists slot }
        ensures short { length result.now < 18014398509481984 }
    {
        self.lists[slot].as_slice()
    }
}
