//! What a desk hands out when it is closed.
ghost use Rattle.std.specs.Prelude.{◌≡◌, ◌↔◌, ◌+◌, ◌≤◌, [], ◌++◌, slice_index, option_to_list, IsSome, IsNone};
ghost use Rattle.std.specs.Slots.{slots_len, slots_items, IsFull};
ghost use mathlib.Core.Option.{some};
ghost use lib.ListN.{get_elem?};
ghost use Rattle.collect_ops.specs.Rule.{Held};
ghost use Rattle.collect_ops.specs.Closing.{Rests, SameSlots, kept_from, held_outcome, held_end, unclaimed, uncounted, Closes, ClosesUntouched};
ghost use Rattle.collect_ops.specs.Steps.{IsDesk, IsLast, IsOwner, HasDealer};
ghost use Rattle.collect_ops.specs.Views.{end_in};

use crate::desk::{Gathers, Memories};
use crate::rule::Place;
use crate::steps::{CLAIM, LEFT};
use crate::view::{Ending, Item};
use atomic_table::Closed;
use std::alloc::Global;
use std::marker::Model;
use std::mem::ManuallyDrop;

/// The slots of a desk that is closed.
type Slots<X, E> = Closed<Option<Item<X, E>>, Global>;

/// What was kept at a desk and never handed out, the lowest index first, and the end where nothing completed.
pub struct Kept<D: Gathers> {
    slots: Slots<D::Kept, D::End>,
    next: usize,
    size: usize,
    end: Option<D::End>,
}

impl<D: Gathers> Model for Kept<D> {
    ghost use Rattle.std.specs.Prelude.{slice_index};
    ghost use Rattle.std.specs.Slots.{slots_items};
    ghost use Rattle.collect_ops.specs.Seen.{KeptSeen};
    ghost use Rattle.collect_ops.specs.Closing.{Rests, kept_from};

    ghost Value = { KeptSeen D.Kept D.End };

    ghost view = { λ k. record { size = k.size; left = slice_index (slots_items k.slots.words) 0; claimed = slice_index (slots_items k.slots.words) 1; outcomes = kept_from k.next k.size (slots_items k.slots.slots); end = k.end } };

    ghost invariant = { λ k. Rests k.next k.size k.slots };
}

/// Closes the table of a desk. Where the arrivals weren't taken, nobody has arrived.
pub(crate) fn closed<X, E>(
    table: Memories<X, E>,
    owner: Place<X, E>,
    dealer: Option<Place<X, E>>,
    size: usize,
) -> Slots<X, E>
    requires desk { IsDesk size table.shared.table_id }
    requires some { 1 ≤ size }
    requires owner { IsOwner size table.shared.table_id owner }
    requires dealer { HasDealer size table.shared.table_id owner.me.0 dealer }
    ensures counts { (slots_len result.words ≡ 2) × (slots_len result.slots ≡ size + 1) }
    ensures full { IsFull result.words × IsFull result.slots }
    ensures last { Closes size (end_in owner.me.0) (slots_items result.words) (slots_items result.slots) }
    ensures untouched { IsSome dealer → ClosesUntouched size (end_in owner.me.0) (slots_items result.words) (slots_items result.slots) }
{
    match dealer {
        Some(seat) => table.close_with(seat),
        None => table.close_with(owner),
    }
}

/// Closes the table of a desk by the seat of the arrival that has taken all outcomes and the end.
pub(crate) fn emptied<X, E>(table: Memories<X, E>, last: Place<X, E>, size: usize) -> Slots<X, E>
    requires desk { IsDesk size table.shared.table_id }
    requires table { last.table_id ≡ table.shared.table_id }
    requires last { IsLast last.me }
    ensures counts { (slots_len result.words ≡ 2) × (slots_len result.slots ≡ size + 1) }
    ensures full { IsFull result.words × IsFull result.slots }
    ensures none { slice_index (slots_items result.words) 0 ≡ 0 }
{
    table.close_with(last)
}

// A slot that an arrival still had comes back with some item, of which nothing is known. What it can't be is leaked.
fn leak<X>(stray: X) {
    let _ = unsafe { ManuallyDrop::new_unchecked(stray) };
}

// The outcome in a slot of outcomes.
fn outcome_of<X, E>(item: Option<Item<X, E>>) -> Option<X>
    ensures { result ≡ held_outcome item }
{
    match item {
        Some(Item::Outcome(outcome)) => Some(outcome),
        Some(Item::End(stray)) => {
            leak(stray);
            None
        }
        None => None,
    }
}

// The end in the slot of the end.
fn end_of<X, E>(item: Option<Item<X, E>>) -> Option<E>
    ensures { result ≡ held_end item }
{
    match item {
        Some(Item::End(ending)) => {
            let Ending { end, room } = ending.open();
            leak_room(room);
            Some(end)
        }
        Some(Item::Outcome(stray)) => {
            leak(stray);
            None
        }
        None => None,
    }
}

// The end comes out where some arrivals were left and nobody had claimed. Else an arrival got it.
fn if_unclaimed<E>(end: Option<E>, left: u64, claimed: u64) -> Option<E>
    ensures { result ≡ unclaimed left claimed end }
{
    if left == 0 {
        leak(end);
        return None;
    }
    if claimed != 0 {
        leak(end);
        return None;
    }
    end
}

// The first slot whose outcome comes out. Where no arrival was left, the last one got all of them.
fn first_slot<X, E>(slots: &mut Slots<X, E>, size: usize, left: u64) -> usize
    requires { Rests 0 size slots.old }
    ensures rests { Rests result size slots.new }
    ensures same { SameSlots slots.old slots.new }
    ensures outcomes { kept_from result size (slots_items slots.old.slots) ≡ uncounted left (kept_from 0 size (slots_items slots.old.slots)) }
{
    if left != 0 {
        return 0;
    }
    let mut at = 0;
    while at < size {
        leak(slots.take(at));
        at += 1;
    }
    at
}

// The room is empty, but where the slot was that of an arrival: then nothing is known of it.
fn leak_room<X>(room: Vec<X>) {
    if room.is_empty() {
        room.destroy_empty();
    } else {
        leak(room);
    }
}

// The next outcome from this slot on, and the slot behind it.
fn next_outcome<X, E>(slots: &mut Slots<X, E>, from: usize, size: usize) -> (Option<X>, usize)
    requires { Rests from size slots.old }
    ensures rests { Rests result.1 size slots.new }
    ensures same { SameSlots slots.old slots.new }
    ensures outcome { kept_from from size (slots_items slots.old.slots) ≡ option_to_list result.0 ++ kept_from result.1 size (slots_items slots.old.slots) }
    ensures none { IsNone result.0 → result.1 ≡ size }
{
    let mut at = from;
    while at < size {
        let item = slots.take(at);
        at += 1;
        match outcome_of(item) {
            Some(outcome) => return (Some(outcome), at),
            None => {}
        }
    }
    (None, at)
}

// Gives the memory back, where no outcome is left.
fn free<X, E>(mut slots: Slots<X, E>, from: usize, size: usize)
    requires rests { Rests from size slots }
    requires none { kept_from from size (slots_items slots.slots) ≡ [] }
{
    let (outcome, _) = next_outcome(&mut slots, from, size);
    let None = outcome else { unreachable!() };
    slots.free();
}

impl<D: Gathers> Kept<D> {
    /// What comes out of the slots of a closed desk.
    pub(crate) fn of(slots: Slots<D::Kept, D::End>, size: usize) -> Kept<D>
        requires counts { (slots_len slots.words ≡ 2) × (slots_len slots.slots ≡ size + 1) }
        requires full { IsFull slots.words × IsFull slots.slots }
        ensures size { result.size ≡ size }
        ensures left { result.left ≡ slice_index (slots_items slots.words) 0 }
        ensures claimed { result.claimed ≡ slice_index (slots_items slots.words) 1 }
        ensures outcomes { result.outcomes ≡ uncounted result.left (kept_from 0 size (slots_items slots.slots)) }
        ensures end { (h : Held D.Kept D.End) × (get_elem? (slots_items slots.slots) size ≡ some h) × (result.end ≡ unclaimed result.left result.claimed (held_end h)) }
    {
        let mut slots = slots;
        let left = slots.word(LEFT);
        let claimed = slots.word(CLAIM);
        let end = if_unclaimed(end_of(slots.take(size)), left, claimed);
        let next = first_slot(&mut slots, size, left);
        Kept {
            slots,
            next,
            size,
            end,
        }
    }

    // The next outcome that was kept.
    pub(crate) fn next_kept(&mut self) -> Option<D::Kept>
        ensures rest { self.old.outcomes ≡ option_to_list result ++ self.new.outcomes }
        ensures none { IsNone result ↔ (self.old.outcomes ≡ []) }
        ensures same { (self.new.size ≡ self.old.size) × (self.new.left ≡ self.old.left) × (self.new.claimed ≡ self.old.claimed) × (self.new.end ≡ self.old.end) }
    {
        let (outcome, next) = next_outcome(&mut self.slots, self.next, self.size);
        self.next = next;
        outcome
    }

    /// The end that nobody got. None exactly where it was handed out.
    pub fn end(&mut self) -> Option<D::End>
        ensures { (result ≡ self.old.end) × (self.new ≡ record self.old { end = None }) }
    {
        self.end.take()
    }

    /// Gives the memory back, once nothing is left.
    pub fn finish(self)
        requires outcomes { self.outcomes ≡ [] }
        requires end { self.end ≡ None }
    {
        let Kept {
            slots,
            next,
            size,
            end,
        } = self;
        let None = end else { unreachable!() };
        free(slots, next, size);
    }
}
