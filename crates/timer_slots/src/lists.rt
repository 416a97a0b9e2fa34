//! The lists of all slots: ids that come to the end of one, and leave it there.
ghost use Rattle.std.specs.Prelude.{◌≡◌, ◌≢◌, ℕ, ◌+◌, ◌/◌, ◌%◌, ◌<◌, [], true, false, length, IfOk, OnErr, slice_set};
ghost use Rattle.timer_slots.specs.Seen.{list_of};
ghost use Rattle.timer_slots.specs.Lists.{Pushes, Pops};

use crate::slot::{ALL_SLOTS, Slot};
use crate::spot::spot_of;
use std::alloc::{AllocError, Global};

// A list beyond so many ids would have places that don't fit.
const MOST_IDS: usize = 18014398509481983;

// Slots with no ids.
pub(crate) fn empty_lists(alloc: Global) -> Result<Vec<Slot>, AllocError>
    ensures room { IfOk result (λ lists. length lists.items ≡ 1024) }
    ensures none { IfOk result (λ lists. (slot : ℕ) → list_of lists.items slot ≡ []) }
{
    let mut lists = Vec::with_capacity(alloc, ALL_SLOTS)?;
    for _ in 0..ALL_SLOTS {
        lists.push_reserved(Slot::new(alloc));
    }
    Ok(lists)
}

// Puts an id behind those of a slot, and gives its spot.
pub(crate) fn push_last(lists: &mut Vec<Slot>, slot: usize, id: u64) -> Result<u64, AllocError>
    requires slot { slot < 1024 }
    requires room { length lists.old.items ≡ 1024 }
    ensures ok { IfOk result (λ spot. Pushes lists.old.items lists.new.items slot id spot) }
    ensures err { OnErr result (lists.new.items ≡ lists.old.items) }
{
    let place = lists[slot].len();
    if place >= MOST_IDS {
        return Err(AllocError);
    }
    lists[slot].push(id)?;
    Ok(spot_of(slot, place))
}

// Takes the last id of a slot that has one.
pub(crate) fn pop_last(lists: &mut Vec<Slot>, slot: usize) -> u64
    requires slot { slot < 1024 }
    requires room { length lists.old.items ≡ 1024 }
    requires some { 0 < length (list_of lists.old.items slot) }
    ensures { Pops lists.old.items lists.new.items slot result }
{
    lists[slot].pop()
}

// Whether a spot is that of the last id of a slot.
pub(crate) fn is_last(lists: &Vec<Slot>, slot: usize, spot: u64) -> bool
    requires slot { slot < 1024 }
    requires room { length lists.now.items ≡ 1024 }
    requires short { length (list_of lists.now.items slot) < 18014398509481984 }
    ensures slot { result ≡ true → slot ≡ spot / 18014398509481984 }
    ensures place { result ≡ true → spot % 18014398509481984 + 1 ≡ length (list_of lists.now.items slot) }
    ensures other { result ≡ false → slot ≡ spot / 18014398509481984 → spot % 18014398509481984 + 1 ≢ length (list_of lists.now.items slot) }
{
    let len = lists[slot].len();
    if len == 0 {
        return false;
    }
    let last = spot_of(slot, len - 1);
    spot == last
}

// Puts an id in the place of another.
pub(crate) fn set_id(lists: &mut Vec<Slot>, slot: usize, place: usize, id: u64)
    requires slot { slot < 1024 }
    requires room { length lists.old.items ≡ 1024 }
    requires place { place < length (list_of lists.old.items slot) }
    ensures { lists.new.items ≡ slice_set lists.old.items slot (slice_set (list_of lists.old.items slot) place id) }
{
    lists[slot].set(place, id);
}
