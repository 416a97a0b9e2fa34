//! The atomic steps of a desk's table, and the plain access to a slot that a seat has.
ghost use Rattle.std.specs.Prelude.{◌≡◌, ◌≢◌, ℕ, ◌+◌, ◌<◌, ◌≤◌, List, [], ◌∷◌, ◌++◌, length, reverse, vec_capacity};
ghost use Rattle.std.specs.Bool.{OnTrue, OnFalse};
ghost use mathlib.Core.Option.{some};
ghost use lib.ListN.{get_elem?};
ghost use Rattle.atomic_table.specs.Table.{rest};
ghost use Rattle.collect_ops.specs.declared.view.Ending.{Ending};
ghost use Rattle.collect_ops.specs.declared.view.Item.{Item};
ghost use Rattle.collect_ops.specs.declared.view.Phase.{Phase};
ghost use Rattle.collect_ops.specs.declared.view.View.{View};
ghost use Rattle.collect_ops.specs.Views.{index_in, phase_in, kept_in, list_in};
ghost use Rattle.collect_ops.specs.Steps.{IsDesk, HasRoom, IsDone, IsLast, IsKeeper, Sits, at, claiming, emptying, full_slots, empty_slots};

use crate::boxed::Boxed;
use crate::listed::Listed;
use crate::rule::{
    Claims, Deals, DeskTable, GivesEnd, Keeps, Meets, Never, Place, ReadsTold, ReturnsAll,
    ReturnsEnd, TakesEndSlot, TakesSlot, Tells,
};
use crate::view::{Ending, Item, Phase, View};

/// The word of how many are left.
pub(crate) const LEFT: usize = 0;

/// The word that an arrival claims by.
pub(crate) const CLAIM: usize = 1;

// Puts an item into the empty slot that the seat took last.
fn put<X, E>(table: &DeskTable<X, E>, seat: &mut Place<X, E>, slot: usize, item: Item<X, E>)
    requires { (seat.old.table_id ≡ table.now.table_id) × (seat.old.me.1 ≡ (slot, None) ∷ rest seat.old.me.1) }
    ensures { Sits table.now.table_id seat.new (seat.old.me.0, (slot, Some item) ∷ rest seat.old.me.1) }
{
    let old = table.exchange(seat, slot, Some(item));
    let None = old else { unreachable!() };
}

/// Puts the end into its slot.
pub(crate) fn open<X, E>(
    table: &DeskTable<X, E>,
    seat: &mut Place<X, E>,
    size: usize,
    ending: Boxed<Ending<X, E>>,
)
    requires desk { IsDesk size table.now.table_id }
    requires making { Sits table.now.table_id seat.old (View.Making, []) }
    ensures { Sits table.now.table_id seat.new (View.Opened size ending, []) }
{
    table.load::<TakesEndSlot>(seat, LEFT);
    put(table, seat, size, Item::End(ending));
    table.load::<GivesEnd>(seat, LEFT);
}

/// Deals the desk's own seat.
pub(crate) fn deal_owner<X, E>(
    table: &DeskTable<X, E>,
    seat: &mut Place<X, E>,
    size: usize,
) -> Place<X, E>
    requires desk { IsDesk size table.now.table_id }
    requires opened { (r : Ending X E) × Sits table.now.table_id seat.old (View.Opened size r, []) }
    ensures dealer { (r : Ending X E) → seat.old.me ≡ (View.Opened size r, []) → Sits table.now.table_id seat.new (View.Dealing size r 0, []) }
    ensures dealt { (r : Ending X E) → seat.old.me ≡ (View.Opened size r, []) → Sits table.now.table_id result (View.Owner size r, []) }
{
    table.split_seat::<Deals>(seat)
}

/// Deals the seat of the next arrival.
pub(crate) fn deal_arrival<X, E>(
    table: &DeskTable<X, E>,
    seat: &mut Place<X, E>,
    size: usize,
    index: usize,
) -> Place<X, E>
    requires desk { IsDesk size table.now.table_id }
    requires dealing { (r : Ending X E) × Sits table.now.table_id seat.old (View.Dealing size r index, []) }
    requires below { index < size }
    ensures dealer { (r : Ending X E) → seat.old.me ≡ (View.Dealing size r index, []) → Sits table.now.table_id seat.new (View.Dealing size r (index + 1), []) }
    ensures dealt { (r : Ending X E) → seat.old.me ≡ (View.Dealing size r index, []) → Sits table.now.table_id result (at size r index Phase.Ready) }
{
    table.split_seat::<Deals>(seat)
}

/// Leaves an outcome in the slot of this arrival and takes 1 off the count. It answers how many were left.
pub(crate) fn keep<X, E>(
    table: &DeskTable<X, E>,
    seat: &mut Place<X, E>,
    size: usize,
    index: usize,
    outcome: X,
) -> u64
    requires desk { IsDesk size table.now.table_id }
    requires ready { (r : Ending X E) × Sits table.now.table_id seat.old (at size r index Phase.Ready) }
    ensures more { (r : Ending X E) → seat.old.me ≡ at size r index Phase.Ready → result ≢ 1 → (1 < result) × (result ≤ size) × Sits table.now.table_id seat.new (at size r index (Phase.Kept outcome result)) }
    ensures last { (r : Ending X E) → seat.old.me ≡ at size r index Phase.Ready → result ≡ 1 → (xs : List X) × (length xs ≡ size) × (get_elem? xs index ≡ some outcome) × Sits table.now.table_id seat.new (emptying size r index xs) }
{
    table.load::<TakesSlot>(seat, LEFT);
    put(table, seat, index, Item::Outcome(outcome));
    table.fetch_sub::<Keeps>(seat, LEFT, 1)
}

/// Claims the end, and says whether nobody had claimed.
pub(crate) fn claim<X, E>(
    table: &DeskTable<X, E>,
    seat: &mut Place<X, E>,
    size: usize,
    index: usize,
) -> bool
    requires desk { IsDesk size table.now.table_id }
    requires ready { (r : Ending X E) × Sits table.now.table_id seat.old (at size r index Phase.Ready) }
    ensures claimed { (r : Ending X E) → seat.old.me ≡ at size r index Phase.Ready → OnTrue result (Sits table.now.table_id seat.new (claiming size r index)) }
    ensures lost { (r : Ending X E) → seat.old.me ≡ at size r index Phase.Ready → OnFalse result (Sits table.now.table_id seat.new (at size r index Phase.Lost)) }
{
    table.swap::<Claims>(seat, CLAIM, 1) == 0
}

// Takes the ending out of its slot, which the seat took last.
fn take_ending<X, E>(table: &DeskTable<X, E>, seat: &mut Place<X, E>, size: usize) -> Ending<X, E>
    requires { (seat.old.table_id ≡ table.now.table_id) × ((r : Ending X E) × (seat.old.me.1 ≡ (size, Some (Item.End r)) ∷ rest seat.old.me.1)) }
    ensures had { seat.old.me.1 ≡ (size, Some (Item.End result)) ∷ rest seat.old.me.1 }
    ensures sits { Sits table.now.table_id seat.new (seat.old.me.0, (size, None) ∷ rest seat.old.me.1) }
{
    let item = table.exchange(seat, size, None);
    let Some(Item::End(ending)) = item else {
        unreachable!()
    };
    ending.open()
}

// Takes the outcome out of the slot that the seat took last.
fn take_outcome<X, E>(table: &DeskTable<X, E>, seat: &mut Place<X, E>, slot: usize) -> X
    requires { (seat.old.table_id ≡ table.now.table_id) × ((x : X) × (seat.old.me.1 ≡ (slot, Some (Item.Outcome x)) ∷ rest seat.old.me.1)) }
    ensures had { seat.old.me.1 ≡ (slot, Some (Item.Outcome result)) ∷ rest seat.old.me.1 }
    ensures sits { Sits table.now.table_id seat.new (seat.old.me.0, (slot, None) ∷ rest seat.old.me.1) }
{
    let item = table.exchange(seat, slot, None);
    let Some(Item::Outcome(outcome)) = item else {
        unreachable!()
    };
    outcome
}

// Takes all outcomes out of their slots, the one of the highest index first.
fn take_list<X, E>(
    table: &DeskTable<X, E>,
    seat: &mut Place<X, E>,
    size: usize,
    mut room: Vec<X>,
) -> Vec<X>
    requires table { seat.old.table_id ≡ table.now.table_id }
    requires slots { (ys : List X) × (length ys ≡ size) × (seat.old.me.1 ≡ full_slots ys ++ (size, None) ∷ []) }
    requires room { (room.items ≡ []) × (size ≤ vec_capacity room) }
    ensures list { (ys : List X) → length ys ≡ size → seat.old.me.1 ≡ full_slots ys ++ (size, None) ∷ [] → result.items ≡ ys }
    ensures sits { Sits table.now.table_id seat.new (seat.old.me.0, empty_slots 0 (size + 1)) }
{
    let mut left = size;
    while left > 0 {
        left -= 1;
        let outcome = take_outcome(table, seat, left);
        seat.turn();
        let pushed = room.push(outcome);
        let Ok(()) = pushed else { unreachable!() };
    }
    room
}

// The arrival that claimed gives the slot of the end back.
fn return_end<X, E>(table: &DeskTable<X, E>, seat: &mut Place<X, E>, size: usize, index: usize)
    requires desk { IsDesk size table.now.table_id }
    requires claiming { (r : Ending X E) × Sits table.now.table_id seat.old (View.Arriving size r index Phase.Claiming, (size, None) ∷ []) }
    ensures { (r : Ending X E) → seat.old.me ≡ (View.Arriving size r index Phase.Claiming, (size, None) ∷ []) → Sits table.now.table_id seat.new (at size r index Phase.Claimed) }
{
    table.load::<ReturnsEnd>(seat, CLAIM);
}

// The arrival that was the last gives all slots back.
fn return_all<X, E>(table: &DeskTable<X, E>, seat: &mut Place<X, E>, size: usize, index: usize)
    requires desk { IsDesk size table.now.table_id }
    requires emptying { (r : Ending X E) × (xs : List X) × Sits table.now.table_id seat.old (View.Arriving size r index (Phase.Emptying xs), empty_slots 0 (size + 1)) }
    ensures { (r : Ending X E) (xs : List X) → seat.old.me ≡ (View.Arriving size r index (Phase.Emptying xs), empty_slots 0 (size + 1)) → Sits table.now.table_id seat.new (at size r index (Phase.Emptied xs)) }
{
    table.load::<ReturnsAll>(seat, LEFT);
}

/// The arrival that claimed takes the end out.
pub(crate) fn take_end<X, E>(
    table: &DeskTable<X, E>,
    seat: &mut Place<X, E>,
    size: usize,
    index: usize,
) -> E
    requires desk { IsDesk size table.now.table_id }
    requires claiming { (r : Ending X E) × HasRoom size r × Sits table.now.table_id seat.old (claiming size r index) }
    ensures end { (r : Ending X E) → seat.old.me ≡ claiming size r index → result ≡ r.end }
    ensures sits { (r : Ending X E) → seat.old.me ≡ claiming size r index → Sits table.now.table_id seat.new (at size r index Phase.Claimed) }
{
    let Ending { end, room } = take_ending(table, seat, size);
    room.destroy_empty();
    return_end(table, seat, size, index);
    end
}

/// The arrival that was the last takes all outcomes and the end out.
pub(crate) fn take_all<X, E>(
    table: &DeskTable<X, E>,
    seat: &mut Place<X, E>,
    size: usize,
    index: usize,
) -> (Listed<X>, E)
    requires desk { IsDesk size table.now.table_id }
    requires emptying { (r : Ending X E) × (xs : List X) × HasRoom size r × (length xs ≡ size) × Sits table.now.table_id seat.old (emptying size r index xs) }
    ensures list { (r : Ending X E) (xs : List X) → length xs ≡ size → seat.old.me ≡ emptying size r index xs → (result.0 ≡ xs) × (result.1 ≡ r.end) }
    ensures sits { (r : Ending X E) (xs : List X) → seat.old.me ≡ emptying size r index xs → Sits table.now.table_id seat.new (at size r index (Phase.Emptied xs)) }
{
    let Ending { end, room } = take_ending(table, seat, size);
    seat.turn();
    let outcomes = take_list(table, seat, size, room);
    return_all(table, seat, size, index);
    (Listed::of_reversed(outcomes), end)
}

/// The arrival that was the last is told what another had kept: it stands in the list.
pub(crate) fn tell<X, E>(table: &DeskTable<X, E>, seat: &mut Place<X, E>, other: Place<X, E>)
    requires words { 0 < table.now.table_id.words }
    requires last { (seat.old.table_id ≡ table.now.table_id) × IsLast seat.old.me }
    requires kept { (other.table_id ≡ table.now.table_id) × IsKeeper other.me }
    ensures table { seat.new.table_id ≡ seat.old.table_id }
    ensures same { seat.new.me ≡ seat.old.me }
    ensures listed { (k : ℕ) (x : X) → index_in other.me.0 ≡ k → kept_in (phase_in other.me.0) ≡ Some x → get_elem? (list_in (phase_in seat.old.me.0)) k ≡ some x }
{
    table.join_seat::<Tells>(seat, other);
    table.load::<ReadsTold>(seat, LEFT);
}

/// Two arrivals don't both complete: no call of this can be made.
pub(crate) fn meet<X, E>(table: &DeskTable<X, E>, seat: &mut Place<X, E>, other: Place<X, E>)
    requires words { 0 < table.now.table_id.words }
    requires one { (seat.old.table_id ≡ table.now.table_id) × (seat.old.me.1 ≡ []) × IsDone (phase_in seat.old.me.0) }
    requires other { (other.table_id ≡ table.now.table_id) × (other.me.1 ≡ []) × IsDone (phase_in other.me.0) }
    ensures { ⊥ }
{
    table.join_seat::<Meets>(seat, other);
    table.load::<Never>(seat, LEFT);
}
