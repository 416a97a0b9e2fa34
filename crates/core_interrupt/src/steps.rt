//! The atomic steps of a home's table, and the plain access to a slot that a seat has.
ghost use Rattle.std.specs.Prelude.{◌≡◌, ◌∷◌, ◌++◌, [], Option, None, IfNone, IfSome};
ghost use Rattle.std.specs.Bool.{OnTrue, OnFalse};
ghost use Rattle.atomic_table.specs.Table.{rest};
ghost use Rattle.core_interrupt.specs.declared.history.RaiseEvent.{RaiseEvent};
ghost use Rattle.core_interrupt.specs.declared.view.HearerEnd.{HearerEnd};
ghost use Rattle.core_interrupt.specs.declared.view.Hearing.{Hearing};
ghost use Rattle.core_interrupt.specs.declared.view.Raising.{Raising};
ghost use Rattle.core_interrupt.specs.declared.view.Item.{Item};
ghost use Rattle.core_interrupt.specs.Views.{raised_in};
ghost use Rattle.core_interrupt.specs.Steps.{IsHome, Sits, hearer_at, raiser_at, empty_slot, with_handler, with_object, armed, called_end, TriesAt};

use crate::rule::{
    EndsArmed, EndsUnset, GivesBack, InterruptSeat, InterruptTable, Meets, Places, Sets, TakesSlot,
    Tries, TriesAgain,
};
use crate::state::{State, code, from_code};
use crate::view::Item;

const WORD: usize = 0;

const HANDLER: usize = 0;

const OBJECT: usize = 1;

/// Takes the handler's slot, which is empty, for a hearer that is about to set a handler.
pub(crate) fn take_slot<H, I>(table: &InterruptTable<H, I>, seat: &mut InterruptSeat<H, I>)
    requires home { IsHome table.now.table_id }
    requires ready { Sits table.now.table_id seat.old (hearer_at Hearing.Ready []) }
    ensures { Sits table.now.table_id seat.new (hearer_at Hearing.Holding (empty_slot 0 [])) }
{
    table.load::<TakesSlot>(seat, WORD);
}

// Puts an item into the empty slot that the seat took last.
fn put<H, I>(
    table: &InterruptTable<H, I>,
    seat: &mut InterruptSeat<H, I>,
    slot: usize,
    item: Option<Item<H, I>>,
)
    requires { (seat.old.table_id ≡ table.now.table_id) × (seat.old.me.1 ≡ empty_slot slot (rest seat.old.me.1)) }
    ensures { Sits table.now.table_id seat.new (seat.old.me.0, (slot, item) ∷ rest seat.old.me.1) }
{
    let old = table.exchange(seat, slot, item);
    let None = old else { unreachable!() };
}

// Takes the handler out of the slot that the seat took last.
fn take_handler<H, I>(table: &InterruptTable<H, I>, seat: &mut InterruptSeat<H, I>) -> H
    requires { (seat.old.table_id ≡ table.now.table_id) × ((h : H) × (seat.old.me.1 ≡ with_handler h (rest seat.old.me.1))) }
    ensures had { seat.old.me.1 ≡ with_handler result (rest seat.old.me.1) }
    ensures sits { Sits table.now.table_id seat.new (seat.old.me.0, empty_slot 0 (rest seat.old.me.1)) }
{
    let item = table.exchange(seat, HANDLER, None);
    let Some(Item::Handler(handler)) = item else {
        unreachable!()
    };
    handler
}

// Takes the object out of the slot that the seat took last.
fn take_object<H, I>(table: &InterruptTable<H, I>, seat: &mut InterruptSeat<H, I>) -> I
    requires { (seat.old.table_id ≡ table.now.table_id) × ((i : I) × (seat.old.me.1 ≡ with_object i (rest seat.old.me.1))) }
    ensures had { seat.old.me.1 ≡ with_object result (rest seat.old.me.1) }
    ensures sits { Sits table.now.table_id seat.new (seat.old.me.0, empty_slot 1 (rest seat.old.me.1)) }
{
    let item = table.exchange(seat, OBJECT, None);
    let Some(Item::Object(object)) = item else {
        unreachable!()
    };
    object
}

/// Sets the handler where nothing was raised, and says whether it did. Else it has seen that an object waits.
pub(crate) fn set_first<H, I>(
    table: &InterruptTable<H, I>,
    seat: &mut InterruptSeat<H, I>,
    handler: H,
) -> bool
    requires home { IsHome table.now.table_id }
    requires holding { Sits table.now.table_id seat.old (hearer_at Hearing.Holding (empty_slot 0 [])) }
    ensures set { OnTrue result (Sits table.now.table_id seat.new (hearer_at (Hearing.Set handler) [])) }
    ensures aware { OnFalse result (Sits table.now.table_id seat.new (hearer_at Hearing.Aware (with_handler handler []))) }
{
    put(table, seat, HANDLER, Some(Item::Handler(handler)));
    let empty = code(State::Empty);
    let has_handler = code(State::HasHandler);
    let found = table.compare_exchange::<Sets>(seat, WORD, empty, has_handler);
    found == empty
}

/// Sets the handler where an object waits, and takes both.
pub(crate) fn meet<H, I>(table: &InterruptTable<H, I>, seat: &mut InterruptSeat<H, I>) -> (H, I)
    requires home { IsHome table.now.table_id }
    requires aware { (h : H) × Sits table.now.table_id seat.old (hearer_at Hearing.Aware (with_handler h [])) }
    ensures had { seat.old.me ≡ hearer_at Hearing.Aware (with_handler result.0 []) }
    ensures called { Sits table.now.table_id seat.new (hearer_at (Hearing.Called result.0 result.1) []) }
{
    let has_object = code(State::HasObject);
    let called = code(State::Called);
    table.compare_exchange::<Meets>(seat, WORD, has_object, called);
    let object = take_object(table, seat);
    seat.turn();
    let handler = take_handler(table, seat);
    table.load::<GivesBack>(seat, WORD);
    (handler, object)
}

/// Ends a hearer that has set no handler. It gets the object that waits, if one does.
pub(crate) fn end_unset<H, I>(
    table: &InterruptTable<H, I>,
    seat: &mut InterruptSeat<H, I>,
) -> Option<I>
    requires home { IsHome table.now.table_id }
    requires ready { Sits table.now.table_id seat.old (hearer_at Hearing.Ready []) }
    ensures none { IfNone result (Sits table.now.table_id seat.new (hearer_at (Hearing.Ended HearerEnd.Unset) [])) }
    ensures back { IfSome result (λ i. Sits table.now.table_id seat.new (hearer_at (Hearing.Ended (HearerEnd.ObjectBack i)) [])) }
{
    let ended = code(State::Ended);
    let found = table.swap::<EndsUnset>(seat, WORD, ended);
    if found != code(State::HasObject) {
        return None;
    }
    let object = take_object(table, seat);
    table.load::<GivesBack>(seat, WORD);
    Some(object)
}

/// Ends a hearer that has set a handler. It gets the handler back where nobody called it.
pub(crate) fn end_armed<H, I>(
    table: &InterruptTable<H, I>,
    seat: &mut InterruptSeat<H, I>,
) -> Option<H>
    requires home { IsHome table.now.table_id }
    requires armed { (h : H) × (got : Option I) × Sits table.now.table_id seat.old (hearer_at (armed h got) []) }
    ensures none { IfNone result ((h : H) × (got : Option I) × (seat.old.me ≡ hearer_at (armed h got) []) × Sits table.now.table_id seat.new (hearer_at (Hearing.Ended (called_end h got)) [])) }
    ensures back { IfSome result (λ h. (seat.old.me ≡ hearer_at (Hearing.Set h) []) × Sits table.now.table_id seat.new (hearer_at (Hearing.Ended (HearerEnd.HandlerBack h)) [])) }
{
    let ended = code(State::Ended);
    let found = table.swap::<EndsArmed>(seat, WORD, ended);
    if found != code(State::HasHandler) {
        return None;
    }
    let handler = take_handler(table, seat);
    table.load::<GivesBack>(seat, WORD);
    Some(handler)
}

/// Calls the handler where one is set, and answers the state that it found. In Empty it has taken the object's slot.
/// The item is the object, for the record alone.
pub(crate) fn try_call<H, I>(
    table: &InterruptTable<H, I>,
    seat: &mut InterruptSeat<H, I>,
    item: &Option<Item<H, I>>,
) -> State
    requires home { IsHome table.now.table_id }
    requires resting { Sits table.now.table_id seat.old (raiser_at Raising.Resting (raised_in seat.old.me.0) []) }
    requires item { (i : I) × (item.now ≡ Some (Item.Object i)) }
    ensures of_home { seat.new.table_id ≡ table.now.table_id }
    ensures tried { (i : I) → item.now ≡ Some (Item.Object i) → TriesAt result (raised_in seat.old.me.0) i seat.new.me }
{
    let has_handler = code(State::HasHandler);
    let called = code(State::Called);
    let found = table.compare_exchange_with::<Tries>(seat, WORD, has_handler, called, item);
    from_code(found)
}

/// Takes the handler that a raiser calls, and gives its slot back.
pub(crate) fn take_called<H, I>(table: &InterruptTable<H, I>, seat: &mut InterruptSeat<H, I>) -> H
    requires home { IsHome table.now.table_id }
    requires calling { (h : H) × Sits table.now.table_id seat.old (raiser_at Raising.Calling (raised_in seat.old.me.0) (with_handler h [])) }
    ensures had { seat.old.me.1 ≡ with_handler result [] }
    ensures sits { Sits table.now.table_id seat.new (raiser_at Raising.Resting (raised_in seat.old.me.0) []) }
{
    let handler = take_handler(table, seat);
    table.load::<GivesBack>(seat, WORD);
    handler
}

/// Puts the object into its slot and leaves it there where no handler was set and the hearer hasn't ended. Says
/// whether it did.
pub(crate) fn place<H, I>(
    table: &InterruptTable<H, I>,
    seat: &mut InterruptSeat<H, I>,
    object: I,
) -> bool
    requires home { IsHome table.now.table_id }
    requires holding { Sits table.now.table_id seat.old (raiser_at Raising.Holding (raised_in seat.old.me.0) (empty_slot 1 [])) }
    ensures kept { OnTrue result (Sits table.now.table_id seat.new (raiser_at Raising.Resting (raised_in seat.old.me.0 ++ RaiseEvent.Kept object ∷ []) [])) }
    ensures aware { OnFalse result (Sits table.now.table_id seat.new (raiser_at Raising.Aware (raised_in seat.old.me.0) (with_object object []))) }
{
    put(table, seat, OBJECT, Some(Item::Object(object)));
    let empty = code(State::Empty);
    let has_object = code(State::HasObject);
    let found = table.compare_exchange::<Places>(seat, WORD, empty, has_object);
    found == empty
}

/// Takes an object back that was placed beside a handler, or after the end.
pub(crate) fn take_back<H, I>(table: &InterruptTable<H, I>, seat: &mut InterruptSeat<H, I>) -> I
    requires aware { (i : I) × Sits table.now.table_id seat.old (raiser_at Raising.Aware (raised_in seat.old.me.0) (with_object i [])) }
    ensures had { seat.old.me.1 ≡ with_object result [] }
    ensures sits { Sits table.now.table_id seat.new (raiser_at Raising.Aware (raised_in seat.old.me.0) (empty_slot 1 [])) }
{
    take_object(table, seat)
}

/// Calls the handler that was set, and says whether it did. Else the hearer has ended.
pub(crate) fn try_again<H, I>(
    table: &InterruptTable<H, I>,
    seat: &mut InterruptSeat<H, I>,
    item: &Option<Item<H, I>>,
) -> bool
    requires home { IsHome table.now.table_id }
    requires aware { Sits table.now.table_id seat.old (raiser_at Raising.Aware (raised_in seat.old.me.0) (empty_slot 1 [])) }
    requires item { (i : I) × (item.now ≡ Some (Item.Object i)) }
    ensures of_home { seat.new.table_id ≡ table.now.table_id }
    ensures called { OnTrue result ((i : I) → item.now ≡ Some (Item.Object i) → (h : H) × (seat.new.me ≡ raiser_at Raising.Calling (raised_in seat.old.me.0 ++ RaiseEvent.Called h i ∷ []) (with_handler h []))) }
    ensures gone { OnFalse result ((i : I) → item.now ≡ Some (Item.Object i) → seat.new.me ≡ raiser_at Raising.Resting (raised_in seat.old.me.0 ++ RaiseEvent.Gone i ∷ []) []) }
{
    let has_handler = code(State::HasHandler);
    let called = code(State::Called);
    let found = table.compare_exchange_with::<TriesAgain>(seat, WORD, has_handler, called, item);
    found == has_handler
}
