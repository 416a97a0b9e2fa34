//! What a home holds when it is closed.
ghost use Rattle.std.specs.Prelude.{◌≡◌, IsSome};
ghost use Rattle.std.specs.Slots.{slots_len, slots_items, IsFull};
ghost use Rattle.atomic_table.specs.Table.{Final};
ghost use Rattle.core_interrupt.specs.Closing.{AreUntouched, handler_among, object_among};
ghost use Rattle.core_interrupt.specs.Rule.{InterruptHolds};
ghost use Rattle.core_interrupt.specs.Steps.{HasPair};

use crate::rule::{InterruptRule, InterruptSeat};
use crate::state::State;
use crate::view::{Item, View};
use atomic_table::{Closed, Table};
use std::alloc::Global;
use std::mem::ManuallyDrop;

/// What the slots of a closed home held, with what its word said.
#[derive(Debug, PartialEq, Eq, Drop)]
pub struct Remains<H, I> {
    /// The handler that was set and that nobody got.
    pub handler: Option<H>,
    /// The object that was raised and that nobody got.
    pub object: Option<I>,
    /// The state of the interrupt.
    pub state: State,
}

/// Closes the table of a home. Where the home still has its pair, nothing was ever begun.
pub(crate) fn closed<H, I>(
    table: Table<Option<Item<H, I>>, View<H, I>, (), InterruptRule, Global>,
    pair: Option<InterruptSeat<H, I>>,
) -> Closed<Option<Item<H, I>>, Global>
    requires { HasPair table.shared.table_id pair }
    ensures counts { (slots_len result.words ≡ table.shared.table_id.words) × (slots_len result.slots ≡ table.shared.table_id.slots) }
    ensures values { IsFull result.words × IsFull result.slots × Final InterruptHolds (slots_items result.words) (slots_items result.slots) }
    ensures untouched { IsSome pair → AreUntouched (slots_items result.words) (slots_items result.slots) }
{
    match pair {
        Some(seat) => table.close_with(seat),
        None => table.close(),
    }
}

// A slot that a seat still had comes back with some item, of which nothing is known. A second one of a kind can only be
// leaked.
fn leak<X>(stray: X) {
    let _ = unsafe { ManuallyDrop::new_unchecked(stray) };
}

impl<H, I> Remains<H, I> {
    // What the two slots held, each for the field of its kind.
    pub(crate) fn of_slots(
        first: Option<Item<H, I>>,
        second: Option<Item<H, I>>,
        state: State,
    ) -> Remains<H, I>
        ensures handler { result.handler ≡ handler_among first second }
        ensures object { result.object ≡ object_among first second }
        ensures state { result.state ≡ state }
    {
        let (handler, object) = match (first, second) {
            (None, None) => (None, None),
            (Some(Item::Handler(handler)), None) => (Some(handler), None),
            (None, Some(Item::Object(object))) => (None, Some(object)),
            (Some(Item::Handler(handler)), Some(Item::Object(object))) => {
                (Some(handler), Some(object))
            }
            (None, Some(Item::Handler(handler))) => (Some(handler), None),
            (Some(Item::Object(object)), None) => (None, Some(object)),
            (Some(Item::Object(object)), Some(Item::Handler(handler))) => {
                (Some(handler), Some(object))
            }
            (Some(Item::Handler(handler)), Some(Item::Handler(stray))) => {
                leak(stray);
                (Some(handler), None)
            }
            (Some(Item::Object(stray)), Some(Item::Object(object))) => {
                leak(stray);
                (None, Some(object))
            }
        };
        Remains {
            handler,
            object,
            state,
        }
    }
}
