//! The side that raises objects.
ghost use Rattle.std.specs.Prelude.{◌≡◌, ◌∷◌, ◌++◌, []};
ghost use Rattle.core_interrupt.specs.declared.history.RaiseEvent.{RaiseEvent};
ghost use Rattle.core_interrupt.specs.declared.view.Raising.{Raising};
ghost use Rattle.core_interrupt.specs.declared.view.Item.{Item};
ghost use Rattle.core_interrupt.specs.Answers.{Raises, RaisesAt};
ghost use Rattle.core_interrupt.specs.Views.{raised_in};
ghost use Rattle.core_interrupt.specs.Steps.{IsHome, Sits, raiser_at, empty_slot};

use crate::rule::{InterruptSeat, InterruptTable};
use crate::state::State;
use crate::steps;
use crate::view::Item;
use std::marker::Model;

/// What a raise answers.
#[derive(Debug, PartialEq, Eq, Drop)]
pub enum Raised<H, I> {
    /// No handler was set: the object is kept, until a handler is called with it or the hearer's side ends.
    Kept,
    /// A handler was set and not called: the caller runs it on this object.
    Call(H, I),
    /// An object was raised before: this one comes back.
    Late(I),
    /// The hearer's side has ended: the object comes back.
    Gone(I),
}

/// The side that raises, any number of times. Contracts see its home and its raises, the oldest first. It may be dropped.
pub struct Raiser<'h, H, I> {
    table: &'h InterruptTable<H, I>,
    seat: InterruptSeat<H, I>,
}

impl<'h, H, I> Model for Raiser<'h, H, I> {
    ghost use Rattle.std.specs.Prelude.{[]};
    ghost use Rattle.core_interrupt.specs.declared.view.Raising.{Raising};
    ghost use Rattle.core_interrupt.specs.Seen.{RaiserSeen};
    ghost use Rattle.core_interrupt.specs.Views.{raised_in};
    ghost use Rattle.core_interrupt.specs.Steps.{IsHome, Sits, raiser_at};

    ghost Value = { RaiserSeen H I };

    ghost view = { λ s. record { home = s.table.now.table_id; raised = raised_in s.seat.me.0 } };

    ghost invariant = { λ s. IsHome s.table.now.table_id × Sits s.table.now.table_id s.seat (raiser_at Raising.Resting (raised_in s.seat.me.0) []) };
}

impl<'h, H, I> Drop for Raiser<'h, H, I> {
    fn drop(self) {
        let Self { table: _, seat } = self;
        drop(seat);
    }
}

// The object in an item that has one.
fn object_in<H, I>(item: Option<Item<H, I>>) -> I
    requires { (i : I) × (item ≡ Some (Item.Object i)) }
    ensures { item ≡ Some (Item.Object result) }
{
    let Some(Item::Object(object)) = item else {
        unreachable!()
    };
    object
}

// The raise of one who has found Empty, and has the object's slot.
fn raise_first<H, I>(
    table: &InterruptTable<H, I>,
    seat: &mut InterruptSeat<H, I>,
    object: I,
) -> Raised<H, I>
    requires home { IsHome table.now.table_id }
    requires holding { Sits table.now.table_id seat.old (raiser_at Raising.Holding (raised_in seat.old.me.0) (empty_slot 1 [])) }
    ensures { (this : RaiseEvent H I) × RaisesAt object result this × Sits table.now.table_id seat.new (raiser_at Raising.Resting (raised_in seat.old.me.0 ++ this ∷ []) []) }
{
    if steps::place(table, seat, object) {
        return Raised::Kept;
    }
    let item = Some(Item::Object(steps::take_back(table, seat)));
    if steps::try_again(table, seat, &item) {
        let handler = steps::take_called(table, seat);
        return Raised::Call(handler, object_in(item));
    }
    Raised::Gone(object_in(item))
}

// A raise, by the state found.
fn raise_at<H, I>(
    table: &InterruptTable<H, I>,
    seat: &mut InterruptSeat<H, I>,
    object: I,
) -> Raised<H, I>
    requires home { IsHome table.now.table_id }
    requires resting { Sits table.now.table_id seat.old (raiser_at Raising.Resting (raised_in seat.old.me.0) []) }
    ensures { (this : RaiseEvent H I) × RaisesAt object result this × Sits table.now.table_id seat.new (raiser_at Raising.Resting (raised_in seat.old.me.0 ++ this ∷ []) []) }
{
    let item = Some(Item::Object(object));
    match steps::try_call(table, seat, &item) {
        State::Empty => raise_first(table, seat, object_in(item)),
        State::HasHandler => {
            let handler = steps::take_called(table, seat);
            Raised::Call(handler, object_in(item))
        }
        State::HasObject => Raised::Late(object_in(item)),
        State::Called => Raised::Late(object_in(item)),
        State::Ended => Raised::Gone(object_in(item)),
    }
}

impl<'h, H, I> Raiser<'h, H, I> {
    pub(crate) fn new(
        table: &'h InterruptTable<H, I>,
        seat: InterruptSeat<H, I>,
    ) -> Raiser<'h, H, I>
        requires home { IsHome table.now.table_id }
        requires sits { Sits table.now.table_id seat (raiser_at Raising.Resting (raised_in seat.me.0) []) }
        ensures { result ≡ record { home = table.now.table_id; raised = raised_in seat.me.0 } }
    {
        Raiser { table, seat }
    }

    pub(crate) fn into_parts(self) -> (&'h InterruptTable<H, I>, InterruptSeat<H, I>)
        ensures home { (result.0.now.table_id ≡ self.entry.home) × IsHome self.entry.home }
        ensures sits { Sits self.entry.home result.1 (raiser_at Raising.Resting self.entry.raised []) }
    {
        let Self { table, seat } = self;
        (table, seat)
    }

    /// Raises an object, as Folly's `raise` does. Kept exactly where Empty was found, Call exactly where HasHandler was,
    /// Late exactly where HasObject or Called was, Gone exactly where Ended was. The raise, with the state that it found,
    /// stands behind those before it.
    pub fn raise(&mut self, object: I) -> Raised<H, I>
        ensures home { self.new.home ≡ self.old.home }
        ensures raises { Raises object self.old.raised result self.new.raised }
    {
        raise_at(self.table, &mut self.seat, object)
    }
}
