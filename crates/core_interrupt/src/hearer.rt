//! The side that sets a handler, and ends.
ghost use Rattle.std.specs.Prelude.{◌≡◌};
ghost use Rattle.core_interrupt.specs.Answers.{HearsAt, EndsUnset, EndsArmed};

use crate::rule::{InterruptSeat, InterruptTable};
use crate::steps;
use std::marker::Model;

/// What setting a handler answers.
#[derive(Debug, PartialEq, Eq, Drop)]
pub enum Heard<H, I> {
    /// Nothing was raised before: the handler is kept, until it is called or the side ends.
    Kept,
    /// An object waited: the caller runs this handler on it.
    Call(H, I),
}

/// The side that may set a handler. It must be spent, by [`Hearer::set_handler`] or [`Hearer::end`].
pub struct Hearer<'h, H, I> {
    table: &'h InterruptTable<H, I>,
    seat: InterruptSeat<H, I>,
}

impl<'h, H, I> Model for Hearer<'h, H, I> {
    ghost use Rattle.std.specs.Prelude.{[]};
    ghost use Rattle.core_interrupt.specs.declared.view.Hearing.{Hearing};
    ghost use Rattle.core_interrupt.specs.Seen.{HearerSeen};
    ghost use Rattle.core_interrupt.specs.Steps.{IsHome, Sits, hearer_at};

    ghost Value = { HearerSeen };

    ghost view = { λ s. record { home = s.table.now.table_id } };

    ghost invariant = { λ s. IsHome s.table.now.table_id × Sits s.table.now.table_id s.seat (hearer_at Hearing.Ready []) };
}

/// The side that has set a handler. It must be spent by [`Armed::end`]. Contracts see its home and what it has done.
pub struct Armed<'h, H, I> {
    table: &'h InterruptTable<H, I>,
    seat: InterruptSeat<H, I>,
}

impl<'h, H, I> Model for Armed<'h, H, I> {
    ghost use Rattle.std.specs.Prelude.{◌≡◌, []};
    ghost use Rattle.core_interrupt.specs.Seen.{HeardSeen};
    ghost use Rattle.core_interrupt.specs.Views.{heard_in, IsArmed, IfHearer};
    ghost use Rattle.core_interrupt.specs.Steps.{IsHome};

    ghost Value = { HeardSeen H I };

    ghost view = { λ s. record { home = s.table.now.table_id; heard = heard_in s.seat.me.0 } };

    ghost invariant = { λ s. IsHome s.table.now.table_id × (s.seat.table_id ≡ s.table.now.table_id) × IfHearer s.seat.me.0 IsArmed × (s.seat.me.1 ≡ []) };
}

/// Shows that the hearer's side has ended. Contracts see its home and all that it did. It may be dropped.
pub struct Ended<H, I> {
    seat: InterruptSeat<H, I>,
}

impl<H, I> Model for Ended<H, I> {
    ghost use Rattle.std.specs.Prelude.{◌≡◌, []};
    ghost use Rattle.core_interrupt.specs.Seen.{HeardSeen};
    ghost use Rattle.core_interrupt.specs.Views.{heard_in, HasEnded, IfHearer};
    ghost use Rattle.core_interrupt.specs.Steps.{IsHome};

    ghost Value = { HeardSeen H I };

    ghost view = { λ s. record { home = s.seat.table_id; heard = heard_in s.seat.me.0 } };

    ghost invariant = { λ s. IsHome s.seat.table_id × IfHearer s.seat.me.0 HasEnded × (s.seat.me.1 ≡ []) };
}

impl<H, I> Drop for Ended<H, I> {
    fn drop(self) {
        let Self { seat } = self;
        drop(seat);
    }
}

impl<H, I> Ended<H, I> {
    ghost use Rattle.std.specs.Prelude.{[]};
    ghost use Rattle.core_interrupt.specs.declared.view.Hearing.{Hearing};
    ghost use Rattle.core_interrupt.specs.Views.{hears_of};
    ghost use Rattle.core_interrupt.specs.Steps.{IsHome, Sits, hearer_at};

    pub(crate) fn into_seat(self) -> InterruptSeat<H, I>
        ensures home { IsHome self.home }
        ensures sits { (p : Hearing H I) × (hears_of p ≡ self.heard) × Sits self.home result (hearer_at p []) }
    {
        let Self { seat } = self;
        seat
    }
}

impl<'h, H, I> Hearer<'h, H, I> {
    ghost use Rattle.std.specs.Prelude.{[]};
    ghost use Rattle.core_interrupt.specs.declared.view.Hearing.{Hearing};
    ghost use Rattle.core_interrupt.specs.Steps.{IsHome, Sits, hearer_at};

    pub(crate) fn new(
        table: &'h InterruptTable<H, I>,
        seat: InterruptSeat<H, I>,
    ) -> Hearer<'h, H, I>
        requires home { IsHome table.now.table_id }
        requires sits { Sits table.now.table_id seat (hearer_at Hearing.Ready []) }
        ensures { result ≡ record { home = table.now.table_id } }
    {
        Hearer { table, seat }
    }

    /// Sets the handler, as Folly's `setInterruptHandler` does. Kept exactly where Empty was found, Call exactly where
    /// HasObject was, with this handler and the object that waited.
    pub fn set_handler(self, handler: H) -> (Heard<H, I>, Armed<'h, H, I>)
        ensures home { result.1.home ≡ self.entry.home }
        ensures answer { HearsAt handler result.0 result.1.heard }
    {
        let Self { table, mut seat } = self;
        steps::take_slot(table, &mut seat);
        if steps::set_first(table, &mut seat, handler) {
            return (Heard::Kept, Armed { table, seat });
        }
        let (handler, object) = steps::meet(table, &mut seat);
        (Heard::Call(handler, object), Armed { table, seat })
    }

    /// Ends the side without a handler. It gets the object back exactly where HasObject was found, and none where Empty
    /// was. What it found stands in the receipt.
    pub fn end(self) -> (Option<I>, Ended<H, I>)
        ensures home { result.1.home ≡ self.entry.home }
        ensures answer { EndsUnset result.0 result.1.heard }
    {
        let Self { table, mut seat } = self;
        let object = steps::end_unset(table, &mut seat);
        (object, Ended { seat })
    }
}

impl<'h, H, I> Armed<'h, H, I> {
    ghost use Rattle.std.specs.Prelude.{[]};
    ghost use Rattle.core_interrupt.specs.declared.view.Hearing.{Hearing};
    ghost use Rattle.core_interrupt.specs.Views.{hears_of};
    ghost use Rattle.core_interrupt.specs.Steps.{IsHome, Sits, hearer_at};

    pub(crate) fn into_seat(self) -> InterruptSeat<H, I>
        ensures home { IsHome self.entry.home }
        ensures sits { (p : Hearing H I) × (hears_of p ≡ self.entry.heard) × Sits self.entry.home result (hearer_at p []) }
    {
        let Self { table: _, seat } = self;
        seat
    }

    /// Ends the side. It gets the handler back exactly where HasHandler was found, and none where Called was. What it
    /// found stands in the receipt, behind what it had done.
    pub fn end(self) -> (Option<H>, Ended<H, I>)
        ensures home { result.1.home ≡ self.entry.home }
        ensures answer { EndsArmed self.entry.heard result.0 result.1.heard }
    {
        let Self { table, mut seat } = self;
        let handler = steps::end_armed(table, &mut seat);
        (handler, Ended { seat })
    }
}
