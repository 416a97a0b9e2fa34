//! What a half gets when it leaves: a receipt where it was the first, and the core's husk where it was the last.
ghost use Rattle.core_word.specs.Count.{raised};
ghost use Rattle.std.specs.Prelude.{◌≡◌, suc};

use crate::home::Key;
use crate::rule::{CoreSeat, CoreTable};
use crate::steps;
use crate::tally::Tally;
use core_state::Half;
use fan_base::Try;
use std::marker::Model;
use std::snapshot::Snapshot;

/// What is left of a core that both halves have left.
#[derive(Debug, PartialEq, Eq, Drop)]
pub enum Leftover<T, P> {
    /// The result or the proxy went to the callback.
    Nothing,
    /// The result, where the consumer gave up.
    Outcome(Try<T>),
    /// The proxy, where the consumer gave up.
    Proxy(P),
}

/// What a leave answers.
pub enum Left<'h, T, C, P> {
    /// The other half was still attached.
    First(Receipt<'h, T, C, P>),
    /// The other half had left. The husk must be spent.
    Last(Leftover<T, P>, Husk<'h, T, C, P>),
}

/// Shows that a half has left its core while the other half was attached: its leave found 2. It may be dropped.
pub struct Receipt<'h, T, C, P> {
    table: &'h CoreTable<T, C, P>,
    half: Half,
    seat: CoreSeat<T, C, P>,
}

impl<'h, T, C, P> Model for Receipt<'h, T, C, P> {
    ghost use Rattle.std.specs.Prelude.{◌≡◌, []};
    ghost use Rattle.core_word.specs.Seen.{SeenReceipt};
    ghost use Rattle.core_word.specs.Views.{use_of, count_found, offer_in_view, demand_in_view, IsFirstLeave};
    ghost use Rattle.core_word.specs.Plays.{IsHome};

    ghost Value = { SeenReceipt T C P };

    ghost view = { λ r. record { home = r.table.now.table_id; use_number = use_of r.seat.me.0; half = r.half; count_found = count_found r.seat.me.0; offer = offer_in_view r.seat.me.0; demand = demand_in_view r.seat.me.0 } };

    ghost invariant = { λ r. IsHome r.table.now.table_id × (r.seat.table_id ≡ r.table.now.table_id) × (r.seat.me.1 ≡ []) × IsFirstLeave r.half r.seat.me.0 };
}

impl<'h, T, C, P> Receipt<'h, T, C, P> {
    ghost use Rattle.std.specs.Prelude.{[]};
    ghost use Rattle.core_word.specs.Views.{use_of, offer_in_view, demand_in_view, IsFirstLeave};
    ghost use Rattle.core_word.specs.Plays.{IsHome};

    pub(crate) fn new(
        table: &'h CoreTable<T, C, P>,
        half: Half,
        seat: CoreSeat<T, C, P>,
    ) -> Receipt<'h, T, C, P>
        requires home { IsHome table.now.table_id }
        requires sits { (seat.table_id ≡ table.now.table_id) × (seat.me.1 ≡ []) }
        requires first { IsFirstLeave half seat.me.0 }
        ensures { result ≡ record { home = table.now.table_id; use_number = use_of seat.me.0; half = half; count_found = 2; offer = offer_in_view seat.me.0; demand = demand_in_view seat.me.0 } }
    {
        Receipt { table, half, seat }
    }

    // Its table and its seat.
    pub(crate) fn into_seat(self) -> (&'h CoreTable<T, C, P>, CoreSeat<T, C, P>)
        ensures home { IsHome result.0.now.table_id × (result.0.now.table_id ≡ self.entry.home) }
        ensures sits { (result.1.table_id ≡ result.0.now.table_id) × (result.1.me.1 ≡ []) × (use_of result.1.me.0 ≡ self.entry.use_number) }
        ensures first { IsFirstLeave self.entry.half result.1.me.0 }
    {
        let Self {
            table,
            half: _,
            seat,
        } = self;
        (table, seat)
    }
}

impl<'h, T, C, P> Drop for Receipt<'h, T, C, P> {
    fn drop(self) {
        let Self {
            table: _,
            half: _,
            seat,
        } = self;
        drop(seat);
    }
}

/// A core that both halves have left. It must be spent by `end` or `reopen`.
pub struct Husk<'h, T, C, P> {
    pub(crate) table: &'h CoreTable<T, C, P>,
    pub(crate) seat: CoreSeat<T, C, P>,
    // The seat of the last leaver before it left, for the contracts alone.
    pub(crate) before: Snapshot<CoreSeat<T, C, P>>,
}

impl<'h, T, C, P> Model for Husk<'h, T, C, P> {
    ghost use Rattle.core_word.specs.Seen.{SeenHusk};
    ghost use Rattle.core_word.specs.Views.{use_of, offer_in_view, demand_in_view, count_found};
    ghost use Rattle.core_word.specs.Plays.{IsHome, Sits, husk_at};

    ghost Value = { SeenHusk T C P };

    ghost view = { λ h. record { home = h.table.now.table_id; use_number = use_of h.seat.me.0; count_found = count_found h.seat.me.0; offer = offer_in_view h.seat.me.0; demand = demand_in_view h.seat.me.0; known_offer = offer_in_view h.before.value.me.0; known_demand = demand_in_view h.before.value.me.0 } };

    ghost invariant = { λ h. IsHome h.table.now.table_id × Sits h.table.now.table_id h.seat (husk_at (use_of h.seat.me.0) (offer_in_view h.seat.me.0) (demand_in_view h.seat.me.0)) };
}

impl<'h, T, C, P> Husk<'h, T, C, P> {
    ghost use Rattle.core_word.specs.Views.{use_of, offer_in_view, demand_in_view};
    ghost use Rattle.core_word.specs.Plays.{IsHome, Sits, husk_at};

    pub(crate) fn new(
        table: &'h CoreTable<T, C, P>,
        seat: CoreSeat<T, C, P>,
        before: Snapshot<CoreSeat<T, C, P>>,
    ) -> Husk<'h, T, C, P>
        requires home { IsHome table.now.table_id }
        requires sits { Sits table.now.table_id seat (husk_at (use_of seat.me.0) (offer_in_view seat.me.0) (demand_in_view seat.me.0)) }
        ensures { result ≡ record { home = table.now.table_id; use_number = use_of seat.me.0; count_found = 1; offer = offer_in_view seat.me.0; demand = demand_in_view seat.me.0; known_offer = offer_in_view before.value.me.0; known_demand = demand_in_view before.value.me.0 } }
    {
        Husk {
            table,
            seat,
            before,
        }
    }

    /// Frees the core. Its home is used no more. Raises `freed`.
    pub fn end(self, t: &mut Tally)
        ensures { t.new ≡ record t.old { freed = raised t.old.freed } }
    {
        let Husk {
            table: _,
            seat,
            before: _,
        } = self;
        drop(seat);
        t.count_freed();
    }

    /// Frees the core, and makes its home ready for another use, whose number is one more. The key is that use's. Raises
    /// `freed` and `reopened`.
    pub fn reopen(self, t: &mut Tally) -> Key<'h, T, C, P>
        ensures key { result ≡ record { home = self.entry.home; use_number = suc self.entry.use_number } }
        ensures tally { t.new ≡ record t.old { freed = raised t.old.freed; reopened = raised t.old.reopened } }
    {
        let Husk {
            table,
            mut seat,
            before: _,
        } = self;
        steps::set_back(table, &mut seat);
        steps::attach_both(table, &mut seat);
        t.count_reopened();
        Key::new(table, seat)
    }
}
