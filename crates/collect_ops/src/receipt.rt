//! What shows that an arrival has made its step. Each may be dropped.
ghost use Rattle.std.specs.Prelude.{◌≡◌, [], slice_get};
ghost use Rattle.collect_ops.specs.Steps.{IsKept, IsDone};
ghost use Rattle.collect_ops.specs.Views.{desk_in, index_in, phase_in, kept_in, found_in, list_in};
ghost use Rattle.collect_ops.specs.declared.view.Phase.{Phase};

use crate::rule::{DeskTable, Place};
use crate::steps;
use crate::view::Phase;
use std::marker::Model;

/// Shows that the outcome of an arrival was kept, while more were left.
pub struct Receipt<X, E> {
    seat: Place<X, E>,
}

impl<X, E> Model for Receipt<X, E> {
    ghost use Rattle.std.specs.Prelude.{◌≡◌, []};
    ghost use Rattle.collect_ops.specs.Seen.{ReceiptSeen};
    ghost use Rattle.collect_ops.specs.Steps.{IsKept};
    ghost use Rattle.collect_ops.specs.Views.{desk_in, index_in, phase_in, kept_in, found_in};

    ghost Value = { ReceiptSeen X E };

    ghost view = { λ r. record { desk = desk_in r.seat.table_id r.seat.me.0; index = index_in r.seat.me.0; outcome = kept_in (phase_in r.seat.me.0); found = found_in (phase_in r.seat.me.0) } };

    ghost invariant = { λ r. IsKept (phase_in r.seat.me.0) × (r.seat.me.1 ≡ []) };
}

impl<X, E> Receipt<X, E> {
    pub(crate) fn new(seat: Place<X, E>) -> Receipt<X, E>
        requires kept { IsKept (phase_in seat.me.0) }
        requires empty { seat.me.1 ≡ [] }
        ensures { result ≡ record { desk = desk_in seat.table_id seat.me.0; index = index_in seat.me.0; outcome = kept_in (phase_in seat.me.0); found = found_in (phase_in seat.me.0) } }
    {
        Receipt { seat }
    }

    // The seat of the arrival.
    fn into_seat(self) -> Place<X, E>
        ensures seen { self ≡ record { desk = desk_in result.table_id result.me.0; index = index_in result.me.0; outcome = kept_in (phase_in result.me.0); found = found_in (phase_in result.me.0) } }
        ensures kept { IsKept (phase_in result.me.0) × (result.me.1 ≡ []) }
    {
        let Receipt { seat } = self;
        seat
    }
}

impl<X, E> Drop for Receipt<X, E> {
    fn drop(self) {
        let Self { seat } = self;
        drop(seat);
    }
}

/// Shows that an arrival found that another had claimed.
pub struct Lost<X, E> {
    seat: Place<X, E>,
}

impl<X, E> Model for Lost<X, E> {
    ghost use Rattle.std.specs.Prelude.{◌≡◌};
    ghost use Rattle.collect_ops.specs.declared.view.Phase.TheVariants.{Lost as WasLost};
    ghost use Rattle.collect_ops.specs.Seen.{LostSeen};
    ghost use Rattle.collect_ops.specs.Views.{desk_in, index_in, phase_in, found_in};

    ghost Value = { LostSeen E };

    ghost view = { λ l. record { desk = desk_in l.seat.table_id l.seat.me.0; index = index_in l.seat.me.0; found = found_in (phase_in l.seat.me.0) } };

    ghost invariant = { λ l. phase_in l.seat.me.0 ≡ WasLost };
}

impl<X, E> Lost<X, E> {
    pub(crate) fn new(seat: Place<X, E>) -> Lost<X, E>
        requires { phase_in seat.me.0 ≡ Phase.Lost }
        ensures { result ≡ record { desk = desk_in seat.table_id seat.me.0; index = index_in seat.me.0; found = 1 } }
    {
        Lost { seat }
    }
}

impl<X, E> Drop for Lost<X, E> {
    fn drop(self) {
        let Self { seat } = self;
        drop(seat);
    }
}

/// Shows that an arrival completed its desk: it found 1 left, or claimed the end.
pub struct Completed<'d, X, E> {
    table: &'d DeskTable<X, E>,
    seat: Place<X, E>,
}

impl<'d, X, E> Model for Completed<'d, X, E> {
    ghost use Rattle.std.specs.Prelude.{◌≡◌, []};
    ghost use Rattle.collect_ops.specs.Seen.{CompletedSeen};
    ghost use Rattle.collect_ops.specs.Steps.{IsDesk, IsDone};
    ghost use Rattle.collect_ops.specs.Views.{desk_in, size_in, index_in, phase_in, found_in, list_in};

    ghost Value = { CompletedSeen X E };

    ghost view = { λ c. record { desk = desk_in c.seat.table_id c.seat.me.0; index = index_in c.seat.me.0; found = found_in (phase_in c.seat.me.0); list = list_in (phase_in c.seat.me.0) } };

    ghost invariant = { λ c. (c.seat.table_id ≡ c.table.now.table_id) × IsDesk (size_in c.seat.me.0) c.table.now.table_id × IsDone (phase_in c.seat.me.0) × (c.seat.me.1 ≡ []) };
}

impl<'d, X, E> Completed<'d, X, E> {
    ghost use Rattle.collect_ops.specs.Steps.{IsDesk};
    ghost use Rattle.collect_ops.specs.Views.{size_in};

    pub(crate) fn new(table: &'d DeskTable<X, E>, seat: Place<X, E>) -> Completed<'d, X, E>
        requires table { seat.table_id ≡ table.now.table_id }
        requires desk { IsDesk (size_in seat.me.0) table.now.table_id }
        requires done { IsDone (phase_in seat.me.0) }
        requires empty { seat.me.1 ≡ [] }
        ensures { result ≡ record { desk = desk_in seat.table_id seat.me.0; index = index_in seat.me.0; found = found_in (phase_in seat.me.0); list = list_in (phase_in seat.me.0) } }
    {
        Completed { table, seat }
    }
}

impl<'d, X, E> Completed<'d, X, E> {
    /// The seat of the arrival.
    pub(crate) fn into_seat(self) -> Place<X, E>
        ensures desk { self.entry.desk ≡ desk_in result.table_id result.me.0 }
        ensures done { IsDone (phase_in result.me.0) × (result.me.1 ≡ []) }
        ensures found { self.entry.found ≡ found_in (phase_in result.me.0) }
    {
        let Completed { table: _, seat } = self;
        seat
    }

    /// The law of the list: what another arrival had kept stands in the list of the one that found 1 left, at its index.
    pub fn lists(&mut self, receipt: Receipt<X, E>)
        requires desk { receipt.desk ≡ self.old.desk }
        requires counted { self.old.found ≡ 1 }
        ensures listed { slice_get self.old.list receipt.index ≡ receipt.outcome }
        ensures same { self.new ≡ self.old }
    {
        let other = receipt.into_seat();
        steps::tell(self.table, &mut self.seat, other);
    }

    /// The law of one completion: no two arrivals complete one desk. So no call of this can be made.
    pub fn completes_once(self, other: Completed<'d, X, E>)
        requires { self.desk ≡ other.desk }
        ensures { ⊥ }
    {
        let second = other.into_seat();
        let Completed { table, mut seat } = self;
        steps::meet(table, &mut seat, second);
    }
}

impl<'d, X, E> Drop for Completed<'d, X, E> {
    fn drop(self) {
        let Self { table: _, seat } = self;
        drop(seat);
    }
}
