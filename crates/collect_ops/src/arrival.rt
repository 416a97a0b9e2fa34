//! The arrivals of a desk, one for each outcome.
ghost use Rattle.std.specs.Prelude.{◌≡◌, ◌↔◌, ◌-◌, IfSome, IfOk, IfErr, IsNone};
ghost use Rattle.collect_ops.specs.Answers.{Gathered, KeptBy, ClaimedBy, LostBy, next_after};
ghost use Rattle.collect_ops.specs.Steps.{IsDesk, IsDealer, IsReady};
ghost use Rattle.collect_ops.specs.Views.{desk_in};

use crate::desk::Gathers;
use crate::listed::Listed;
use crate::receipt::{Completed, Lost, Receipt};
use crate::rule::{DeskTable, Place};
use crate::steps;
use std::marker::Model;

/// The arrivals of a desk that weren't given yet, by index.
pub struct Arrivals<'d, D: Gathers> {
    table: &'d DeskTable<D::Kept, D::End>,
    seat: Place<D::Kept, D::End>,
    size: usize,
    next: usize,
}

impl<'d, D: Gathers> Model for Arrivals<'d, D> {
    ghost use Rattle.std.specs.Prelude.{◌≤◌};
    ghost use Rattle.collect_ops.specs.Seen.{ArrivalsSeen};
    ghost use Rattle.collect_ops.specs.Steps.{IsDesk, IsDealer};
    ghost use Rattle.collect_ops.specs.Views.{desk_in};

    ghost Value = { ArrivalsSeen D.End };

    ghost view = { λ a. record { desk = desk_in a.table.now.table_id a.seat.me.0; next = a.next } };

    ghost invariant = { λ a. (a.next ≤ a.size) × IsDesk a.size a.table.now.table_id × IsDealer a.size a.next a.table.now.table_id a.seat };
}

impl<'d, D: Gathers> Arrivals<'d, D> {
    pub(crate) fn new(
        table: &'d DeskTable<D::Kept, D::End>,
        seat: Place<D::Kept, D::End>,
        size: usize,
    ) -> Arrivals<'d, D>
        requires desk { IsDesk size table.now.table_id }
        requires dealer { IsDealer size 0 table.now.table_id seat }
        ensures { result ≡ record { desk = desk_in table.now.table_id seat.me.0; next = 0 } }
    {
        Arrivals {
            table,
            seat,
            size,
            next: 0,
        }
    }

    /// How many arrivals are left.
    pub fn len(&self) -> usize
        ensures { result ≡ self.now.desk.size - self.now.next }
    {
        self.size - self.next
    }

    /// The arrival of the next index. None exactly where all were given.
    pub fn next(&mut self) -> Option<Arrival<'d, D>>
        ensures none { IsNone result ↔ (self.old.desk.size ≡ self.old.next) }
        ensures arrival { IfSome result (λ arrival. arrival ≡ record { desk = self.old.desk; index = self.old.next }) }
        ensures rest { self.new ≡ record { desk = self.old.desk; next = next_after result self.old.next } }
    {
        if self.next == self.size {
            return None;
        }
        let index = self.next;
        let seat = steps::deal_arrival(self.table, &mut self.seat, self.size, index);
        self.next += 1;
        Some(Arrival::new(self.table, seat, self.size, index))
    }
}

impl<'d, D: Gathers> Drop for Arrivals<'d, D> {
    fn drop(self) {
        let Self {
            table: _,
            seat,
            size: _,
            next: _,
        } = self;
        drop(seat);
    }
}

/// The right to bring the outcome of one index to a desk. It must be spent.
pub struct Arrival<'d, D: Gathers> {
    pass: Pass<'d, D::Kept, D::End>,
}

impl<'d, D: Gathers> Model for Arrival<'d, D> {
    ghost use Rattle.collect_ops.specs.Seen.{ArrivalSeen};

    ghost Value = { ArrivalSeen D.End };

    ghost view = { λ a. a.pass };
}

impl<'d, D: Gathers> Arrival<'d, D> {
    pub(crate) fn new(
        table: &'d DeskTable<D::Kept, D::End>,
        seat: Place<D::Kept, D::End>,
        size: usize,
        index: usize,
    ) -> Arrival<'d, D>
        requires desk { IsDesk size table.now.table_id }
        requires ready { IsReady size index table.now.table_id seat }
        ensures { result ≡ record { desk = desk_in table.now.table_id seat.me.0; index = index } }
    {
        Arrival {
            pass: Pass {
                table,
                seat,
                size,
                index,
            },
        }
    }

    /// Its index at the desk: 0 to the desk's size less 1.
    pub fn index(&self) -> usize
        ensures { result ≡ self.now.index }
    {
        self.pass.index()
    }

    pub(crate) fn into_pass(self) -> Pass<'d, D::Kept, D::End>
        ensures { result ≡ self.entry }
    {
        let Arrival { pass } = self;
        pass
    }
}

/// An arrival at a desk of any kind.
pub(crate) struct Pass<'d, X, E> {
    table: &'d DeskTable<X, E>,
    seat: Place<X, E>,
    size: usize,
    index: usize,
}

impl<'d, X, E> Model for Pass<'d, X, E> {
    ghost use Rattle.collect_ops.specs.Seen.{ArrivalSeen};
    ghost use Rattle.collect_ops.specs.Steps.{IsDesk, IsReady};
    ghost use Rattle.collect_ops.specs.Views.{desk_in};

    ghost Value = { ArrivalSeen E };

    ghost view = { λ p. record { desk = desk_in p.table.now.table_id p.seat.me.0; index = p.index } };

    ghost invariant = { λ p. IsDesk p.size p.table.now.table_id × IsReady p.size p.index p.table.now.table_id p.seat };
}

impl<'d, X, E> Pass<'d, X, E> {
    pub(crate) fn index(&self) -> usize
        ensures { result ≡ self.now.index }
    {
        self.index
    }

    /// Leaves an outcome in its slot and takes 1 off the count. Where it found 1, it has all outcomes and the end.
    pub(crate) fn keep(
        self,
        outcome: X,
    ) -> Result<(Listed<X>, E, Completed<'d, X, E>), Receipt<X, E>>
        ensures last { IfOk result (λ t. Gathered self.entry outcome t.0 t.1 t.2) }
        ensures more { IfErr result (λ receipt. KeptBy self.entry outcome receipt) }
    {
        let Pass {
            table,
            mut seat,
            size,
            index,
        } = self;
        if steps::keep(table, &mut seat, size, index, outcome) != 1 {
            return Err(Receipt::new(seat));
        }
        let (list, end) = steps::take_all(table, &mut seat, size, index);
        Ok((list, end, Completed::new(table, seat)))
    }

    /// Claims the end, and has it where nobody had claimed.
    pub(crate) fn claim(self) -> Result<(E, Completed<'d, X, E>), Lost<X, E>>
        ensures claimed { IfOk result (λ t. ClaimedBy self.entry t.0 t.1) }
        ensures lost { IfErr result (λ lost. LostBy self.entry lost) }
    {
        let Pass {
            table,
            mut seat,
            size,
            index,
        } = self;
        if !steps::claim(table, &mut seat, size, index) {
            return Err(Lost::new(seat));
        }
        let end = steps::take_end(table, &mut seat, size, index);
        Ok((end, Completed::new(table, seat)))
    }
}
