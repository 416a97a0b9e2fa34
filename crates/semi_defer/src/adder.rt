//! The side that adds a job.
ghost use Rattle.std.specs.Prelude.{◌≡◌};
ghost use Rattle.semi_defer.specs.Answers.{AddsAt};

use crate::rule::{DeferSeat, DeferTable};
use crate::state::Chosen;
use crate::steps;
use fan_base::ExecId;
use std::marker::Model;

/// What adding a job answers.
#[derive(Debug, PartialEq, Eq, Drop)]
pub enum Added<J> {
    /// Nothing was chosen before: the job is kept for the holder.
    Kept,
    /// This executor was set: the caller runs the job there.
    RunOn(ExecId, J),
    /// The holder has detached: the job comes back, and isn't to run.
    Gone(J),
}

/// The side that adds one job. It must be spent, by [`Adder::add`] or [`Adder::end`].
pub struct Adder<'h, J> {
    table: &'h DeferTable<J>,
    seat: DeferSeat<J>,
}

impl<'h, J> Model for Adder<'h, J> {
    ghost use Rattle.std.specs.Prelude.{[]};
    ghost use Rattle.semi_defer.specs.declared.view.Adding.{Adding};
    ghost use Rattle.semi_defer.specs.Seen.{SideSeen};
    ghost use Rattle.semi_defer.specs.Steps.{IsHome, Sits, adder_at};

    ghost Value = { SideSeen };

    ghost view = { λ s. record { home = s.table.now.table_id } };

    ghost invariant = { λ s. IsHome s.table.now.table_id × Sits s.table.now.table_id s.seat (adder_at Adding.Ready []) };
}

/// Shows what an adder has done. It may be dropped.
pub struct AddReceipt<J> {
    seat: DeferSeat<J>,
}

impl<J> Model for AddReceipt<J> {
    ghost use Rattle.std.specs.Prelude.{◌≡◌, []};
    ghost use Rattle.semi_defer.specs.Seen.{AddedSeen};
    ghost use Rattle.semi_defer.specs.Views.{add_in, HasAdded};
    ghost use Rattle.semi_defer.specs.Steps.{IsHome};

    ghost Value = { AddedSeen J };

    ghost view = { λ s. record { home = s.seat.table_id; did = add_in s.seat.me.0 } };

    ghost invariant = { λ s. IsHome s.seat.table_id × HasAdded s.seat.me.0 × (s.seat.me.1 ≡ []) };
}

impl<J> Drop for AddReceipt<J> {
    fn drop(self) {
        let Self { seat } = self;
        drop(seat);
    }
}

impl<'h, J> Adder<'h, J> {
    ghost use Rattle.std.specs.Prelude.{[]};
    ghost use Rattle.semi_defer.specs.declared.view.Adding.{Adding};
    ghost use Rattle.semi_defer.specs.Steps.{IsHome, Sits, adder_at};

    pub(crate) fn new(table: &'h DeferTable<J>, seat: DeferSeat<J>) -> Adder<'h, J>
        requires home { IsHome table.now.table_id }
        requires sits { Sits table.now.table_id seat (adder_at Adding.Ready []) }
        ensures { result ≡ record { home = table.now.table_id } }
    {
        Adder { table, seat }
    }

    /// Adds the job. Kept exactly where Empty was found, RunOn exactly where HasExecutor was, with the executor that was
    /// set and this job, and Gone exactly where Detached was, with this job. What it found stands in the receipt.
    pub fn add(self, job: J) -> (Added<J>, AddReceipt<J>)
        ensures home { result.1.home ≡ self.entry.home }
        ensures answer { AddsAt job result.0 result.1.did }
    {
        let Self { table, mut seat } = self;
        steps::take_slot(table, &mut seat);
        let Some(chosen) = steps::add_first(table, &mut seat, job) else {
            return (Added::Kept, AddReceipt { seat });
        };
        let job = steps::take_back(table, &mut seat);
        let receipt = AddReceipt { seat };
        match chosen {
            Chosen::Executor(exec) => (Added::RunOn(exec, job), receipt),
            Chosen::Detached => (Added::Gone(job), receipt),
        }
    }

    /// Adds nothing. The holder then finds Empty.
    pub fn end(self) {
        let Self { table: _, seat } = self;
        drop(seat);
    }
}

impl<J> AddReceipt<J> {
    ghost use Rattle.std.specs.Prelude.{[]};
    ghost use Rattle.semi_defer.specs.declared.view.Adding.{Adding};
    ghost use Rattle.semi_defer.specs.Views.{add_of};
    ghost use Rattle.semi_defer.specs.Steps.{IsHome, Sits, adder_at};

    pub(crate) fn into_seat(self) -> DeferSeat<J>
        ensures home { IsHome self.home }
        ensures sits { (a : Adding J) × (add_of a ≡ self.did) × Sits self.home result (adder_at a []) }
    {
        let Self { seat } = self;
        seat
    }
}
