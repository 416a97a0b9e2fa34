//! The side that chooses an executor, or detaches.
ghost use Rattle.std.specs.Prelude.{◌≡◌};
ghost use Rattle.semi_defer.specs.declared.state.Chosen.{Chosen};
ghost use Rattle.semi_defer.specs.Answers.{ChoosesAt};

use crate::rule::{DeferSeat, DeferTable};
use crate::state::Chosen;
use crate::steps;
use fan_base::ExecId;
use std::marker::Model;

/// The side that chooses. It must be spent, by [`Holder::set_executor`] or [`Holder::detach`].
pub struct Holder<'h, J> {
    table: &'h DeferTable<J>,
    seat: DeferSeat<J>,
}

impl<'h, J> Model for Holder<'h, J> {
    ghost use Rattle.std.specs.Prelude.{[]};
    ghost use Rattle.semi_defer.specs.declared.view.Choosing.{Choosing};
    ghost use Rattle.semi_defer.specs.Seen.{SideSeen};
    ghost use Rattle.semi_defer.specs.Steps.{IsHome, Sits, holder_at};

    ghost Value = { SideSeen };

    ghost view = { λ s. record { home = s.table.now.table_id } };

    ghost invariant = { λ s. IsHome s.table.now.table_id × Sits s.table.now.table_id s.seat (holder_at Choosing.Ready []) };
}

/// Shows what a holder has chosen, and what it found. It may be dropped.
pub struct ChooseReceipt<'h, J> {
    table: &'h DeferTable<J>,
    seat: DeferSeat<J>,
}

impl<'h, J> Model for ChooseReceipt<'h, J> {
    ghost use Rattle.std.specs.Prelude.{◌≡◌, []};
    ghost use Rattle.semi_defer.specs.Seen.{ChosenSeen};
    ghost use Rattle.semi_defer.specs.Views.{choice_in, HasChosen};
    ghost use Rattle.semi_defer.specs.Steps.{IsHome};

    ghost Value = { ChosenSeen J };

    ghost view = { λ s. record { home = s.table.now.table_id; did = choice_in s.seat.me.0 } };

    ghost invariant = { λ s. IsHome s.table.now.table_id × (s.seat.table_id ≡ s.table.now.table_id) × HasChosen s.seat.me.0 × (s.seat.me.1 ≡ []) };
}

impl<'h, J> Drop for ChooseReceipt<'h, J> {
    fn drop(self) {
        let Self { table: _, seat } = self;
        drop(seat);
    }
}

impl<'h, J> Holder<'h, J> {
    ghost use Rattle.std.specs.Prelude.{[]};
    ghost use Rattle.semi_defer.specs.declared.view.Choosing.{Choosing};
    ghost use Rattle.semi_defer.specs.Steps.{IsHome, Sits, holder_at};

    pub(crate) fn new(table: &'h DeferTable<J>, seat: DeferSeat<J>) -> Holder<'h, J>
        requires home { IsHome table.now.table_id }
        requires sits { Sits table.now.table_id seat (holder_at Choosing.Ready []) }
        ensures { result ≡ record { home = table.now.table_id } }
    {
        Holder { table, seat }
    }

    /// Sets the executor. The job that was kept comes out exactly where HasFunction was found, and the caller runs it
    /// there; None exactly where Empty was. What it found stands in the receipt.
    pub fn set_executor(self, exec: ExecId) -> (Option<J>, ChooseReceipt<'h, J>)
        ensures home { result.1.home ≡ self.entry.home }
        ensures answer { ChoosesAt (Chosen.Executor exec) result.0 result.1.did }
    {
        let Self { table, mut seat } = self;
        let job = steps::choose(table, &mut seat, Chosen::Executor(exec));
        (job, ChooseReceipt { table, seat })
    }

    /// Detaches: no executor comes. The job that was kept comes out exactly where HasFunction was found, and isn't to
    /// run; None exactly where Empty was. What it found stands in the receipt.
    pub fn detach(self) -> (Option<J>, ChooseReceipt<'h, J>)
        ensures home { result.1.home ≡ self.entry.home }
        ensures answer { ChoosesAt Chosen.Detached result.0 result.1.did }
    {
        let Self { table, mut seat } = self;
        let job = steps::choose(table, &mut seat, Chosen::Detached);
        (job, ChooseReceipt { table, seat })
    }
}

impl<'h, J> ChooseReceipt<'h, J> {
    ghost use Rattle.std.specs.Prelude.{[]};
    ghost use Rattle.semi_defer.specs.declared.view.Choosing.{Choosing};
    ghost use Rattle.semi_defer.specs.Views.{choice_of};
    ghost use Rattle.semi_defer.specs.Steps.{IsHome, Sits, holder_at};

    pub(crate) fn into_parts(self) -> (&'h DeferTable<J>, DeferSeat<J>)
        ensures home { (result.0.now.table_id ≡ self.entry.home) × IsHome self.entry.home }
        ensures sits { (h : Choosing J) × (choice_of h ≡ self.entry.did) × Sits self.entry.home result.1 (holder_at h []) }
    {
        let Self { table, seat } = self;
        (table, seat)
    }
}
