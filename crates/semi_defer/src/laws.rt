//! The law over both sides of one home. It puts the two seats together, and so spends what it is given.
ghost use Rattle.std.specs.Prelude.{◌≡◌, []};
ghost use Rattle.semi_defer.specs.declared.view.Adding.{Adding};
ghost use Rattle.semi_defer.specs.declared.view.Choosing.{Choosing};
ghost use Rattle.semi_defer.specs.Steps.{IsHome, Sits, adder_at, holder_at, BothAgree};
ghost use Rattle.semi_defer.specs.Views.{add_in, choice_in};

use crate::adder::AddReceipt;
use crate::holder::ChooseReceipt;
use crate::rule::{Compares, DeferSeat, DeferTable, JoinsSides};

// Puts the seats of both sides together, and looks once.
fn compare<J>(table: &DeferTable<J>, seat: DeferSeat<J>, other: DeferSeat<J>)
    requires home { IsHome table.now.table_id }
    requires adder { (a : Adding J) × Sits table.now.table_id seat (adder_at a []) }
    requires holder { (h : Choosing J) × Sits table.now.table_id other (holder_at h []) }
    ensures { BothAgree (add_in seat.me.0) (choice_in other.me.0) }
{
    let mut seat = seat;
    table.join_seat::<JoinsSides>(&mut seat, other);
    table.load::<Compares>(&mut seat, 0);
}

/// The law of a job that was added and a choice that was made, of one home: the job comes out once, by the later of the
/// two. Where the holder came later, it got that job; where the adder did, it has it back, with what was chosen.
pub fn sides_agree<'h, J>(added: AddReceipt<J>, chosen: ChooseReceipt<'h, J>)
    requires { added.home ≡ chosen.home }
    ensures { BothAgree added.did chosen.entry.did }
{
    let seat = added.into_seat();
    let (table, other) = chosen.into_parts();
    compare(table, seat, other);
}
