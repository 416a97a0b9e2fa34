//! The laws over both sides of one home: what the hearer has done and what was raised have a lawful merge, and agree. Each
//! puts the two seats together, and so spends what it is given: the home is used no more.
ghost use Rattle.std.specs.Prelude.{◌≡◌, ◌∷◌, [], List};
ghost use Rattle.core_interrupt.specs.declared.history.HearEvent.{HearEvent};
ghost use Rattle.core_interrupt.specs.declared.history.RaiseEvent.{RaiseEvent};
ghost use Rattle.core_interrupt.specs.declared.view.Hearing.{Hearing};
ghost use Rattle.core_interrupt.specs.declared.view.Raising.{Raising};
ghost use Rattle.core_interrupt.specs.History.{SidesAgree, InterruptHistory};
ghost use Rattle.core_interrupt.specs.Steps.{IsHome, Sits, hearer_at, raiser_at};
ghost use Rattle.core_interrupt.specs.Views.{heard_in, raised_in};

use crate::hearer::{Armed, Ended};
use crate::raiser::{Raised, Raiser};
use crate::rule::{Compares, InterruptSeat, InterruptTable, JoinsSides};

// Puts the seats of both sides together, and looks once.
fn compare<H, I>(
    table: &InterruptTable<H, I>,
    seat: InterruptSeat<H, I>,
    other: InterruptSeat<H, I>,
)
    requires home { IsHome table.now.table_id }
    requires hearer { (p : Hearing H I) × Sits table.now.table_id seat (hearer_at p []) }
    requires raiser { (es : List (RaiseEvent H I)) × Sits table.now.table_id other (raiser_at Raising.Resting es []) }
    ensures agree { SidesAgree (heard_in seat.me.0) (raised_in other.me.0) }
    ensures history { InterruptHistory (heard_in seat.me.0) (raised_in other.me.0) }
{
    let mut seat = seat;
    table.join_seat::<JoinsSides>(&mut seat, other);
    table.load::<Compares>(&mut seat, 0);
}

/// The law of a hearer that has ended and the raiser of its home. The two have an interrupt history: each call found what
/// all before it stand for, and got what was there. So a handler and an object met once at most, by the later of the two,
/// and everything else came back to who brought it, or at the end.
pub fn sides_agree<'h, H, I>(ended: Ended<H, I>, raiser: Raiser<'h, H, I>)
    requires { ended.home ≡ raiser.home }
    ensures agree { SidesAgree ended.heard raiser.entry.raised }
    ensures history { InterruptHistory ended.heard raiser.entry.raised }
{
    let seat = ended.into_seat();
    let (table, other) = raiser.into_parts();
    compare(table, seat, other);
}

/// The same of a hearer that is armed: nothing was raised, or the first raise called its handler, or it got what the first
/// raise had kept.
pub fn armed_agrees<'h, H, I>(armed: Armed<'h, H, I>, raiser: Raiser<'h, H, I>)
    requires { armed.home ≡ raiser.home }
    ensures agree { SidesAgree armed.entry.heard raiser.entry.raised }
    ensures history { InterruptHistory armed.entry.heard raiser.entry.raised }
{
    let seat = armed.into_seat();
    let (table, other) = raiser.into_parts();
    compare(table, seat, other);
}

/// Raises an object where one holder has both sides: a first raise beside a handler that was kept calls it. So the answer
/// is that handler and this object, always.
pub fn raise_where_armed<'h, H, I>(
    armed: Armed<'h, H, I>,
    raiser: Raiser<'h, H, I>,
    object: I,
) -> (H, I)
    requires home { armed.home ≡ raiser.home }
    requires kept { (h : H) × (armed.heard ≡ HearEvent.Kept h ∷ []) }
    requires first { raiser.raised ≡ [] }
    ensures handler { armed.entry.heard ≡ HearEvent.Kept result.0 ∷ [] }
    ensures object { result.1 ≡ object }
{
    let mut raiser = raiser;
    match raiser.raise(object) {
        Raised::Call(handler, object) => {
            armed_agrees(armed, raiser);
            (handler, object)
        }
        _ => {
            armed_agrees(armed, raiser);
            unreachable!()
        }
    }
}
