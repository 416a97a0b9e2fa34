//! The memory of an interrupt, and its pair.
ghost use Rattle.std.specs.Prelude.{◌≡◌, ◌↔◌, [], true, false, IfOk, IfSome, IsNone, IsSome};
ghost use Rattle.core_interrupt.specs.declared.state.State.{State};
ghost use Rattle.core_interrupt.specs.declared.view.View.{View};
ghost use Rattle.core_interrupt.specs.Steps.{IsHome, Sits};
ghost use Rattle.core_interrupt.specs.Closing.{HandsOut, IsUntouched};

use crate::close::{self, Remains};
use crate::hearer::Hearer;
use crate::raiser::Raiser;
use crate::rule::{InterruptRule, InterruptSeat, InterruptTable, Pairs};
use crate::state::from_code;
use crate::view::{Item, View};
use atomic_table::Table;
use fan_base::Memory;
use std::alloc::Global;
use std::marker::Model;

/// The memory of an interrupt. It is made first and outlives both sides, so that no call on these takes memory.
#[derive(Drop)]
pub struct InterruptHome<H, I> {
    table: Table<Option<Item<H, I>>, View<H, I>, (), InterruptRule, Global>,
    pair: Option<InterruptSeat<H, I>>,
}

impl<H, I> Model for InterruptHome<H, I> {
    ghost use Rattle.std.specs.Prelude.{is_none};
    ghost use Rattle.core_interrupt.specs.Seen.{HomeSeen};
    ghost use Rattle.core_interrupt.specs.Steps.{IsHome, HasPair};

    ghost Value = { HomeSeen };

    ghost view = { λ h. record { home = h.table.shared.table_id; taken = is_none h.pair } };

    ghost invariant = { λ h. IsHome h.table.shared.table_id × HasPair h.table.shared.table_id h.pair };
}

impl<H, I> InterruptHome<H, I> {
    /// A home whose pair nobody has taken. `Memory` where there is none for one word and two slots.
    pub fn new(alloc: Global) -> Result<InterruptHome<H, I>, Memory>
        ensures { IfOk result (λ home. home.taken ≡ false) }
    {
        match Table::vacant(alloc, &[0], 2, &()) {
            Ok((table, seat)) => Ok(InterruptHome {
                table,
                pair: Some(seat),
            }),
            Err(_) => Err(Memory),
        }
    }

    /// The two sides. They come once: None exactly where they were taken before.
    pub fn pair<'h>(&'h mut self) -> Option<(Hearer<'h, H, I>, Raiser<'h, H, I>)>
        ensures none { IsNone result ↔ (self.old.taken ≡ true) }
        ensures hearer { IfSome result (λ pair. pair.0 ≡ record { home = self.old.home }) }
        ensures raiser { IfSome result (λ pair. pair.1 ≡ record { home = self.old.home; raised = [] }) }
    {
        let seat = self.pair.take()?;
        Some(pair_of(&self.table.shared, seat))
    }

    /// Gives the memory back, and hands out what the slots hold: the handler in HasHandler, the object in HasObject, and
    /// in every other state none where the slot was at home. A side can be left over only where its owner forgot it; what
    /// it had in its hands at that moment may come out or not.
    pub fn close(self) -> Remains<H, I>
        ensures untaken { self.taken ≡ false → IsUntouched result }
        ensures ended { HandsOut result }
        ensures handler { result.state ≡ State.HasHandler → IsSome result.handler }
        ensures object { result.state ≡ State.HasObject → IsSome result.object }
    {
        let InterruptHome { table, pair } = self;
        let mut closed = close::closed(table, pair);
        let state = from_code(closed.word(0));
        let first = closed.take(0);
        let second = closed.take(1);
        closed.free();
        Remains::of_slots(first, second, state)
    }
}

// The two sides, from the seat that may make them.
fn pair_of<'h, H, I>(
    table: &'h InterruptTable<H, I>,
    seat: InterruptSeat<H, I>,
) -> (Hearer<'h, H, I>, Raiser<'h, H, I>)
    requires home { IsHome table.now.table_id }
    requires maker { Sits table.now.table_id seat (View.Pair, []) }
    ensures hearer { result.0 ≡ record { home = table.now.table_id } }
    ensures raiser { result.1 ≡ record { home = table.now.table_id; raised = [] } }
{
    let mut seat = seat;
    let other = table.split_seat::<Pairs>(&mut seat);
    (Hearer::new(table, seat), Raiser::new(table, other))
}
