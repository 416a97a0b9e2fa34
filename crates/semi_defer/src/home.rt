//! The memory of a deferred executor, and its pair.
ghost use Rattle.std.specs.Prelude.{◌≡◌, ◌↔◌, [], true, false, None, IfOk, IfSome, IsNone, IsSome};
ghost use Rattle.std.specs.Slots.{slots_len, slots_items, IsFull};
ghost use Rattle.atomic_table.specs.Table.{Final};
ghost use Rattle.semi_defer.specs.declared.state.State.{State};
ghost use Rattle.semi_defer.specs.declared.view.View.{View};
ghost use Rattle.semi_defer.specs.Steps.{IsHome, Sits, HasPair};
ghost use Rattle.semi_defer.specs.Rule.{DeferHolds};
ghost use Rattle.semi_defer.specs.Closing.{IsEnd, AreUntouched};
ghost use Rattle.semi_defer.specs.State.{code_of};

use crate::adder::Adder;
use crate::holder::Holder;
use crate::remains::Remains;
use crate::rule::{DeferRule, DeferSeat, DeferTable, Pairs};
use crate::view::View;
use atomic_table::{Closed, Table};
use fan_base::Memory;
use std::alloc::Global;
use std::marker::Model;

/// The memory of a deferred executor. It is made first and outlives both sides, so that no call on these takes memory.
#[derive(Drop)]
pub struct DeferredHome<J> {
    table: Table<Option<J>, View<J>, (), DeferRule, Global>,
    pair: Option<DeferSeat<J>>,
}

impl<J> Model for DeferredHome<J> {
    ghost use Rattle.std.specs.Prelude.{is_none};
    ghost use Rattle.semi_defer.specs.Seen.{HomeSeen};
    ghost use Rattle.semi_defer.specs.Steps.{IsHome, HasPair};

    ghost Value = { HomeSeen };

    ghost view = { λ h. record { home = h.table.shared.table_id; taken = is_none h.pair } };

    ghost invariant = { λ h. IsHome h.table.shared.table_id × HasPair h.table.shared.table_id h.pair };
}

impl<J> DeferredHome<J> {
    /// A home whose pair nobody has taken. `Memory` where there is none for one word and one slot.
    pub fn new(alloc: Global) -> Result<DeferredHome<J>, Memory>
        ensures { IfOk result (λ home. home.taken ≡ false) }
    {
        match Table::vacant(alloc, &[0], 1, &()) {
            Ok((table, seat)) => Ok(DeferredHome {
                table,
                pair: Some(seat),
            }),
            Err(_) => Err(Memory),
        }
    }

    /// The two sides. They come once: None exactly where they were taken before.
    pub fn pair<'h>(&'h mut self) -> Option<(Adder<'h, J>, Holder<'h, J>)>
        ensures none { IsNone result ↔ (self.old.taken ≡ true) }
        ensures adder { IfSome result (λ pair. pair.0 ≡ record { home = self.old.home }) }
        ensures holder { IfSome result (λ pair. pair.1 ≡ record { home = self.old.home }) }
    {
        let seat = self.pair.take()?;
        Some(pair_of(&self.table.shared, seat))
    }

    /// Gives the memory back, and hands out what the slot holds: the job in HasFunction, and in every other state none
    /// where the slot was at home.
    pub fn close(self) -> Remains<J>
        ensures untaken { self.taken ≡ false → result ≡ record { word = code_of State.Empty; job = None } }
        ensures ended { IsEnd result }
        ensures job { result.word ≡ code_of State.HasFunction → IsSome result.job }
    {
        let DeferredHome { table, pair } = self;
        Remains::of(closed(table, pair))
    }
}

// The two sides, from the seat that may make them.
fn pair_of<'h, J>(table: &'h DeferTable<J>, seat: DeferSeat<J>) -> (Adder<'h, J>, Holder<'h, J>)
    requires home { IsHome table.now.table_id }
    requires maker { Sits table.now.table_id seat (View.Pair, []) }
    ensures adder { result.0 ≡ record { home = table.now.table_id } }
    ensures holder { result.1 ≡ record { home = table.now.table_id } }
{
    let mut seat = seat;
    let other = table.split_seat::<Pairs>(&mut seat);
    (Adder::new(table, seat), Holder::new(table, other))
}

// Closes the table of a home. Where the home still has its pair, nothing was ever begun.
fn closed<J>(
    table: Table<Option<J>, View<J>, (), DeferRule, Global>,
    pair: Option<DeferSeat<J>>,
) -> Closed<Option<J>, Global>
    requires { HasPair table.shared.table_id pair }
    ensures counts { (slots_len result.words ≡ table.shared.table_id.words) × (slots_len result.slots ≡ table.shared.table_id.slots) }
    ensures values { IsFull result.words × IsFull result.slots × Final DeferHolds (slots_items result.words) (slots_items result.slots) }
    ensures untouched { IsSome pair → AreUntouched (slots_items result.words) (slots_items result.slots) }
{
    match pair {
        Some(seat) => table.close_with(seat),
        None => table.close(),
    }
}
