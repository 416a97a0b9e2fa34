//! The memory of a core, and the key that begins it.
ghost use Rattle.std.specs.Prelude.{◌≡◌, ◌≢◌, ◌↔◌, Bool, true, false, IfOk, IfSome, IsSome, IsNone, List};
ghost use Rattle.core_state.specs.Table.{waiting_state};
ghost use Rattle.core_word.specs.Closing.{NothingBegun, HasNothing, IsEnd, HandsOut};
ghost use Rattle.core_word.specs.Count.{raised};
ghost use Rattle.core_word.specs.Rule.{Held};
ghost use Rattle.core_state.specs.declared.table.State.{State};

use crate::close::{self, Unspent};
use crate::consumer::Consumer;
use crate::producer::Producer;
use crate::rule::{Begins, CoreRule, CoreSeat, CoreTable};
use crate::tally::Tally;
use crate::view::{Item, Sight, View};
use atomic_table::Table;
use fan_base::Memory;
use std::alloc::Global;
use std::marker::Model;

/// The memory of a core. It is made first and outlives the core's halves, so that no call on these takes memory.
#[derive(Drop)]
pub struct Home<T, C, P> {
    table: Table<Option<Item<T, C, P>>, View<T, C, P>, (), CoreRule, Global>,
    key: Option<CoreSeat<T, C, P>>,
}

impl<T, C, P> Model for Home<T, C, P> {
    ghost use Rattle.core_word.specs.Seen.{SeenHome};
    ghost use Rattle.std.specs.Prelude.{is_none};
    ghost use Rattle.core_word.specs.Plays.{IsHome, HasKey};

    ghost Value = { SeenHome };

    ghost view = { λ h. record { home = h.table.shared.table_id; taken = is_none h.key } };

    ghost invariant = { λ h. IsHome h.table.shared.table_id × HasKey h.table.shared.table_id h.key };
}

impl<T, C, P> Home<T, C, P> {
    /// A home that nobody has begun. `Memory` where there is none for two words and three slots.
    pub fn new(alloc: Global) -> Result<Home<T, C, P>, Memory>
        ensures { IfOk result (λ home. home.taken ≡ false) }
    {
        let words = [0, 2];
        match Table::vacant(alloc, &words, 3, &()) {
            Ok((table, seat)) => Ok(Home {
                table,
                key: Some(seat),
            }),
            Err(_) => Err(Memory),
        }
    }

    /// The key of the home's first use. It comes once: None exactly where it was taken before.
    pub fn key<'h>(&'h mut self) -> Option<Key<'h, T, C, P>>
        ensures none { IsNone result ↔ (self.old.taken ≡ true) }
        ensures key { IfSome result (λ key. (key.home ≡ self.old.home) × (key.use_number ≡ 0)) }
    {
        let seat = self.key.take()?;
        Some(Key {
            table: &self.table.shared,
            seat,
        })
    }

    /// Ends the home, and hands out what waits in its slots by the state, where a half is still attached: the result in
    /// OnlyResult, the callback in OnlyCallback and OnlyCallbackAllowInline, the proxy in Proxy, and else nothing. A half
    /// can be left over only where its owner forgot it, as with a proxy that lies in a slot. The memory is given back
    /// where the answer's `end` is dropped.
    pub fn close(self) -> Unspent<T, C, P>
        ensures untaken { self.taken ≡ false → NothingBegun result }
        ensures ended { IsEnd result.end }
        ensures items { HandsOut result }
        ensures spent { result.end.attached ≡ 0 → HasNothing result }
        ensures outcome { result.end.attached ≢ 0 → result.end.state ≡ State.OnlyResult → IsSome result.outcome }
        ensures callback { (inline : Bool) → result.end.attached ≢ 0 → result.end.state ≡ waiting_state inline → IsSome result.callback }
        ensures proxy { result.end.attached ≢ 0 → result.end.state ≡ State.Proxy → IsSome result.proxy }
    {
        let Home { table, key } = self;
        Unspent::of_closed(close::closed(table, key))
    }
}

/// The right to begin a use of a home. It may be dropped; then the home is used no more. Uses are numbered from 0.
pub struct Key<'h, T, C, P> {
    table: &'h CoreTable<T, C, P>,
    seat: CoreSeat<T, C, P>,
}

impl<'h, T, C, P> Model for Key<'h, T, C, P> {
    ghost use Rattle.core_word.specs.Seen.{SeenKey};
    ghost use Rattle.core_word.specs.Views.{use_of};
    ghost use Rattle.core_word.specs.Plays.{IsHome, Sits, key_at};

    ghost Value = { SeenKey };

    ghost view = { λ k. record { home = k.table.now.table_id; use_number = use_of k.seat.me.0 } };

    ghost invariant = { λ k. IsHome k.table.now.table_id × Sits k.table.now.table_id k.seat (key_at (use_of k.seat.me.0)) };
}

impl<'h, T, C, P> Key<'h, T, C, P> {
    ghost use Rattle.core_word.specs.Views.{use_of};
    ghost use Rattle.core_word.specs.Plays.{IsHome, Sits, key_at};

    pub(crate) fn new(table: &'h CoreTable<T, C, P>, seat: CoreSeat<T, C, P>) -> Key<'h, T, C, P>
        requires home { IsHome table.now.table_id }
        requires sits { Sits table.now.table_id seat (key_at (use_of seat.me.0)) }
        ensures { result ≡ record { home = table.now.table_id; use_number = use_of seat.me.0 } }
    {
        Key { table, seat }
    }

    /// Begins a core with this number, which may be any, in Start, with both halves attached. Raises `made`.
    pub fn start(self, no: u64, t: &mut Tally) -> (Producer<'h, T, C, P>, Consumer<'h, T, C, P>)
        ensures producer { result.0 ≡ record { home = self.entry.home; use_number = self.entry.use_number; no = no; sight = Sight.Unseen; looks = 0 } }
        ensures consumer { result.1 ≡ record { home = self.entry.home; use_number = self.entry.use_number; no = no } }
        ensures tally { t.new ≡ record t.old { made = raised t.old.made } }
    {
        let Self { table, mut seat } = self;
        let other = table.split_seat::<Begins>(&mut seat);
        t.count_made();
        (
            Producer::new(table, seat, no),
            Consumer::new(table, other, no),
        )
    }
}

impl<'h, T, C, P> Drop for Key<'h, T, C, P> {
    fn drop(self) {
        let Self { table: _, seat } = self;
        drop(seat);
    }
}
