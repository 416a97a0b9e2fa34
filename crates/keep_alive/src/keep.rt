// The owner of a count, its tokens, and what their ends answer.
ghost use Rattle.std.specs.Prelude.{◌≡◌, ◌+◌, ◌-◌, ◌<◌, ◌≤◌, IfOk, OnErr};
ghost use Rattle.keep_alive.specs.Answers.{receipt_of, SaysWhatWasFound};

use crate::rule::CountRule;
use crate::steps::{Copies, Leaves, Meets, Never, Offers, Parts, Releases, Watches};
use crate::view::View;
use atomic_table::{Seat, Table};
use fan_base::Memory;
use std::alloc::{AllocError, Global};
use std::marker::Model;
use std::sync::{Arc, Wait};

type Counter = Arc<Table<u32, View, u32, CountRule, Global>>;

type CountSeat = Seat<u32, View>;

/// The owner's 1 of a count. It is spent by [`KeepOwner::join`]. Contracts see which count it is of.
pub struct KeepOwner {
    counter: Counter,
    seat: CountSeat,
}

impl Model for KeepOwner {
    ghost use Rattle.std.specs.Prelude.{◌≡◌, []};
    ghost use Rattle.std.specs.Arc.{arc_value};
    ghost use Rattle.keep_alive.specs.declared.view.View.TheVariants.{Owner};
    ghost use Rattle.keep_alive.specs.Seen.{OwnerSeen};

    ghost Value = { OwnerSeen };

    ghost view = { λ k. record { count = k.seat.table_id } };

    ghost invariant = { λ k. (k.seat.table_id ≡ (arc_value k.counter).shared.table_id) × ((arc_value k.counter).shared.table_id.words ≡ 1) × (k.seat.me ≡ (Owner, [])) };
}

/// A counted token: while it is held, the count is above 0. It is spent by [`KeepAlive::release`]. Contracts see
/// which count it is of, its room, that is how many tokens can still be made from it and from those that it makes,
/// and the room that the count's first token had.
pub struct KeepAlive {
    counter: Counter,
    seat: CountSeat,
    room: u32,
}

impl Model for KeepAlive {
    ghost use Rattle.std.specs.Prelude.{◌≡◌, []};
    ghost use Rattle.std.specs.Arc.{arc_value};
    ghost use Rattle.keep_alive.specs.declared.view.View.TheVariants.{Token};
    ghost use Rattle.keep_alive.specs.Views.{whole_of};
    ghost use Rattle.keep_alive.specs.Seen.{TokenSeen};

    ghost Value = { TokenSeen };

    ghost view = { λ k. record { count = k.seat.table_id; room = k.room; first_room = whole_of k.seat.me.0 } };

    ghost invariant = { λ k. (k.seat.table_id ≡ (arc_value k.counter).shared.table_id) × ((arc_value k.counter).shared.table_id.words ≡ 1) × (k.seat.me ≡ (Token k.room (whole_of k.seat.me.0), [])) };
}

/// What a release found. Contracts see which count it was, and the number found.
#[derive(Drop)]
pub struct Receipt {
    seat: CountSeat,
    found: u64,
}

impl Model for Receipt {
    ghost use Rattle.std.specs.Prelude.{◌≡◌, []};
    ghost use Rattle.keep_alive.specs.declared.view.View.TheVariants.{Released};
    ghost use Rattle.keep_alive.specs.Seen.{ReceiptSeen};

    ghost Value = { ReceiptSeen };

    ghost view = { λ r. record { count = r.seat.table_id; found = r.found } };

    ghost invariant = { λ r. r.seat.me ≡ (Released r.found, []) };
}

/// The answer of a release: whether the token was the last that counted.
#[derive(Drop)]
pub enum Released {
    /// The count found was 1, so it is 0 from then on. The owner had left, as [`last_is_after_the_owner`] shows, and no
    /// token is held any more, as [`nothing_is_held_after_the_last`] shows.
    Last(Receipt),
    /// The count found was above 1.
    More(Receipt),
}

/// The owner has left and has then found the count 0. Contracts see which count it was. No token of that count is
/// held, as [`nothing_is_held`] shows.
#[derive(Drop)]
pub struct Joined {
    counter: Counter,
    seat: CountSeat,
}

impl Model for Joined {
    ghost use Rattle.std.specs.Prelude.{◌≡◌, []};
    ghost use Rattle.std.specs.Arc.{arc_value};
    ghost use Rattle.keep_alive.specs.declared.view.View.TheVariants.{Closed};
    ghost use Rattle.keep_alive.specs.Seen.{OwnerSeen};

    ghost Value = { OwnerSeen };

    ghost view = { λ k. record { count = k.seat.table_id } };

    ghost invariant = { λ k. (k.seat.table_id ≡ (arc_value k.counter).shared.table_id) × ((arc_value k.counter).shared.table_id.words ≡ 1) × (k.seat.me ≡ (Closed, [])) };
}

impl KeepOwner {
    /// A new count, which is 2: the owner's 1, and the first token, from which `room` more can be made. `Memory`
    /// where there is none for the count. That nothing else is counted, the clause `within` of
    /// [`KeepAlive::release`] says: the first token, while none was made from it, finds at most 2.
    pub fn new(alloc: Global, room: u32) -> Result<(KeepOwner, KeepAlive), Memory>
        ensures { IfOk result (λ pair. pair.1 ≡ record { count = pair.0.count; room = room; first_room = room }) }
    {
        let (table, mut seat) = Table::of_words(alloc, &[2], &room)?;
        let token = table.shared.split_seat::<Parts>(&mut seat);
        let counter = Arc::new(alloc, table).map_err(AllocError::from)?;
        let keep = KeepAlive {
            counter: Arc::try_clone(&counter)?,
            seat: token,
            room,
        };
        Ok((KeepOwner { counter, seat }, keep))
    }

    /// Takes the owner's 1 off, and waits until each token is released. It returns only after it has found the
    /// count 0. That it returns is not claimed: a token that is never released keeps it waiting.
    pub fn join<R: Wait>(self, rt: &R) -> Joined
        ensures { result.count ≡ self.count }
    {
        let KeepOwner { counter, mut seat } = self;
        counter.shared.fetch_sub::<Leaves>(&mut seat, 0, 1);
        for _ in rt.forever() {
            let found = counter.shared.load::<Watches>(&mut seat, 0);
            if found == 0 {
                return Joined { counter, seat };
            }
            counter.shared.park(rt, 0, (found & 0xffff_ffff) as u32);
        }
        unreachable!()
    }
}

impl KeepAlive {
    /// How many tokens can still be made from this one, and from those that it makes.
    pub fn room(&self) -> u32
        ensures { result ≡ self.now.room }
    {
        self.room
    }

    /// A further token of the count, with so much of this one's room. One of its room goes for the token itself.
    /// `Memory` where no further owner of the count's memory can be counted, at 2^63 - 1 of them; the room of a
    /// count keeps its tokens far below that.
    pub fn copy(&mut self, room: u32) -> Result<KeepAlive, Memory>
        requires { room < self.old.room }
        ensures copy { IfOk result (λ copy. copy ≡ record self.old { room = room }) }
        ensures kept { IfOk result (λ _. self.new ≡ record self.old { room = self.old.room - (room + 1) }) }
        ensures refused { OnErr result (self.new ≡ self.old) }
    {
        let counter = Arc::try_clone(&self.counter)?;
        let shared = &counter.shared;
        shared.compare_exchange_with::<Offers>(&mut self.seat, 0, 0, 0, &room);
        shared.fetch_add::<Copies>(&mut self.seat, 0, 1);
        let seat = shared.split_seat::<Parts>(&mut self.seat);
        self.room -= room + 1;
        Ok(KeepAlive {
            counter,
            seat,
            room,
        })
    }

    /// Takes the token's 1 off the count. The count that it finds is 1 for the owner that hasn't left, 1 for this
    /// token, and 1 for each other token that is held. Of those there are at most as many as the room that the first
    /// token had and this one has no more.
    pub fn release(self) -> Released
        ensures count { (receipt_of result).count ≡ self.count }
        ensures found { SaysWhatWasFound result }
        ensures within { (receipt_of result).found + self.room ≤ 2 + self.first_room }
    {
        let KeepAlive {
            counter,
            mut seat,
            room: _,
        } = self;
        let found = counter.shared.fetch_sub::<Releases>(&mut seat, 0, 1);
        let receipt = Receipt { seat, found };
        if found > 1 {
            return Released::More(receipt);
        }
        counter.shared.wake_all(0);
        Released::Last(receipt)
    }
}

/// The law of the count: once an owner has joined it, no token of it is held. So no call of this can be made.
pub fn nothing_is_held(joined: Joined, keep: KeepAlive)
    requires { keep.count ≡ joined.count }
    ensures { ⊥ }
{
    let Joined { counter, mut seat } = joined;
    let KeepAlive {
        counter: _,
        seat: held,
        room: _,
    } = keep;
    counter.shared.join_seat::<Meets>(&mut seat, held);
    counter.shared.load::<Never>(&mut seat, 0);
}

/// The last release comes after the owner began to join: beside a receipt of it there is no owner that hasn't. So no
/// call of this can be made.
pub fn last_is_after_the_owner(receipt: Receipt, owner: KeepOwner)
    requires { (receipt.count ≡ owner.count) × (receipt.found ≡ 1) }
    ensures { ⊥ }
{
    let Receipt {
        seat: last,
        found: _,
    } = receipt;
    let KeepOwner { counter, mut seat } = owner;
    counter.shared.join_seat::<Meets>(&mut seat, last);
    counter.shared.load::<Never>(&mut seat, 0);
}

/// After the last release no token of the count is held. So no call of this can be made.
pub fn nothing_is_held_after_the_last(receipt: Receipt, keep: KeepAlive)
    requires { (receipt.count ≡ keep.count) × (receipt.found ≡ 1) }
    ensures { ⊥ }
{
    let Receipt {
        seat: last,
        found: _,
    } = receipt;
    let KeepAlive {
        counter,
        mut seat,
        room: _,
    } = keep;
    counter.shared.join_seat::<Meets>(&mut seat, last);
    counter.shared.load::<Never>(&mut seat, 0);
}
