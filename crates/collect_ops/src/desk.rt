//! A desk: the memory in which outcomes are gathered.
ghost use Rattle.std.specs.Prelude.{◌≡◌, ◌≢◌, ◌↔◌, ◌+◌, ◌≤◌, true, false, None, [], is_some, length};
ghost use Rattle.std.specs.Prelude.{map, replicate, slice_get, vec_capacity, IfOk, IfErr, IsErr};
ghost use Rattle.collect_ops.specs.Owned.{HasArrivals};
ghost use Rattle.collect_ops.specs.Steps.{IsDesk, IsDealer};
ghost use Rattle.collect_ops.specs.Views.{desk_in};

use crate::arrival::{Arrival, Arrivals};
use crate::boxed::Boxed;
use crate::kept::{self, Kept};
use crate::listed::Listed;
use crate::receipt::Receipt;
use crate::rule::{DeskRule, DeskTable, Place};
use crate::steps;
use crate::view::{Ending, Item, View};
use atomic_table::Table;
use fan_base::Refused;
use std::alloc::Global;
use std::marker::{Model, PhantomData};

/// The words and slots of a desk, with their memory.
pub(crate) type Memories<X, E> = Table<Option<Item<X, E>>, View<X, E>, (), DeskRule, Global>;

/// The arrivals of a desk were taken before.
#[derive(Clone, Copy, Debug, PartialEq, Eq)]
pub struct Taken;

/// What a desk keeps of an outcome, and what its completion hands out.
pub trait Gathers {
    type Kept;

    type End;
}

/// The memory of a collect. It is made first and outlives its arrivals, so that no call on these takes memory. X is what
/// it keeps of an outcome, E what its completion hands out, as a promise, and K the kind of desk.
#[derive(Drop)]
pub struct Desk<X, E, K> {
    table: Memories<X, E>,
    owner: Place<X, E>,
    dealer: Option<Place<X, E>>,
    size: usize,
    kind: PhantomData<K>,
}

impl<X, E, K> Gathers for Desk<X, E, K> {
    type Kept = X;

    type End = E;
}

impl<X, E, K> Model for Desk<X, E, K> {
    ghost use Rattle.std.specs.Prelude.{◌≤◌, is_none};
    ghost use Rattle.collect_ops.specs.Seen.{DeskSeen};
    ghost use Rattle.collect_ops.specs.Steps.{IsDesk, IsOwner, HasDealer};
    ghost use Rattle.collect_ops.specs.Views.{desk_in};

    ghost Value = { DeskSeen E };

    ghost view = { λ d. record { desk = desk_in d.table.shared.table_id d.owner.me.0; taken = is_none d.dealer } };

    ghost invariant = { λ d. (1 ≤ d.size) × IsDesk d.size d.table.shared.table_id × IsOwner d.size d.table.shared.table_id d.owner × HasDealer d.size d.table.shared.table_id d.owner.me.0 d.dealer };
}

impl<X, E, K> Desk<X, E, K> {
    ghost use Rattle.collect_ops.specs.Closing.{EndsAs};
    ghost use Rattle.collect_ops.specs.Answers.{KeptBy};
    ghost use Rattle.collect_ops.specs.Owned.{IsAwaited};
    ghost use Rattle.collect_ops.specs.Steps.{IsLast, Sits, HasRoom};
    ghost use Rattle.collect_ops.specs.declared.view.View.{View};

    /// A desk for so many outcomes, 1 to 65,536. `Memory` hands the end back where there is no room for a slot an
    /// outcome and for their list.
    pub fn new(alloc: Global, size: usize, end: E) -> Result<Desk<X, E, K>, Refused<E>>
        requires { (1 ≤ size) × (size ≤ 65536) }
        ensures desk { IfOk result (λ desk. (desk.desk.size ≡ size) × (desk.desk.end ≡ Some end) × (desk.taken ≡ false)) }
        ensures refused { IfErr result (λ refused. refused ≡ Refused.Memory end) }
    {
        let made = Vec::with_capacity(alloc, size);
        let Ok(room) = made else {
            return Err(Refused::Memory(end));
        };
        let ending = match Boxed::new(alloc, Ending { end, room }) {
            Ok(ending) => ending,
            Err(Refused::Memory(ending)) => return Err(Refused::Memory(end_alone(ending))),
        };
        let words = [size as u64, 0];
        match Table::vacant(alloc, &words, size + 1, &()) {
            Ok((table, seat)) => Ok(Desk::open(table, seat, size, ending)),
            Err(_) => Err(Refused::Memory(end_alone(ending.open()))),
        }
    }

    // The desk of a new table.
    fn open(
        table: Memories<X, E>,
        mut seat: Place<X, E>,
        size: usize,
        ending: Boxed<Ending<X, E>>,
    ) -> Desk<X, E, K>
        requires some { 1 ≤ size }
        requires desk { IsDesk size table.shared.table_id }
        requires making { Sits table.shared.table_id seat (View.Making, []) }
        requires room { HasRoom size ending }
        ensures { (result.desk.size ≡ size) × (result.desk.end ≡ Some ending.end) × (result.taken ≡ false) }
    {
        steps::open(&table.shared, &mut seat, size, ending);
        let owner = steps::deal_owner(&table.shared, &mut seat, size);
        Desk {
            table,
            owner,
            dealer: Some(seat),
            size,
            kind: PhantomData,
        }
    }

    /// The desk's arrivals. They come once.
    pub fn arrivals<'d>(&'d mut self) -> Result<Arrivals<'d, Desk<X, E, K>>, Taken>
        ensures taken { IsErr result ↔ (self.old.taken ≡ true) }
        ensures arrivals { IfOk result (λ arrivals. (arrivals.desk ≡ self.old.desk) × (arrivals.next ≡ 0)) }
    {
        let size = self.size;
        let Some(seat) = self.dealer.take() else {
            return Err(Taken);
        };
        Ok(Arrivals::new(&self.table.shared, seat, size))
    }

    /// Deals out the seats of all its arrivals, which weren't taken, into this room.
    pub(crate) fn deal_out(&mut self, room: Vec<Option<Place<X, E>>>) -> Vec<Option<Place<X, E>>>
        requires untaken { self.old.taken ≡ false }
        requires room { (room.items ≡ []) × (self.old.desk.size ≤ vec_capacity room) }
        ensures desk { self.new.desk ≡ self.old.desk }
        ensures arrivals { HasArrivals self.old.desk result.items }
        ensures all { map is_some result.items ≡ replicate self.old.desk.size true }
    {
        let Some(seat) = self.dealer.take() else {
            unreachable!()
        };
        deal_all(&self.table.shared, seat, self.size, room)
    }

    /// Leaves an outcome by the arrival that has this seat. Where it was the last, all outcomes come with the end and its seat, else its receipt.
    pub(crate) fn keep(
        &self,
        seat: Place<X, E>,
        index: usize,
        outcome: X,
    ) -> Result<(Listed<X>, E, Place<X, E>), Receipt<X, E>>
        requires { IsAwaited self.now.desk index seat }
        ensures all { IfOk result (λ t. (length t.0 ≡ self.now.desk.size) × (slice_get t.0 index ≡ Some outcome) × (self.now.desk.end ≡ Some t.1)) }
        ensures last { IfOk result (λ t. (t.2.table_id ≡ self.now.desk.table) × IsLast t.2.me) }
        ensures more { IfErr result (λ receipt. KeptBy (record { desk = self.now.desk; index = index }) outcome receipt) }
    {
        let arrival: Arrival<'_, Desk<X, E, K>> = Arrival::new(
            &self.table.shared,
            seat,
            self.size,
            index,
        );
        match arrival.into_pass().keep(outcome) {
            Ok((list, end, done)) => Ok((list, end, done.into_seat())),
            Err(receipt) => Err(receipt),
        }
    }

    /// Gives the memory back, by the seat of the arrival that has taken all outcomes and the end. Nothing is left.
    pub(crate) fn free(self, last: Place<X, E>)
        requires table { last.table_id ≡ self.desk.table }
        requires last { IsLast last.me }
    {
        let Desk {
            table,
            owner: _,
            dealer: _,
            size,
            kind: _,
        } = self;
        let kept: Kept<Desk<X, E, K>> = Kept::of(kept::emptied(table, last, size), size);
        kept.finish();
    }

    /// Gives the memory back, and hands out what was kept and never handed out, and the end where nothing completed.
    /// Where somebody has claimed there is no end, and where none is left there is nothing. Of an outcome whose arrival
    /// was in the middle of its call nothing is said: no call can be, unless it was forgotten.
    pub fn close(self) -> Kept<Desk<X, E, K>>
        ensures size { result.size ≡ self.desk.size }
        ensures untaken { self.taken ≡ false → (result.outcomes ≡ []) × (result.end ≡ self.desk.end) }
        ensures counted { result.left ≡ 0 → (result.outcomes ≡ []) × (result.end ≡ None) }
        ensures claimed { result.claimed ≢ 0 → result.end ≡ None }
        ensures end { result.claimed ≡ 0 → result.left ≢ 0 → result.end ≡ self.desk.end }
        ensures kept { result.left ≢ 0 → self.desk.size ≤ length result.outcomes + result.left }
        ensures ended { EndsAs self.desk result }
    {
        let Desk {
            table,
            owner,
            dealer,
            size,
            kind: _,
        } = self;
        Kept::of(kept::closed(table, owner, dealer, size), size)
    }
}

// The end, where the room for the list is empty.
fn end_alone<X, E>(ending: Ending<X, E>) -> E
    requires { ending.room.items ≡ [] }
    ensures { result ≡ ending.end }
{
    let Ending { end, room } = ending;
    room.destroy_empty();
    end
}

// Deals the seats of all arrivals into this room.
fn deal_all<X, E>(
    table: &DeskTable<X, E>,
    dealer: Place<X, E>,
    size: usize,
    room: Vec<Option<Place<X, E>>>,
) -> Vec<Option<Place<X, E>>>
    requires desk { IsDesk size table.now.table_id }
    requires dealer { IsDealer size 0 table.now.table_id dealer }
    requires room { (room.items ≡ []) × (size ≤ vec_capacity room) }
    ensures arrivals { HasArrivals (desk_in table.now.table_id dealer.me.0) result.items }
    ensures all { map is_some result.items ≡ replicate size true }
{
    let mut seat = dealer;
    let mut arrivals = room;
    for index in 0..size {
        let arrival = steps::deal_arrival(table, &mut seat, size, index);
        arrivals.push_reserved(Some(arrival));
    }
    arrivals
}
