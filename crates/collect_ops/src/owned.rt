//! A desk with all its arrivals in one hand.
ghost use Rattle.std.specs.Prelude.{◌≡◌, ◌≤◌, ◌<◌, [], true, false, replicate, vec_capacity, IfOk, IfErr};
ghost use Rattle.collect_ops.specs.Closing.{EndsAs};
ghost use Rattle.collect_ops.specs.Bringing.{IsNewOwned, IsBroughtTo};

use crate::all::AllDesk;
use crate::desk::Desk;
use crate::kept::Kept;
use crate::listed::Listed;
use crate::receipt::Receipt;
use crate::rule::Place;
use fan_base::{Refused, Try};
use std::alloc::Global;
use std::marker::Model;

/// A desk of all outcomes whose owner has all its arrivals, and brings the outcomes one after another. It is freed as it completes.
pub struct OwnedDesk<T, E> {
    desk: AllDesk<T, E>,
    // None where the outcome of the index has come
    arrivals: Vec<Option<Place<Try<T>, E>>>,
}

impl<T, E> Model for OwnedDesk<T, E> {
    ghost use Rattle.collect_ops.specs.Owned.{HasArrivals, owned_in};
    ghost use Rattle.collect_ops.specs.Seen.{OwnedSeen};

    ghost Value = { OwnedSeen E };

    ghost view = { λ d. owned_in d.desk.desk d.arrivals.items };

    ghost invariant = { λ d. HasArrivals d.desk.desk d.arrivals.items };
}

/// What bringing an outcome to an owned desk answers.
pub enum Brought<T, E> {
    /// All outcomes have come: they are here by index, with the desk's end. The desk is freed.
    Complete(Listed<Try<T>>, E),
    /// The outcome is kept, as the receipt shows, while more were left.
    More(OwnedDesk<T, E>, Receipt<Try<T>, E>),
    /// The outcome of this index had come before, so this one comes back.
    Back(OwnedDesk<T, E>, Try<T>),
}

impl<T, E> OwnedDesk<T, E> {
    /// A desk for so many outcomes, 1 to 65,536, with all its arrivals. `Memory` hands the end back where there is no room.
    pub fn new(alloc: Global, size: usize, end: E) -> Result<OwnedDesk<T, E>, Refused<E>>
        requires { (1 ≤ size) × (size ≤ 65536) }
        ensures desk { IfOk result (λ desk. IsNewOwned size end desk) }
        ensures refused { IfErr result (λ refused. refused ≡ Refused.Memory end) }
    {
        let made = Vec::with_capacity(alloc, size);
        let Ok(arrivals) = made else {
            return Err(Refused::Memory(end));
        };
        match Desk::new(alloc, size, end) {
            Ok(desk) => Ok(OwnedDesk::open(desk, arrivals)),
            Err(refused) => Err(refused),
        }
    }

    // The desk, whose arrivals weren't taken, with all of them in this room.
    fn open(desk: AllDesk<T, E>, room: Vec<Option<Place<Try<T>, E>>>) -> OwnedDesk<T, E>
        requires untaken { desk.taken ≡ false }
        requires room { (room.items ≡ []) × (desk.desk.size ≤ vec_capacity room) }
        ensures desk { result.desk ≡ desk.desk }
        ensures all { result.awaited ≡ replicate desk.desk.size true }
    {
        let mut desk = desk;
        let arrivals = desk.deal_out(room);
        OwnedDesk { desk, arrivals }
    }

    /// Brings the outcome of this index, which is below the desk's size. It takes no memory.
    pub fn bring(self, index: usize, outcome: Try<T>) -> Brought<T, E>
        requires { index < self.desk.size }
        ensures { IsBroughtTo self index outcome result }
    {
        let OwnedDesk { desk, mut arrivals } = self;
        let Some(seat) = arrivals[index].take() else {
            return Brought::Back(OwnedDesk { desk, arrivals }, outcome);
        };
        match desk.keep(seat, index, outcome) {
            Ok((list, end, last)) => {
                desk.free(last);
                Brought::Complete(list, end)
            }
            Err(receipt) => Brought::More(OwnedDesk { desk, arrivals }, receipt),
        }
    }

    /// Gives the memory back where not all outcomes have come, and hands out what was kept, and the end.
    pub fn close(self) -> Kept<AllDesk<T, E>>
        ensures { EndsAs self.desk result }
    {
        let OwnedDesk { desk, arrivals: _ } = self;
        desk.close()
    }
}
