//! Timers by their ids, in a hashed wheel.
use crate::book::{Book, Steps};
use crate::cascade::settle;
use crate::fire::fire_slot;
use crate::handout::Handout;
use crate::place::{MAX_DELAY, slot_of};
use crate::rest::{TimersRest, rest_of};
use crate::sweep::{list_ids, take_all};
use crate::timed::Timed;
use crate::timer::{ScheduleFault, Timer};
use fan_base::Memory;
use std::alloc::Global;
use std::marker::Model;
use std::sync::ledger::Ledger;

/// Timers, each with an id of its own, and the number of ticks that were made. Contracts see the list of the timers in order
/// of scheduling, and nothing of slots.
#[derive(Debug, Drop)]
pub struct Timers<T> {
    alloc: Global,
    ticks: u64,
    next: u64,
    book: Book<T>,
}

impl<T> Model for Timers<T> {
    ghost use Rattle.tick_wheel.specs.TimerList.{TimerList};

    ghost Value = { TimerList T };

    ghost use Rattle.tick_wheel.specs.Kept.{timers_of, IsKept};

    ghost view = { λ wheel. record { tick = wheel.ticks; timers = timers_of wheel.book } };

    ghost invariant = { λ wheel. IsKept wheel.ticks wheel.next wheel.book };
}

impl<T> Timers<T> {
    ghost use Rattle.std.specs.Prelude.{◌≡◌, ℕ, ◌+◌, ◌<◌, ◌≤◌, ◌^◌, ◌↔◌, [], length, IsTrue, IsSome, Some, None, Ok, Err, IfOk, IfErr, OnOk, OnErr, vec_len};
    ghost use Rattle.tick_wheel.specs.TimerList.{TimerList, Ticks, timer_at, scheduled, cancelled, handed_back, items_of, by_id, by_due};
    ghost use Rattle.tick_wheel.specs.Handouts.{HandsOut, handouts_of};
    ghost use Rattle.tick_wheel.specs.Steps.{tick_bound};

    /// Holds nothing, with `start` ticks made, at most 2^62. `Memory` comes where there is none for the slots.
    pub fn new(alloc: Global, start: u64) -> Result<Timers<T>, Memory>
        requires { start ≤ 2 ^ 62 }
        ensures { IfOk result (λ wheel. wheel ≡ record { tick = start; timers = [] }) }
    {
        Ok(Timers {
            alloc,
            ticks: start,
            next: 0,
            book: Book::new(alloc)?,
        })
    }

    /// How many ticks were made, the start counted.
    pub fn now(&self) -> u64
        ensures now { result ≡ self.now.tick }
        ensures within { result ≤ 2 ^ 63 }
    {
        self.ticks
    }

    /// Whether a timer of this id is held.
    pub fn holds(&self, id: u64) -> bool
        ensures { IsTrue result ↔ IsSome (timer_at id self.now.timers) }
    {
        self.book.holds(id)
    }

    /// How many timers are held.
    pub fn len(&self) -> usize
        ensures { result ≡ length self.now.timers }
    {
        self.book.len()
    }

    /// Whether no timer is held.
    pub fn is_empty(&self) -> bool
        ensures { IsTrue result ↔ (self.now.timers ≡ []) }
    {
        self.book.len() == 0
    }

    /// Holds a timer that is due after so many ticks, 1 to 4,294,967,295. Its id may not be held, which [`Timers::holds`] tells. A refused
    /// call changes nothing and hands the item back.
    ///
    /// Want of memory is also the answer once 2^64 - 1 timers were scheduled.
    pub fn schedule(&mut self, delay: u64, id: u64, item: T) -> Result<(), ScheduleFault<T>>
        requires { timer_at id self.old.timers ≡ None }
        ensures ok { OnOk result (self.new ≡ scheduled self.old delay id item) }
        ensures zero { (result ≡ Err (ScheduleFault.ZeroDelay item)) ↔ (delay ≡ 0) }
        ensures long { (result ≡ Err (ScheduleFault.DelayTooLong item)) ↔ (4294967295 < delay) }
        ensures refused { IfErr result (λ fault. (handed_back fault ≡ item) × (self.new ≡ self.old)) }
    {
        if delay == 0 {
            return Err(ScheduleFault::ZeroDelay(item));
        }
        if delay > MAX_DELAY {
            return Err(ScheduleFault::DelayTooLong(item));
        }
        if self.next == u64::MAX {
            return Err(ScheduleFault::Memory(item));
        }
        let due = self.ticks + delay;
        let slot = slot_of(due, self.ticks);
        let timed = Timed {
            due,
            order: self.next,
            item,
        };
        self.book.insert(slot, id, timed)?;
        self.next += 1;
        Ok(())
    }

    /// Takes the timer of an id out: None comes exactly where none is held. It takes no memory.
    pub fn cancel(&mut self, id: u64) -> Option<Timer<T>>
        ensures timer { result ≡ timer_at id self.old.timers }
        ensures rest { self.new ≡ cancelled self.old id }
    {
        let Timed { due, item, .. } = self.book.remove(id)?;
        Some(Timer { due, id, item })
    }

    /// Makes one tick, where fewer than 2^63 were made, and hands out what is due then, in order of scheduling. A call that is refused for
    /// want of memory leaves all as it was.
    ///
    /// One step is one entry taken out of a slot: each that fires is one, and the clause `steps` bounds them.
    pub fn tick<L: Ledger>(&mut self, steps: &mut Steps<L>) -> Result<Vec<T>, Memory>
        requires { self.old.tick < 2 ^ 63 }
        ensures ok { IfOk result (λ items. Ticks self.old self.new items.items) }
        ensures refused { OnErr result (self.new ≡ self.old) }
        ensures steps { steps.new ≤ steps.old + tick_bound self.old }
        ensures counted { IfOk result (λ items. steps.old + length items.items ≤ steps.new) }
    {
        let items = self.tick_list(steps)?;
        Ok(items)
    }

    /// As [`Timers::tick`], with a list that the caller keeps for all ticks, and that is empty: what fires takes memory only where the list has
    /// no room for it, and beside it for a list of keys where its slot has several ids. A refused call leaves it empty.
    pub fn tick_into<L: Ledger>(
        &mut self,
        steps: &mut Steps<L>,
        fired: &mut Vec<T>,
    ) -> Result<(), Memory>
        requires tick { self.old.tick < 2 ^ 63 }
        requires empty { vec_len fired.old ≡ 0 }
        ensures ok { OnOk result (Ticks self.old self.new fired.new.items) }
        ensures refused { OnErr result (self.new ≡ self.old) }
        ensures none { OnErr result (vec_len fired.new ≡ 0) }
        ensures steps { steps.new ≤ steps.old + tick_bound self.old }
        ensures counted { OnOk result (steps.old + length fired.new.items ≤ steps.new) }
    {
        self.tick_to(steps, fired)?;
        Ok(())
    }

    /// Takes all timers out, in ascending order of their ids. A call that is refused for want of memory leaves all as it was.
    pub fn cancel_all(&mut self) -> Result<Vec<T>, Memory>
        ensures ok { IfOk result (λ items. items.items ≡ items_of (by_id self.old.timers)) }
        ensures gone { OnOk result (self.new ≡ record { tick = self.old.tick; timers = [] }) }
        ensures refused { OnErr result (self.new ≡ self.old) }
    {
        let items = self.take_list()?;
        Ok(items)
    }

    // `tick` with what is handed out of each timer.
    pub(crate) fn tick_list<X: Handout<T>, L: Ledger>(
        &mut self,
        steps: &mut Steps<L>,
    ) -> Result<Vec<X>, Memory>
        requires { self.old.tick < 2 ^ 63 }
        ensures ok { IfOk result (λ handouts. HandsOut X.handout self.old self.new handouts.items) }
        ensures refused { OnErr result (self.new ≡ self.old) }
        ensures steps { steps.new ≤ steps.old + tick_bound self.old }
        ensures counted { IfOk result (λ handouts. steps.old + length handouts.items ≤ steps.new) }
    {
        let mut fired = Vec::new(self.alloc);
        if let Err(error) = self.tick_to(steps, &mut fired) {
            fired.destroy_empty();
            return Err(error);
        }
        Ok(fired)
    }

    // `tick_into` with what is handed out of each timer.
    pub(crate) fn tick_to<X: Handout<T>, L: Ledger>(
        &mut self,
        steps: &mut Steps<L>,
        fired: &mut Vec<X>,
    ) -> Result<(), Memory>
        requires tick { self.old.tick < 2 ^ 63 }
        requires empty { vec_len fired.old ≡ 0 }
        ensures ok { OnOk result (HandsOut X.handout self.old self.new fired.new.items) }
        ensures refused { OnErr result (self.new ≡ self.old) }
        ensures none { OnErr result (vec_len fired.new ≡ 0) }
        ensures steps { steps.new ≤ steps.old + tick_bound self.old }
        ensures counted { OnOk result (steps.old + length fired.new.items ≤ steps.new) }
    {
        let tick = self.ticks + 1;
        settle(&mut self.book, self.ticks, steps)?;
        fire_slot(self.alloc, &mut self.book, self.ticks, fired, steps)?;
        self.ticks = tick;
        Ok(())
    }

    // `cancel_all` with what is handed out of each timer.
    pub(crate) fn take_list<X: Handout<T>>(&mut self) -> Result<Vec<X>, Memory>
        ensures ok { IfOk result (λ handouts. handouts.items ≡ handouts_of X.handout (by_id self.old.timers)) }
        ensures gone { OnOk result (self.new ≡ record { tick = self.old.tick; timers = [] }) }
        ensures refused { OnErr result (self.new ≡ self.old) }
    {
        let ids = list_ids(self.alloc, &self.book)?;
        let mut handouts = Vec::with_capacity(self.alloc, ids.len())?;
        take_all(&mut self.book, &ids, &mut handouts);
        Ok(handouts)
    }

    /// Ends the wheel and gives what it holds, by due tick and by order of scheduling where that is the same. It takes no memory.
    pub fn into_rest(self) -> TimersRest<T>
        ensures { result ≡ by_due self.timers }
    {
        let Timers { book, .. } = self;
        rest_of(book)
    }

    /// Lets a wheel go that holds nothing, also where its items may not be dropped.
    pub fn destroy_empty(self)
        requires { self.timers ≡ [] }
    {
        let Timers { book, .. } = self;
        book.destroy_empty();
    }
}
