//! A wheel of ids.
use crate::book::Steps;
use crate::timer::{ScheduleFault, Timer};
use crate::timers::Timers;
use fan_base::Memory;
use std::alloc::Global;
use std::marker::Model;
use std::sync::ledger::Ledger;

/// Why an id was not scheduled.
#[derive(Clone, Copy, Debug, PartialEq, Eq)]
pub enum Refuse {
    /// The delay is 0.
    ZeroDelay,
    /// The delay is above 4,294,967,295 ticks.
    DelayTooLong,
    /// There is no memory.
    Memory,
}

/// Timers that carry nothing: what fires is known by its id. Contracts see the list of the timers in order of scheduling, each with its id as
/// its item.
#[derive(Debug, Drop)]
pub struct Wheel {
    timers: Timers<()>,
}

impl Model for Wheel {
    ghost use Rattle.std.specs.Prelude.{ℕ};
    ghost use Rattle.tick_wheel.specs.TimerList.{TimerList};

    ghost Value = { TimerList ℕ };

    ghost use Rattle.tick_wheel.specs.Wheel.{with_ids};

    ghost view = { λ wheel. with_ids wheel.timers };
}

impl Wheel {
    ghost use Rattle.std.specs.Prelude.{◌≡◌, ℕ, ◌+◌, ◌<◌, ◌≤◌, ◌^◌, ◌↔◌, [], length, IsTrue, IsSome, Some, None, Ok, Err, IfOk, IfErr, OnOk, OnErr, option_map, vec_len};
    ghost use Rattle.tick_wheel.specs.TimerList.{TimerList, timer_at, due_at, due_later, scheduled, cancelled, by_id};
    ghost use Rattle.tick_wheel.specs.Steps.{tick_bound};
    ghost use Rattle.tick_wheel.specs.Wheel.{ids_of, due_of, TicksIds};

    /// Holds nothing, with `start` ticks made, at most 2^62. `Memory` comes where there is none for the slots.
    pub fn new(alloc: Global, start: u64) -> Result<Wheel, Memory>
        requires { start ≤ 2 ^ 62 }
        ensures { IfOk result (λ wheel. wheel ≡ record { tick = start; timers = [] }) }
    {
        Ok(Wheel {
            timers: Timers::new(alloc, start)?,
        })
    }

    /// How many ticks were made, the start counted.
    pub fn now(&self) -> u64
        ensures now { result ≡ self.now.tick }
        ensures within { result ≤ 2 ^ 63 }
    {
        self.timers.now()
    }

    /// Whether the id is held.
    pub fn holds(&self, id: u64) -> bool
        ensures { IsTrue result ↔ IsSome (timer_at id self.now.timers) }
    {
        self.timers.holds(id)
    }

    /// How many ids are held.
    pub fn len(&self) -> usize
        ensures { result ≡ length self.now.timers }
    {
        self.timers.len()
    }

    /// Whether no id is held.
    pub fn is_empty(&self) -> bool
        ensures { IsTrue result ↔ (self.now.timers ≡ []) }
    {
        self.timers.is_empty()
    }

    /// Holds an id that is due after so many ticks, 1 to 4,294,967,295. It may not be held, which [`Wheel::holds`] tells. A refused call
    /// changes nothing.
    ///
    /// Want of memory is also the answer once 2^64 - 1 ids were scheduled.
    pub fn schedule(&mut self, delay: u64, id: u64) -> Result<(), Refuse>
        requires { timer_at id self.old.timers ≡ None }
        ensures ok { OnOk result (self.new ≡ scheduled self.old delay id id) }
        ensures zero { (result ≡ Err Refuse.ZeroDelay) ↔ (delay ≡ 0) }
        ensures long { (result ≡ Err Refuse.DelayTooLong) ↔ (4294967295 < delay) }
        ensures refused { OnErr result (self.new ≡ self.old) }
    {
        match self.timers.schedule(delay, id, ()) {
            Ok(()) => Ok(()),
            Err(ScheduleFault::ZeroDelay(_)) => Err(Refuse::ZeroDelay),
            Err(ScheduleFault::DelayTooLong(_)) => Err(Refuse::DelayTooLong),
            Err(ScheduleFault::Memory(_)) => Err(Refuse::Memory),
        }
    }

    /// Takes an id out, and gives the tick at which it was due: None comes exactly where it isn't held. It takes no memory.
    pub fn cancel(&mut self, id: u64) -> Option<u64>
        ensures due { result ≡ option_map due_of (timer_at id self.old.timers) }
        ensures rest { self.new ≡ cancelled self.old id }
    {
        let Timer { due, .. } = self.timers.cancel(id)?;
        Some(due)
    }

    /// Makes one tick, where fewer than 2^63 were made, and hands out the ids that are due then, in order of scheduling. A call that is
    /// refused for want of memory leaves all as it was.
    ///
    /// One step is one entry taken out of a slot: each that fires is one, and the clause `steps` bounds them.
    pub fn tick<L: Ledger>(&mut self, steps: &mut Steps<L>) -> Result<Vec<u64>, Memory>
        requires { self.old.tick < 2 ^ 63 }
        ensures ok { IfOk result (λ ids. TicksIds self.old self.new ids.items) }
        ensures refused { OnErr result (self.new ≡ self.old) }
        ensures steps { steps.new ≤ steps.old + tick_bound self.old }
        ensures counted { IfOk result (λ ids. steps.old + length ids.items ≤ steps.new) }
    {
        let ids = self.timers.tick_list(steps)?;
        Ok(ids)
    }

    /// As [`Wheel::tick`], with a list that the caller keeps for all ticks, and that is empty: what fires takes memory only where the list has
    /// no room for it, and beside it for a list of keys where its slot has several ids. A refused call leaves it empty.
    pub fn tick_into<L: Ledger>(
        &mut self,
        steps: &mut Steps<L>,
        ids: &mut Vec<u64>,
    ) -> Result<(), Memory>
        requires tick { self.old.tick < 2 ^ 63 }
        requires empty { vec_len ids.old ≡ 0 }
        ensures ok { OnOk result (TicksIds self.old self.new ids.new.items) }
        ensures refused { OnErr result (self.new ≡ self.old) }
        ensures none { OnErr result (vec_len ids.new ≡ 0) }
        ensures steps { steps.new ≤ steps.old + tick_bound self.old }
        ensures counted { OnOk result (steps.old + length ids.new.items ≤ steps.new) }
    {
        self.timers.tick_to(steps, ids)?;
        Ok(())
    }

    /// Takes all ids out, ascending. A call that is refused for want of memory leaves all as it was.
    pub fn cancel_all(&mut self) -> Result<Vec<u64>, Memory>
        ensures ok { IfOk result (λ ids. ids.items ≡ ids_of (by_id self.old.timers)) }
        ensures gone { OnOk result (self.new ≡ record { tick = self.old.tick; timers = [] }) }
        ensures refused { OnErr result (self.new ≡ self.old) }
    {
        let ids = self.timers.take_list()?;
        Ok(ids)
    }
}
