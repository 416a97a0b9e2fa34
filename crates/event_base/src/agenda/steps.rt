// The base's own part: what takes callbacks and due timers off the agenda.
ghost use Rattle.std.specs.Prelude.{◌≡◌, ◌+◌, ◌<◌, ◌^◌, ◌++◌, map, [], false, IfOk, OnErr, MatchOption, length};
ghost use Rattle.std.specs.Bool.{OnTrue, OnFalse};
ghost use Rattle.event_base.specs.Seen.{new_agenda, settled, unmarked};
ghost use Rattle.event_base.specs.Looping.{HoldsNoCallback, count_of_callbacks};
ghost use Rattle.event_base.specs.Rounds.{in_phase, ticked, due_next};
ghost use Rattle.event_base.specs.Closing.{held_by, message_of};
ghost use Rattle.event_base.specs.Turns.{TakesBefore, TakesLoop};

use super::Agenda;
use crate::rest::BaseRest;
use crate::room::join_queues;
use fan_base::{ExecId, Memory};
use notify_queue::Rest;
use std::alloc::Global;
use std::collections::VecDeque;
use std::sync::ledger::Ledger;
use tick_wheel::{Steps, Timers};

impl<J> Agenda<J> {
    pub(crate) fn new(alloc: Global, exec: ExecId, timers: Timers<J>) -> Agenda<J>
        requires { timers.timers ≡ [] }
        ensures { result ≡ new_agenda exec timers.tick }
    {
        Agenda {
            exec,
            before: VecDeque::new(alloc),
            loops: VecDeque::new(alloc),
            later: VecDeque::new(alloc),
            in_loop: false,
            terminating: false,
            timers,
        }
    }

    // How many callbacks wait for the beginning of a round.
    pub(crate) fn count_before(&self) -> usize
        ensures { result ≡ length self.now.before }
    {
        self.before.len()
    }

    pub(crate) fn take_before(&mut self) -> Option<J>
        ensures { MatchOption result ((self.old.before ≡ []) × (self.new ≡ self.old)) (λ job. TakesBefore job self.old self.new) }
    {
        self.before.pop_front()
    }

    pub(crate) fn take_loop(&mut self) -> Option<J>
        ensures { MatchOption result ((self.old.loops ≡ []) × (self.new ≡ self.old)) (λ job. TakesLoop job self.old self.new) }
    {
        self.loops.pop_front()
    }

    pub(crate) fn begin_phase(&mut self)
        ensures { self.new ≡ in_phase self.old }
    {
        self.in_loop = true;
    }

    // Ends the loop phase, where one runs.
    pub(crate) fn end_phase(&mut self)
        ensures { self.new ≡ settled self.old }
    {
        join_queues(&mut self.loops, &mut self.later);
        self.in_loop = false;
    }

    // Whether no callback is held.
    pub(crate) fn is_idle(&self) -> bool
        ensures none { OnTrue result (HoldsNoCallback self.now) }
        ensures some { OnFalse result (0 < count_of_callbacks self.now) }
    {
        self.before.is_empty() && self.loops.is_empty() && self.later.is_empty()
    }

    // Takes the mark to end off, and says whether it stood.
    pub(crate) fn take_mark(&mut self) -> bool
        ensures mark { result ≡ self.old.terminating }
        ensures off { self.new ≡ unmarked self.old }
    {
        let stands = self.terminating;
        self.terminating = false;
        stands
    }

    // Makes one tick, and hands out the jobs that are due then.
    pub(crate) fn tick<L: Ledger>(&mut self, steps: &mut Steps<L>) -> Result<Vec<J>, Memory>
        requires { self.old.wheel.tick < 2 ^ 63 }
        ensures ok { IfOk result (λ jobs. (self.new ≡ ticked self.old) × (jobs.items ≡ due_next self.old)) }
        ensures refused { OnErr result (self.new ≡ self.old) }
    {
        self.timers.tick(steps)
    }

    // All that it holds, behind the messages that were left.
    pub(crate) fn into_rest(self, messages: Rest<J>) -> BaseRest<J>
        ensures { result ≡ record { jobs = map message_of messages.left ++ held_by self; popped = messages.popped } }
    {
        let Agenda {
            exec: _,
            before,
            mut loops,
            mut later,
            in_loop: _,
            terminating: _,
            timers,
        } = self;
        join_queues(&mut loops, &mut later);
        later.destroy_empty();
        BaseRest::new(messages, before, loops, timers.into_rest())
    }
}
