// What is left of a base at its close.
ghost use Rattle.std.specs.Prelude.{◌≡◌, ◌++◌, ◌∷◌, [], MatchOption};
ghost use Rattle.tick_wheel.specs.TimerList.{items_of};
ghost use Rattle.event_base.specs.Closing.{held_in};

use fan_base::ExecId;
use notify_queue::{Rest, Stamped};
use std::collections::VecDeque;
use std::marker::Model;
use tick_wheel::{Timer, TimersRest};

/// What a base's queue had at its close. Only [`crate::EventBase::close`] makes one.
#[derive(Debug, Drop)]
pub struct QueueNote {
    exec: ExecId,
    put: u64,
    taken: u64,
    left: u64,
}

impl Model for QueueNote {
    ghost use Rattle.event_base.specs.Seen.{NoteSeen};

    ghost Value = { NoteSeen };

    ghost view = { λ n. record { exec = n.exec; put = n.put; taken = n.taken; left = n.left } };
}

impl QueueNote {
    pub(crate) fn new(exec: ExecId, put: u64, taken: u64, left: u64) -> QueueNote
        ensures { result ≡ record { exec = exec; put = put; taken = taken; left = left } }
    {
        QueueNote {
            exec,
            put,
            taken,
            left,
        }
    }

    /// The base's executor.
    pub fn exec(&self) -> ExecId
        ensures { result ≡ self.now.exec }
    {
        self.exec
    }

    /// How many messages were put.
    pub fn put(&self) -> u64
        ensures { result ≡ self.now.put }
    {
        self.put
    }

    /// How many the base took.
    pub fn taken(&self) -> u64
        ensures { result ≡ self.now.taken }
    {
        self.taken
    }

    /// How many were left.
    pub fn left(&self) -> u64
        ensures { result ≡ self.now.left }
    {
        self.left
    }
}

/// The jobs that were left in a base at its close. One whose jobs may not be dropped is let go by [`BaseRest::end`] once it is empty.
#[derive(Drop)]
pub struct BaseRest<J> {
    messages: Rest<J>,
    before: VecDeque<J>,
    loops: VecDeque<J>,
    timers: TimersRest<J>,
}

impl<J> Model for BaseRest<J> {
    ghost use Rattle.std.specs.Prelude.{◌++◌, map};
    ghost use Rattle.tick_wheel.specs.TimerList.{items_of};
    ghost use Rattle.event_base.specs.Closing.{RestSeen, message_of};

    ghost Value = { RestSeen J };

    ghost view = { λ r. record {
      jobs = map message_of r.messages.left ++ (r.before.items ++ (r.loops.items ++ items_of r.timers));
      popped = r.messages.popped;
    } };
}

impl<J> BaseRest<J> {
    ghost use Rattle.std.specs.Prelude.{map};
    ghost use Rattle.event_base.specs.Closing.{message_of};

    pub(crate) fn new(
        messages: Rest<J>,
        before: VecDeque<J>,
        loops: VecDeque<J>,
        timers: TimersRest<J>,
    ) -> BaseRest<J>
        ensures { result ≡ record {
          jobs = map message_of messages.left ++ held_in before.items loops.items timers;
          popped = messages.popped;
        } }
    {
        BaseRest {
            messages,
            before,
            loops,
            timers,
        }
    }

    /// Hands the next job back. None comes exactly where none is left. It takes no memory.
    pub fn pop(&mut self) -> Option<J>
        ensures none { MatchOption result (self.old.jobs ≡ []) (λ job. self.old.jobs ≡ job ∷ self.new.jobs) }
        ensures same { MatchOption result (self.new ≡ self.old) (λ _. self.new.popped ≡ self.old.popped) }
    {
        match self.messages.pop() {
            Some(Stamped { stamp: _, message }) => Some(message),
            None => pop_held(&mut self.before, &mut self.loops, &mut self.timers),
        }
    }

    /// Lets go of what is empty.
    pub fn end(self)
        requires { self.jobs ≡ [] }
    {
        let BaseRest {
            messages: _,
            before,
            loops,
            timers,
        } = self;
        before.destroy_empty();
        loops.destroy_empty();
        timers.destroy_empty();
    }
}

// The next of what the agenda held.
fn pop_held<J>(
    before: &mut VecDeque<J>,
    loops: &mut VecDeque<J>,
    timers: &mut TimersRest<J>,
) -> Option<J>
    ensures next { MatchOption result (held_in before.old.items loops.old.items timers.old ≡ [])
        (λ job. held_in before.old.items loops.old.items timers.old ≡ job ∷ held_in before.new.items loops.new.items timers.new) }
    ensures none { MatchOption result
        ((before.new.items ≡ before.old.items) × (loops.new.items ≡ loops.old.items) × (timers.new ≡ timers.old)) (λ _. Unit {0}) }
{
    match before.pop_front() {
        Some(job) => Some(job),
        None => pop_loop(loops, timers),
    }
}

fn pop_loop<J>(loops: &mut VecDeque<J>, timers: &mut TimersRest<J>) -> Option<J>
    ensures next { MatchOption result (loops.old.items ++ items_of timers.old ≡ [])
        (λ job. loops.old.items ++ items_of timers.old ≡ job ∷ (loops.new.items ++ items_of timers.new)) }
    ensures none { MatchOption result ((loops.new.items ≡ loops.old.items) × (timers.new ≡ timers.old)) (λ _. Unit {0}) }
{
    match loops.pop_front() {
        Some(job) => Some(job),
        None => pop_timer(timers),
    }
}

fn pop_timer<J>(timers: &mut TimersRest<J>) -> Option<J>
    ensures next { MatchOption result (items_of timers.old ≡ []) (λ job. items_of timers.old ≡ job ∷ items_of timers.new) }
    ensures none { MatchOption result (timers.new ≡ timers.old) (λ _. Unit {0}) }
{
    let Timer { item, .. } = timers.pop()?;
    Some(item)
}
