use fan_base::ExecId;
use std::alloc::Global;
use std::collections::VecDeque;
use std::marker::Model;
use tick_wheel::Timers;

mod calls;
mod steps;

/// What a base is to run: callbacks and timers. A job that runs on the base is lent it.
pub struct Agenda<J> {
    exec: ExecId,
    // For the beginning of the next round.
    before: VecDeque<J>,
    // For the loop phase that runs, or for the next one. It has room for what waits behind that phase.
    loops: VecDeque<J>,
    // For the phase behind the one that runs.
    later: VecDeque<J>,
    in_loop: bool,
    terminating: bool,
    timers: Timers<J>,
}

impl<J> Model for Agenda<J> {
    ghost use Rattle.std.specs.Prelude.{◌+◌, ◌≤◌};
    ghost use Rattle.std.specs.VecDeque.{deque_len, deque_capacity};
    ghost use Rattle.event_base.specs.Seen.{AgendaSeen};

    ghost Value = { AgendaSeen J };

    ghost view = { λ a. record {
      exec = a.exec;
      before = a.before.items;
      loops = a.loops.items;
      later = a.later.items;
      in_loop = a.in_loop;
      terminating = a.terminating;
      wheel = a.timers;
    } };

    ghost invariant = { λ a. deque_len a.loops + deque_len a.later ≤ deque_capacity a.loops };
}
