ghost use Rattle.std.specs.Prelude.{◌≡◌, ◌≤◌, ◌^◌, IfOk};
ghost use Rattle.notify_queue.specs.Ends.{AreNewSenders};
ghost use Rattle.event_base.specs.Seen.{new_base};

use super::{EventBase, Poster};
use crate::agenda::Agenda;
use fan_base::{ExecId, Memory};
use notify_queue::queue;
use std::alloc::Global;
use tick_wheel::Timers;

impl<J> EventBase<J> {
    /// A base with this executor, 1 to 64 posters, which have the numbers from 0 on, and `start` ticks made, which are at most 2^62.
    /// `Memory` comes where there is none for its timers or its queue.
    pub fn new(
        alloc: Global,
        exec: ExecId,
        senders: u32,
        start: u64,
    ) -> Result<(EventBase<J>, Vec<Poster<J>>), Memory>
        requires some { 1 ≤ senders }
        requires few { senders ≤ 64 }
        requires start { start ≤ 2 ^ 62 }
        ensures base { IfOk result (λ made. made.0 ≡ new_base exec start made.0.queue.queue senders) }
        ensures posters { IfOk result (λ made. AreNewSenders made.0.queue.queue senders made.1.items) }
    {
        let timers = Timers::new(alloc, start)?;
        match queue(alloc, senders) {
            Ok((queue, posters)) => Ok((
                EventBase {
                    agenda: Agenda::new(alloc, exec, timers),
                    queue,
                    number: 0,
                },
                posters,
            )),
            Err(memory) => {
                timers.destroy_empty();
                Err(memory)
            }
        }
    }
}

impl<J> EventBase<J> {
    ghost use Rattle.std.specs.Borrow.{Lends, sem};
    ghost use Rattle.event_base.specs.contracts.agenda.Agenda.{the_row as agenda_row};
    ghost use Rattle.event_base.specs.contracts.base.EventBase.{the_row};

    /// What the base is to run: its callbacks and timers.
    pub fn agenda(&mut self) -> &mut Agenda<J>
        ensures* writes_back { sem 𝓛 (Lends (the_row J.row) (agenda_row J.row) self.entry result
            (λ a. record self.old { agenda = a })) }
        ensures value { result.now ≡ self.old.agenda }
    {
        &mut self.agenda
    }
}
