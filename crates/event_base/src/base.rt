use crate::agenda::Agenda;
pub use closing::BaseEnd;
use notify_queue::{Receiver, Sender};
use std::marker::Model;

mod calls;
mod closing;
mod rounds;

/// A loop over messages, timers and callbacks, which one thread runs. It must be spent by [`EventBase::close`].
pub struct EventBase<J> {
    agenda: Agenda<J>,
    queue: Receiver<J>,
    // Of the next round.
    number: u64,
}

impl<J> Model for EventBase<J> {
    ghost use Rattle.event_base.specs.Seen.{BaseSeen};

    ghost Value = { BaseSeen J };

    ghost view = { λ b. record { agenda = b.agenda; queue = b.queue; number = b.number } };
}

/// One that posts jobs to a base, from any thread. It must be spent by `end`, whose answers [`EventBase::close`] asks for.
pub type Poster<J> = Sender<J>;
