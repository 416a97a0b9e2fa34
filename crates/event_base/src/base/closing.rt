ghost use Rattle.notify_queue.specs.Ends.{AreAllEnds};
ghost use Rattle.event_base.specs.Closing.{AreOn, IsClosing};

use super::EventBase;
use crate::rest::{BaseRest, QueueNote};
use job_trait::Headed;
use notify_queue::{QueueEnd, SenderEnd};
use std::sync::Wait;

/// The end of a base.
pub struct BaseEnd<J> {
    /// What its queue had.
    pub queue: QueueNote,
    /// What was posted or scheduled here and neither ran nor was cancelled.
    pub rest: BaseRest<J>,
}

impl<J: Headed> EventBase<J> {
    /// Ends the base, with the ends of all its posters, whose messages have the base's executor. It hands back, once, each job that
    /// was posted or scheduled here and neither ran nor was cancelled: first the messages in the queue's order, then the callbacks
    /// that waited for the beginning of a round, then those of the loop phase in the order in which they would run, and last the
    /// timers by due tick and order of scheduling.
    pub fn close<R: Wait>(self, rt: &R, ends: Vec<SenderEnd<J>>) -> BaseEnd<J>
        requires ends { AreAllEnds self.queue ends.items }
        requires posts { AreOn J.head self.agenda.exec ends.items }
        ensures { IsClosing J.head self ends.items result.queue result.rest }
    {
        let EventBase {
            agenda,
            queue,
            number: _,
        } = self;
        let QueueEnd { put, taken, rest } = queue.close(rt, ends);
        let note = QueueNote::new(agenda.exec(), put, taken, rest.len() as u64);
        BaseEnd {
            queue: note,
            rest: agenda.into_rest(rest),
        }
    }
}
