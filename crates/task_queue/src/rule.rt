// The rule of the queue.
use crate::view::View;
use crossbeam_queue::protocol::Protocol;
use crossbeam_queue::{RuledSegQueue, SegPass};
use job_trait::Headed;
use pool_model::Ticket;
use queue_packets::Packet;
use std::marker::PhantomData;

/// A job that waits, with its ticket.
#[derive(Drop)]
pub struct Queued<J> {
    pub ticket: Ticket,
    pub job: J,
}

/// The rule of a queue of such jobs.
pub struct QueueRule<J> {
    jobs: PhantomData<J>,
}

impl<J: Headed> Protocol<Packet<Queued<J>>, View> for QueueRule<J> {
    ghost use Rattle.task_queue.specs.Rule.{QueueHolds};
    ghost use Rattle.task_queue.specs.Views.{making};

    ghost holds = { QueueHolds J.head };

    ghost first = { making 0 0 0 0 };
}

pub type Line<J> = RuledSegQueue<Packet<Queued<J>>, View, QueueRule<J>>;

pub type Pass<J> = SegPass<Packet<Queued<J>>, View>;
