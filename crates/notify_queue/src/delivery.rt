//! The rule of the queue, and what each step on it tells.
use crate::stamp::Stamped;
use crossbeam_queue::protocol::{Join, Lesson, Outcome, Outcomes, Protocol, Split};
use crossbeam_queue::{RuledSegQueue, SegBatch, SegPass};
use queue_packets::Packet;
use std::alloc::Global;
use std::collections::LinkedList;

/// A sender that has ended, and all that it put.
pub(crate) struct EndedSender<M> {
    pub sender: u32,
    pub put: LinkedList<M>,
}

/// What a pass knows. No value of it is made.
///
/// The pass of a sender has its number and what it has put. Pass 0 is the receiver's: it has what was taken, how many
/// senders were made, and what those that it found ended had put.
pub(crate) struct Knowledge<M> {
    pub sends: bool,
    pub number: u32,
    pub put: LinkedList<M>,
    pub ended: LinkedList<EndedSender<M>>,
    pub taken: LinkedList<Stamped<M>>,
    pub made: u32,
}

pub(crate) type Line<M> = RuledSegQueue<Packet<Stamped<M>>, Knowledge<M>, Delivery>;

pub(crate) type Pass<M> = SegPass<Packet<Stamped<M>>, Knowledge<M>>;

pub(crate) type Batch<M> = SegBatch<Packet<Stamped<M>>, Knowledge<M>, Global>;

pub(crate) struct Delivery;

impl<M> Protocol<Packet<Stamped<M>>, Knowledge<M>> for Delivery {
    ghost use Rattle.notify_queue.specs.Delivery.{Delivers, idle};

    ghost holds = { Delivers };

    ghost first = { idle };
}

/// The receiver makes a sender.
pub(crate) struct AnotherSender;

impl<M> Split<Knowledge<M>> for AnotherSender {
    ghost use Rattle.std.specs.Prelude.{◌+◌, []};
    ghost use Rattle.notify_queue.specs.Delivery.{receiving, sending};

    ghost left = { λ v. receiving (v.made + 1) v.ended v.taken };

    ghost right = { λ v. sending v.made [] };
}

/// A sender puts a message.
pub(crate) struct Put;

impl<M> Outcome<Packet<Stamped<M>>, Knowledge<M>> for Put {
    ghost use Rattle.std.specs.Prelude.{◌≡◌, ◌++◌, ◌∷◌, []};
    ghost use Rattle.notify_queue.specs.Delivery.{sending};

    ghost then = { λ v x w. w ≡ sending v.number (v.put ++ x.message ∷ []) };
}

/// The receiver takes messages in front, or finds the queue empty.
pub(crate) struct Take;

impl<M> Outcome<Packet<Stamped<M>>, Knowledge<M>> for Take {
    ghost use Rattle.std.specs.Prelude.{◌∷◌, []};
    ghost use Rattle.notify_queue.specs.Delivery.{Takes};

    ghost then = { λ v x w. Takes v (x ∷ []) w };
}

impl<M> Outcomes<Packet<Stamped<M>>, Knowledge<M>> for Take {
    ghost use Rattle.notify_queue.specs.Delivery.{Takes};

    ghost then_all = { Takes };
}

impl<M> Lesson<Packet<Stamped<M>>, Knowledge<M>> for Take {
    ghost use Rattle.notify_queue.specs.Delivery.{Shows};

    ghost fact = { Shows };
}

/// A sender ends: its pass and a copy of it say what it put.
pub(crate) struct End;

impl<M> Split<Knowledge<M>> for End {
    ghost use Rattle.notify_queue.specs.Delivery.{ending};

    ghost left = { λ v. ending v.number v.put };

    ghost right = { λ v. ending v.number v.put };
}

/// The receiver takes in the pass of a sender that has ended.
pub(crate) struct JoinEnd;

impl<M> Join<Knowledge<M>> for JoinEnd {
    ghost use Rattle.std.specs.Prelude.{◌++◌};
    ghost use Rattle.notify_queue.specs.Delivery.{receiving, idle};

    ghost both = { λ v w. receiving v.made (v.ended ++ w.ended) v.taken };

    ghost spent = { idle };
}
