use crate::channel::Channel;
use crate::delivery::Pass;
use crate::marks::MarkSeat;
use crate::stamp::Stamped;
pub(crate) use counts::no_counts;
use crossbeam_utils::sync::Parker;
use queue_packets::Blocks;
use std::alloc::Global;
use std::marker::Model;
use std::sync::Arc;

mod calls;
mod counts;
mod steps;

/// The one that takes the messages. It must be spent by [`Receiver::close`].
pub struct Receiver<M> {
    channel: Arc<Channel<M>, Global>,
    pass: Pass<M>,
    seat: MarkSeat<M>,
    parker: Parker,
    senders: u32,
    // How many senders it has found ended: those with the numbers below.
    found: u32,
    taken: u64,
    // How many of each sender.
    counts: Vec<u64>,
    // Those of messages that it took, until they go back to the senders.
    blocks: Blocks<Stamped<M>>,
    alloc: Global,
}

impl<M> Model for Receiver<M> {
    ghost use Rattle.notify_queue.specs.Ends.{Receiving};
    ghost use Rattle.notify_queue.specs.Receivers.{receiving_of, IsReceiver};

    ghost Value = { Receiving M };

    ghost view = { receiving_of };

    ghost invariant = { IsReceiver };
}
