use crate::channel::Channel;
use crate::delivery::Pass;
use crate::marks::MarkSeat;
use crate::stamp::Stamped;
pub(crate) use calls::abandon_all;
use queue_packets::Blocks;
use std::alloc::Global;
use std::marker::Model;
use std::sync::Arc;

mod calls;

/// One that puts messages. It must be spent by [`Sender::end`].
pub struct Sender<M> {
    channel: Arc<Channel<M>, Global>,
    pass: Pass<M>,
    seat: MarkSeat<M>,
    number: u32,
    puts: u64,
    // Those for its next messages.
    blocks: Blocks<Stamped<M>>,
    alloc: Global,
}

impl<M> Model for Sender<M> {
    ghost use Rattle.notify_queue.specs.Ends.{Sending};
    ghost use Rattle.notify_queue.specs.Senders.{sending_of, IsSender};

    ghost Value = { Sending M };

    ghost view = { sending_of };

    ghost invariant = { IsSender };
}

/// What is left of a sender after its end. [`crate::Receiver::close`] asks for the ends of all senders.
pub struct SenderEnd<M> {
    pass: Pass<M>,
    // It shows that the mark is set.
    seat: MarkSeat<M>,
    number: u32,
}

impl<M> Model for SenderEnd<M> {
    ghost use Rattle.notify_queue.specs.Ends.{Sending};
    ghost use Rattle.notify_queue.specs.Senders.{end_of, IsEnd};

    ghost Value = { Sending M };

    ghost view = { end_of };

    ghost invariant = { IsEnd };
}

impl<M> Drop for SenderEnd<M> {
    fn drop(self) {
        let SenderEnd {
            pass: _,
            seat: _,
            number: _,
        } = self;
    }
}
