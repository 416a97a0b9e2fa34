ghost use Rattle.std.specs.Prelude.{◌≡◌, [], ◌↔◌, length, IsTrue, MatchOption};
ghost use Rattle.notify_queue.specs.Ends.{with_first};

use crate::delivery::Pass;
use crate::stamp::Stamped;
use queue_packets::Packets;
use std::marker::Model;

/// The messages that were left in a queue at its close, in its order, which is that of the puts of all senders together. It
/// may be dropped, which forgets them.
pub struct Rest<M> {
    packets: Packets<Stamped<M>>,
    len: usize,
    // The receiver's, which knows what was popped.
    pass: Pass<M>,
}

impl<M> Model for Rest<M> {
    ghost use Rattle.std.specs.Prelude.{◌≡◌, length};
    ghost use Rattle.notify_queue.specs.Ends.{Leaving};

    ghost Value = { Leaving M };

    ghost view = { λ rest. record { left = rest.packets; popped = rest.pass.me.view.client.taken } };

    ghost invariant = { λ rest. rest.len ≡ length rest.packets };
}

impl<M> Rest<M> {
    pub(crate) fn new(packets: Packets<Stamped<M>>, len: usize, pass: Pass<M>) -> Rest<M>
        requires { len ≡ length packets }
        ensures { result ≡ record { left = packets; popped = pass.me.view.client.taken } }
    {
        Rest { packets, len, pass }
    }

    /// How many messages are left.
    pub fn len(&self) -> usize
        ensures { result ≡ length self.now.left }
    {
        self.len
    }

    /// Whether none is left.
    pub fn is_empty(&self) -> bool
        ensures { IsTrue result ↔ (self.now.left ≡ []) }
    {
        self.len == 0
    }

    /// Takes the oldest message. None comes exactly where none is left.
    pub fn pop(&mut self) -> Option<Stamped<M>>
        ensures { MatchOption result ((self.old.left ≡ []) × (self.new ≡ self.old)) (λ first. self.old ≡ with_first first self.new) }
    {
        let stamped = self.packets.pop_front()?;
        self.len -= 1;
        Some(stamped)
    }
}

impl<M> Drop for Rest<M> {
    fn drop(self) {
        let Rest {
            packets: _,
            len: _,
            pass: _,
        } = self;
    }
}

/// The end of a queue.
#[derive(Drop)]
pub struct QueueEnd<M> {
    /// How many messages were put in all.
    pub put: u64,
    /// How many of them the receiver took.
    pub taken: u64,
    /// The others.
    pub rest: Rest<M>,
}
