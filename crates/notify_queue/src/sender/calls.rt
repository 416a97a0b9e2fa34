ghost use Rattle.std.specs.Prelude.{◌≡◌, ◌+◌, ◌<◌, [], length, IfOk, IfErr, OnOk};
ghost use Rattle.std.specs.Arc.{arc_value};
ghost use Rattle.crossbeam_queue.specs.SegTies.{IsSegPassOf};
ghost use Rattle.notify_queue.specs.Delivery.{receiving, ending};
ghost use Rattle.notify_queue.specs.Ends.{new_sender, next_stamp, with_put};
ghost use Rattle.notify_queue.specs.Marks.{IsFirstSeatOf};
ghost use Rattle.notify_queue.specs.Passes.{IsFirstPassOf, known_by};

use super::{Sender, SenderEnd};
use crate::channel::Channel;
use crate::delivery::Pass;
use crate::marks::MarkSeat;
use crate::stamp::{Stamp, Stamped};
use fan_base::{Memory, Refused};
use queue_packets::{Blocks, Packet};
use std::alloc::Global;
use std::sync::{Arc, Wait};

impl<M> Sender<M> {
    /// Puts a message behind the others, shows it in the sender's word, and wakes the receiver. A sender puts at most 4,294,967,295
    /// messages. Where there is no memory it gives the message back, and nothing has changed.
    pub fn put<R: Wait>(&mut self, rt: &R, message: M) -> Result<Stamp, Refused<M>>
        requires { length self.old.sent < 4294967295 }
        ensures ok { IfOk result (λ stamp. (stamp ≡ next_stamp self.old) × (self.new ≡ with_put self.old message)) }
        ensures refused { IfErr result (λ back. (back ≡ Refused.Memory message) × (self.new ≡ self.old)) }
    {
        let stamp = Stamp {
            sender: self.number,
            index: self.puts,
        };
        let Some(block) = self.channel.next_block(rt, &mut self.blocks, self.alloc) else {
            return Err(Refused::Memory(message));
        };
        let packet = Packet::new(Stamped { stamp, message }, block);
        match self.channel.put(rt, &mut self.pass, packet) {
            Ok(()) => {
                self.puts += 1;
                self.channel
                    .show_put(&mut self.seat, self.number, self.puts);
                Ok(stamp)
            }
            Err(packet) => {
                let (Stamped { stamp: _, message }, _block) = packet.open();
                Err(Refused::Memory(message))
            }
        }
    }

    /// How many messages it has put.
    pub fn puts(&self) -> u64
        ensures { result ≡ length self.now.sent }
    {
        self.puts
    }

    /// No message of this sender comes any more. It sets the sender's mark and wakes the receiver.
    pub fn end<R: Wait>(self, _rt: &R) -> SenderEnd<M>
        ensures { result ≡ self }
    {
        let Sender {
            channel,
            mut pass,
            mut seat,
            number,
            puts,
            blocks: _,
            alloc: _,
        } = self;
        let copy = channel.end(&mut pass);
        channel.set_mark(&mut seat, number, puts, copy);
        SenderEnd { pass, seat, number }
    }

    /// The next sender of a channel, made by the receiver's pass and seat.
    pub(crate) fn another(
        channel: &Arc<Channel<M>, Global>,
        alloc: Global,
        number: u32,
        pass: &mut Pass<M>,
        seat: &mut MarkSeat<M>,
    ) -> Result<Sender<M>, Memory>
        requires pass { IsFirstPassOf (arc_value channel.now).line pass.old × (known_by pass.old ≡ receiving number [] []) × (number < 64) }
        requires seat { IsFirstSeatOf (arc_value channel.now).marks.shared.table_id (arc_value channel.now).line number seat.old }
        requires slots { number < seat.old.table_id.slots }
        ensures sender { IfOk result (λ sender. sender ≡ new_sender (record { line = (arc_value channel.now).line }) number) }
        ensures pass { OnOk result (IsFirstPassOf (arc_value channel.now).line pass.new × (known_by pass.new ≡ receiving (number + 1) [] [])) }
        ensures seat { OnOk result (IsFirstSeatOf seat.old.table_id (arc_value channel.now).line (number + 1) seat.new) }
    {
        let theirs = Arc::try_clone(channel)?;
        Ok(Sender {
            channel: theirs,
            pass: channel.another_sender(pass),
            seat: channel.another_mark(seat),
            number,
            puts: 0,
            blocks: Blocks::new(),
            alloc,
        })
    }

    fn abandon(self) {
        let Sender {
            channel: _,
            pass: _,
            seat: _,
            number: _,
            puts: _,
            blocks: _,
            alloc: _,
        } = self;
    }
}

impl<M> SenderEnd<M> {
    /// The pass that knows what the sender put.
    pub(crate) fn into_pass(self) -> Pass<M>
        ensures { IsSegPassOf self.queue.line result × (known_by result ≡ ending self.number self.sent) }
    {
        let SenderEnd {
            pass,
            seat: _,
            number: _,
        } = self;
        pass
    }
}

/// Gives up senders.
pub(crate) fn abandon_all<M>(mut senders: Vec<Sender<M>>) {
    while let Some(sender) = senders.pop() {
        sender.abandon();
    }
    senders.destroy_empty();
}
