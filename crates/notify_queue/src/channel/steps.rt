//! Each step that the ends of a queue make on it.
ghost use Rattle.std.specs.Prelude.{◌≡◌, ◌+◌, ◌-◌, ◌^◌, ◌<◌, ◌≤◌, ◌++◌, ◌∷◌, [], length, map, true, IfOk, IfErr, MatchOption};
ghost use Rattle.std.specs.List.{All};
ghost use Rattle.crossbeam_queue.specs.SegTies.{IsSegPassOf};
ghost use Rattle.notify_queue.specs.declared.marks.Look.{Look};
ghost use Rattle.notify_queue.specs.Delivery.{sending, receiving, ending, idle, Takes, Shows};
ghost use Rattle.notify_queue.specs.Ends.{whole_of};
ghost use Rattle.notify_queue.specs.Marks.{HasLooked, HasShown, HasMarked, IsFirstSeatOf, KnowsAll, place, reading, marks_sending};
ghost use Rattle.notify_queue.specs.Passes.{IsFirstPassOf, known_by};
ghost use Rattle.notify_queue.specs.Steps.{HasPut, HasFoundNothing, HasFoundLive, HasFoundEnd};

use super::Channel;
use super::blocks::STRINGS;
use crate::delivery::{AnotherSender, End, JoinEnd, Line, Pass, Put, Take};
use crate::marks::{
    AnotherMark, LookAt, MarkSeat, Marks, ReadMark, SetMark, ShowPut, TakeSlot, word_of,
};
use crate::sender::SenderEnd;
use crate::stamp::Stamped;
use crossbeam_queue::ArrayQueue;
use crossbeam_utils::sync::Parker;
use fan_base::Memory;
use queue_packets::{Packet, Packets};
use std::alloc::{AllocError, Global};
use std::sync::Wait;
use std::sync::atomic::AtomicBool;

/// Marks of which none is set.
fn clear_marks<M>(
    alloc: Global,
    senders: u32,
    line: &Line<M>,
) -> Result<(Marks<M>, MarkSeat<M>), AllocError>
    requires { senders ≤ 64 }
    ensures key { IfOk result (λ r. r.0.shared.key ≡ line.now) }
    ensures sizes { IfOk result (λ r. (r.0.shared.table_id.words ≡ place senders) × (r.0.shared.table_id.slots ≡ senders)) }
    ensures seat { IfOk result (λ r. IsFirstSeatOf r.0.shared.table_id line.now 0 r.1) }
{
    let words = [0; 512];
    let count = senders as usize;
    Marks::vacant(alloc, &words[..word_of(senders)], count, line)
}

impl<M> Channel<M> {
    /// Puts a message of the pass's sender behind the others.
    pub(crate) fn put<R: Wait>(
        &self,
        rt: &R,
        pass: &mut Pass<M>,
        packet: Packet<Stamped<M>>,
    ) -> Result<(), Packet<Stamped<M>>>
        requires pass { IsSegPassOf self.now.line pass.old × ((known_by pass.old).sends ≡ true) }
        requires sender { packet.stamp.sender ≡ (known_by pass.old).number }
        requires index { packet.stamp.index ≡ length (known_by pass.old).put }
        requires room { length (known_by pass.old).put + 1 < 2 ^ 32 }
        ensures pass { IsSegPassOf self.now.line pass.new × (pass.new.id ≡ pass.old.id) }
        ensures put { IfOk result (λ _. HasPut (known_by pass.old) packet.message (known_by pass.new)) }
        ensures refused { IfErr result (λ back. (back ≡ packet) × (known_by pass.new ≡ known_by pass.old)) }
    {
        self.line.push_as::<Put, R>(rt, pass, packet)
    }

    /// Shows one put more in the sender's word, and wakes the receiver.
    pub(crate) fn show_put(&self, seat: &mut MarkSeat<M>, sender: u32, puts: u64)
        requires seat { (seat.old.table_id ≡ self.now.marks.shared.table_id) × (sender < seat.old.table_id.slots) }
        requires puts { (0 < puts) × (puts < 2 ^ 32) × HasShown self.now.line sender (puts - 1) seat.old.me }
        ensures seat { seat.new.table_id ≡ seat.old.table_id }
        ensures shown { HasShown self.now.line sender puts seat.new.me }
    {
        self.marks
            .shared
            .store::<ShowPut>(seat, word_of(sender), 2 * puts);
        self.wake();
    }

    /// Takes the message in front. `None` is learned at a moment at which the queue holds nothing.
    pub(crate) fn take<R: Wait>(&self, rt: &R, pass: &mut Pass<M>) -> Option<Packet<Stamped<M>>>
        requires { IsFirstPassOf self.now.line pass.old }
        ensures pass { IsFirstPassOf self.now.line pass.new }
        ensures taken { MatchOption result (HasFoundNothing (known_by pass.old) (known_by pass.new))
            (λ x. Takes (known_by pass.old) (x ∷ []) (known_by pass.new)) }
    {
        self.line.pop_as::<Take, R>(rt, pass)
    }

    /// A sender's pass becomes one that says what it put, and so does the copy that is given.
    pub(crate) fn end(&self, pass: &mut Pass<M>) -> Pass<M>
        requires { IsSegPassOf self.now.line pass.old × ((known_by pass.old).sends ≡ true) }
        ensures pass { IsSegPassOf self.now.line pass.new × (known_by pass.new ≡ ending (known_by pass.old).number (known_by pass.old).put) }
        ensures copy { IsSegPassOf self.now.line result × (known_by result ≡ ending (known_by pass.old).number (known_by pass.old).put) }
    {
        self.line.another::<End>(pass)
    }

    /// The receiver takes in the pass of a sender that has ended.
    pub(crate) fn join_end(&self, pass: &mut Pass<M>, end: Pass<M>)
        requires { IsFirstPassOf self.now.line pass.old × IsSegPassOf self.now.line end }
        ensures pass { IsFirstPassOf self.now.line pass.new }
        ensures ended { known_by pass.new
            ≡ receiving (known_by pass.old).made ((known_by pass.old).ended ++ (known_by end).ended) (known_by pass.old).taken }
    {
        self.line.absorb::<JoinEnd>(pass, end);
    }

    /// The receiver takes in the ends of senders.
    pub(crate) fn join_ends(&self, pass: &mut Pass<M>, ends: Vec<SenderEnd<M>>)
        requires pass { IsFirstPassOf self.now.line pass.old }
        requires ends { All (λ e. e.queue.line ≡ self.now.line) ends.items }
        ensures pass { IsFirstPassOf self.now.line pass.new }
        ensures same { ((known_by pass.new).made ≡ (known_by pass.old).made) × ((known_by pass.new).taken ≡ (known_by pass.old).taken) }
        ensures ended { (known_by pass.new).ended ≡ (known_by pass.old).ended ++ map whole_of ends.items }
    {
        for end in ends {
            self.join_end(pass, end.into_pass());
        }
    }

    /// Leaves the copy in the sender's slot and sets its mark, and wakes the receiver.
    pub(crate) fn set_mark(&self, seat: &mut MarkSeat<M>, sender: u32, puts: u64, copy: Pass<M>)
        requires seat { (seat.old.table_id ≡ self.now.marks.shared.table_id) × (sender < seat.old.table_id.slots) }
        requires puts { (puts < 2 ^ 32) × HasShown self.now.line sender puts seat.old.me }
        requires copy { KnowsAll self.now.line sender copy }
        ensures { HasMarked self.now.line sender puts seat.new.me }
    {
        let table = &self.marks.shared;
        let slot = sender as usize;
        let word = word_of(sender);
        table.load::<TakeSlot>(seat, word);
        let _empty = table.exchange(seat, slot, Some(copy));
        table.store::<SetMark>(seat, word, 2 * puts + 1);
        self.wake();
    }

    /// Looks at the sender's word. It gives how many puts that shows.
    pub(crate) fn look_at(&self, seat: &mut MarkSeat<M>, sender: u32) -> u64
        requires seat { (seat.old.table_id ≡ self.now.marks.shared.table_id) × (seat.old.id ≡ 0) × (sender < seat.old.table_id.slots) }
        ensures seat { (seat.new.table_id ≡ seat.old.table_id) × (seat.new.id ≡ 0) }
        ensures looked { (look : Look) × HasLooked sender seat.old.me.0.read look seat.old.me.0 seat.new.me.0 × (look.puts ≡ result) }
    {
        self.marks.shared.load::<LookAt>(seat, word_of(sender)) / 2
    }

    /// Reads the mark in turn. It gives the pass that the sender left there, or `None` where the sender has not ended.
    pub(crate) fn read_mark(&self, seat: &mut MarkSeat<M>, sender: u32) -> Option<Pass<M>>
        requires seat { (seat.old.table_id ≡ self.now.marks.shared.table_id) × (seat.old.id ≡ 0) × (sender < seat.old.table_id.slots) }
        requires turn { (seat.old.me.0.read ≡ sender) × (seat.old.me.0.queue ≡ self.now.line) }
        ensures seat { (seat.new.table_id ≡ seat.old.table_id) × (seat.new.id ≡ 0) }
        ensures read { MatchOption result (HasFoundLive sender seat.old.me.0 seat.new.me.0)
            (λ pass. HasFoundEnd self.now.line sender pass seat.old.me.0 seat.new.me.0) }
    {
        let table = &self.marks.shared;
        let slot = sender as usize;
        if table.load::<ReadMark>(seat, word_of(sender)) % 2 == 1 {
            table.exchange(seat, slot, None)
        } else {
            None
        }
    }

    /// A pass for the next sender.
    pub(crate) fn another_sender(&self, pass: &mut Pass<M>) -> Pass<M>
        requires { IsFirstPassOf self.now.line pass.old × ((known_by pass.old).made < 64) }
        ensures pass { IsFirstPassOf self.now.line pass.new }
        ensures made { known_by pass.new ≡ receiving ((known_by pass.old).made + 1) (known_by pass.old).ended (known_by pass.old).taken }
        ensures sender { IsSegPassOf self.now.line result × (known_by result ≡ sending (known_by pass.old).made []) }
    {
        self.line.another::<AnotherSender>(pass)
    }

    /// A seat for the next sender.
    pub(crate) fn another_mark(&self, seat: &mut MarkSeat<M>) -> MarkSeat<M>
        requires { (seat.old.table_id ≡ self.now.marks.shared.table_id) × (seat.old.id ≡ 0) × (0 < seat.old.table_id.slots) }
        ensures seat { (seat.new.table_id ≡ seat.old.table_id) × (seat.new.id ≡ 0) }
        ensures made { seat.new.me.0 ≡ reading seat.old.me.0.queue (seat.old.me.0.made + 1) seat.old.me.0.read seat.old.me.0.looks }
        ensures table { result.table_id ≡ seat.old.table_id }
        ensures sender { result.me ≡ (marks_sending seat.old.me.0.queue seat.old.me.0.made 0 seat.old.me.0.looks, []) }
    {
        self.marks.shared.split_seat::<AnotherMark>(seat)
    }

    /// The channel of a queue none of whose senders is made yet, with the receiver's pass, its seat and its parker.
    pub(crate) fn open(
        alloc: Global,
        senders: u32,
    ) -> Result<(Channel<M>, Pass<M>, MarkSeat<M>, Parker), Memory>
        requires { senders ≤ 64 }
        ensures pass { IfOk result (λ r. IsFirstPassOf r.0.line r.1 × (known_by r.1 ≡ idle)) }
        ensures seat { IfOk result (λ r. IsFirstSeatOf r.0.marks.shared.table_id r.0.line 0 r.2 × (r.2.table_id.slots ≡ senders)) }
    {
        let blocks = ArrayQueue::new(alloc, STRINGS)?;
        let parker = Parker::new(alloc)?;
        let unparker = parker.unparker().clone()?;
        let (line, pass) = Line::with_rule(alloc)?;
        match clear_marks(alloc, senders, &line) {
            Ok((marks, seat)) => {
                let channel = Channel {
                    line,
                    marks,
                    unparker,
                    asleep: AtomicBool::new(false),
                    blocks,
                };
                Ok((channel, pass, seat, parker))
            }
            Err(_) => {
                line.destroy();
                Err(Memory)
            }
        }
    }

    /// Takes all that is left, in its order, and says how many these are.
    pub(crate) fn drain<R: Wait>(&self, rt: &R, pass: &mut Pass<M>) -> (Packets<Stamped<M>>, usize)
        requires { IsFirstPassOf self.now.line pass.old }
        ensures count { result.1 ≡ length result.0 }
        ensures same { ((known_by pass.new).made ≡ (known_by pass.old).made) × ((known_by pass.new).ended ≡ (known_by pass.old).ended) }
        ensures taken { (known_by pass.new).taken ≡ (known_by pass.old).taken ++ result.0 }
        ensures empty { Shows (known_by pass.new) [] }
    {
        let mut packets = Packets::new();
        let mut len = 0;
        for _ in rt.forever() {
            match self.take(rt, pass) {
                Some(packet) => {
                    packets.push_front(packet);
                    len += 1;
                }
                None => return (packets.reversed(), len),
            }
        }
        unreachable!()
    }

    /// Takes in all ends, and then all that is left.
    pub(crate) fn settle<R: Wait>(
        &self,
        rt: &R,
        mut pass: Pass<M>,
        ends: Vec<SenderEnd<M>>,
    ) -> (Packets<Stamped<M>>, usize, Pass<M>)
        requires pass { IsFirstPassOf self.now.line pass }
        requires ends { All (λ e. e.queue.line ≡ self.now.line) ends.items }
        ensures count { result.1 ≡ length result.0 }
        ensures popped { (known_by result.2).taken ≡ (known_by pass).taken ++ result.0 }
        ensures empty { Shows
            (receiving (known_by pass).made ((known_by pass).ended ++ map whole_of ends.items) ((known_by pass).taken ++ result.0)) [] }
    {
        self.join_ends(&mut pass, ends);
        let (packets, len) = self.drain(rt, &mut pass);
        (packets, len, pass)
    }
}
