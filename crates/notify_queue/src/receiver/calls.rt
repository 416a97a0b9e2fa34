ghost use Rattle.std.specs.Prelude.{◌≡◌, ℕ, ◌+◌, ◌<◌, ◌≤◌, ◌++◌, ◌∷◌, [], Bool, true, IsTrue, length, replicate};
ghost use Rattle.std.specs.Prelude.{IfOk, OnErr, IfSome, IfNone};
ghost use Rattle.std.specs.Arc.{arc_value};
ghost use Rattle.std.specs.Bool.{OnTrue, OnFalse};
ghost use Rattle.std.specs.List.{All, sum_by};
ghost use mathlib.Core.List.{IsPrefix};
ghost use Rattle.notify_queue.specs.Delivery.{receiving};
ghost use Rattle.notify_queue.specs.Ends.{AllPass, AreAllEnds, AreAllUnused, FoundEmpty, FoundEnded, FoundLive, HasEnded, IsDry};
ghost use Rattle.notify_queue.specs.Ends.{new_receiver, weight_sent};
ghost use Rattle.notify_queue.specs.Marks.{IsFirstSeatOf};
ghost use Rattle.notify_queue.specs.Passes.{IsFirstPassOf, known_by};
ghost use Rattle.notify_queue.specs.Stamps.{messages_of, total_weight, IsInOrder};

use super::Receiver;
use crate::channel::Channel;
use crate::delivery::Pass;
use crate::marks::MarkSeat;
use crate::rest::{QueueEnd, Rest};
use crate::sender::{Sender, SenderEnd, abandon_all};
use crate::stamp::Stamped;
use crossbeam_utils::sync::Parker;
use fan_base::Memory;
use queue_packets::Blocks;
use std::alloc::Global;
use std::sync::{Arc, Wait};

impl<M> Receiver<M> {
    /// Takes the message in front. It takes no memory.
    ///
    /// `None` comes only where all is taken that the senders found ended had put, and where one look of this very call at each
    /// sender's word found no more puts than messages that were taken of it. A put shows itself in that word as its last step. Where a
    /// word shows more, it tries again.
    pub fn take<R: Wait>(&mut self, rt: &R) -> Option<Stamped<M>>
        ensures same { (self.new.queue ≡ self.old.queue) × (self.new.senders ≡ self.old.senders) × (self.new.ended ≡ self.old.ended) }
        ensures some { IfSome result (λ x. (self.new.taken ≡ self.old.taken ++ x ∷ []) × (x.stamp.sender < self.old.senders)) }
        ensures none { IfNone result ((self.new.taken ≡ self.old.taken) × FoundEmpty self.old self.new) }
        ensures looks { IsPrefix self.old.looks self.new.looks }
        ensures in_order { IsInOrder self.new.taken }
        ensures within { IfSome result (λ _. All (λ t. IsPrefix (messages_of t.sender self.new.taken) t.put) self.new.ended) }
        ensures dry { IfSome result (λ _. IsDry self.old → ⊥) }
    {
        for _ in rt.forever() {
            if let Some(stamped) = self.take_one(rt) {
                return Some(stamped);
            }
            if self.finds_no_more() {
                return None;
            }
        }
        unreachable!()
    }

    /// Takes up to `n` messages, oldest first. It takes room for `n` first, and `Memory` comes where there is none: then no message
    /// was taken and nothing looked at.
    ///
    /// Fewer come only where `None` of [`Receiver::take`] may come. They are taken in batches, each in one step, which ask
    /// for no more than is still wanted.
    pub fn take_up_to<R: Wait>(&mut self, rt: &R, n: usize) -> Result<Vec<Stamped<M>>, Memory>
        ensures same { (self.new.queue ≡ self.old.queue) × (self.new.senders ≡ self.old.senders) × (self.new.ended ≡ self.old.ended) }
        ensures taken { IfOk result (λ got. (self.new.taken ≡ self.old.taken ++ got.items) × (length got.items ≤ n)) }
        ensures fewer { IfOk result (λ got. length got.items < n → FoundEmpty self.old self.new) }
        ensures last { IfOk result (λ got. length got.items < n → HasEnded self.old → IsDry self.new) }
        ensures senders { IfOk result (λ got. All (λ x. x.stamp.sender < self.old.senders) got.items) }
        ensures looks { IsPrefix self.old.looks self.new.looks }
        ensures refused { OnErr result (self.new ≡ self.old) }
        ensures in_order { IsInOrder self.new.taken }
        ensures within { IfOk result (λ got. 0 < n → All (λ t. IsPrefix (messages_of t.sender self.new.taken) t.put) self.new.ended) }
        ensures dry { IfOk result (λ got. IsDry self.old → got.items ≡ []) }
    {
        let mut got = Vec::with_capacity(self.alloc, n)?;
        for _ in rt.forever() {
            let wanted = n - got.len();
            if wanted == 0 {
                return Ok(got);
            }
            if !self.take_batch(rt, &mut got, wanted) {
                if self.finds_no_more() {
                    return Ok(got);
                }
            }
        }
        unreachable!()
    }

    /// Sleeps until a message is put or a sender ends, and not at all where a sender's word shows a message that waits, or the
    /// next mark is set. It may also return for no reason.
    pub fn sleep<R: Wait>(&mut self, rt: &R)
        ensures { self.new ≡ self.old }
    {
        self.channel
            .sleep(rt, &self.parker, self.counts.as_slice(), self.found);
    }

    /// Whether every sender has ended. It looks at their marks in turn, and stops at the first that is not set.
    ///
    /// A receiver that answers `true` and then finds its queue empty is dry.
    pub fn ended(&mut self) -> bool
        ensures same { (self.new.queue ≡ self.old.queue) × (self.new.senders ≡ self.old.senders) × (self.new.taken ≡ self.old.taken) }
        ensures more { IsPrefix self.old.ended self.new.ended }
        ensures yes { OnTrue result (HasEnded self.new × FoundEnded self.old self.new) }
        ensures no { OnFalse result (FoundLive self.old self.new) }
        ensures stays { HasEnded self.old → (result ≡ true) × (self.new ≡ self.old) }
    {
        while self.found < self.senders {
            let Some(end) = self.channel.read_mark(&mut self.seat, self.found) else {
                return false;
            };
            self.channel.join_end(&mut self.pass, end);
            self.found += 1;
        }
        true
    }

    /// Ends the queue, with the ends of all its senders, in any order. What was not taken is left in the answer, in the queue's
    /// order: oldest first, over all senders. It takes no memory.
    pub fn close<R: Wait>(self, rt: &R, ends: Vec<SenderEnd<M>>) -> QueueEnd<M>
        requires { AreAllEnds self ends.items }
        ensures taken { result.taken ≡ length self.taken }
        ensures put { (result.put ≡ result.taken + length result.rest.left) × (result.put ≡ sum_by (λ e. length e.sent) ends.items) }
        ensures whole { All (λ e. messages_of e.number self.taken ++ messages_of e.number result.rest.left ≡ e.sent) ends.items }
        ensures in_order { IsInOrder (self.taken ++ result.rest.left) }
        ensures order { result.rest.popped ≡ self.taken ++ result.rest.left }
        ensures from_senders { All (λ x. x.stamp.sender < self.senders) (self.taken ++ result.rest.left) }
        ensures each { (test : M → Bool) → AllPass test ends.items → All (λ x. IsTrue (test x.message)) (self.taken ++ result.rest.left) }
        ensures account { (weight : M → ℕ)
            → total_weight weight self.taken + total_weight weight result.rest.left ≡ weight_sent weight ends.items }
        ensures dry { IsDry self → result.rest.left ≡ [] }
    {
        let Receiver {
            channel,
            pass,
            seat: _,
            parker: _,
            senders: _,
            found: _,
            taken,
            counts: _,
            blocks: _,
            alloc: _,
        } = self;
        let (packets, len, pass) = channel.settle(rt, pass, ends);
        QueueEnd {
            put: taken + len as u64,
            taken,
            rest: Rest::new(packets, len, pass),
        }
    }

    /// Gives up a queue that was not used, with all its senders. It takes no memory, so one who made the queue and then finds
    /// no memory for what stands on it can call it.
    pub fn abandon(self, senders: Vec<Sender<M>>)
        requires { AreAllUnused self senders.items }
    {
        let Receiver {
            channel: _,
            pass: _,
            seat: _,
            parker: _,
            senders: _,
            found: _,
            taken: _,
            counts: _,
            blocks: _,
            alloc: _,
        } = self;
        abandon_all(senders);
    }

    /// The receiver of a channel all of whose senders are made.
    pub(crate) fn new(
        alloc: Global,
        channel: Arc<Channel<M>, Global>,
        pass: Pass<M>,
        seat: MarkSeat<M>,
        parker: Parker,
        senders: u32,
        counts: Vec<u64>,
    ) -> Receiver<M>
        requires pass { IsFirstPassOf (arc_value channel).line pass × (known_by pass ≡ receiving senders [] []) }
        requires seat { IsFirstSeatOf (arc_value channel).marks.shared.table_id (arc_value channel).line senders seat }
        requires slots { seat.table_id.slots ≡ senders }
        requires counts { counts.items ≡ replicate senders 0 }
        ensures { result ≡ new_receiver (record { line = (arc_value channel).line }) senders }
    {
        Receiver {
            channel,
            pass,
            seat,
            parker,
            senders,
            found: 0,
            taken: 0,
            counts,
            blocks: Blocks::new(),
            alloc,
        }
    }
}
