//! The steps of a receiver: a take, a batch, a look at every word.
ghost use Rattle.std.specs.Prelude.{◌≡◌, ◌+◌, ◌<◌, ◌≤◌, ◌++◌, ◌∷◌, [], List, length, MatchOption, vec_capacity};
ghost use Rattle.std.specs.Bool.{OnTrue, OnFalse};
ghost use mathlib.Core.List.{IsPrefix};
ghost use Rattle.notify_queue.specs.declared.stamp.Stamped.{Stamped};
ghost use Rattle.notify_queue.specs.Ends.{FoundNoMore, HasTaken, IsDrained};
ghost use Rattle.notify_queue.specs.Stamps.{IsInOrder};
ghost use Rattle.notify_queue.specs.Steps.{HasGivenUpTo};

use super::Receiver;
use super::counts::{count_all, count_one};
use crate::stamp::Stamped;
use std::sync::Wait;

impl<M> Receiver<M> {
    // Takes the message in front. `None` is learned at a moment at which the queue holds nothing.
    pub(super) fn take_one<R: Wait>(&mut self, rt: &R) -> Option<Stamped<M>>
        ensures taken { MatchOption result ((self.new ≡ self.old) × IsDrained self.new) (λ x. HasTaken self.old (x ∷ []) self.new) }
        ensures in_order { IsInOrder self.new.taken }
    {
        let (stamped, block) = self.channel.take(rt, &mut self.pass)?.open();
        count_one(&mut self.counts, stamped.stamp.sender);
        self.taken += 1;
        self.channel
            .keep_block(rt, &mut self.blocks, block, self.taken);
        Some(stamped)
    }

    // Takes messages in front in one step, at most `limit`, and puts them behind those in `got`, which has room for them.
    // `false` is learned at a moment at which the queue holds nothing.
    pub(super) fn take_batch<R: Wait>(
        &mut self,
        rt: &R,
        got: &mut Vec<Stamped<M>>,
        limit: usize,
    ) -> bool
        requires { (0 < limit) × (length got.old.items + limit ≤ vec_capacity got.old) }
        ensures room { vec_capacity got.old ≤ vec_capacity got.new }
        ensures taken { OnTrue result (HasGivenUpTo limit self.old self.new got.old.items got.new.items) }
        ensures empty { OnFalse result ((got.new.items ≡ got.old.items) × (self.new ≡ self.old) × IsDrained self.new) }
    {
        let before = got.len();
        if !self
            .channel
            .take_batch(rt, &mut self.pass, got, &mut self.blocks, limit)
        {
            return false;
        }
        count_all(&mut self.counts, &got.as_slice()[before..]);
        self.taken += (got.len() - before) as u64;
        self.channel.give_blocks(rt, &mut self.blocks);
        true
    }

    // Whether each sender's word shows no more puts than messages that were taken of it.
    pub(super) fn finds_no_more(&mut self) -> bool
        ensures same { self.new ≡ record self.old { looks = self.new.looks } }
        ensures looks { IsPrefix self.old.looks self.new.looks }
        ensures yes { OnTrue result (FoundNoMore self.old self.new) }
    {
        for sender in 0..self.senders {
            let shown = self.channel.look_at(&mut self.seat, sender);
            if shown > self.counts[sender as usize] {
                return false;
            }
        }
        true
    }
}
