//! Messages that are taken several in one step.
ghost use Rattle.std.specs.Prelude.{◌≡◌, ◌+◌, ◌<◌, ◌≤◌, ◌++◌, [], List, length, IfNone, IfSome, vec_capacity};
ghost use Rattle.std.specs.Bool.{OnTrue, OnFalse};
ghost use Rattle.crossbeam_queue.specs.SegBatches.{Holds};
ghost use Rattle.notify_queue.specs.declared.stamp.Stamped.{Stamped};
ghost use Rattle.notify_queue.specs.Delivery.{Takes};
ghost use Rattle.notify_queue.specs.Passes.{IsFirstPassOf, known_by};
ghost use Rattle.notify_queue.specs.Steps.{HasFoundNothing, HasGiven};

use super::Channel;
use crate::delivery::{Batch, Pass, Take};
use crate::stamp::Stamped;
use queue_packets::Blocks;
use std::sync::Wait;

impl<M> Channel<M> {
    /// Takes messages in front in one step, at most `limit`, and puts them behind those in `got`, which has room for them.
    /// `false` is learned at a moment at which the queue holds nothing.
    pub(crate) fn take_batch<R: Wait>(
        &self,
        rt: &R,
        pass: &mut Pass<M>,
        got: &mut Vec<Stamped<M>>,
        blocks: &mut Blocks<Stamped<M>>,
        limit: usize,
    ) -> bool
        requires pass { IsFirstPassOf self.now.line pass.old }
        requires limit { (0 < limit) × (length got.old.items + limit ≤ vec_capacity got.old) }
        ensures pass { IsFirstPassOf self.now.line pass.new }
        ensures room { vec_capacity got.old ≤ vec_capacity got.new }
        ensures taken { OnTrue result (HasGiven (known_by pass.old) (known_by pass.new) limit got.old.items got.new.items) }
        ensures empty { OnFalse result ((got.new.items ≡ got.old.items) × HasFoundNothing (known_by pass.old) (known_by pass.new)) }
    {
        let Some(batch) = self.claim(rt, pass, limit as u64) else {
            return false;
        };
        self.move_out(rt, pass, batch, got, blocks);
        true
    }

    // Claims a batch. What it has is still in the queue's blocks, and has to be read to its end.
    fn claim<R: Wait>(&self, rt: &R, pass: &mut Pass<M>, limit: u64) -> Option<Batch<M>>
        requires { IsFirstPassOf self.now.line pass.old × (0 < limit) }
        ensures pass { IsFirstPassOf self.now.line pass.new }
        ensures empty { IfNone result (HasFoundNothing (known_by pass.old) (known_by pass.new)) }
        ensures few { IfSome result (λ batch. batch.len ≤ limit) }
        ensures claimed { IfSome result (λ batch. (xs : List (Stamped M))
            × Holds self.now.line pass.new batch xs × Takes (known_by pass.old) xs (known_by pass.new)) }
    {
        for _ in rt.forever() {
            let head = self.line.head(pass);
            if let Ok(claimed) = self.line.try_pop_batch::<Take, R>(rt, pass, head, limit) {
                return claimed;
            }
        }
        unreachable!()
    }

    fn move_out<R: Wait>(
        &self,
        rt: &R,
        pass: &mut Pass<M>,
        mut batch: Batch<M>,
        got: &mut Vec<Stamped<M>>,
        blocks: &mut Blocks<Stamped<M>>,
    )
        requires pass { IsFirstPassOf self.now.line pass.old }
        requires batch { (xs : List (Stamped M)) × Holds self.now.line pass.old batch xs }
        requires room { length got.old.items + batch.len ≤ vec_capacity got.old }
        ensures pass { IsFirstPassOf self.now.line pass.new × (known_by pass.new ≡ known_by pass.old) }
        ensures room { vec_capacity got.old ≤ vec_capacity got.new }
        ensures count { (xs : List (Stamped M)) → Holds self.now.line pass.old batch xs → length xs ≡ batch.len }
        ensures moved { (xs : List (Stamped M)) → Holds self.now.line pass.old batch xs → got.new.items ≡ got.old.items ++ xs }
    {
        let count = batch.len();
        for _ in 0..count {
            let packet = self.line.next_of(rt, pass, &mut batch);
            let (stamped, block) = packet.open();
            got.push_reserved(stamped);
            blocks.push_front(block);
        }
        batch.finish();
    }
}
