//! How the blocks of messages that were taken come back to the senders. No clause speaks of it.
use super::Channel;
use crate::stamp::Stamped;
use queue_packets::{Block, Blocks};
use std::alloc::Global;
use std::mem;
use std::sync::Wait;

/// How many blocks the receiver gives back at a time: one step on what all share for so many messages.
const STRING: u64 = 32;

/// How many strings of blocks wait for the senders at most. Those over are freed.
pub(super) const STRINGS: usize = 1_024;

impl<M> Channel<M> {
    /// A block for a sender's next message: one of its own, or of those that the receiver gave back, or a new one.
    pub(crate) fn next_block<R: Wait>(
        &self,
        rt: &R,
        blocks: &mut Blocks<Stamped<M>>,
        alloc: Global,
    ) -> Option<Block<Stamped<M>>> {
        if let Some(block) = blocks.pop_front() {
            return Some(block);
        }
        if let Some(string) = self.blocks.pop(rt) {
            *blocks = string;
            if let Some(block) = blocks.pop_front() {
                return Some(block);
            }
        }
        Block::new(alloc).ok()
    }

    /// The receiver keeps the block of its newest message, and gives all that it keeps back with every 32nd message.
    pub(crate) fn keep_block<R: Wait>(
        &self,
        rt: &R,
        blocks: &mut Blocks<Stamped<M>>,
        block: Block<Stamped<M>>,
        taken: u64,
    ) {
        blocks.push_front(block);
        if taken % STRING == 0 {
            self.give_blocks(rt, blocks);
        }
    }

    /// The receiver gives back what it keeps.
    pub(crate) fn give_blocks<R: Wait>(&self, rt: &R, blocks: &mut Blocks<Stamped<M>>) {
        let string = mem::replace(blocks, Blocks::new());
        let _freed = self.blocks.push(rt, string);
    }
}
