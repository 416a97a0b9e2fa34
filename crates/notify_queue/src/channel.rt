//! What the ends of a queue share, and the steps that they make on it.
ghost use Rattle.std.specs.Prelude.{◌≡◌, ◌≤◌};
ghost use Rattle.notify_queue.specs.Marks.{place};

use crate::delivery::Line;
use crate::marks::Marks;
use crate::stamp::Stamped;
use crossbeam_queue::ArrayQueue;
use crossbeam_utils::sync::Unparker;
use queue_packets::Blocks;
use std::sync::atomic::AtomicBool;

mod batches;
mod blocks;
mod steps;
mod waking;

pub(crate) struct Channel<M> {
    pub(crate) line: Line<M>,
    pub(crate) marks: Marks<M>,
    pub(crate) unparker: Unparker,
    // Whether the receiver sleeps, or is about to.
    pub(crate) asleep: AtomicBool,
    // Strings of blocks whose messages were taken.
    pub(crate) blocks: ArrayQueue<Blocks<Stamped<M>>>,
    ghost of_queue: { marks.shared.key ≡ line },
    ghost a_place_each: { marks.shared.table_id.words ≡ place marks.shared.table_id.slots },
    ghost few: { marks.shared.table_id.slots ≤ 64 },
}

impl<M> Drop for Channel<M> {
    fn drop(self) {
        let Channel {
            line,
            marks: _,
            unparker: _,
            asleep: _,
            blocks: _,
        } = self;
        line.destroy();
    }
}
