// The blocks of tasks that were taken, on their way back to the adders. A taker takes no memory. No clause speaks of it.
use crossbeam_queue::ArrayQueue;
use fan_base::Memory;
use queue_packets::Block;
use std::alloc::Global;
use std::sync::Wait;
use std::{array, mem};

/// How many blocks a box holds. For so many tasks an adder and a taker make a step or two each on what all share.
const IN_A_BOX: usize = 32;

/// How many boxes wait at most, full ones for the adders and as many empty ones for the takers. Those over are freed, with their blocks.
const BOXES: usize = 2_048;

/// Empty blocks, as many as a box holds. Putting one in or taking one out touches no block's own memory.
#[derive(Drop)]
pub(crate) struct SpareBlocks<X> {
    blocks: [Option<Block<X>>; IN_A_BOX],
    count: usize,
}

/// The box of blocks that a pass has, if it has one.
pub(crate) type OwnBlocks<X> = Option<Box<SpareBlocks<X>>>;

impl<X> SpareBlocks<X> {
    fn new() -> SpareBlocks<X> {
        SpareBlocks {
            blocks: array::from_fn(|_| None),
            count: 0,
        }
    }

    fn pop(&mut self) -> Option<Block<X>> {
        let last = self.count.checked_sub(1)?;
        self.count = last;
        take_at(&mut self.blocks, last)
    }

    // Gives it back where there is no room.
    fn push(&mut self, block: Block<X>) -> Option<Block<X>> {
        let over = put_at(&mut self.blocks, self.count, block);
        if over.is_none() {
            self.count = self.count.saturating_add(1);
        }
        over
    }
}

// Takes what lies at a place. Its type is a parameter, so that this is proved without what a block is.
fn take_at<T>(places: &mut [Option<T>], at: usize) -> Option<T> {
    places.get_mut(at)?.take()
}

// Puts an item at a place, and gives back what lay there, or the item where there is no such place.
fn put_at<T>(places: &mut [Option<T>], at: usize, item: T) -> Option<T> {
    match places.get_mut(at) {
        Some(place) => place.replace(item),
        None => Some(item),
    }
}

/// Boxes of blocks that takers gave back, and empty boxes for the takers. An adder makes an empty box with the first of each so many blocks
/// that it makes, so there are about as many as the tasks that wait, the adders and the takers ask for.
pub(crate) struct Spares<X> {
    full: ArrayQueue<Box<SpareBlocks<X>>>,
    empty: ArrayQueue<Box<SpareBlocks<X>>>,
    alloc: Global,
}

/// What an adder has of its own: a box of blocks, and how many blocks it has made, modulo 32.
#[derive(Drop)]
pub(crate) struct AdderBlocks<X> {
    blocks: OwnBlocks<X>,
    made: usize,
}

impl<X> AdderBlocks<X> {
    pub(crate) fn new() -> AdderBlocks<X> {
        AdderBlocks {
            blocks: None,
            made: 0,
        }
    }
}

impl<X> Spares<X> {
    pub(crate) fn new(alloc: Global) -> Result<Spares<X>, Memory> {
        let full = ArrayQueue::new(alloc, BOXES)?;
        let empty = ArrayQueue::new(alloc, BOXES)?;
        Ok(Spares { full, empty, alloc })
    }

    /// A block for an adder's next task: one of its own, or of those that takers gave back, or a new one.
    pub(crate) fn next<R: Wait>(&self, rt: &R, own: &mut AdderBlocks<X>) -> Option<Block<X>> {
        match pop_own(&mut own.blocks) {
            Some(block) => Some(block),
            None => self.refill(rt, own),
        }
    }

    // A call of its own, since most tasks need none.
    fn refill<R: Wait>(&self, rt: &R, own: &mut AdderBlocks<X>) -> Option<Block<X>> {
        if let Some(full) = self.full.pop(rt) {
            if let Some(used_up) = own.blocks.replace(full) {
                let _freed = self.empty.push(rt, used_up);
            }
            if let Some(block) = pop_own(&mut own.blocks) {
                return Some(block);
            }
        }
        let block = Block::new(self.alloc).ok()?;
        self.make_box(rt, own);
        Some(block)
    }

    // Makes a box for the takers with the first of so many blocks. It may go without, where there is no memory.
    fn make_box<R: Wait>(&self, rt: &R, own: &mut AdderBlocks<X>) {
        if own.made == 0
            && let Ok(made) = Box::new(self.alloc, SpareBlocks::new())
        {
            let _freed = self.empty.push(rt, made);
        }
        own.made = own.made.wrapping_add(1) % IN_A_BOX;
    }

    /// A taker keeps the block of the task that it took, and gives back its box once that is full. Where it has no box the block is freed.
    pub(crate) fn keep<R: Wait>(&self, rt: &R, own: &mut OwnBlocks<X>, block: Block<X>) {
        if let Some(block) = push_own(own, block) {
            self.give_back(rt, own);
            let _freed = push_own(own, block);
        }
    }

    // A call of its own, as `refill` is. Boxes over are freed.
    fn give_back<R: Wait>(&self, rt: &R, own: &mut OwnBlocks<X>) {
        if let Some(full) = mem::replace(own, self.empty.pop(rt)) {
            let _freed = self.full.push(rt, full);
        }
    }
}

// Takes a block from a pass's box, if it has one with a block in it.
fn pop_own<X>(own: &mut OwnBlocks<X>) -> Option<Block<X>> {
    match own {
        Some(blocks) => blocks.pop(),
        None => None,
    }
}

// Puts a block into a pass's box, and gives it back where it has none or no room in it.
fn push_own<X>(own: &mut OwnBlocks<X>, block: Block<X>) -> Option<Block<X>> {
    match own {
        Some(blocks) => blocks.push(block),
        None => Some(block),
    }
}

impl<X> Drop for Spares<X> {
    fn drop(self) {
        let Spares {
            full: _,
            empty: _,
            alloc: _,
        } = self;
    }
}
