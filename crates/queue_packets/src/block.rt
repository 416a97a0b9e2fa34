// Blocks with an item or with room for one, and strings of blocks.
ghost use Rattle.std.specs.Prelude.{◌≡◌, [], ◌∷◌, Some, None, reverse, IfOk, MatchOption};

use fan_base::Memory;
use std::alloc::{AllocFailed, Global};
use std::marker::Model;
use std::mem;
use std::mem::ManuallyDrop;

// What lies in a block: an item or none, and those blocks that are strung behind it.
#[cycle(block)]
struct Node<X> {
    item: Option<ManuallyDrop<X>>,
    rest: Blocks<X>,
}

/// A block of memory with an item or with room for one. Contracts see the item or none. It may be dropped, which frees it and forgets the item.
pub struct Block<X> {
    node: Box<Node<X>>,
}

impl<X> Model for Block<X> {
    ghost use Rattle.std.specs.Prelude.{Option};
    ghost use Rattle.queue_packets.specs.Blocks.{item_in};

    ghost Value = { Option X };

    ghost view = { λ block. item_in block.node };
}

impl<X> Block<X> {
    ghost use Rattle.queue_packets.specs.Blocks.{item_in};

    /// An empty block. `Memory` where the allocator refuses one, which no clause ties to its cause.
    pub fn new(alloc: Global) -> Result<Block<X>, Memory>
        ensures { IfOk result (λ block. block ≡ None) }
    {
        let node = Node {
            item: None,
            rest: Blocks::new(),
        };
        match Box::new(alloc, node) {
            Ok(node) => Ok(Block { node }),
            Err(
                AllocFailed {
                    value: Node { item: _, rest: _ },
                },
            ) => Err(Memory),
        }
    }

    /// Puts an item into the block. What lay there is forgotten.
    pub(crate) fn fill(&mut self, item: X)
        ensures { self.new ≡ Some item }
    {
        self.node.item = Some(unsafe { ManuallyDrop::new_unchecked(item) });
    }

    /// Takes the item out.
    pub(crate) fn take(&mut self) -> Option<X>
        ensures item { result ≡ self.old }
        ensures empty { self.new ≡ None }
    {
        match mem::replace(&mut self.node.item, None) {
            Some(item) => Some(ManuallyDrop::into_inner(item)),
            None => None,
        }
    }

    fn into_node(self) -> Box<Node<X>>
        ensures { item_in result ≡ self }
    {
        let Block { node } = self;
        node
    }
}

impl<X> Drop for Block<X> {
    fn drop(self) {
        let Block { node } = self;
        let Node { item: _, rest: _ } = Box::into_inner(node);
    }
}

/// Blocks in an order, strung together by themselves, so that no call here takes memory. Contracts see the list of what lies in them.
/// It may be dropped, which frees them all and forgets their items.
#[cycle(block)]
pub struct Blocks<X> {
    first: Option<Box<Node<X>>>,
}

impl<X> Model for Blocks<X> {
    ghost use Rattle.std.specs.Prelude.{List, Option, length};

    ghost Value = { List (Option X) };

    ghost use Rattle.queue_packets.specs.Blocks.{strung_from};

    ghost view = { λ blocks. strung_from blocks.first };

    ghost size = { length };

    ghost use Rattle.std.proofs.Common.{arith};

    ghost size_decreases = { λ a h. Prim.grind arith };
}

impl<X> Blocks<X> {
    ghost use Rattle.queue_packets.specs.Blocks.{strung_from};

    /// No block.
    pub fn new() -> Blocks<X>
        ensures { result ≡ [] }
    {
        Blocks { first: None }
    }

    /// Puts a block in front of the others.
    pub fn push_front(&mut self, block: Block<X>)
        ensures { self.new ≡ block ∷ self.old }
    {
        let mut node = block.into_node();
        node.rest = mem::replace(self, Blocks::new());
        *self = Blocks { first: Some(node) };
    }

    /// Takes the block in front. None where there is none.
    pub fn pop_front(&mut self) -> Option<Block<X>>
        ensures { MatchOption result ((self.old ≡ []) × (self.new ≡ [])) (λ block. self.old ≡ block ∷ self.new) }
    {
        let mut node = self.first.take()?;
        *self = mem::replace(&mut node.rest, Blocks::new());
        Some(Block { node })
    }

    /// The same blocks, the last one first.
    pub(crate) fn reversed(mut self) -> Blocks<X>
        ensures { result ≡ reverse self }
    {
        let mut turned = Blocks::new();
        while let Some(block) = self.pop_front() {
            turned.push_front(block);
        }
        turned
    }

    fn into_first(self) -> Option<Box<Node<X>>>
        ensures { strung_from result ≡ self }
    {
        let Blocks { first } = self;
        first
    }
}

impl<X> Drop for Blocks<X> {
    // A loop, since a call for each block would take stack for each.
    fn drop(self) {
        let Blocks { mut first } = self;
        while let Some(node) = first {
            let Node { item: _, rest } = Box::into_inner(node);
            first = rest.into_first();
        }
    }
}
