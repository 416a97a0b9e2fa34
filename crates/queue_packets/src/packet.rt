// Items in their blocks, and such blocks in an order.
ghost use Rattle.std.specs.Prelude.{◌≡◌, [], ◌∷◌, Some, None, reverse, MatchOption};

use crate::block::{Block, Blocks};
use std::marker::Model;
use std::snapshot::Snapshot;

/// An item in a block. Contracts see the item. It may be dropped, which frees the block and forgets the item.
pub struct Packet<X> {
    block: Block<X>,
    // The item as contracts see it. It has no bytes.
    seen: Snapshot<X>,
}

impl<X> Model for Packet<X> {
    ghost use Rattle.std.specs.Prelude.{◌≡◌, Some};

    ghost Value = { X };

    ghost view = { λ packet. packet.seen.value };

    ghost invariant = { λ packet. packet.block ≡ Some packet.seen.value };
}

impl<X> Packet<X> {
    /// Puts the item into the block. What lay there is forgotten.
    pub fn new(item: X, mut block: Block<X>) -> Packet<X>
        ensures { result ≡ item }
    {
        let seen = Snapshot::of(&item);
        block.fill(item);
        Packet { block, seen }
    }

    /// Takes the item out. The block is empty then, and may be used for another item.
    pub fn open(self) -> (X, Block<X>)
        ensures item { result.0 ≡ self }
        ensures empty { result.1 ≡ None }
    {
        let Packet { mut block, seen: _ } = self;
        let Some(item) = block.take() else {
            unreachable!()
        };
        (item, block)
    }

    /// The block with the item in it.
    fn into_block(self) -> Block<X>
        ensures { result ≡ Some self }
    {
        let Packet { block, seen: _ } = self;
        block
    }
}

impl<X> Drop for Packet<X> {
    fn drop(self) {
        let Packet { block: _, seen: _ } = self;
    }
}

/// Items in an order, each in its own block. Contracts see their list. It may be dropped, which frees the blocks and forgets the items.
pub struct Packets<X> {
    blocks: Blocks<X>,
}

impl<X> Model for Packets<X> {
    ghost use Rattle.std.specs.Prelude.{List, Option, IsSome};
    ghost use Rattle.std.specs.List.{All};
    ghost use Rattle.queue_packets.specs.Blocks.{items_in};

    ghost Value = { List X };

    ghost view = { λ packets. items_in packets.blocks };

    ghost invariant = { λ packets. All (λ (item : Option X). IsSome item) packets.blocks };
}

impl<X> Packets<X> {
    /// No item.
    pub fn new() -> Packets<X>
        ensures { result ≡ [] }
    {
        Packets {
            blocks: Blocks::new(),
        }
    }

    /// Puts the packet's item in front of the others, into its block. It takes no memory.
    pub fn push_front(&mut self, packet: Packet<X>)
        ensures { self.new ≡ packet ∷ self.old }
    {
        self.blocks.push_front(packet.into_block());
    }

    /// Takes the item in front, and frees its block. None where no item is left.
    pub fn pop_front(&mut self) -> Option<X>
        ensures { MatchOption result ((self.old ≡ []) × (self.new ≡ [])) (λ item. self.old ≡ item ∷ self.new) }
    {
        let mut block = self.blocks.pop_front()?;
        let Some(item) = block.take() else {
            unreachable!()
        };
        Some(item)
    }

    /// The same items, the last one first. It takes no memory.
    pub fn reversed(self) -> Packets<X>
        ensures { result ≡ reverse self }
    {
        let Packets { blocks } = self;
        Packets {
            blocks: blocks.reversed(),
        }
    }
}

impl<X> Drop for Packets<X> {
    fn drop(self) {
        let Packets { blocks: _ } = self;
    }
}
