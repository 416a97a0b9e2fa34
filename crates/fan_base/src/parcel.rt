//! A value in a block of raw memory, and a list of such blocks.
ghost use Rattle.std.specs.Prelude.{◌≡◌, [], ◌∷◌, reverse, IfOk, IfErr, MatchOption};

use crate::refusal::Refused;
use block::{Block, Room};
use std::alloc::Global;
use std::marker::Model;
use std::mem;
use std::mem::ManuallyDrop;

mod block;

// What lies in a block: a value, and those blocks that are strung behind it.
#[cycle(parcel)]
struct Node<X> {
    value: ManuallyDrop<X>,
    rest: Parcels<X>,
}

/// One value in a block of raw memory, which contracts see as that value.
///
/// A parcel may be dropped, also where its value may not be: the block is then freed and the value is forgotten.
/// So what must be spent can lie in a collection that drops its items, as a queue that threads share.
pub struct Parcel<X> {
    block: Block<Node<X>, Global>,
}

impl<X> Model for Parcel<X> {
    ghost use Rattle.fan_base.specs.Parcel.{value_of};

    ghost Value = { X };

    ghost view = { λ parcel. value_of parcel.block };
}

impl<X> Parcel<X> {
    ghost use Rattle.fan_base.specs.Parcel.{value_of};

    /// Takes the value, or gives it back where there is no memory for the block.
    pub fn new(alloc: Global, value: X) -> Result<Parcel<X>, Refused<X>>
        ensures ok { IfOk result (λ parcel. parcel ≡ value) }
        ensures refused { IfErr result (λ back. back ≡ Refused.Memory value) }
    {
        match Room::allocate(alloc) {
            Ok(room) => {
                let value = unsafe { ManuallyDrop::new_unchecked(value) };
                Ok(Parcel {
                    block: room.write(Node {
                        value,
                        rest: Parcels::new(),
                    }),
                })
            }
            Err(_) => Err(Refused::Memory(value)),
        }
    }

    /// Gives the value and frees the block.
    pub fn open(self) -> X
        ensures { result ≡ self }
    {
        let (node, room) = self.into_block().read();
        room.free();
        let Node { value, rest: _ } = node;
        ManuallyDrop::into_inner(value)
    }

    fn into_block(self) -> Block<Node<X>, Global>
        ensures { value_of result ≡ self }
    {
        let Parcel { block } = self;
        block
    }
}

impl<X> Drop for Parcel<X> {
    fn drop(self) {
        let Parcel { block } = self;
        let (node, room) = block.read();
        room.free();
        let Node { value: _, rest: _ } = node;
    }
}

/// Parcels in an order, strung together by their own blocks, so that no call here takes memory.
/// Contracts see the list of their values. It may be dropped, as each parcel may.
#[cycle(parcel)]
pub struct Parcels<X> {
    first: Option<Block<Node<X>, Global>>,
}

impl<X> Model for Parcels<X> {
    ghost use Rattle.std.specs.Prelude.{List, length};

    ghost Value = { List X };

    ghost use Rattle.fan_base.specs.Parcel.{values_of};

    ghost view = { λ parcels. values_of parcels.first };

    ghost size = { length };

    ghost use Rattle.std.proofs.Common.{arith};

    ghost size_decreases = { λ a h. Prim.grind arith };
}

impl<X> Parcels<X> {
    ghost use Rattle.fan_base.specs.Parcel.{values_of};

    /// No parcel.
    pub fn new() -> Parcels<X>
        ensures { result ≡ [] }
    {
        Parcels { first: None }
    }

    /// Puts a parcel in front of the others.
    pub fn push_front(&mut self, parcel: Parcel<X>)
        ensures { self.new ≡ parcel ∷ self.old }
    {
        let (node, room) = parcel.into_block().read();
        let Node { value, rest: _ } = node;
        let rest = mem::replace(self, Parcels::new());
        *self = Parcels {
            first: Some(room.write(Node { value, rest })),
        };
    }

    /// Takes the parcel in front.
    pub fn pop_front(&mut self) -> Option<Parcel<X>>
        ensures { MatchOption result ((self.old ≡ []) × (self.new ≡ [])) (λ parcel. self.old ≡ parcel ∷ self.new) }
    {
        let (node, room) = self.first.take()?.read();
        let Node { value, rest } = node;
        *self = rest;
        Some(Parcel {
            block: room.write(Node {
                value,
                rest: Parcels::new(),
            }),
        })
    }

    /// The same parcels, the last one first.
    pub fn reversed(mut self) -> Parcels<X>
        ensures { result ≡ reverse self }
    {
        let mut turned = Parcels::new();
        while let Some(parcel) = self.pop_front() {
            turned.push_front(parcel);
        }
        turned
    }

    fn into_first(self) -> Option<Block<Node<X>, Global>>
        ensures { values_of result ≡ self }
    {
        let Parcels { first } = self;
        first
    }
}

impl<X> Drop for Parcels<X> {
    // A loop, since a call for each parcel would take stack for each.
    fn drop(self) {
        let Parcels { mut first } = self;
        while let Some(block) = first {
            let (node, room) = block.read();
            room.free();
            let Node { value: _, rest } = node;
            first = rest.into_first();
        }
    }
}
