//! Items on their way through a queue, each in a block of memory of its own. The blocks of what is left at the queue's end are strung together
//! by themselves, so an end takes no memory, however much is left.
//!
//! ```text
//!   Block::new                    --> Block          empty: the one call that takes memory
//!   Packet::new   item, block     --> Packet         the item lies in the block, whose pointer goes through the queue
//!   open          a packet        --> item, block    taken: the block may be used for another item
//!   push_front    a packet        --> Packets        left at the end: its block is strung before the others
//!   pop_front     Packets         --> item           one by one
//!   Blocks        push_front, pop_front              blocks that wait for another item, in an order
//! ```
//!
//! - Contracts see a packet as its item, packets as the list of their items, a block as the item in it or none, and blocks as the list of that.
//! - Blocks are strung together by themselves, so no call but `Block::new` takes memory or can be refused.
//! - All four may be dropped, whatever their items: that frees the blocks, and forgets the items. Who holds an item that must be spent opens its packet.
//! - They cross threads where their items may (`proofs/Crossings.antt`).
#![tactic(auto)]

pub use block::{Block, Blocks};
pub use packet::{Packet, Packets};

mod block;
mod packet;
