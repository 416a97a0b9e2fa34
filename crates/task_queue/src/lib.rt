//! One queue of a pool, each task of which leaves it once and in order, and the mark that a pool's end sets.
//!
//! The pool is that of Folly's `CPUThreadPoolExecutor`, whose `PriorityUnboundedBlockingQueue` has one unbounded queue a
//! priority. This crate has one such queue, over the toolchain's lock-free `SegQueue` under a rule, and one word that says which
//! end has begun. There is no lock.
//!
//! ```text
//!   Maker --- next_adder --> Adder  -- push --> [ t t t ] -- take --> Taker
//!      \----- next_taker --> Taker                                     |
//!   Adder, Adder, .. Taker, Taker  -- gather, put_adder, put_taker --> Gathered -- settle --> what is left
//! ```
//!
//! - Contracts see of a pass what it pushed or popped, which only its own steps on the queue change.
//! - Between any two steps there is one lawful history (`PoolHistory` of `pool_model`): each adder's pushes are what it accepted
//!   by that adder, each taker's pops what it has taken by that taker, and what waits is what the queue holds.
//! - `settle` asks for all passes, and hands out what is left, in order, with the one whole history (`Settled`). It takes no
//!   memory: a task lies in a block of its own, whose pointer goes through the queue, and which the takers give back empty.
//! - Each look, at a queue or at the mark, is noted in order (`Looks`), with what it found, and nothing else makes that list
//!   longer. So contracts above can say that a queue was found empty within a call, or behind another look.
//! - While no end has begun the adders have all parts of the mark. `begin` needs them all and spends them, so whoever found an
//!   end meets no adder any more (`no_part_is_left`). It needs the receipt of the keep-alives' join as well, so no end begins
//!   while one of these is held.
#![tactic(auto)]

mod looks;
mod mark;
mod passes;
mod queue;
mod rule;
mod spares;
mod steps;
mod view;

pub use looks::Looks;
pub use mark::{EndMark, KeptMark, OpenSeat, Watch};
pub use passes::{Adder, Gathered, Maker, Taker};
pub use queue::TaskQueue;
pub use queue_packets::Packets;
pub use rule::Queued;
