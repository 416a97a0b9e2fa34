//! Counted tokens that hold an object open: whoever joins the count waits until each token is released.
//!
//! The behaviour is that of Folly's `DefaultKeepAliveExecutor` (folly/DefaultKeepAliveExecutor.h) and of its tokens
//! `Executor::KeepAlive` (folly/Executor.h): `joinKeepAlive` takes the executor's own 1 off and waits for the last token.
//! Here a token can't be copied without bound: the room of the first one is shared among all, so that the count stays
//! within 33 bits. And the count isn't tied to an executor: [`KeepOwner`] holds open whatever its holder likes.
//!
//! ```text
//! KeepOwner::new(room)          the count is 2
//!   |             \
//! KeepOwner     KeepAlive --copy--> KeepAlive      each copy counts 1
//!   | join        | release           | release    each release takes 1 off:
//!   |             v                   v            Last where it found 1, else More
//!   v           Released            Released
//! Joined          only after a step of the owner's own that found 0
//! ```
//!
//! The promises, by clause:
//! * a count begins at 2 and each token knows how many there can be (`new`, and `within` of [`KeepAlive::release`]);
//! * Last exactly where 1 was found, More where more was (`found` of [`KeepAlive::release`]);
//! * with a [`Joined`], or after a Last, no token of the count is held ([`nothing_is_held`],
//!   [`nothing_is_held_after_the_last`]);
//! * a Last comes after the owner began to join ([`last_is_after_the_owner`]).
#![tactic(auto)]

mod keep;
mod rule;
mod steps;
mod view;

pub use keep::{
    Joined, KeepAlive, KeepOwner, Receipt, Released, last_is_after_the_owner, nothing_is_held,
    nothing_is_held_after_the_last,
};
