//! The state of a core as plain mathematics: which states there are, which act leads where, and
//! what every order of the acts of a core's two halves comes to.
//!
//! A core hands one result to one callback. Its producer sets a result or a proxy and leaves; its
//! consumer sets a callback, with or without the allowance to run it inline, or gives up, and leaves.
//! The states are those of Folly's `futures/detail/Core.h`. Of `OnlyCallbackAllowInline` the name alone
//! is Folly's: where a callback may run inline is this library's own rule.
//!
//! ```text
//!             SetResult                    SetCallback, SetCallbackInline
//!    Start ---------------> OnlyResult ------------------------------------> Done
//!      |                                                                      ^
//!      |      SetCallback                              SetResult              |
//!      +----------------> OnlyCallback ---------------------------------------+
//!      |                        |                      SetProxy               |
//!      |                        +-----------------------------------+         |
//!      |   SetCallbackInline                           SetResult    |         |
//!      +----------------> OnlyCallbackAllowInline ------------------|---------+
//!      |                        |                      SetProxy     |
//!      |                        +-----------------------------------+
//!      |      SetProxy                 SetCallback, SetCallbackInline v
//!      +------------------> Proxy ---------------------------------> Empty
//! ```
//!
//! `schedule_law` says of every lawful order of the acts that the table and the acts agree, that a
//! result and its callback are handed over once, by the later of the two, that it may run inline there
//! where the callback was set with the allowance and the result stands later, that a proxy's callback is
//! forwarded once with its allowance, and what is left over.
#![tactic(auto)]

mod law;
mod schedule;
mod table;
#[cfg(test)]
mod tests;

pub use law::schedule_law;
pub use schedule::{ConsumerAct, CoreAct, Demand, Half, Offer, ProducerAct, Request};
pub use table::{Act, State, code, from_code, next};
