//! Chains of cores: a callback that is given to the first core goes on through each proxy, to the end of the chain.
//!
//! Folly's `futures/detail/Core.h` passes a callback on to the core that a proxy names, in `setCallback_` and `proxyCallback`.
//! What differs: a proxy here is a value of a type parameter, so the depth of a chain is a matter of types, and each core on
//! the way is left, and freed where its other half had left before.
//!
//! ```text
//!  give(callback)
//!      |
//!      v             Proxy found             Proxy found              OnlyResult found: a Fire of this core
//!  Consumer of core 1 ----------> core 2 ----------> .. ----------> core n
//!      each core is left on the way, and its husk ended            Start found: it waits there
//!      where that leave was the last
//! ```
//!
//! [`Taker`] is what a callback can be given to: a [`Consumer`](core_word::Consumer). [`Proxy`] is what a core can have as a
//! proxy: a consumer, or [`NoProxy`], of which there is no value. [`settle`] does with the answer of a leave what is left to
//! do: it ends the husk, gives a left-over proxy up in the same way, and hands a left-over result out.
#![tactic(auto)]

mod asker;
mod consumer;
mod proxy;
mod taker;

pub use proxy::{NoProxy, Proxy, settle};
pub use taker::{Taker, pass_on};
