//! Promises, futures, and chains of continuations.
//!
//! They are what Folly's `Promise` and `Future` (folly/futures/Promise.h, folly/futures/Future.h) are: `setTry`, `via`, `then`,
//! `thenError` and `ensure`, and a continuation's executor. What differs: a core's memory is a home whose key the caller hands
//! in, so that no call but [`dispatch`] takes memory; a future's callback is a value of a type parameter, which `then` makes a
//! [`Chain`]; a continuation that comes to another core's outcome names that core, as a proxy; and nothing runs by itself: who
//! gets a fire dispatches it, or runs it where it may run inline.
//!
//! ```text
//! promise(key) --> Promise ---- fulfil, abandon, proxy ---> After: a fire, or it waits; and what the leave answered
//!              \-> Future ----- on, detach
//!                     |
//!                     | then(key 2, continuation): the callback is a Chain
//!                     v                                  the new Future, of key 2's core
//!                  Chain --- run(outcome) ---> the continuation's Step: Now(outcome) fulfils the promise of key 2's core,
//!                     ^                        and Later(core) proxies it
//!                     |
//!  a Fire of it: dispatch adds a ChainJob to an executor with the chain's number; run_here runs it at once
//!                where it may run inline and the executor is the chain's
//! ```
#![tactic(auto)]

mod after;
mod chain;
mod chain_job;
mod dispatching;
mod future;
mod landing;
mod promises;
mod start;

pub use after::After;
pub use chain::Chain;
pub use chain_job::ChainJob;
pub use dispatching::{Here, dispatch, run_here};
pub use future::Future;
pub use landing::Landing;
pub use promises::Promise;
pub use start::{promise, promise_of};
