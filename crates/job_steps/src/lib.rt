//! Continuations: what is done with an outcome, and which core's outcome it comes to.
//!
//! They are what Folly's `thenValue`, `thenError` and `ensure` (folly/futures/Future.h) take. What differs: a continuation is a
//! value of a type with a relation of its own, and it says by its answer whether its outcome is there ([`Step::Now`]) or is
//! that of another core ([`Step::Later`]).
//!
//! ```text
//!                      a value                  a fault
//! OnValue(K)      K::of(value): a Step      Now(the fault)
//! OnFault(K)      Now(the value)            K::of(fault): a Step
//! Always(K)       K::of(), then Now(the outcome), for either
//! ```
#![tactic(auto)]

mod cont;
mod on;
#[cfg(test)]
mod tests;

pub use cont::{Cont, EnsureStep, FaultStep, Step, ValueStep};
pub use on::{Always, OnFault, OnValue};
