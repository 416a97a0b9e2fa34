//! Expressions over the words of a document: their tokens, their trees, and in `specs/` the grammar that ties the one to the
//! other, the first fault of tokens that are no expression, and the truth of a tree.
//!
//! ```text
//! either = both { Bar both }      Either, grouped from the left
//! both   = fact { fact }          Both, grouped from the left
//! fact   = Bang fact              Not
//!        | Left either Right
//!        | word
//! ```
#![tactic(auto)]

pub use expr::{Expr, Node};
pub use fault::ExprFault;
pub use token::Token;

mod expr;
mod fault;
pub mod limits;
mod token;
