//! Expressions over the words of a document: [`parse`] reads one from its tokens, and [`holds`] says whether it holds for a
//! document.
//!
//! What is an expression, its tree, its faults, its limits and its truth are those of `query_grammar` (its `specs/`). The
//! language is this project's own: no header of Folly's has it.
//!
//! ```text
//! tokens --parse--> Expr --holds, for a document--> true or false
//!            |
//!            v
//!        ExprFault    by their number: Empty, TooLong
//!                     at the first place that has it: TooDeep, Unexpected
//!                     at the end: Unclosed          or want of memory: Memory
//!
//! what parse keeps between two tokens:
//!   top     what stands behind the innermost open bracket: before the last bar, the facts behind it, the bangs behind these
//!   below   the same before each open bracket, the innermost last
//!   depth   how many brackets and bangs are open
//! ```
//!
//! The promises, by clause:
//! * what is accepted has exactly this tree and is within the limits (`accepted` of [`parse`]), and what the grammar accepts is
//!   accepted, unless memory runs out (`accepts`);
//! * what is refused is refused at exactly this place with exactly this fault (`refused`), and what the grammar refuses is
//!   refused so, unless memory runs out (`refuses`);
//! * [`holds`] is the truth of the tree over the words of the document;
//! * of the grammar, for any tokens: at most one tree, an answer, never two (`one_tree`, `answered`, `not_both`, `one_fault` of
//!   [`grammar_law`]), Unexpected at the first token with which nothing that follows makes an expression (`unexpected`),
//!   TooDeep at a left bracket or a bang (`too_deep`), and one depth where an expression can go on (`some_depth`, `one_depth`);
//! * where tokens are accepted with a tree, the canonical tokens of that tree are too ([`canonical_tokens_are_accepted`]).
//!
//! No clause of a public call says that `parse` calls itself nowhere, or that its list has at most 64 places. That it succeeds
//! with ample memory is tested (`text_tests`).
#![tactic(auto)]

pub use law::{canonical_tokens_are_accepted, grammar_law};
pub use parsing::parse;
pub use query_grammar::{Expr, ExprFault, Node, Token};
pub use truth::holds;

mod law;
mod open;
mod parsing;
mod reader;
mod truth;
