//! The types of the text side, and what is said of them: which bytes are accepted as an input, which are refused and why, in
//! which order queries are answered, and which bytes answer them. The definitions stand in `specs/`, over the grammar of
//! expressions of `query_grammar`; the code that meets them is in `query_text`, `shard_index`, `query_gen`, the run over
//! threads and `folly_query`.
//!
//! The formats are this project's own, and docs/QUERIES.md has them for users: no header of Folly's has them.
//!
//! ```text
//! bytes --cut at each line feed--> pieces; each one, behind the lines before it,
//!     is skipped
//!     stands for a Line: Doc, Query, Tick or Cancel     each does, or is skipped: an Input
//!     has a first check that it doesn't meet            the first such piece: a BadInput, with its number and the kind of the check
//!
//! a query, over the documents before its line:
//!     without delay                        answered at its own line
//!     its due tick comes at a line         answered at that line
//!     a cancel line comes before that      cancelled at that line
//!     neither comes                        cancelled behind all lines
//! answers stand in order by line, then by due tick, then by number; the cancelled ones behind all lines come last, by number
//! ```
//!
//! The promises are laws, functions that do nothing:
//! * given that the grammar of expressions decides, bytes are accepted as one input, or refused with one line and kind
//!   (`laws::input_is_decided`); what is accepted is within each limit (`laws::accepted_is_within_limits`);
//! * a piece gives a line exactly where it is the line of that, by facts in no order (`laws::lines_by_facts`), and pieces stand
//!   for lines one by one (`laws::one_piece_more`);
//! * what is sorted has the same items in order, and is the only such list where its order tells items apart (`laws::sorting`,
//!   `laws::orders`);
//! * what one more line adds to the answers (`laws::turns_line_by_line`), and that one walk over the lines gives all replies
//!   (`laws::one_walk_gives_all_replies`, `laws::one_walk_keeps_counts`);
//! * lines that are the same but for the words of documents (`laws::alike_lines`) ask the same
//!   (`laws::alike_lines_ask_the_same`), and where each is a line in its ranges they are within the same limits
//!   (`laws::alike_lines_are_within_limits`);
//! * the part of a shard, by places (`laws::part_is_told_by_places`); given that the grammar keeps canonical tokens, the
//!   canonical text of an accepted input is accepted as it (`laws::canonical_text_is_accepted`); which inputs are read
//!   (`laws::inputs_that_are_read`);
//! * worked inputs with their lines, computed from the definitions (`rows::worked_rows`).
//!
//! That the constants of [`limits`] are the numbers of specs/Limits.antt is said by no clause.
#![tactic(auto)]

pub use fault::{BadInput, BadKind, InputFault, Limit};
pub use keyword::{ExprAsk, Keyword};
pub use line::{Ask, Input, Line, Lines, Prio, Query};
pub use query_grammar::{Expr, ExprFault};
pub use reply::{Hits, Reply, Waiting};

mod fault;
mod keyword;
pub mod laws;
pub mod limits;
mod line;
mod reply;
pub mod rows;
