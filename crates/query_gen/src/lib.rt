//! The input that the command `gen` makes up from a seed, and the line that sums up what answers it.
//!
//! Each number is drawn by a linear congruence modulo 2^64, so that the same seed gives the same input on each machine. All of
//! it is this project's own, and no header of Folly's has it: the definitions are `query_model`'s (specs/Generated.antt).
//!
//! ```text
//! state --draw below a bound--> state * 6364136223846793005 + 1442695040888963407 modulo 2^64, the next state
//!                               its number: the next state without its lowest 33 bits, modulo the bound
//!
//! the lines, one behind another, into a LineTable:
//!   documents   the one at place i, from 0, has the id 3 * i + 1 and 1 to 60 words out of w0 to w499
//!   queries     each has a drawn priority, and an ask by a number below 8: the one by 7 has a delay of 1 to 1,000 ticks
//!     ticks     behind each tenth query, 1 to 300
//!
//! the summary   how many documents and queries, how many lines and bytes the replies have, and the sum of these bytes modulo 2^64
//! ```
//!
//! The promises, by clause:
//! * the input, of at most 20,000 documents, is the one that the seed and the two numbers define ([`generate`], by
//!   `generated_input`);
//! * the summary is the one that the numbers and the replies define ([`summary_text`], by `summary_of`);
//! * with at most 20,000 documents and 4,096 queries, for 64 and fewer shards, the input is within the limits of accepted ones
//!   (`laws::generated_is_within_limits`), and its canonical text is accepted as that input (`laws::generated_is_accepted`).
//!
//! The one other answer of both calls is want of memory: that they succeed is tested. How even the draws are is said nowhere.
#![tactic(auto)]

pub use input::{MOST_DOCUMENTS, generate};
pub use summary::summary_text;

mod documents;
mod draws;
mod input;
pub mod laws;
mod queries;
mod summary;
