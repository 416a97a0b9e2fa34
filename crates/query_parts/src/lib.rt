//! What one shard gives for a query, and what the parts of all shards come to.
//!
//! A query is answered over the documents before it, which lie in shards. Each shard gives its part on its own, and the parts are
//! merged in the order of the shards. For `top` that takes two steps: the words' weights are known once all shards have counted.
//!
//! ```text
//!   answer_part, shard by shard        merge_parts                       Ranking::answer
//!   hits, a number, or counts   -->    the reply, or for `top`    -->    scores of all shards, merged:
//!   of words; and its mark             the words' weights                the reply
//! ```
//!
//! So the parts may be made anywhere, and in any order.
#![tactic(auto)]

pub use building::build_shards_beside;
pub use laws::{documents_before_are_the_first, marks_are_counts};
pub use merge::{Merged, merge_parts};
pub use part::{PartAnswer, answer_part};
pub use ranking::Ranking;
pub use whole::{answer_by_parts, build_shards};

mod among;
mod building;
mod laws;
mod merge;
mod once;
mod part;
mod ranking;
mod whole;
