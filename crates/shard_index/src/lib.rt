//! An inverted index over a shard of the documents, what it finds, and how the finds of all shards are merged.
//!
//! The shard with number n of S has the documents at the places i, from 0, with `i mod S = n`. It keeps no document, but their ids in the
//! order of their lines, and for each word at which of them it stands:
//!
//! ```text
//! documents      0: 7 red apple   1: 9 red red   2: 4 pear red      (a place in the shard, an id, words)
//! ids            7 9 4
//! red            places 0 1 2     times 1 2 1                       (each place once, ascending)
//! pear           places 2         times 1
//! ```
//!
//! Each question names how many of all documents stand before it. Since lists go by place, these documents are a front of each list,
//! which is lent, and not copied. What is inside a shard stands behind one word, `StandsFor`: the documents that it was built from.
//!
//! - `Shard::build`, `of_table`: the shard stands for these documents.
//! - `Shard::find`, `count`, `counts`, `scores`: filters of its documents before the question.
//! - `merge_hits`, `merge_scores`, `weights`: what several shards gave, as one.
//! - `merged_hits_are_the_whole`, `merged_scores_are_the_whole`: laws that this is the answer over all documents before the question.
//! - `Shards::answer`: all of it as one call.
#![tactic(auto)]

pub use counts::Counts;
pub use laws::{merged_hits_are_the_whole, merged_scores_are_the_whole};
pub use merge::{merge_hits, merge_scores, weights};
pub use once::{each_once, stand_again};
pub use shard::Shard;
pub use shards::Shards;

mod best;
mod bits;
mod counts;
mod frequent;
mod front;
mod heads;
mod hits;
mod index;
mod join;
mod laws;
mod leaves;
mod marks;
mod merge;
mod narrow;
mod once;
mod part;
mod scored;
mod selection;
mod shard;
mod shards;
mod totals;
