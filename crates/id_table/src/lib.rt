//! An open-addressing table from ids to values: linear probing, at most two thirds full, removal by shifting back.
//!
//! ```text
//!   an id --home--> a cell, and from there cell after cell, round the end
//!
//!   cell      0     1     2     3     4     5    ..    21    22    23
//!   holds     c     -     -     a     b     -    ..     -     -     d          home of a, b: 3      of d, c: 23
//! ```
//!
//! There are 24 cells at first, and twice as many each time that there is no room for one more.
//!
//! No cell between an id's home and its own is empty, so a look for an id ends at an empty cell. A removal moves later
//! cells into the gap where their ids' homes allow it, and leaves nothing behind.
//!
//! A value lies in the cell of its id. It is moved and never copied, so it may be of a type that can't be copied or dropped.
//!
//! Contracts see the list of the pairs of an id and its value (specs/Pairs.antt), no id twice.
#![tactic(auto)]

pub use cell::Cell;
pub use table::{IdTable, destroy_cells};

mod cell;
mod probe;
mod refill;
mod ring;
mod shift;
mod table;
