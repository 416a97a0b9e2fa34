/// A query that waits for its due tick.
#[derive(Clone, Copy, Debug, PartialEq, Eq)]
pub struct DelayedQuery {
    /// Its number among the queries, from 1.
    pub number: u64,
    /// The place of its line among the lines, from 0.
    pub line: usize,
    /// How many documents stand before its line.
    pub documents: u32,
    /// Its due tick.
    pub due: u64,
}
