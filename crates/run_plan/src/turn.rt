/// A query whose work is begun.
#[derive(Clone, Copy, Debug, PartialEq, Eq)]
pub struct BegunQuery {
    /// Its number among the queries, from 1.
    pub number: u32,
    /// The place of its line among the lines, from 0.
    pub line: usize,
    /// How many documents stand before its line.
    pub documents: u32,
}

/// What comes at a place of the order of answers.
#[derive(Clone, Copy, Debug, PartialEq, Eq)]
pub enum Turn {
    /// The work of a query is begun.
    Begin(BegunQuery),
    /// The query with this number is cancelled.
    Cancel(u32),
}
