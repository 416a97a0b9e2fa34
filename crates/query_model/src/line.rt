use fan_base::{Doc, List, Words};
use query_grammar::Expr;

/// What is asked of the documents.
#[derive(Debug, Drop)]
pub enum Ask {
    /// The ids of the documents for which the expression holds, and their number.
    Find(Expr),
    /// That number alone.
    Count(Expr),
    /// Whether there is one.
    Present(Expr),
    /// The documents with the greatest scores for these words, and how many of them at most: 1 to 100.
    Top(u32, Words),
}

/// How soon a query's work is taken up.
#[derive(Clone, Copy, Debug, PartialEq, Eq)]
pub enum Prio {
    Lo,
    Mid,
    Hi,
}

/// A query. Queries are numbered from 1, in the order of their lines.
#[derive(Debug, Drop)]
pub struct Query {
    /// After how many ticks it is answered, 1 to 4,294,967,295, where it isn't answered at its own line.
    pub delay: Option<u32>,
    pub prio: Prio,
    pub ask: Ask,
}

/// A line that an input says something by.
#[derive(Debug, Drop)]
pub enum Line {
    Doc(Doc),
    Query(Query),
    /// So many ticks go by: 1 to 10,000,000.
    Tick(u32),
    /// The query with this number, 1 to 50,000, is no longer wanted where it waits.
    Cancel(u32),
}

/// Lines in the order of the file.
pub type Lines = List<Line>;

/// An accepted input.
#[derive(Debug, Drop)]
pub struct Input {
    pub lines: Lines,
}
