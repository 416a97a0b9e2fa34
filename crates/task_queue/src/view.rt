// What a pass of the queue knows.
use pool_model::Entry;
use std::collections::LinkedList;

/// What a pass is for. No value of it is made.
pub enum Role {
    /// It makes the other passes.
    Maker,
    /// It adds tasks.
    Adder,
    /// It takes tasks.
    Taker,
    /// Several were put together in it.
    Gathered,
    /// It was put to another, or is of no use.
    Nobody,
}

/// A pass that was put to others: its number, and what it pushed or popped in all. No value of it is made.
pub struct Share {
    pub number: u32,
    pub entries: LinkedList<Entry>,
}

/// What a pass knows. No value of it is made.
pub struct View {
    pub role: Role,
    /// How many parts of the whole it is.
    pub parts: u32,
    /// How many parts the whole has.
    pub whole: u32,
    /// Its number, of an adder or of a taker.
    pub number: u32,
    /// How many adders and takers the maker has made.
    pub adders: u32,
    pub takers: u32,
    /// What an adder pushed.
    pub pushed: LinkedList<Entry>,
    /// What a taker popped, or a gathered pass after it was whole.
    pub popped: LinkedList<Entry>,
    /// The adders and takers that were put together in a gathered pass.
    pub added: LinkedList<Share>,
    pub taken: LinkedList<Share>,
}
