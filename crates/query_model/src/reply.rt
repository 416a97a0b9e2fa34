use fan_base::{Ids, Scores};

/// Which documents hold.
#[derive(Debug, Drop)]
pub struct Hits {
    /// The first ids of those documents, ascending, and at most 100.
    pub ids: Ids,
    /// How many documents hold, listed or not.
    pub total: u64,
}

/// The answer of a query.
#[derive(Debug, Drop)]
pub enum Reply {
    Find(Hits),
    Count(u64),
    Present(bool),
    /// Ids of documents with their scores, the greatest score first, then the smaller id.
    Top(Scores),
    /// The query was no longer wanted, or its due tick never came.
    Cancelled,
}

/// A query that waits for its due tick, and the reply that it gets then: its documents are those before its line, so nothing
/// later changes that.
#[derive(Debug, Drop)]
pub struct Waiting {
    pub number: u64,
    /// Its due tick.
    pub due: u64,
    pub reply: Reply,
}
