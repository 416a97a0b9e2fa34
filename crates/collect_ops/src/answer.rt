//! What an arrival answers.
use crate::listed::Listed;
use crate::receipt::{Completed, Lost, Receipt};
use fan_base::Try;

/// What an arrival answers: V is what its desk completes with, E what the completion hands out, T the value, and X what
/// the desk keeps.
#[derive(Drop)]
pub enum Arrived<'d, V, E, T, X> {
    /// The desk is complete, by this arrival.
    Complete(V, E, Completed<'d, X, E>),
    /// The outcome isn't taken.
    Back(Try<T>, Reason<X, E>),
    /// The outcome is kept, and more were left.
    More(Receipt<X, E>),
}

/// Why an outcome comes back.
#[derive(Drop)]
pub enum Reason<X, E> {
    /// Another arrival had claimed the end.
    Claimed(Lost<X, E>),
    /// More faults were left.
    Counted(Receipt<X, E>),
}

/// What a desk of values completes with.
#[derive(Drop)]
pub enum AllValues<T> {
    /// All values, by index.
    Values(Listed<T>),
    /// The first fault that claimed, with its index.
    Fault(usize, Try<T>),
}

/// What a desk of the first value completes with.
#[derive(Debug, PartialEq, Eq, Drop)]
pub enum FirstValue<T> {
    /// The first value that claimed, with its index.
    Value(usize, T),
    /// All were faults: the one that was counted last, with its index.
    AllFailed(usize, Try<T>),
}
