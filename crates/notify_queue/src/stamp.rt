/// Which message of which sender: the sender's number, and how many messages it had put before this one.
#[derive(Clone, Copy, Debug, PartialEq, Eq)]
pub struct Stamp {
    pub sender: u32,
    pub index: u64,
}

/// A message with its stamp.
#[derive(Debug, PartialEq, Eq, Drop)]
pub struct Stamped<M> {
    pub stamp: Stamp,
    pub message: M,
}
