// What is known of a task while it waits.
use job_trait::Head;

/// The receipt of an accepted task: the number of the pass that added it, and how many tasks that pass had added before, to
/// whatever queue.
#[derive(Clone, Copy, Debug, PartialEq, Eq)]
pub struct Ticket {
    /// The number of the adder's pass: 0 to 63.
    pub adder: u32,
    /// 0 for the first task of that pass, and one more for each later one: 0 to 4,294,967,294.
    pub index: u64,
}

/// An accepted task as the contracts of its queue see it: its ticket, and its job's id, executor and number. No value of it is
/// made.
pub struct Entry {
    pub ticket: Ticket,
    pub head: Head,
}

/// Which end of a pool has begun.
#[derive(Clone, Copy, Debug, PartialEq, Eq)]
pub enum Ending {
    /// What waits still runs.
    Joins,
    /// What waits is handed back.
    Stops,
}
