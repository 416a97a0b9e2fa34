ghost use Rattle.std.specs.Prelude.{◌≡◌, ◌++◌, ◌∷◌, [], length, MatchOption, OnOk, OnErr};

use event_base::QueueNote;
use fan_base::{List, Memory};
use prio_pool::{DirectRecord, RunRecord, Runs};
use std::alloc::Global;
use std::collections::VecDeque;
use std::marker::Model;

/// A list of records, the first one first.
#[derive(Drop)]
pub struct Records<X> {
    records: VecDeque<X>,
}

/// The records of tasks that a pool handed back and that were run afterwards.
pub type RunRecords = Records<RunRecord>;

/// The records of tasks that never were in a pool.
pub type DirectRecords = Records<DirectRecord>;

/// What the queues of the bases had, by executor.
pub type Notes = List<QueueNote>;

impl<X> Model for Records<X> {
    ghost use Rattle.std.specs.Prelude.{List};

    ghost Value = { List X };

    ghost view = { λ r. r.records.items };
}

impl<X> Records<X> {
    /// No record.
    pub fn new(alloc: Global) -> Records<X>
        ensures { result ≡ [] }
    {
        Records {
            records: VecDeque::new(alloc),
        }
    }

    /// How many records are left.
    pub fn len(&self) -> usize
        ensures { result ≡ length self.now }
    {
        self.records.len()
    }

    /// The next record. None comes exactly where none is left.
    pub fn pop(&mut self) -> Option<X>
        ensures { MatchOption result ((self.old ≡ []) × (self.new ≡ [])) (λ x. self.old ≡ x ∷ self.new) }
    {
        self.records.pop_front()
    }
}

impl<X: Drop> Records<X> {
    /// Puts a record behind the others. Where there is no memory it is dropped.
    pub fn push(&mut self, item: X) -> Result<(), Memory>
        ensures ok { OnOk result (self.new ≡ self.old ++ item ∷ []) }
        ensures memory { OnErr result (self.new ≡ self.old) }
    {
        match self.records.push_back(item) {
            Ok(()) => Ok(()),
            Err(_) => Err(Memory),
        }
    }
}

/// What became of the tasks of a run.
#[derive(Drop)]
pub struct PoolNote {
    /// How many tasks the pool accepted.
    pub accepted: u64,
    /// What the pool ran, and whether it was stopped.
    pub ran: Runs,
    /// What was handed back and then run.
    pub returned: RunRecords,
    /// What never was in the pool.
    pub direct: DirectRecords,
}
