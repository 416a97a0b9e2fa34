// The records of the runs of a pool.
ghost use Rattle.std.specs.Prelude.{◌≡◌, [], ◌∷◌, length, MatchOption};

use pool_runs::{Records, RunRecord};
use std::marker::Model;

/// The records of the runs of a pool, and whether it was stopped. Only [`crate::Pool::join`] and [`crate::Pool::stop`] make one.
#[derive(Drop)]
pub struct Runs {
    records: Records,
    stopped: bool,
}

impl Model for Runs {
    ghost use Rattle.pool_model.specs.Seen.{RunsSeen};

    ghost Value = { RunsSeen };

    ghost view = { λ r. record { records = r.records; stopped = r.stopped } };
}

impl Runs {
    pub(crate) fn new(records: Records, stopped: bool) -> Runs
        ensures { result ≡ record { records = records; stopped = stopped } }
    {
        Runs { records, stopped }
    }

    /// How many records are left.
    pub fn len(&self) -> usize
        ensures { result ≡ length self.now.records }
    {
        self.records.len()
    }

    /// The next record. None comes exactly where none is left.
    pub fn pop(&mut self) -> Option<RunRecord>
        ensures next { MatchOption result (self.old.records ≡ []) (λ r. self.old.records ≡ r ∷ self.new.records) }
        ensures same { self.new.stopped ≡ self.old.stopped }
        ensures none { MatchOption result (self.new.records ≡ []) (λ _. self.new.stopped ≡ self.old.stopped) }
    {
        self.records.pop()
    }

    /// Whether the pool was stopped.
    pub fn stopped(&self) -> bool
        ensures { result ≡ self.now.stopped }
    {
        self.stopped
    }
}
