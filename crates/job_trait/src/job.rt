// What a job is, and what a run of it does.
ghost use Rattle.std.specs.Prelude.{◌≡◌};
ghost use Rattle.fan_base.specs.declared.number.ExecId.{ExecId};
ghost use Rattle.fan_base.specs.declared.number.JobId.{JobId};
ghost use Rattle.fan_base.specs.declared.number.Mark.{Mark};
ghost use Rattle.job_trait.specs.declared.job.Head.{Head};
ghost use Rattle.job_trait.specs.Marks.{IsMarkOf};

use fan_base::{ExecId, JobId, Mark};
use std::sync::Wait;

/// What is known of a job before it runs: its id, the executor that it chose, and the one number that a
/// run of it marks as done. Contracts compare records with it.
#[derive(Clone, Copy, Debug, PartialEq, Eq)]
pub struct Head {
    pub id: JobId,
    pub exec: ExecId,
    pub number: u64,
}

/// What has an id and an executor, neither of which depends on a world.
pub trait Headed {
    ghost head: { Self → Head };

    /// The job's id.
    fn id(&self) -> JobId
        ensures { result ≡ (head self.now).id };

    /// The executor that the job is to run on.
    fn exec(&self) -> ExecId
        ensures { result ≡ (head self.now).exec };
}

/// Work that is run once, on a world that it may change.
pub trait Job<W>: Headed {
    // What a run of the job with this id does: the world before, the mark, the world after.
    ghost runs: { JobId → W → Mark → W → Type 0 };

    /// Runs the job. The mark is `Done` with the job's own number, or `Memory` where the run found none.
    fn run<R: Wait>(self, rt: &R, world: &mut W) -> Mark
        ensures mark { IsMarkOf (Self.head self).number result }
        ensures meaning { runs (Self.head self).id world.old result world.new };
}
