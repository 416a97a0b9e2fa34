// A run of a job that never was in a pool.
ghost use Rattle.std.specs.Prelude.{◌≡◌};
ghost use Rattle.prio_pool.specs.Running.{RanDirect};

use fan_base::{ExecId, JobId, Mark};
use job_trait::Job;
use std::marker::Model;
use std::sync::Wait;

/// That a job was run once outside of a pool, and what came of it. Only [`run_direct`] makes one.
#[derive(Debug, Drop)]
pub struct DirectRecord {
    queue: u32,
    exec: ExecId,
    job: JobId,
    mark: Mark,
}

impl Model for DirectRecord {
    ghost use Rattle.prio_pool.specs.Running.{DirectSeen};

    ghost Value = { DirectSeen };

    ghost view = { λ r. record { queue = r.queue; exec = r.exec; job = r.job; mark = r.mark } };
}

impl DirectRecord {
    /// The queue that was given.
    pub fn queue(&self) -> u32
        ensures { result ≡ self.now.queue }
    {
        self.queue
    }

    /// The executor that the job chose.
    pub fn exec(&self) -> ExecId
        ensures { result ≡ self.now.exec }
    {
        self.exec
    }

    /// The job's id.
    pub fn job(&self) -> JobId
        ensures { result ≡ self.now.job }
    {
        self.job
    }

    /// The mark of the run.
    pub fn mark(&self) -> Mark
        ensures { result ≡ self.now.mark }
    {
        self.mark
    }
}

/// Runs a job once, and makes its record with this queue. It takes no memory of its own.
pub fn run_direct<J: Job<W>, W, R: Wait>(rt: &R, queue: u32, job: J, world: &mut W) -> DirectRecord
    ensures { RanDirect J.runs (J.head job) queue world.old world.new result }
{
    let id = job.id();
    let exec = job.exec();
    let mark = job.run(rt, world);
    DirectRecord {
        queue,
        exec,
        job: id,
        mark,
    }
}
