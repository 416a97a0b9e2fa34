//! The one run of a job, with what its record tells of it.
//!
//! The run comes with the job's id, its executor and its mark. It stands below the pool, so that the edit which leaves the run
//! away is tried here, where a check takes seconds.
#![tactic(auto)]

ghost use Rattle.std.specs.Prelude.{◌≡◌};
ghost use Rattle.job_trait.specs.Marks.{IsMarkOf};

use fan_base::{ExecId, JobId, Mark};
use job_trait::Job;
use std::sync::Wait;

/// Runs the job, and gives its id, its executor, and the mark of the run. It takes no memory of its own.
pub fn run_once<J: Job<W>, W, R: Wait>(rt: &R, job: J, world: &mut W) -> (JobId, ExecId, Mark)
    ensures id { result.0 ≡ (J.head job).id }
    ensures exec { result.1 ≡ (J.head job).exec }
    ensures mark { IsMarkOf (J.head job).number result.2 }
    ensures meaning { J.runs (J.head job).id world.old result.2 world.new }
{
    let id = job.id();
    let exec = job.exec();
    let mark = job.run(rt, world);
    (id, exec, mark)
}
