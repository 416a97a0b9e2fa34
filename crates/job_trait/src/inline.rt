// The executor that runs each job as it comes.
ghost use Rattle.std.specs.Prelude.{◌≡◌, None, OnOk, IfErr, IsOk};
ghost use Rattle.fan_base.specs.declared.refusal.Refused.TheVariants.{Memory};
ghost use Rattle.job_trait.specs.Inline.{exec_of, world_of, loan_of, last_of, RunsOnce};

use crate::executor::Executor;
use crate::job::Job;
use fan_base::{ExecId, JobId, Mark, Refused};
use std::sync::Wait;

/// Runs each job at once, in the thread that adds it.
#[derive(Drop)]
pub struct InlineExecutor<'w, W> {
    exec: ExecId,
    world: &'w mut W,
    last: Option<(JobId, Mark)>,
}

impl<'w, W> InlineExecutor<'w, W> {
    /// An executor with this number, over this world.
    pub fn new(exec: ExecId, world: &'w mut W) -> InlineExecutor<'w, W>
        ensures number { exec_of result ≡ exec }
        ensures world { world_of result ≡ world.old }
        ensures loan { loan_of result ≡ world.entry.ghost_name }
        ensures last { last_of result ≡ None }
    {
        InlineExecutor {
            exec,
            world,
            last: None,
        }
    }

    /// The id and the mark of the job that ran last. None where none has run.
    pub fn last(&self) -> Option<(JobId, Mark)>
        ensures { result ≡ last_of self.now }
    {
        self.last
    }
}

impl<'w, W, J: Job<W>> Executor<J> for InlineExecutor<'w, W> {
    ghost number = { exec_of };

    ghost adds = { λ before job after. RunsOnce J.runs before (J.head job) after };

    fn exec(&self) -> ExecId {
        self.exec
    }

    /// Runs the job at once. It takes no memory of its own, so it never refuses one.
    fn add<R: Wait>(&mut self, rt: &R, job: J) -> Result<(), Refused<J>>
        requires { (J.head job).exec ≡ exec_of self.old }
        ensures ok { OnOk result (RunsOnce J.runs self.old (J.head job) self.new) }
        ensures refused { IfErr result (λ r. (r ≡ Memory job) × (self.new ≡ self.old)) }
        ensures exec { exec_of self.new ≡ exec_of self.old }
        ensures always { IsOk result }
    {
        let id = job.id();
        let mark = job.run(rt, &mut *self.world);
        self.last = Some((id, mark));
        Ok(())
    }
}
