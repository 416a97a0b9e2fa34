// The record of a run.
ghost use Rattle.std.specs.Prelude.{◌≡◌};

use fan_base::{ExecId, JobId, Mark};
use pool_model::Ticket;
use std::marker::Model;

/// That a task of the pool was run once, and what came of it. Only a run of the job makes one that can be had.
#[derive(Debug, Drop)]
pub struct RunRecord {
    ticket: Ticket,
    queue: u32,
    exec: ExecId,
    job: JobId,
    mark: Mark,
}

impl Model for RunRecord {
    ghost use Rattle.pool_model.specs.Records.{Record};

    ghost Value = { Record };

    ghost view = { λ r. record { ticket = r.ticket; queue = r.queue; exec = r.exec; job = r.job; mark = r.mark } };
}

impl RunRecord {
    pub(crate) fn new(ticket: Ticket, queue: u32, exec: ExecId, job: JobId, mark: Mark) -> RunRecord
        ensures { result ≡ record { ticket = ticket; queue = queue; exec = exec; job = job; mark = mark } }
    {
        RunRecord {
            ticket,
            queue,
            exec,
            job,
            mark,
        }
    }

    /// The ticket that the add of the task answered.
    pub fn ticket(&self) -> Ticket
        ensures { result ≡ self.now.ticket }
    {
        self.ticket
    }

    /// The queue that the task stood in.
    pub fn queue(&self) -> u32
        ensures { result ≡ self.now.queue }
    {
        self.queue
    }

    /// The executor that the job chose.
    pub fn exec(&self) -> ExecId
        ensures { result ≡ self.now.exec }
    {
        self.exec
    }

    /// The job's id.
    pub fn job(&self) -> JobId
        ensures { result ≡ self.now.job }
    {
        self.job
    }

    /// The mark of the run.
    pub fn mark(&self) -> Mark
        ensures { result ≡ self.now.mark }
    {
        self.mark
    }
}
