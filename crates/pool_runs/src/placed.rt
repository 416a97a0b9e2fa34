// A job with the place of its record.
use crate::records::Place;
use fan_base::{ExecId, JobId};
use job_trait::Headed;

/// A job that waits, with the place of its record, so that a run takes no memory.
#[derive(Drop)]
pub struct Placed<J> {
    pub job: J,
    pub place: Place,
}

impl<J: Headed> Headed for Placed<J> {
    ghost head = { λ placed. J.head placed.job };

    fn id(&self) -> JobId {
        self.job.id()
    }

    fn exec(&self) -> ExecId {
        self.job.exec()
    }
}
