// The timer of a query that waits.
ghost use Rattle.query_timers.specs.Firing.{Fires, head_of};

use crate::waiters::Waiters;
use event_base::{Agenda, LoopJob, calls_in_a_row};
use fan_base::{ExecId, JobId, Mark};
use job_trait::Headed;
use std::sync::Wait;

/// A timer's job: the query with this number is due.
#[derive(Clone, Copy, Debug, PartialEq, Eq)]
pub struct DueQuery {
    pub(crate) number: u64,
    pub(crate) exec: ExecId,
}

impl Headed for DueQuery {
    ghost head = { head_of };

    fn id(&self) -> JobId {
        JobId(self.number)
    }

    fn exec(&self) -> ExecId {
        self.exec
    }
}

impl<'h> LoopJob<Waiters<'h>> for DueQuery {
    ghost runs = { Fires };

    // A job that comes at another tick than its query's due tick does nothing.
    fn run<R: Wait>(
        self,
        _rt: &R,
        waiters: &mut Waiters<'h>,
        agenda: &mut Agenda<DueQuery>,
    ) -> Mark {
        calls_in_a_row::<DueQuery>();
        waiters.fire(self.number, agenda.now());
        Mark::Done(0)
    }
}
