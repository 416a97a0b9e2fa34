use core_word::Tally;
use fanout::{FanEnd, FanOutcome};
use query_model::BadInput;
use run_notes::{Notes, PoolNote};
use std::alloc::Global;

/// How a run ended.
#[derive(Clone, Copy, Debug, PartialEq, Eq)]
pub enum Status {
    /// All replies were written.
    Done,
    /// Want of memory.
    Memory,
    /// The words of the command line aren't those of the program.
    Usage,
    /// The input was refused.
    BadInput(BadInput),
    /// A read failed.
    ReadFault,
    /// A write failed.
    WriteFault,
    /// More than 67,108,864 bytes were read.
    TooLarge,
}

/// What a run tells of itself.
#[derive(Drop)]
pub struct Report {
    pub status: Status,
    /// What became of the tasks. None where the words or the input weren't accepted, or memory ran out before.
    pub pool: Option<PoolNote>,
    /// What the queue of each event base had: of those that gather, by executor, and of the printer's.
    pub queues: Notes,
    /// What became of the cores.
    pub tally: Tally,
}

impl Report {
    ghost use Rattle.std.specs.Prelude.{◌≡◌};
    ghost use Rattle.folly_query.specs.Reports.{TellsNothing, status_of};

    /// The report where nothing was run.
    pub fn empty(alloc: Global, status: Status) -> Report
        ensures status { result.status ≡ status }
        ensures nothing { TellsNothing result }
    {
        Report {
            status,
            pool: None,
            queues: Notes::new(alloc),
            tally: Tally::new(),
        }
    }

    /// The report of a run that has ended.
    pub fn of_run(end: FanEnd) -> Report
        ensures status { result.status ≡ status_of end.outcome }
        ensures pool { result.pool ≡ end.pool }
        ensures queues { result.queues ≡ end.queues }
        ensures tally { result.tally ≡ end.tally }
    {
        let FanEnd {
            outcome,
            pool,
            queues,
            tally,
        } = end;
        let status = match outcome {
            FanOutcome::Done => Status::Done,
            FanOutcome::Memory => Status::Memory,
            FanOutcome::WriteFault => Status::WriteFault,
        };
        Report {
            status,
            pool,
            queues,
            tally,
        }
    }
}

impl Status {
    ghost use Rattle.std.specs.Prelude.{◌≡◌, option_copied};
    ghost use Rattle.folly_query.specs.Statuses.{exit_number, message};

    /// The number that the program ends with.
    pub fn number(&self) -> u8
        ensures { result ≡ exit_number self.now }
    {
        match self {
            Status::Done => 0,
            Status::Memory => 1,
            Status::Usage => 2,
            Status::BadInput(_) => 3,
            Status::ReadFault => 4,
            Status::WriteFault => 5,
            Status::TooLarge => 6,
        }
    }

    /// What the program says on standard error, where it says anything.
    pub fn text(&self) -> Option<&'static str>
        ensures { option_copied result ≡ message self.now }
    {
        match self {
            Status::Done | Status::BadInput(_) => None,
            Status::Memory => Some("folly_query: out of memory"),
            Status::Usage => Some(
                "usage: folly_query run [options], or folly_query gen SEED DOCS QUERIES [options]",
            ),
            Status::ReadFault => Some("folly_query: read failed"),
            Status::WriteFault => Some("folly_query: write failed"),
            Status::TooLarge => Some("folly_query: input too large"),
        }
    }
}
