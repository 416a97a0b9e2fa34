ghost use Rattle.std.specs.Prelude.{◌≡◌, Some, true};
ghost use Rattle.fan_base.specs.Outside.{Shown};
ghost use Rattle.fan_model.specs.Report.{Asking};
ghost use Rattle.run_printing.specs.Ends.{IsDone, Wrote};
ghost use Rattle.run_ending.specs.Ends.{IsEndOf, IsReported, IsPoolTold};
ghost use Rattle.run_ending.specs.Outcomes.{outcome_by};

use core_word::Tally;
use run_notes::{Notes, PoolNote};
use run_printing::PrintOutcome;
use std::alloc::Global;

/// How a run ended.
#[derive(Clone, Copy, Debug, PartialEq, Eq)]
pub enum FanOutcome {
    /// All replies were written.
    Done,
    /// Memory ran out.
    Memory,
    /// A write failed. All work was done all the same.
    WriteFault,
}

/// How a run ended, and what it tells of its pool, queues and cores.
#[derive(Drop)]
pub struct FanEnd {
    pub outcome: FanOutcome,
    pub pool: Option<PoolNote>,
    pub queues: Notes,
    pub tally: Tally,
}

impl FanEnd {
    /// The end of a run that found no memory before it had a pool. It has written nothing.
    pub fn refused(alloc: Global) -> FanEnd
        ensures { (asked : Asking) (start : Shown) → IsEndOf asked start start result }
    {
        FanEnd {
            outcome: FanOutcome::Memory,
            pool: None,
            queues: Notes::new(alloc),
            tally: Tally::new(),
        }
    }

    /// The end of a run with this note of its pool, these of its queues, and these cores. It ends as printing did where all is fine, else
    /// with want of memory.
    pub fn of_run(
        fine: bool,
        outcome: PrintOutcome,
        note: PoolNote,
        queues: Notes,
        tally: Tally,
    ) -> FanEnd
        ensures pool { result.pool ≡ Some note }
        ensures queues { result.queues ≡ queues }
        ensures cores { result.tally ≡ tally }
        ensures ends { (asked : Asking) (start now : Shown) → Wrote asked.lines start now outcome → IsPoolTold asked note →
            (fine ≡ true → IsDone outcome → IsReported asked result) → IsEndOf asked start now result }
    {
        FanEnd {
            outcome: outcome_if(fine, outcome),
            pool: Some(note),
            queues,
            tally,
        }
    }
}

/// How the run ended: as printing did, where all is fine; else with want of memory.
fn outcome_if(fine: bool, outcome: PrintOutcome) -> FanOutcome
    ensures { result ≡ outcome_by fine outcome }
{
    if !fine {
        return FanOutcome::Memory;
    }
    match outcome {
        PrintOutcome::Done => FanOutcome::Done,
        PrintOutcome::Memory => FanOutcome::Memory,
        PrintOutcome::WriteFault => FanOutcome::WriteFault,
    }
}
