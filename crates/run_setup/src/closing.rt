ghost use Rattle.std.specs.Prelude.{◌≡◌, ℕ, false, length};
ghost use Rattle.fan_base.specs.Outside.{Shown};
ghost use Rattle.query_model.specs.Order.{replies_of};
ghost use Rattle.core_cells.specs.Seen.{AreAll};
ghost use Rattle.core_word.specs.Count.{added};
ghost use Rattle.run_notes.specs.Counting.{AreEmptied, puts_of};
ghost use Rattle.run_printing.specs.Ends.{HasPrinted, IsDone, IsWhole, LacksSome, Wrote};
ghost use Rattle.run_tasks.specs.Leaving.{MakesMore};
ghost use Rattle.run_setup.specs.Ids.{RunIds};
ghost use Rattle.run_gathering.specs.Gathering.{no_counts};
ghost use Rattle.run_setup.specs.Closing.{IsAllOf, merged_with, some_refused, tallies_of};

use crate::cells::TaskCellPass;
use crate::collecting::{Counted, Gatherers, Worlds};
use core_word::Tally;
use event_base::QueueNote;
use fan_parts::{GatherJob, PrintJob, RunName};
use notify_queue::SenderEnd;
use run_bases::{Column, all_are_back, put_one};
use run_printing::{PrintEnd, PrintOutcome, PrintStage, close_printing};
use run_tasks::TaskEnds;
use run_threads::GatherSlot;
use std::sync::Wait;

/// The columns to which the posters' ends come back, and room for what the close collects.
pub struct Back<'t, N: RunName> {
    /// Of the gathering bases, by base.
    pub columns: Vec<Column<GatherJob<N>>>,
    /// Of the printer's base.
    pub printer: Column<PrintJob<N>>,
    /// Room for the notes of the gathering bases.
    pub notes: Vec<QueueNote>,
    /// Room for the passes of the cells.
    pub passes: Vec<TaskCellPass<'t, N>>,
}

/// A run that is closed.
pub struct Closed<'t, N: RunName> {
    /// What the queues of the gathering bases had, by base.
    pub notes: Vec<QueueNote>,
    /// How printing ended, with the note and the tally of the printer's base.
    pub print: PrintEnd,
    /// The tallies of all worlds and of all gathering bases, added up.
    pub tally: Tally,
    /// Whether one of them notes want of memory.
    pub refused: bool,
    /// All passes of the cells, for their close.
    pub passes: Vec<TaskCellPass<'t, N>>,
}

/// Closes the gathering bases and then the printer's base, with all ends of their posters. `worlds` are what is left of the workers' worlds, by
/// worker, `front` is what is left of the front's, and `poster` the end of its poster to the printer's base; `queries` is how many queries the
/// input has. It takes no memory.
pub fn close_run<'t, 'r: 't, 'i: 'r, N: RunName, R: Wait>(
    rt: &R,
    back: Back<'t, N>,
    gatherers: Vec<GatherSlot<'r, 'i, N>>,
    printer: PrintStage<PrintJob<N>>,
    worlds: Vec<TaskEnds<'t, N>>,
    front: TaskEnds<'t, N>,
    poster: SenderEnd<PrintJob<N>>,
    queries: u64,
) -> Closed<'t, N>
    requires all { (ids : RunIds) × IsAllOf N.asked ids back gatherers.items printer worlds.items front poster }
    ensures bases { length result.notes.items ≡ N.asked.bases }
    ensures emptied { result.refused ≡ false → AreEmptied result.notes.items }
    ensures tally { result.refused ≡ false → result.tally ≡ merged_with no_counts (tallies_of gatherers.entry.items worlds.entry.items front.entry) }
    ensures handed { result.refused ≡ false → result.tally.handed ≡ added 0 (puts_of result.notes.items) }
    ensures made { (n : ℕ) → result.refused ≡ false → MakesMore n front.entry.tally → MakesMore n result.tally }
    ensures refused { result.refused ≡ some_refused gatherers.entry.items worlds.entry.items front.entry }
    ensures passes { (ids : RunIds) → IsAllOf N.asked ids back.entry gatherers.entry.items printer worlds.entry.items front.entry poster
        → AreAll ids.cells result.passes.items }
    ensures wrote { (start now : Shown) → HasPrinted N.asked.lines start now printer → queries ≡ length (replies_of N.asked.lines) →
        Wrote N.asked.lines start now result.print.outcome }
    ensures whole { (start now : Shown) → HasPrinted N.asked.lines start now printer → queries ≡ length (replies_of N.asked.lines) →
        IsDone result.print.outcome → IsWhole N.asked.lines printer.base.agenda.exec result.print.queue result.print.tally }
    ensures memory { result.print.outcome ≡ PrintOutcome.Memory → LacksSome printer queries }
{
    let Back {
        columns,
        printer: column,
        notes,
        passes,
    } = back;
    let mut all = Worlds {
        columns,
        passes,
        counted: Counted::new(),
    };
    all.put_all(worlds);
    all.put(front);
    let Worlds {
        columns,
        passes,
        counted,
    } = all;
    let mut bases = Gatherers {
        printer: column,
        notes,
        counted,
    };
    bases.close_all(rt, gatherers, columns);
    let Gatherers {
        printer: mut column,
        notes,
        counted,
    } = bases;
    put_one(&mut column, poster);
    let Column { posters, ends } = column;
    posters.destroy_empty();
    all_are_back::<PrintJob<N>>();
    let print = close_printing(rt, printer, ends, queries);
    let Counted { tally, refused } = counted;
    Closed {
        notes,
        print,
        tally,
        refused,
        passes,
    }
}
