ghost use Rattle.std.specs.Prelude.{◌≡◌, [], length};
ghost use Rattle.std.specs.Bool.{OnFalse, OnTrue};
ghost use Rattle.fan_base.specs.Outside.{Shown, shown};
ghost use Rattle.query_model.specs.Order.{replies_of};
ghost use Rattle.notify_queue.specs.Ends.{AreAllEnds, IsDry};
ghost use Rattle.event_base.specs.declared.round.RoundMemory.{RoundMemory};
ghost use Rattle.event_base.specs.Looping.{IsCutLoop};
ghost use Rattle.event_base.specs.Laws.{IsIdle, LeaveTheAgenda, RunsMessages};
ghost use Rattle.fan_model.specs.Tasks.{printer_exec};
ghost use Rattle.run_printing.specs.Ends.{AreAllTaken, EndsAs, HasPrinted, IsBaseOf, IsDone, IsNewBase, IsWhole, LacksSome, WasCut, Wrote};
ghost use Rattle.run_printing.specs.Worlds.{IsNewWorld, sink_of};

use crate::world::PrintWorld;
use core_word::Tally;
use event_base::{
    BaseEnd, BaseRest, EventBase, LoopJob, QueueNote, a_loop_of_messages, rounds_keep_the_base,
};
use fan_base::Sink;
use fan_model::laws::answers_in_order;
use fan_parts::{PrintJob, RunName, spend_print_job};
use job_trait::Headed;
use notify_queue::SenderEnd;
use reply_printer::laws::{a_new_printer_prints, each_reply_was_given_once, what_is_written};
use reply_printer::{Printer, Progress};
use std::alloc::Global;
use std::sync::Wait;

/// The printer's base, once it is closed or found no memory for a round, and what was printed. It must be spent by
/// [`close_printing`].
pub struct PrintStage<J> {
    base: EventBase<J>,
    printer: Printer,
    tally: Tally,
    missed: bool,
    closed: bool,
}

/// How printing ended.
#[derive(Clone, Copy, Debug, PartialEq, Eq)]
pub enum PrintOutcome {
    /// The lines of all replies were written.
    Done,
    /// Some reply or its line found no memory, here or where it was made; the others may be written.
    Memory,
    /// All replies came, and a write failed. Nothing was written behind it.
    WriteFault,
}

/// The end of printing: what the base's queue had, and what was counted on it.
#[derive(Drop)]
pub struct PrintEnd {
    pub outcome: PrintOutcome,
    pub queue: QueueNote,
    pub tally: Tally,
}

/// Runs the printer's base until all its posters have ended and it has run all that they posted, or until a round finds no memory. Each reply
/// is printed at its place. A core that fired without a reply is noted, and the others are printed all the same.
pub fn print_replies<N: RunName, K: Sink, R: Wait>(
    rt: &R,
    alloc: Global,
    base: EventBase<PrintJob<N>>,
    sink: &mut K,
) -> PrintStage<PrintJob<N>>
    requires { IsNewBase base }
    ensures printed { HasPrinted N.asked.lines (shown (K.holds sink.old) (K.faults sink.old)) (shown (K.holds sink.new) (K.faults sink.new)) result }
    ensures base { IsBaseOf base result.base }
    ensures cut { OnFalse result.closed (WasCut ⟦<PrintJob<N> as Headed>⟧.head N.asked.lines K.holds K.faults sink.old sink.new base result) }
{
    let mut base = base;
    let mut printer = Printer::new(alloc);
    let mut tally = Tally::new();
    let mut world = PrintWorld {
        alloc,
        printer: &mut printer,
        sink,
        tally: &mut tally,
        missed: false,
    };
    let closed = print_all(rt, &mut base, &mut world);
    let PrintWorld {
        alloc: _,
        printer: _,
        sink: _,
        tally: _,
        missed,
    } = world;
    PrintStage {
        base,
        printer,
        tally,
        missed,
        closed,
    }
}

// Runs a new base in a new world, and says whether it was closed.
fn print_all<N: RunName, K: Sink, R: Wait>(
    rt: &R,
    base: &mut EventBase<PrintJob<N>>,
    world: &mut PrintWorld<'_, K>,
) -> bool
    requires base { IsNewBase base.old }
    requires world { IsNewWorld world.old }
    ensures printed { HasPrinted N.asked.lines (sink_of K.holds K.faults world.old) (sink_of K.holds K.faults world.new)
        (record { base = base.new; printer = world.new.printer.now; tally = world.new.tally.now; missed = world.new.missed; closed = result }) }
    ensures base { IsBaseOf base.old base.new }
    ensures cut { OnFalse result (WasCut ⟦<PrintJob<N> as Headed>⟧.head N.asked.lines K.holds K.faults world.old.sink.now world.new.sink.now base.old
        (record { base = base.new; printer = world.new.printer.now; tally = world.new.tally.now; missed = world.new.missed; closed = result })) }
    ensures same_printer { world.new.printer.ghost_name ≡ world.old.printer.ghost_name }
    ensures same_tally { world.new.tally.ghost_name ≡ world.old.tally.ghost_name }
    ensures same_sink { world.new.sink.ghost_name ≡ world.old.sink.ghost_name }
{
    a_new_printer_prints();
    loop_to_end(rt, base, world)
}

// Runs a base whose jobs leave the agenda alone, and says whether it was closed.
fn loop_to_end<W, J: LoopJob<W>, R: Wait>(rt: &R, base: &mut EventBase<J>, world: &mut W) -> bool
    requires leave { LeaveTheAgenda J.runs }
    requires idle { IsIdle base.old.agenda }
    ensures ran { RunsMessages J.head J.runs world.old base.old world.new base.new }
    ensures same { IsBaseOf base.old base.new }
    ensures closed { OnTrue result (IsDry base.new.queue) }
    ensures cut { OnFalse result ((fault : RoundMemory) × IsCutLoop J.head J.runs fault world.old base.old world.new base.new) }
{
    a_loop_of_messages::<W, J>();
    rounds_keep_the_base::<W, J>();
    match base.loop_until_closed(rt, world) {
        Ok(_) => true,
        Err(_) => false,
    }
}

/// Ends the stage, with the ends of all its base's posters and the number of queries of the input, and says how it went. Messages that the base
/// did not take are spent: a fire is unpacked, and its reply is dropped.
pub fn close_printing<N: RunName, R: Wait>(
    rt: &R,
    stage: PrintStage<PrintJob<N>>,
    ends: Vec<SenderEnd<PrintJob<N>>>,
    queries: u64,
) -> PrintEnd
    requires ends { AreAllEnds stage.base.queue ends.items }
    requires exec { stage.base.agenda.exec ≡ printer_exec N.asked.bases }
    ensures wrote { (start now : Shown) → HasPrinted N.asked.lines start now stage → queries ≡ length (replies_of N.asked.lines) →
        Wrote N.asked.lines start now result.outcome }
    ensures whole { (start now : Shown) → HasPrinted N.asked.lines start now stage → queries ≡ length (replies_of N.asked.lines) →
        IsDone result.outcome → IsWhole N.asked.lines stage.base.agenda.exec result.queue result.tally }
    ensures in_order { (start now : Shown) → HasPrinted N.asked.lines start now stage → IsDone result.outcome
        → AreAllTaken stage.base.queue.taken ends.items }
    ensures memory { result.outcome ≡ PrintOutcome.Memory → LacksSome stage queries }
{
    each_reply_was_given_once();
    what_is_written();
    answers_in_order();
    let outcome = stage.outcome(queries);
    let PrintStage {
        base,
        printer: _,
        mut tally,
        missed: _,
        closed: _,
    } = stage;
    let BaseEnd { queue, rest } = base.close(rt, ends);
    spend_rest(rest, &mut tally);
    PrintEnd {
        outcome,
        queue,
        tally,
    }
}

impl<J> PrintStage<J> {
    // How it ends, where so many queries were asked.
    fn outcome(&self, queries: u64) -> PrintOutcome
        ensures { EndsAs self.now queries result }
    {
        if !self.closed || self.missed || self.printer.next_place() != queries {
            return PrintOutcome::Memory;
        }
        match self.printer.progress() {
            Progress::Writing => PrintOutcome::Done,
            Progress::WriteFault => PrintOutcome::WriteFault,
            Progress::Memory | Progress::Repeated => PrintOutcome::Memory,
        }
    }
}

// Spends what is left of a base. Where nothing is left, nothing is counted.
fn spend_rest<N: RunName>(rest: BaseRest<PrintJob<N>>, tally: &mut Tally)
    ensures { rest.jobs ≡ [] → tally.new ≡ tally.old }
{
    let mut rest = rest;
    'jobs: while let Some(job) = rest.pop() {
        spend_print_job(job, tally);
    }
    rest.end();
}
