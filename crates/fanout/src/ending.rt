ghost use Rattle.std.specs.Prelude.{◌≡◌, ◌↔◌, IsTrue, length};
ghost use Rattle.fan_base.specs.Outside.{Shown};
ghost use Rattle.fan_model.specs.Answered.{answered_in};
ghost use Rattle.run_printing.specs.Ends.{HasPrinted};
ghost use Rattle.run_setup.specs.Ids.{RunIds};
ghost use Rattle.run_tasks.specs.Leaving.{MakesMore};
ghost use Rattle.run_ending.specs.Ends.{IsEndOf};
ghost use Rattle.fanout.specs.Closing.{DoAgree, IsReadyToClose};
ghost use Rattle.fanout.specs.Plans.{IsPlanned};

use crate::front::SideEnd;
use crate::plan::RunPlan;
use core_cells::CellPass;
use core_word::Tally;
use event_base::QueueNote;
use fan_model::laws::each_query_has_a_reply;
use fan_parts::{PrintJob, RunName};
use run_ending::{FanEnd, is_fine, list_notes};
use run_front::FrontEnds;
use run_notes::{
    accepted_or_late, cores_agree, messages_are_tasks, notes_are_those_of_the_run, puts_agree,
};
use run_phases::FrontLeft;
use run_plan::laws::turns_are_few;
use run_printing::{PrintEnd, PrintStage};
use run_setup::{Back, Closed, close_run, nothing_was_refused};
use run_threads::GatherSlot;
use std::alloc::Global;
use std::sync::Wait;

/// Closes all bases, compares what was counted with what the run has to count, and tells how it ended. Where the numbers don't agree, or a
/// stage notes want of memory, the outcome is want of memory. `opening` is what became of cores before the stages ran: one was begun for each
/// answered query's reply, and none was handed over.
pub(crate) fn put_together<'t, 'r: 't, 'i: 'r, 'l, 'g, N: RunName, G, R: Wait>(
    rt: &R,
    alloc: Global,
    plan: &RunPlan<'l, 'g, N, G>,
    back: Back<'t, N>,
    gatherers: Vec<GatherSlot<'r, 'i, N>>,
    printed: PrintStage<PrintJob<N>>,
    end: SideEnd<'t, N>,
    opening: Tally,
) -> FanEnd
    requires plan { IsPlanned N.asked plan.now.lines.now plan.now.turns.now plan.now.counted.now plan.now.stop plan.now.knobs }
    requires ready { (ids : RunIds) × IsReadyToClose N.asked ids back gatherers.items printed end }
    requires opening { opening.handed ≡ 0 }
    requires begun { MakesMore (length (answered_in N.asked.lines)) opening }
    ensures { (start now : Shown) → HasPrinted N.asked.lines start now printed → IsEndOf N.asked start now result }
{
    each_query_has_a_reply();
    turns_are_few();
    notes_are_those_of_the_run();
    messages_are_tasks();
    accepted_or_late();
    nothing_was_refused::<N>();
    let SideEnd { worlds, left } = end;
    let FrontLeft {
        note,
        ends,
        refused,
    } = left;
    let FrontEnds {
        tasks,
        printer: poster,
    } = ends;
    let queries = plan.turns.len() as u64;
    let Closed {
        notes,
        print,
        tally: others,
        refused: missed,
        passes,
    } = close_run(rt, back, gatherers, printed, worlds, tasks, poster, queries);
    let PrintEnd {
        outcome,
        queue,
        tally: printing,
    } = print;
    let_go(passes);
    let tally = opening.merge(others).merge(printing);
    let agrees = agree(plan, &tally, notes.as_slice());
    let (queues, listed) = list_notes(alloc, notes, queue);
    let fine = is_fine(agrees, listed, refused, missed);
    FanEnd::of_run(fine, outcome, note, queues, tally)
}

/// Lets passes of cells go.
fn let_go<'h, T, C, P>(passes: Vec<CellPass<'h, T, C, P>>) {
    drop(passes);
}

/// Whether as many cores were forwarded, freed and used again, and as many messages were put to each gathering base, as so many answered
/// queries come to. How many were handed over follows from the messages, and how many were made from what the opening and the front began.
fn agree<'l, 'g, N: RunName, G>(
    plan: &RunPlan<'l, 'g, N, G>,
    tally: &Tally,
    notes: &[QueueNote],
) -> bool
    requires plan { IsPlanned N.asked plan.now.lines.now plan.now.turns.now plan.now.counted.now plan.now.stop plan.now.knobs }
    ensures { IsTrue result ↔ DoAgree N.asked plan.now.counted.now tally.now notes.now }
{
    let shards = plan.shards.all().len() as u32;
    cores_agree(plan.counted, shards, tally) && puts_agree(plan.counted, shards, notes)
}
