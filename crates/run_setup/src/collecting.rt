//! What the threads have left is put back and counted, part by part.
ghost use Rattle.std.specs.Prelude.{◌≡◌, ◌∷◌, ◌++◌, ◌+◌, ◌-◌, ◌<◌, ◌≤◌, ◌||◌, ℕ, suc, List, [], false, length, map, vec_capacity};
ghost use Rattle.std.specs.List.{list_any};
ghost use Rattle.notify_queue.specs.Ends.{QueueId};
ghost use Rattle.run_bases.specs.Columns.{AreColumns, IsEndRow};
ghost use Rattle.run_notes.specs.Counting.{AreEmptied, IsEmptied, puts_of};
ghost use Rattle.run_setup.specs.Ids.{RunIds};
ghost use Rattle.run_setup.specs.Closing.{AreColumnsBack, AreGathered, AreTaskEnds, AreWorldEnds, IsFullColumn};
ghost use Rattle.run_gathering.specs.Gathering.{no_counts};
ghost use Rattle.core_word.specs.Count.{added};
ghost use Rattle.run_setup.specs.Closing.{IsGatheredSlot, IsPrinterBack, IsPrinterEnd, has_refused, merged, merged_with, tally_of};

use crate::cells::TaskCellPass;
use core_word::Tally;
use event_base::QueueNote;
use fan_parts::{GatherJob, PrintJob, RunName};
use job_trait::Headed;
use notify_queue::SenderEnd;
use run_bases::{Column, all_are_back, put_one, put_row};
use run_gathering::{GatherEnd, close_gathering};
use run_tasks::TaskEnds;
use run_threads::GatherSlot;
use std::mem::replace;
use std::sync::Wait;

/// The tallies of worlds and stages, added up, and whether one of them notes want of memory.
pub(crate) struct Counted {
    pub(crate) tally: Tally,
    pub(crate) refused: bool,
}

/// What is put back of worlds: the ends of their posters, by base, and their passes.
pub(crate) struct Worlds<'t, N: RunName> {
    pub(crate) columns: Vec<Column<GatherJob<N>>>,
    pub(crate) passes: Vec<TaskCellPass<'t, N>>,
    pub(crate) counted: Counted,
}

/// What is put back of gathering bases: the ends of their posters to the printer's base, and the notes of their queues.
pub(crate) struct Gatherers<N: RunName> {
    pub(crate) printer: Column<PrintJob<N>>,
    pub(crate) notes: Vec<QueueNote>,
    pub(crate) counted: Counted,
}

impl Counted {
    /// Nothing is counted.
    pub(crate) fn new() -> Counted
        ensures tally { result.tally ≡ no_counts }
        ensures refused { result.refused ≡ false }
    {
        Counted {
            tally: Tally::new(),
            refused: false,
        }
    }

    fn add(&mut self, tally: Tally, refused: bool)
        ensures tally { self.new.tally ≡ merged self.old.tally tally }
        ensures refused { self.new.refused ≡ self.old.refused || refused }
    {
        let all = replace(&mut self.tally, Tally::new());
        self.tally = all.merge(tally);
        self.refused = self.refused || refused;
    }
}

/// Puts the ends of a row back, each into its column.
fn put_ends<J: Headed>(columns: &mut Vec<Column<J>>, row: Vec<SenderEnd<J>>)
    requires { (queues : List QueueId) × (first senders left low : ℕ) × AreColumns J.head queues first senders left (suc low) columns.old.items
        × IsEndRow J.head queues first low row.items }
    ensures { (queues : List QueueId) (first senders left low : ℕ) → AreColumns J.head queues first senders left (suc low) columns.old.items
        → IsEndRow J.head queues first low row.items
        → AreColumns J.head queues first senders left low columns.new.items }
{
    put_row(columns.as_mut_slice(), row);
}

impl<'t, N: RunName> Worlds<'t, N> {
    /// Puts back and counts what is left of a world.
    pub(crate) fn put(&mut self, ends: TaskEnds<'t, N>)
        requires back { (ids : RunIds) × (number : ℕ) × AreColumnsBack ids (suc number) self.old.columns.items × AreTaskEnds ids number ends }
        requires room { length self.old.passes.items < vec_capacity self.old.passes }
        ensures columns { (ids : RunIds) (number : ℕ) → AreColumnsBack ids (suc number) self.old.columns.items → AreTaskEnds ids number ends.entry
            → AreColumnsBack ids number self.new.columns.items }
        ensures pass { self.new.passes.items ≡ self.old.passes.items ++ ends.entry.pass ∷ [] }
        ensures capacity { vec_capacity self.new.passes ≡ vec_capacity self.old.passes }
        ensures tally { self.new.counted.tally ≡ merged self.old.counted.tally ends.entry.tally }
        ensures refused { self.new.counted.refused ≡ self.old.counted.refused || ends.entry.refused }
    {
        let TaskEnds {
            posters,
            pass,
            tally,
            refused,
        } = ends;
        put_ends(&mut self.columns, posters);
        self.passes.push_reserved(pass);
        self.counted.add(tally, refused);
    }

    /// Puts back and counts what is left of the workers' worlds.
    pub(crate) fn put_all(&mut self, worlds: Vec<TaskEnds<'t, N>>)
        requires back { (ids : RunIds) × AreColumnsBack ids (suc ids.workers) self.old.columns.items × AreWorldEnds ids worlds.items }
        requires room { length self.old.passes.items + length worlds.items ≤ vec_capacity self.old.passes }
        ensures columns { (ids : RunIds) → AreColumnsBack ids (suc ids.workers) self.old.columns.items → AreWorldEnds ids worlds.entry.items
            → AreColumnsBack ids 1 self.new.columns.items }
        ensures passes { self.new.passes.items ≡ self.old.passes.items ++ map (λ w. w.pass) worlds.entry.items }
        ensures capacity { vec_capacity self.new.passes ≡ vec_capacity self.old.passes }
        ensures tally { self.new.counted.tally ≡ merged_with self.old.counted.tally (map (λ w. w.tally) worlds.entry.items) }
        ensures refused { self.new.counted.refused ≡ self.old.counted.refused || list_any (λ w. w.refused) worlds.entry.items }
    {
        let mut left = worlds.into_iter();
        while let Some(world) = left.next() {
            self.put(world);
        }
        left.destroy_empty();
    }
}

/// Closes a gathering base that has run, with the ends of all its posters.
fn close_slot<'r, 'i: 'r, N: RunName, R: Wait>(
    rt: &R,
    slot: GatherSlot<'r, 'i, N>,
    column: Column<GatherJob<N>>,
) -> GatherEnd<N>
    requires { (ids : RunIds) × (k : ℕ) × IsGatheredSlot N.asked ids k slot × IsFullColumn ids k column }
    ensures emptied { (ids : RunIds) (k : ℕ) → IsGatheredSlot N.asked ids k slot.entry → result.refused ≡ false → IsEmptied (1 + k) result.queue }
    ensures printer { (ids : RunIds) (k : ℕ) → IsGatheredSlot N.asked ids k slot.entry → IsPrinterEnd N.asked ids (N.asked.bases - k) result.printer }
    ensures tally { (ids : RunIds) (k : ℕ) → IsGatheredSlot N.asked ids k slot.entry → result.refused ≡ false
        → result.tally ≡ tally_of slot.entry.stage }
    ensures handed { (ids : RunIds) (k : ℕ) → IsGatheredSlot N.asked ids k slot.entry → result.refused ≡ false
        → result.tally.handed ≡ added 0 result.queue.put }
    ensures refused { result.refused ≡ has_refused slot.entry.stage }
{
    let GatherSlot {
        base,
        printer,
        table,
        shards: _,
        stage,
        alloc: _,
    } = slot;
    let None = base else { unreachable!() };
    let None = printer else { unreachable!() };
    let None = table else { unreachable!() };
    let Some(stage) = stage else { unreachable!() };
    let Column { posters, ends } = column;
    posters.destroy_empty();
    all_are_back::<GatherJob<N>>();
    close_gathering(rt, stage, ends)
}

impl<N: RunName> Gatherers<N> {
    /// Puts back and counts what is left of a gathering base.
    fn put(&mut self, end: GatherEnd<N>)
        requires back { (ids : RunIds) × (low : ℕ) × IsPrinterBack N.asked ids (suc low) self.old.printer }
        requires room { length self.old.notes.items < vec_capacity self.old.notes }
        ensures note { self.new.notes.items ≡ self.old.notes.items ++ end.queue ∷ [] }
        ensures capacity { vec_capacity self.new.notes ≡ vec_capacity self.old.notes }
        ensures printer { (ids : RunIds) (low : ℕ) → IsPrinterBack N.asked ids (suc low) self.old.printer
            → IsPrinterEnd N.asked ids low end.printer → IsPrinterBack N.asked ids low self.new.printer }
        ensures tally { self.new.counted.tally ≡ merged self.old.counted.tally end.tally }
        ensures refused { self.new.counted.refused ≡ self.old.counted.refused || end.refused }
    {
        let GatherEnd {
            queue,
            printer,
            tally,
            refused,
        } = end;
        put_one(&mut self.printer, printer);
        self.notes.push_reserved(queue);
        self.counted.add(tally, refused);
    }

    /// Closes all gathering bases, by base.
    pub(crate) fn close_all<'r, 'i: 'r, R: Wait>(
        &mut self,
        rt: &R,
        slots: Vec<GatherSlot<'r, 'i, N>>,
        columns: Vec<Column<GatherJob<N>>>,
    )
        requires bases { (ids : RunIds) × (length ids.queues ≡ N.asked.bases) × AreGathered N.asked ids slots.items
            × AreColumnsBack ids 0 columns.items × IsPrinterBack N.asked ids (suc N.asked.bases) self.old.printer }
        requires empty { self.old.notes.items ≡ [] }
        requires room { N.asked.bases ≤ vec_capacity self.old.notes }
        ensures bases { length self.new.notes.items ≡ N.asked.bases }
        ensures emptied { list_any (λ s. has_refused s.stage) slots.entry.items ≡ false → AreEmptied self.new.notes.items }
        ensures printer { (ids : RunIds) → length ids.queues ≡ N.asked.bases → AreGathered N.asked ids slots.entry.items
            → AreColumnsBack ids 0 columns.items
            → IsPrinterBack N.asked ids (suc N.asked.bases) self.old.printer → IsPrinterBack N.asked ids 1 self.new.printer }
        ensures tally { list_any (λ s. has_refused s.stage) slots.entry.items ≡ false →
            self.new.counted.tally ≡ merged_with self.old.counted.tally (map (λ s. tally_of s.stage) slots.entry.items) }
        ensures handed { list_any (λ s. has_refused s.stage) slots.entry.items ≡ false → self.old.counted.tally.handed ≡ 0 →
            self.new.counted.tally.handed ≡ added 0 (puts_of self.new.notes.items) }
        ensures refused { self.new.counted.refused ≡ self.old.counted.refused || list_any (λ s. has_refused s.stage) slots.entry.items }
    {
        let mut columns = columns.into_iter();
        let mut left = slots.into_iter();
        while let Some(slot) = left.next() {
            let Some(column) = columns.next() else {
                unreachable!()
            };
            let end = close_slot(rt, slot, column);
            self.put(end);
        }
        left.destroy_empty();
        columns.destroy_empty();
    }
}
