//! The posters are dealt out: to the worlds, and to the gathering bases.
ghost use Rattle.std.specs.Prelude.{◌≡◌, ◌+◌, ◌≤◌, ℕ, suc, List, [], length, map, vec_capacity};
ghost use Rattle.notify_queue.specs.Ends.{QueueId};
ghost use Rattle.fan_model.specs.Tasks.{printer_exec};
ghost use Rattle.prio_pool.specs.Made.{new_workers};
ghost use Rattle.pool_model.specs.Seen.{PoolId};
ghost use Rattle.run_bases.specs.Columns.{AreColumns};
ghost use Rattle.run_tasks.specs.Worlds.{told_of};
ghost use Rattle.run_setup.specs.Ids.{RunIds};
ghost use Rattle.run_setup.specs.Opening.{AreNewBases, IsDealing, IsPrinterColumn};
ghost use Rattle.run_setup.specs.Rows.{row_of};
ghost use Rattle.run_setup.specs.Slots.{AreGatherSlots, AreWorkers, HaveTables, IsNewWorld};

use crate::cells::{TaskCellPass, TaskCells};
use crate::rooms::WorldRoom;
use event_base::EventBase;
use fan_base::ExecId;
use fan_parts::{BasePoster, GatherJob, PrintJob, RunName, RunShards};
use job_trait::Headed;
use prio_pool::WorkerPass;
use run_bases::{Column, take_one};
use run_gathering::PartTable;
use run_tasks::{ShardTask, TaskWorld};
use run_threads::{GatherSlot, TaskSlot, WorkerSlot};
use std::alloc::Global;

/// What worlds are made of: the cells with a pass for each, the shards, the posters to the gathering bases, and room for each.
pub(crate) struct Dealing<'c, 't, 'i: 't, N: RunName> {
    pub(crate) cells: &'c TaskCells<'t, N>,
    pub(crate) passes: Vec<TaskCellPass<'t, N>>,
    pub(crate) shards: RunShards<'i, N>,
    pub(crate) columns: Vec<Column<GatherJob<N>>>,
    pub(crate) rooms: Vec<WorldRoom<N>>,
}

/// Takes the last poster of each column. The column at place k is that of the base with the executor 1 + k.
fn deal_row<J: Headed>(columns: &mut Vec<Column<J>>, row: &mut Vec<BasePoster<J>>)
    requires row { row.old.items ≡ [] }
    requires room { length columns.old.items ≤ vec_capacity row.old }
    requires few { length columns.old.items ≤ 8 }
    requires left { (queues : List QueueId) × (senders left low : ℕ) × AreColumns J.head queues 1 senders (suc left) low columns.old.items }
    ensures row { (queues : List QueueId) (senders left low : ℕ) → AreColumns J.head queues 1 senders (suc left) low columns.old.items
        → map told_of row.new.items ≡ row_of left queues }
    ensures columns { (queues : List QueueId) (senders left low : ℕ) → AreColumns J.head queues 1 senders (suc left) low columns.old.items
        → AreColumns J.head queues 1 senders left low columns.new.items }
{
    for place in 0..columns.len() {
        let poster = take_one(&mut columns[place]);
        row.push_reserved(BasePoster::new(poster, ExecId(1 + place as u32)));
    }
}

impl<'c, 't, 'i: 't, N: RunName> Dealing<'c, 't, 'i, N> {
    /// The next world, with the last poster to each gathering base.
    pub(crate) fn next_world(&mut self) -> TaskWorld<'c, 't, 'i, N>
        requires few { N.asked.bases ≤ 8 }
        requires left { (ids : RunIds) × (left : ℕ) × IsDealing N.asked ids (suc left) self.old }
        ensures world { (ids : RunIds) (left : ℕ) → IsDealing N.asked ids (suc left) self.old → IsNewWorld ids left result }
        ensures rest { (ids : RunIds) (left : ℕ) → IsDealing N.asked ids (suc left) self.old → IsDealing N.asked ids left self.new }
    {
        let Some(room) = self.rooms.pop() else {
            unreachable!()
        };
        let Some(pass) = self.passes.pop() else {
            unreachable!()
        };
        let WorldRoom { mut posters, ends } = room;
        deal_row(&mut self.columns, &mut posters);
        TaskWorld::new(self.shards.again(), self.cells, pass, posters, ends)
    }

    /// All workers, by number.
    pub(crate) fn all_workers(
        &mut self,
        passes: Vec<WorkerPass<ShardTask<'t, 'i, N>>>,
        room: Vec<TaskSlot<'c, 't, 'i, N>>,
    ) -> Vec<TaskSlot<'c, 't, 'i, N>>
        requires few { N.asked.bases ≤ 8 }
        requires empty { room.items ≡ [] }
        requires room { length passes.items ≤ vec_capacity room }
        requires passes { (pool : PoolId) × (passes.items ≡ new_workers pool 0 (length passes.items)) }
        requires left { (ids : RunIds) × (length passes.items ≡ ids.workers) × IsDealing N.asked ids (suc ids.workers) self.old }
        ensures workers { (pool : PoolId) (ids : RunIds) → passes.entry.items ≡ new_workers pool 0 ids.workers
            → IsDealing N.asked ids (suc ids.workers) self.old → AreWorkers ids pool result.items }
        ensures rest { (ids : RunIds) → length passes.entry.items ≡ ids.workers → IsDealing N.asked ids (suc ids.workers) self.old
            → IsDealing N.asked ids 1 self.new }
    {
        let mut workers = room;
        let mut left = passes.into_iter();
        while let Some(pass) = left.next() {
            let world = self.next_world();
            workers.push_reserved(WorkerSlot {
                pass: Some(pass),
                end: None,
                world,
            });
        }
        left.destroy_empty();
        workers
    }
}

/// The slots of all gathering bases, by base, each with the last poster of the printer's column and its table: the first base has the first.
pub(crate) fn gather_slots<'r, 'i: 'r, N: RunName>(
    alloc: Global,
    bases: Vec<EventBase<GatherJob<N>>>,
    printer: ExecId,
    column: &mut Column<PrintJob<N>>,
    shards: &RunShards<'i, N>,
    tables: Vec<PartTable<'r, 'i, N>>,
    room: Vec<GatherSlot<'r, 'i, N>>,
) -> Vec<GatherSlot<'r, 'i, N>>
    requires printer { printer ≡ printer_exec N.asked.bases }
    requires empty { room.items ≡ [] }
    requires room { length bases.items ≤ vec_capacity room }
    requires tables { length tables.items ≡ length bases.items }
    requires bases { (ids : RunIds) × AreNewBases N.asked ids bases.items × IsPrinterColumn N.asked ids (suc N.asked.bases) column.old }
    ensures slots { (ids : RunIds) → AreNewBases N.asked ids bases.items → IsPrinterColumn N.asked ids (suc N.asked.bases) column.old
        → AreGatherSlots N.asked ids result.items }
    ensures tables { HaveTables result.items tables.entry.items }
    ensures column { (ids : RunIds) → AreNewBases N.asked ids bases.items → IsPrinterColumn N.asked ids (suc N.asked.bases) column.old
        → IsPrinterColumn N.asked ids 1 column.new }
{
    let mut slots = room;
    let mut given = tables.into_iter();
    let mut left = bases.into_iter();
    while let Some(base) = left.next() {
        let Some(table) = given.next() else {
            unreachable!()
        };
        let poster = BasePoster::new(take_one(&mut *column), printer);
        slots.push_reserved(GatherSlot {
            base: Some(base),
            printer: Some(poster),
            table: Some(table),
            shards: shards.again(),
            stage: None,
            alloc,
        });
    }
    left.destroy_empty();
    given.destroy_empty();
    slots
}
