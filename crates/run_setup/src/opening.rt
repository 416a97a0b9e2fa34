ghost use Rattle.std.specs.Prelude.{◌≡◌, ◌+◌, ◌≤◌, IfOk, length};
ghost use Rattle.core_cells.specs.Seen.{AreAll};
ghost use Rattle.run_setup.specs.Ids.{RunIds};
ghost use Rattle.run_setup.specs.Opening.{HasOpened, IsSetup};
ghost use Rattle.run_setup.specs.Rooms.{HasRooms};
ghost use Rattle.run_setup.specs.Slots.{HaveTables};

use crate::cells::{TaskCellPass, TaskCells};
use crate::closing::Back;
use crate::dealing::{Dealing, gather_slots};
use crate::opened::{Opened, open_all};
use crate::rooms::{EndRooms, Rooms, SlotRooms, close_tables, drop_passes};
use crate::workers::WorkerEnds;
use event_base::EventBase;
use fan_base::{ExecId, Memory};
use fan_parts::{BasePoster, PrintJob, RunName, RunShards};
use keep_alive::{KeepAlive, KeepOwner};
use prio_pool::{HelperEnd, HelperPass, Pool, PoolParts, PoolPass};
use run_bases::{Bases, take_one};
use run_gathering::PartTable;
use run_tasks::{ShardTask, TaskWorld};
use run_threads::{GatherSlot, TaskSlot};
use std::alloc::Global;
use std::sync::Wait;

/// All that a run over threads needs beside its homes.
pub struct Setup<'c, 't, 'r: 't, 'i: 'r, N: RunName> {
    /// The slots of the gathering bases, by base.
    pub gatherers: Vec<GatherSlot<'r, 'i, N>>,
    /// The printer's base.
    pub printer: EventBase<PrintJob<N>>,
    /// The slots of the workers, by number.
    pub workers: Vec<TaskSlot<'c, 't, 'i, N>>,
    /// The front's world.
    pub world: TaskWorld<'c, 't, 'i, N>,
    /// The front's poster to the printer's base.
    pub poster: BasePoster<PrintJob<N>>,
    pub pool: Pool<ShardTask<'t, 'i, N>>,
    pub owner: KeepOwner,
    pub keep: KeepAlive,
    /// The one adder of the pool.
    pub adders: Vec<PoolPass<ShardTask<'t, 'i, N>>>,
    pub helper: HelperPass<ShardTask<'t, 'i, N>>,
    /// Room for what the workers leave.
    pub ends: WorkerEnds<'t, 'i, N>,
    /// Room for the end of the helper.
    pub helped: Vec<HelperEnd<ShardTask<'t, 'i, N>>>,
    /// Room for the ends of all posters.
    pub back: Back<'t, N>,
}

/// Opens a run with 1 to 32 workers and 1 to 8 gathering bases. `passes` are all passes of the cells, one for each worker and one for the front, and `tables`
/// those of the awaited parts, one for each gathering base: the first base gets the first.
/// Where memory runs out, all that was opened is closed again.
pub fn open_run<'c, 't, 'r: 't, 'i: 'r, N: RunName + 'static, R: Wait>(
    rt: &R,
    alloc: Global,
    cells: &'c TaskCells<'t, N>,
    passes: Vec<TaskCellPass<'t, N>>,
    shards: &RunShards<'i, N>,
    tables: Vec<PartTable<'r, 'i, N>>,
    workers: u32,
    bases: u32,
) -> Result<Setup<'c, 't, 'r, 'i, N>, Memory>
    requires workers { (1 ≤ workers) × (workers ≤ 32) }
    requires few { (1 ≤ bases) × (bases ≤ 8) }
    requires bases { bases ≡ N.asked.bases }
    requires passes { length passes.items ≡ workers + 1 }
    requires all { AreAll cells.now passes.items }
    requires tables { length tables.items ≡ bases }
    ensures setup { IfOk result (λ setup. (ids : RunIds) × (ids.workers ≡ workers) × (ids.cells ≡ cells.now) × IsSetup N.asked ids setup) }
    ensures tables { IfOk result (λ setup. HaveTables setup.gatherers.items tables.entry.items) }
{
    let Ok(rooms) = Rooms::new(alloc, workers, bases) else {
        close_tables(tables);
        drop_passes(passes);
        return Err(Memory);
    };
    match open_all(rt, alloc, workers, bases) {
        Ok(opened) => Ok(deal_out(
            alloc, cells, passes, shards, tables, workers, bases, rooms, opened,
        )),
        Err(Memory) => {
            rooms.give_up();
            close_tables(tables);
            drop_passes(passes);
            Err(Memory)
        }
    }
}

/// Deals out the posters and the passes, and puts all parts together. It takes no memory.
fn deal_out<'c, 't, 'r: 't, 'i: 'r, N: RunName>(
    alloc: Global,
    cells: &'c TaskCells<'t, N>,
    passes: Vec<TaskCellPass<'t, N>>,
    shards: &RunShards<'i, N>,
    tables: Vec<PartTable<'r, 'i, N>>,
    workers: u32,
    bases: u32,
    rooms: Rooms<'c, 't, 'r, 'i, N>,
    opened: Opened<'t, 'i, N>,
) -> Setup<'c, 't, 'r, 'i, N>
    requires bases { (bases ≡ N.asked.bases) × (bases ≤ 8) }
    requires passes { length passes.items ≡ workers + 1 }
    requires all { AreAll cells.now passes.items }
    requires tables { length tables.items ≡ bases }
    requires rooms { HasRooms workers bases rooms }
    requires opened { HasOpened N.asked workers bases opened }
    ensures setup { (ids : RunIds) × (ids.workers ≡ workers) × (ids.cells ≡ cells.now) × IsSetup N.asked ids result }
    ensures tables { HaveTables result.gatherers.items tables.entry.items }
{
    let Rooms {
        worlds,
        slots,
        ends,
        notes,
    } = rooms;
    let EndRooms { ends, helped } = ends;
    let SlotRooms {
        gatherers,
        workers: all,
        worlds: left,
    } = slots;
    let Opened {
        gathering,
        printer,
        mut column,
        parts,
    } = opened;
    let Bases {
        bases: gathering,
        columns,
    } = gathering;
    let PoolParts {
        pool,
        owner,
        keep,
        adders,
        workers: takers,
        mut helpers,
    } = parts;
    let exec = ExecId(bases + 1);
    let gatherers = gather_slots(
        alloc,
        gathering,
        exec,
        &mut column,
        shards,
        tables,
        gatherers,
    );
    let poster = BasePoster::new(take_one(&mut column), exec);
    let mut dealing = Dealing {
        cells,
        passes,
        shards: shards.again(),
        columns,
        rooms: worlds,
    };
    let all = dealing.all_workers(takers, all);
    let world = dealing.next_world();
    let Dealing {
        cells: _,
        passes,
        shards: _,
        columns,
        rooms,
    } = dealing;
    rooms.destroy_empty();
    let Some(helper) = helpers.pop() else {
        unreachable!()
    };
    helpers.destroy_empty();
    Setup {
        gatherers,
        printer,
        workers: all,
        world,
        poster,
        pool,
        owner,
        keep,
        adders,
        helper,
        ends: WorkerEnds { ends, worlds: left },
        helped,
        back: Back {
            columns,
            printer: column,
            notes,
            passes,
        },
    }
}
