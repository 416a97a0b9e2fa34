ghost use Rattle.std.specs.Prelude.{◌≡◌, ◌≤◌, ℕ, [], IfOk, length};
ghost use Rattle.std.specs.List.{All};
ghost use Rattle.run_setup.specs.Rooms.{HasEndRooms, HasRooms, HasSlotRooms, HasWorldRoom};

use core_cells::CellPass;
use event_base::QueueNote;
use fan_base::Memory;
use fan_parts::{BasePoster, GatherJob, RunName};
use notify_queue::SenderEnd;
use prio_pool::{HelperEnd, WorkerEnd};
use run_gathering::PartTable;
use run_tasks::{ShardTask, TaskEnds};
use run_threads::{GatherSlot, TaskSlot};
use std::alloc::Global;

/// Room for the posters of a world, and for their ends.
pub(crate) struct WorldRoom<N: RunName> {
    pub(crate) posters: Vec<BasePoster<GatherJob<N>>>,
    pub(crate) ends: Vec<SenderEnd<GatherJob<N>>>,
}

/// Room for the gathering bases' slots, for the workers, and for what is left of the workers' worlds.
pub(crate) struct SlotRooms<'c, 't, 'r: 't, 'i: 'r, N: RunName> {
    pub(crate) gatherers: Vec<GatherSlot<'r, 'i, N>>,
    pub(crate) workers: Vec<TaskSlot<'c, 't, 'i, N>>,
    pub(crate) worlds: Vec<TaskEnds<'t, N>>,
}

/// Room for the ends of the workers and of the helper.
pub(crate) struct EndRooms<'t, 'i: 't, N: RunName> {
    pub(crate) ends: Vec<WorkerEnd<ShardTask<'t, 'i, N>>>,
    pub(crate) helped: Vec<HelperEnd<ShardTask<'t, 'i, N>>>,
}

/// All room that a run takes beside its bases and its pool.
pub(crate) struct Rooms<'c, 't, 'r: 't, 'i: 'r, N: RunName> {
    pub(crate) worlds: Vec<WorldRoom<N>>,
    pub(crate) slots: SlotRooms<'c, 't, 'r, 'i, N>,
    pub(crate) ends: EndRooms<'t, 'i, N>,
    pub(crate) notes: Vec<QueueNote>,
}

impl<N: RunName> WorldRoom<N> {
    fn new(alloc: Global, bases: u32) -> Result<WorldRoom<N>, Memory>
        ensures { IfOk result (λ room. HasWorldRoom bases room) }
    {
        let posters = Vec::with_capacity(alloc, bases as usize)?;
        let Ok(ends) = Vec::with_capacity(alloc, bases as usize) else {
            posters.destroy_empty();
            return Err(Memory);
        };
        Ok(WorldRoom { posters, ends })
    }

    fn give_up(self)
        requires { (self.posters.items ≡ []) × (self.ends.items ≡ []) }
    {
        let WorldRoom { posters, ends } = self;
        posters.destroy_empty();
        ends.destroy_empty();
    }
}

/// The rooms of so many worlds, for posters to so many bases.
fn world_rooms<N: RunName>(
    alloc: Global,
    count: u32,
    bases: u32,
) -> Result<Vec<WorldRoom<N>>, Memory>
    ensures { IfOk result (λ rooms. (length rooms.items ≡ count) × All (HasWorldRoom bases) rooms.items) }
{
    let mut rooms = Vec::with_capacity(alloc, count as usize)?;
    for _ in 0..count {
        match WorldRoom::new(alloc, bases) {
            Ok(room) => rooms.push_reserved(room),
            Err(Memory) => {
                give_up_worlds(rooms);
                return Err(Memory);
            }
        }
    }
    Ok(rooms)
}

fn give_up_worlds<N: RunName>(rooms: Vec<WorldRoom<N>>)
    requires { (bases : ℕ) × All (HasWorldRoom bases) rooms.items }
{
    let mut rooms = rooms;
    while let Some(room) = rooms.pop() {
        room.give_up();
    }
    rooms.destroy_empty();
}

impl<'c, 't, 'r: 't, 'i: 'r, N: RunName> SlotRooms<'c, 't, 'r, 'i, N> {
    fn new(alloc: Global, workers: u32, bases: u32) -> Result<SlotRooms<'c, 't, 'r, 'i, N>, Memory>
        ensures { IfOk result (λ rooms. HasSlotRooms workers bases rooms) }
    {
        let gatherers = Vec::with_capacity(alloc, bases as usize)?;
        let Ok(all) = Vec::with_capacity(alloc, workers as usize) else {
            gatherers.destroy_empty();
            return Err(Memory);
        };
        let Ok(worlds) = Vec::with_capacity(alloc, workers as usize) else {
            gatherers.destroy_empty();
            all.destroy_empty();
            return Err(Memory);
        };
        Ok(SlotRooms {
            gatherers,
            workers: all,
            worlds,
        })
    }

    fn give_up(self)
        requires { (workers bases : ℕ) × HasSlotRooms workers bases self }
    {
        let SlotRooms {
            gatherers,
            workers,
            worlds,
        } = self;
        gatherers.destroy_empty();
        workers.destroy_empty();
        worlds.destroy_empty();
    }
}

impl<'t, 'i: 't, N: RunName> EndRooms<'t, 'i, N> {
    fn new(alloc: Global, workers: u32) -> Result<EndRooms<'t, 'i, N>, Memory>
        ensures { IfOk result (λ rooms. HasEndRooms workers rooms) }
    {
        let ends = Vec::with_capacity(alloc, workers as usize)?;
        let Ok(helped) = Vec::with_capacity(alloc, 1) else {
            ends.destroy_empty();
            return Err(Memory);
        };
        Ok(EndRooms { ends, helped })
    }

    fn give_up(self)
        requires { (workers : ℕ) × HasEndRooms workers self }
    {
        let EndRooms { ends, helped } = self;
        ends.destroy_empty();
        helped.destroy_empty();
    }
}

impl<'c, 't, 'r: 't, 'i: 'r, N: RunName> Rooms<'c, 't, 'r, 'i, N> {
    /// The room of so many workers and so many bases.
    pub(crate) fn new(
        alloc: Global,
        workers: u32,
        bases: u32,
    ) -> Result<Rooms<'c, 't, 'r, 'i, N>, Memory>
        requires { workers ≤ 32 }
        ensures { IfOk result (λ rooms. HasRooms workers bases rooms) }
    {
        let notes = Vec::with_capacity(alloc, bases as usize)?;
        let ends = EndRooms::new(alloc, workers)?;
        let Ok(slots) = SlotRooms::new(alloc, workers, bases) else {
            ends.give_up();
            return Err(Memory);
        };
        match world_rooms(alloc, workers + 1, bases) {
            Ok(worlds) => Ok(Rooms {
                worlds,
                slots,
                ends,
                notes,
            }),
            Err(Memory) => {
                slots.give_up();
                ends.give_up();
                Err(Memory)
            }
        }
    }

    /// Gives all of it back.
    pub(crate) fn give_up(self)
        requires { (workers bases : ℕ) × HasRooms workers bases self }
    {
        let Rooms {
            worlds,
            slots,
            ends,
            notes: _,
        } = self;
        give_up_worlds(worlds);
        slots.give_up();
        ends.give_up();
    }
}

/// Lets these passes go, with the cells that they are of.
pub(crate) fn drop_passes<'h, T, C, P>(passes: Vec<CellPass<'h, T, C, P>>) {
    let _ = passes;
}

/// Closes these tables: what they await is given up.
pub(crate) fn close_tables<'r, 'i: 'r, N: RunName>(mut tables: Vec<PartTable<'r, 'i, N>>) {
    'tables: while let Some(table) = tables.pop() {
        table.close();
    }
    tables.destroy_empty();
}
