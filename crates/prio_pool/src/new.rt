// How a pool is made.
ghost use Rattle.std.specs.Prelude.{◌≡◌, ◌+◌, ◌<◌, ◌≤◌, [], length, vec_capacity, vec_len, IfOk};
ghost use Rattle.prio_pool.specs.Made.{HasAll, IsNewPool, IsSize};
ghost use Rattle.prio_pool.specs.Sleeping.{parkers_of, wakers_of, bits_from};

use crate::adders::Adders;
use crate::listed::{adder_passes, helper_passes, more_takers, new_places, worker_passes};
use crate::make::{Counts, Queues, open_queues};
use crate::passes::{HelperPass, PoolPass, WorkerPass};
use crate::pool::Pool;
use crate::sleepers::{OwnParker, OwnWaker, Sleepers, list_parkers};
use crate::takers::Takers;
use fan_base::{ExecId, Memory};
use job_trait::Headed;
use keep_alive::{KeepAlive, KeepOwner};
use std::alloc::Global;
use std::collections::LinkedList;
use std::snapshot::Snapshot;
use task_queue::{EndMark, OpenSeat};

/// A pool with the owner of its keep-alives, the first keep-alive, and all its passes.
pub struct PoolParts<J: Headed> {
    pub pool: Pool<J>,
    pub owner: KeepOwner,
    pub keep: KeepAlive,
    pub adders: Vec<PoolPass<J>>,
    pub workers: Vec<WorkerPass<J>>,
    pub helpers: Vec<HelperPass<J>>,
}

/// How many queues and passes a pool has, and its executor.
#[derive(Clone, Copy)]
pub struct Size {
    pub exec: ExecId,
    pub priorities: u32,
    pub adders: u32,
    pub workers: u32,
    pub helpers: u32,
}

type Keeping = (KeepOwner, KeepAlive);

type Parking = (LinkedList<OwnParker>, Vec<OwnWaker>);

// The room for all passes. Its types are parameters, so that what it does is proved without what passes are.
struct Rooms<A, B, C> {
    adders: Vec<A>,
    workers: Vec<B>,
    helpers: Vec<C>,
}

impl<A, B, C> Rooms<A, B, C> {
    fn new(alloc: Global, adders: u32, workers: u32, helpers: u32) -> Result<Rooms<A, B, C>, Memory>
        ensures empty { IfOk result (λ r. (r.adders.items ≡ []) × (r.workers.items ≡ []) × (r.helpers.items ≡ [])) }
        ensures room { IfOk result (λ r. (vec_capacity r.adders ≡ adders) ×
            (vec_capacity r.workers ≡ workers) × (vec_capacity r.helpers ≡ helpers)) }
    {
        let adders = Vec::with_capacity(alloc, adders as usize)?;
        let Ok(workers) = Vec::with_capacity(alloc, workers as usize) else {
            adders.destroy_empty();
            return Err(Memory);
        };
        let Ok(helpers) = Vec::with_capacity(alloc, helpers as usize) else {
            adders.destroy_empty();
            workers.destroy_empty();
            return Err(Memory);
        };
        Ok(Rooms {
            adders,
            workers,
            helpers,
        })
    }

    fn give_up(self)
        requires { (self.adders.items ≡ []) × (self.workers.items ≡ []) × (self.helpers.items ≡ []) }
    {
        let Rooms {
            adders,
            workers,
            helpers,
        } = self;
        adders.destroy_empty();
        workers.destroy_empty();
        helpers.destroy_empty();
    }

    // The rooms of a pool of this size, the owner of its keep-alives with the first one, which has this room, and what its workers
    // sleep on with what wakes them.
    fn with_keep(
        alloc: Global,
        size: Size,
        room: u32,
    ) -> Result<(Rooms<A, B, C>, Keeping, Parking), Memory>
        requires { size.workers ≤ 64 }
        ensures adders { IfOk result (λ r. (r.0.adders.items ≡ []) × (vec_capacity r.0.adders ≡ size.adders)) }
        ensures workers { IfOk result (λ r. (r.0.workers.items ≡ []) × (vec_capacity r.0.workers ≡ size.workers)) }
        ensures helpers { IfOk result (λ r. (r.0.helpers.items ≡ []) × (vec_capacity r.0.helpers ≡ size.helpers)) }
        ensures keeping { IfOk result (λ r. r.1.1 ≡ record { count = r.1.0.count; room = room; first_room = room }) }
        ensures parkers { IfOk result (λ r. parkers_of r.2.0 ≡ bits_from 0 size.workers) }
        ensures wakers { IfOk result (λ r. wakers_of r.2.1.items ≡ bits_from 0 size.workers) }
    {
        let mut parkers = LinkedList::new(alloc);
        let mut wakers = Vec::new(alloc);
        list_parkers(alloc, size.workers, &mut parkers, &mut wakers)?;
        let rooms = Rooms::new(alloc, size.adders, size.workers, size.helpers)?;
        let Ok(keeping) = KeepOwner::new(alloc, room) else {
            rooms.give_up();
            return Err(Memory);
        };
        Ok((rooms, keeping, (parkers, wakers)))
    }
}

// All of a pool that may be dropped: its queues, its mark with all parts, and the passes over these.
#[derive(Drop)]
struct Inner<J: Headed> {
    queues: Queues<J>,
    mark: EndMark,
    seat: OpenSeat,
    places: LinkedList<LinkedList<Adders<J>>>,
    works: LinkedList<Takers<J>>,
    helps: LinkedList<Takers<J>>,
}

impl<J: Headed> Inner<J> {
    fn new(alloc: Global, size: Size) -> Result<Inner<J>, Memory>
        requires { IsSize size }
        ensures queues { IfOk result (λ i. length i.queues.items ≡ size.priorities) }
        ensures all { IfOk result (λ i. HasAll size.adders size.workers size.helpers i.queues.items i.mark i.seat i.places i.works i.helps) }
    {
        let passes = size.adders + size.workers + size.helpers;
        let (queues, mut makers) = open_queues(alloc, size.priorities, passes)?;
        let (mark, mut seat) = EndMark::new(alloc, size.adders)?;
        let places = new_places(alloc, &queues, &mut makers, &mark, passes, size.adders)?;
        let mut made = Counts {
            passes,
            left: passes - size.adders,
            adders: size.adders,
            takers: 0,
        };
        let works = more_takers(
            alloc,
            &queues,
            &mut makers,
            made,
            size.workers,
            &mark,
            &mut seat,
        )?;
        made.left -= size.workers;
        made.takers = size.workers;
        let helps = more_takers(
            alloc,
            &queues,
            &mut makers,
            made,
            size.helpers,
            &mark,
            &mut seat,
        )?;
        Ok(Inner {
            queues,
            mark,
            seat,
            places,
            works,
            helps,
        })
    }
}

// Puts a pool together.
fn assemble<J: Headed>(
    alloc: Global,
    size: Size,
    inner: Inner<J>,
    keeping: Keeping,
    parking: Parking,
    rooms: Rooms<PoolPass<J>, WorkerPass<J>, HelperPass<J>>,
) -> PoolParts<J>
    requires size { IsSize size }
    requires queues { length inner.queues.items ≡ size.priorities }
    requires all { HasAll size.adders size.workers size.helpers inner.queues.items inner.mark inner.seat inner.places inner.works inner.helps }
    requires keeping { (keeping.0.count ≡ keeping.1.count) × (keeping.1.first_room ≡ keeping.1.room) }
    requires parkers { parkers_of parking.0 ≡ bits_from 0 size.workers }
    requires wakers { wakers_of parking.1.items ≡ bits_from 0 size.workers }
    requires empty { (rooms.adders.items ≡ []) × (rooms.workers.items ≡ []) × (rooms.helpers.items ≡ []) }
    requires room { (vec_capacity rooms.adders ≡ size.adders) ×
        (vec_capacity rooms.workers ≡ size.workers) × (vec_capacity rooms.helpers ≡ size.helpers) }
    ensures { IsNewPool size.exec size.priorities size.adders size.workers size.helpers keeping.1.room
        result.pool result.owner result.keep result.adders.items result.workers.items result.helpers.items }
{
    let Inner {
        queues,
        mark,
        seat,
        places,
        works,
        helps,
    } = inner;
    let (owner, keep) = keeping;
    let (parkers, wakers) = parking;
    let Rooms {
        adders,
        workers,
        helpers,
    } = rooms;
    let adders = adder_passes(places, &mark, seat, adders);
    let workers = worker_passes(works, parkers, workers);
    let helpers = helper_passes(alloc, helps, helpers);
    let mark = mark.kept_by(&keep);
    let pool = Pool {
        queues,
        mark,
        alloc,
        exec: size.exec,
        adders: size.adders,
        workers: size.workers,
        helpers: size.helpers,
        sleepers: Sleepers::new(wakers),
        keep: Snapshot::of(&keep),
    };
    PoolParts {
        pool,
        owner,
        keep,
        adders,
        workers,
        helpers,
    }
}

impl<J: Headed> Pool<J> {
    /// A pool for jobs of this executor, with so many queues and so many passes of each kind: 1 to 256 queues, 1 to 64 adders,
    /// 1 to 64 workers, at most 64 helpers. Its first keep-alive has this room.
    pub fn new(
        alloc: Global,
        exec: ExecId,
        priorities: u32,
        adders: u32,
        workers: u32,
        helpers: u32,
        room: u32,
    ) -> Result<PoolParts<J>, Memory>
        requires priorities { (0 < priorities) × (priorities ≤ 256) }
        requires adders { (0 < adders) × (adders ≤ 64) }
        requires workers { (0 < workers) × (workers ≤ 64) }
        requires helpers { helpers ≤ 64 }
        ensures { IfOk result (λ p. IsNewPool exec priorities adders workers helpers room
            p.pool p.owner p.keep p.adders.items p.workers.items p.helpers.items) }
    {
        let size = Size {
            exec,
            priorities,
            adders,
            workers,
            helpers,
        };
        let inner = Inner::new(alloc, size)?;
        let (rooms, keeping, parking) = Rooms::with_keep(alloc, size, room)?;
        Ok(assemble(alloc, size, inner, keeping, parking, rooms))
    }
}
