// The passes of all adders, workers and helpers, as a pool is made: what may fail first, then what can't.
ghost use Rattle.std.specs.Prelude.{◌≡◌, ◌+◌, ◌-◌, ◌<◌, ◌≤◌, List, [], ◌∷◌, length, map, vec_capacity, vec_len, All, None, IfOk, OnOk};
ghost use Rattle.pool_model.specs.Seen.{PassSeen};
ghost use Rattle.prio_pool.specs.Made.{counted, makers_of, id_over, with_takers, new_passes, new_takers_from, in_places, IsPlace, worker_seen, helper_seen};
ghost use Rattle.prio_pool.specs.Passes.{TookNothing};
ghost use Rattle.prio_pool.specs.Sleeping.{parkers_of, bits_of};

use crate::adders::Adders;
use crate::made::{new_place, new_takers};
use crate::make::{Counts, Makers, Queues};
use crate::passes::{HelperPass, PoolPass, WorkerPass};
use crate::sleepers::OwnParker;
use crate::takers::Takers;
use fan_base::Memory;
use job_trait::Headed;
use pool_runs::Records;
use std::alloc::{AllocError, Global};
use std::collections::LinkedList;
use task_queue::{EndMark, OpenSeat};

/// The passes of so many adders, in order, each in a place of its own.
pub fn new_places<J: Headed>(
    alloc: Global,
    queues: &Queues<J>,
    makers: &mut Makers<J>,
    mark: &EndMark,
    passes: u32,
    adders: u32,
) -> Result<LinkedList<LinkedList<Adders<J>>>, Memory>
    requires makers { makers.old.items ≡ makers_of (counted passes 0) queues.now.items }
    requires few { (adders ≤ 64) × (adders ≤ passes) }
    ensures makers { OnOk result (makers.new.items ≡ makers_of (counted passes adders) queues.now.items) }
    ensures places { IfOk result (λ list. list ≡ in_places (new_passes (id_over queues.now.items passes mark.now.mark) 0 adders)) }
{
    let mut list = LinkedList::new(alloc);
    for number in 0..adders {
        let counts = Counts {
            passes,
            left: passes - number,
            adders: number,
            takers: 0,
        };
        let place = new_place(alloc, queues, makers, counts, mark)?;
        list.push_back(place).map_err(AllocError::from)?;
    }
    Ok(list)
}

/// The passes of so many workers or helpers, in order, whose numbers begin with the first.
pub fn more_takers<J: Headed>(
    alloc: Global,
    queues: &Queues<J>,
    makers: &mut Makers<J>,
    made: Counts,
    count: u32,
    mark: &EndMark,
    seat: &mut OpenSeat,
) -> Result<LinkedList<Takers<J>>, Memory>
    requires makers { makers.old.items ≡ makers_of made queues.now.items }
    requires few { (count ≤ made.left) × (made.takers + count ≤ 1000) }
    requires queues { length queues.now.items ≤ 256 }
    requires mark { seat.old.mark ≡ mark.now.mark }
    ensures makers { OnOk result (makers.new.items ≡ makers_of (with_takers made count) queues.now.items) }
    ensures takers { IfOk result (λ list. list ≡ new_takers_from (id_over queues.now.items made.passes mark.now.mark) made.takers count) }
    ensures seat { seat.new ≡ seat.old }
{
    let mut list = LinkedList::new(alloc);
    for number in 0..count {
        let counts = Counts {
            passes: made.passes,
            left: made.left - number,
            adders: made.adders,
            takers: made.takers + number,
        };
        let watch = mark.watch(seat);
        let takers = new_takers(alloc, queues, makers, counts, watch)?;
        list.push_back(takers).map_err(AllocError::from)?;
    }
    Ok(list)
}

/// The passes of the adders, each with its part of the mark.
pub fn adder_passes<J>(
    mut places: LinkedList<LinkedList<Adders<J>>>,
    mark: &EndMark,
    mut seat: OpenSeat,
    mut list: Vec<PoolPass<J>>,
) -> Vec<PoolPass<J>>
    requires list { (list.items ≡ []) × (length places ≤ vec_capacity list) }
    requires parts { seat ≡ record { mark = mark.now.mark; parts = length places } }
    requires each { All (IsPlace mark.now.mark) places }
    ensures { in_places result.items ≡ places }
{
    while let Some(adders) = places.pop_front() {
        let seat = mark.one_part(&mut seat);
        list.push_reserved(PoolPass { adders, seat });
    }
    list
}

/// The passes of the workers, each with its own parker.
pub fn worker_passes<J>(
    mut takers: LinkedList<Takers<J>>,
    mut parkers: LinkedList<OwnParker>,
    mut list: Vec<WorkerPass<J>>,
) -> Vec<WorkerPass<J>>
    requires list { (list.items ≡ []) × (length takers ≤ vec_capacity list) }
    requires parkers { parkers_of parkers ≡ bits_of takers }
    requires each { All TookNothing takers }
    ensures { result.items ≡ map worker_seen takers }
{
    while let Some(takers) = takers.pop_front() {
        let Some(parker) = parkers.pop_front() else {
            unreachable!()
        };
        list.push_reserved(WorkerPass { takers, parker });
    }
    list
}

/// The passes of the helpers.
pub fn helper_passes<J>(
    alloc: Global,
    mut takers: LinkedList<Takers<J>>,
    mut list: Vec<HelperPass<J>>,
) -> Vec<HelperPass<J>>
    requires list { (list.items ≡ []) × (length takers ≤ vec_capacity list) }
    requires each { All TookNothing takers }
    ensures { result.items ≡ map helper_seen takers }
{
    while let Some(takers) = takers.pop_front() {
        let records = Records::new(alloc);
        list.push_reserved(HelperPass { takers, records });
    }
    list
}
