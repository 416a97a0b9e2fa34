// The end of a pool.
ghost use Rattle.std.specs.Prelude.{◌≡◌, ◌≢◌, ◌+◌, ◌≤◌, [], ◌++◌, length, false, true, None};
ghost use Rattle.pool_model.specs.Accounts.{AllRun, AllRunOrReturned};
ghost use Rattle.pool_model.specs.Endings.{Joined, Stopped, records_of};
ghost use Rattle.pool_model.specs.Passes.{AreAllPasses, AreAllEnds, adds_total};
ghost use Rattle.prio_pool.specs.Ended.{CameTo, CameBack};
ghost use Rattle.pool_runs.specs.Returning.{back_from};
ghost use Rattle.pool_runs.specs.Running.{Drained};

use crate::adders::Adders;
use crate::begin::{Joining, Stopping};
use crate::passes::{HelperEnd, WorkerEnd};
use crate::pool::Pool;
use crate::runs::Runs;
use crate::settle::settle_all;
use crate::together::{put_ends, put_passes};
use job_trait::{Headed, Job};
use pool_runs::{Records, Rest, Returned, drain, hand_back};
use std::collections::LinkedList;
use std::sync::Wait;
use task_queue::Watch;

/// What a pool leaves: how many tasks it accepted, the records of those that ran, and those that are handed back.
#[derive(Drop)]
pub struct PoolEnd<J> {
    /// How many tasks the pool accepted.
    pub accepted: u64,
    /// The records of its workers, then those of its helpers, then those of the tasks that the join ran.
    pub ran: Runs,
    /// The tasks that a stop hands back. After a join it is empty.
    pub returned: Returned<J>,
}

impl<J: Headed> Pool<J> {
    // Puts all passes and ends together, and settles each queue: how many tasks were added, the records of the ends, and what is
    // left of each queue.
    pub(crate) fn end<R: Wait>(
        self,
        rt: &R,
        mut passes: LinkedList<Adders<J>>,
        begun: Watch,
        ends: Vec<WorkerEnd<J>>,
        helped: Vec<HelperEnd<J>>,
    ) -> (u64, Records, Vec<Rest<J>>)
        requires passes { AreAllPasses self.id self.adders passes }
        requires begun { (begun.mark ≡ self.id.mark) × (begun.found ≢ None) }
        requires ends { AreAllEnds self.id self.workers ends.items }
        requires helped { AreAllEnds self.id self.helpers helped.items }
        ensures accepted { result.0 ≡ adds_total passes }
        ensures records { result.1 ≡ records_of ends.items ++ records_of helped.items }
        ensures came { CameTo J.head self.id.passes self.id.queues begun.found passes (ends.items ++ helped.items) result.2.items }
        ensures few { length result.2.items ≤ 256 }
        ensures most { result.0 ≤ 281474976710656 }
    {
        let Pool {
            queues,
            mark,
            alloc,
            exec: _,
            adders,
            workers,
            helpers,
            sleepers,
            keep: _,
        } = self;
        sleepers.end();
        let whole = adders + workers + helpers;
        let Some(first) = passes.pop_front() else {
            unreachable!()
        };
        first.told();
        let own = first.count();
        let (mut gathered, rests) = first.gather(&queues);
        let others = put_passes(&queues, &mut gathered, passes, whole);
        let records = put_ends(
            alloc,
            &queues,
            mark.mark(),
            whole,
            &mut gathered,
            begun,
            ends,
            helped,
        );
        let rests = settle_all(rt, queues, gathered, rests);
        (own + others, records, rests)
    }

    // The same, with what is handed back.
    fn finish<R: Wait>(
        self,
        rt: &R,
        passes: LinkedList<Adders<J>>,
        begun: Watch,
        ends: Vec<WorkerEnd<J>>,
        helped: Vec<HelperEnd<J>>,
    ) -> (u64, Records, Returned<J>)
        requires passes { AreAllPasses self.id self.adders passes }
        requires begun { (begun.mark ≡ self.id.mark) × (begun.found ≢ None) }
        requires ends { AreAllEnds self.id self.workers ends.items }
        requires helped { AreAllEnds self.id self.helpers helped.items }
        ensures accepted { result.0 ≡ adds_total passes }
        ensures records { result.1 ≡ records_of ends.items ++ records_of helped.items }
        ensures came { CameBack J.head self.id.passes self.id.queues begun.found passes (ends.items ++ helped.items) result.2 }
        ensures most { length result.1 + length result.2 ≤ 281474976710656 }
    {
        let (accepted, records, rests) = self.end(rt, passes, begun, ends, helped);
        let returned = hand_back(rests, accepted, records.len());
        (accepted, records, returned)
    }

    /// Ends a pool that is joined: puts the records of all ends together, and runs with this world each task that still waits,
    /// from the highest queue to the lowest, each in order of acceptance. It takes no memory of its own.
    pub fn join<W, R: Wait>(
        self,
        rt: &R,
        joining: Joining<J>,
        ends: Vec<WorkerEnd<J>>,
        helped: Vec<HelperEnd<J>>,
        world: &mut W,
    ) -> PoolEnd<J>
    where
        J: Job<W>,
        requires pool { joining.pool ≡ self.id }
        requires joining { AreAllPasses self.id self.adders joining.passes }
        requires ends { AreAllEnds self.id self.workers ends.items }
        requires helped { AreAllEnds self.id self.helpers helped.items }
        ensures accepted { result.accepted ≡ adds_total joining.passes }
        ensures all { AllRun joining.passes result.ran.records }
        ensures ended { Joined J.runs (length self.id.queues) joining.passes ends.items helped.items result.ran.records world.old world.new }
        ensures joined { (result.ran.stopped ≡ false) × (result.returned ≡ []) }
    {
        let alloc = self.alloc;
        let Joining {
            passes,
            begun,
            joined: _,
            pool: _,
        } = joining;
        let (accepted, mut records, mut returned) = self.finish(
            rt,
            passes,
            begun.watch(),
            ends,
            helped,
        );
        let more = drain(rt, alloc, &mut returned, world);
        records.append(more);
        PoolEnd {
            accepted,
            ran: Runs::new(records, false),
            returned,
        }
    }

    /// Ends a pool that is stopped: puts the records of all ends together, and hands back each task that still waits. It takes
    /// no memory of its own.
    pub fn stop<R: Wait>(
        self,
        rt: &R,
        stopping: Stopping<J>,
        ends: Vec<WorkerEnd<J>>,
        helped: Vec<HelperEnd<J>>,
    ) -> PoolEnd<J>
        requires pool { stopping.pool ≡ self.id }
        requires stopping { AreAllPasses self.id self.adders stopping.passes }
        requires ends { AreAllEnds self.id self.workers ends.items }
        requires helped { AreAllEnds self.id self.helpers helped.items }
        ensures accepted { result.accepted ≡ adds_total stopping.passes }
        ensures all { AllRunOrReturned J.head stopping.passes result.ran.records result.returned }
        ensures ended { Stopped J.head (length self.id.queues) stopping.passes ends.items helped.items result.ran.records result.returned }
        ensures stopped { result.ran.stopped ≡ true }
    {
        let Stopping {
            passes,
            begun,
            joined: _,
            pool: _,
        } = stopping;
        let (accepted, records, returned) = self.finish(rt, passes, begun.watch(), ends, helped);
        PoolEnd {
            accepted,
            ran: Runs::new(records, true),
            returned,
        }
    }
}
