ghost use Rattle.run_stages.specs.Stages.{AllRan, AllReady};
ghost use Rattle.run_threads.specs.Slots.{HasWorked, IsReadyToWork};

use crate::beside::call_all_beside;
use fan_base::Gate;
use job_trait::Job;
use prio_pool::{Pool, WorkerEnd, WorkerPass};
use std::sync::Wait;
use std::thread::Threads;

/// A worker: its pass before it has worked and its end afterwards, and the world that its jobs run on.
pub struct WorkerSlot<J, W> {
    pub pass: Option<WorkerPass<J>>,
    pub end: Option<WorkerEnd<J>>,
    pub world: W,
}

impl<J: Job<W>, W> WorkerSlot<J, W> {
    // Works for the pool until its end. It may wait.
    fn work<G: Gate, R: Wait>(&mut self, rt: &R, pool: &Pool<J>, gate: &G)
        requires { IsReadyToWork pool.now.id self.old }
        ensures { HasWorked J.runs self.old self.new }
    {
        let Some(pass) = self.pass.take() else {
            unreachable!()
        };
        let end = pool.work(rt, pass, &mut self.world, gate);
        self.end = Some(end);
    }
}

/// Calls the front on this thread, and beside it these workers work for this pool, each on a thread of its own.
pub(crate) fn work_all_beside<
    J: Job<W> + Send,
    W: Send,
    G: Gate,
    F: FnMut(),
    R: Threads + Wait + Sync,
>(rt: &R, pool: &Pool<J>, workers: &mut Vec<WorkerSlot<J, W>>, gate: &G, front: &mut F)
    requires workers { AllReady (IsReadyToWork pool.now.id) workers.old.items }
    requires front { F.pre front.old }
    ensures workers { AllRan (HasWorked J.runs) workers.old.items workers.new.items }
    ensures front { F.step front.old tt front.new }
{
    call_all_beside::<WorkerSlot<J, W>, _, F, R>(
        rt,
        &|_none, slot|
            requires { IsReadyToWork pool.now.id slot.now }
            ensures { HasWorked J.runs slot.entry.now slot.exit.now }
        { slot.work(rt, pool, gate) },
        workers,
        front,
    );
}
