// The passes and ends of workers and helpers, and an adder's pass.
ghost use Rattle.std.specs.Prelude.{◌≡◌, ◌<◌, [], ◌∷◌, ◌++◌, length, slice_index_or, OnOk, IfErr};
ghost use Rattle.fan_base.specs.declared.refusal.Refused.TheVariants.{Memory as GivenBack};
ghost use Rattle.pool_model.specs.Passes.{adds_of};
ghost use Rattle.prio_pool.specs.Adders.{add_on, and_pushed, entry_of};

use crate::adders::Adders;
use crate::sleepers::{Call, OwnParker};
use crate::takers::Takers;
use fan_base::Refused;
use job_trait::Headed;
use pool_model::Ticket;
use pool_runs::{Placed, Records};
use std::collections::LinkedList;
use std::marker::Model;
use std::sync::Wait;
use task_queue::{OpenSeat, Queued, TaskQueue};

/// The right to add tasks. Contracts see its pool, its number, and what it pushed on each queue, from which its adds follow. It
/// is spent by [`crate::Pool::begin_join`] or [`crate::Pool::begin_stop`].
pub struct PoolPass<J> {
    // One place, so that it can be put to others without memory.
    pub(crate) adders: LinkedList<Adders<J>>,
    pub(crate) seat: OpenSeat,
}

impl<J> Model for PoolPass<J> {
    ghost use Rattle.pool_model.specs.Seen.{PassSeen};
    ghost use Rattle.prio_pool.specs.Passes.{pass_seen, IsPass};

    ghost Value = { PassSeen };

    ghost view = { pass_seen };

    ghost invariant = { IsPass };
}

/// The right to be a worker. Contracts see its pool and its number. It is spent by [`crate::Pool::work`].
pub struct WorkerPass<J> {
    pub(crate) takers: Takers<J>,
    pub(crate) parker: OwnParker,
}

impl<J> Model for WorkerPass<J> {
    ghost use Rattle.std.specs.Prelude.{◌≡◌, ◌^◌};
    ghost use Rattle.pool_model.specs.Seen.{WorkerSeen};
    ghost use Rattle.prio_pool.specs.Passes.{TookNothing};

    ghost Value = { WorkerSeen };

    ghost view = { λ p. record { pool = p.takers.pool; number = p.takers.number } };

    ghost invariant = { λ p. TookNothing p.takers × (p.parker.bit ≡ 2 ^ p.takers.number) };
}

/// The right to help: to run one task at a time. Contracts see its pool, the list of its records, what it popped from each
/// queue, and all its looks, oldest first. It is spent by [`HelperPass::end`].
pub struct HelperPass<J> {
    pub(crate) takers: Takers<J>,
    pub(crate) records: Records,
}

impl<J> Model for HelperPass<J> {
    ghost use Rattle.pool_model.specs.Seen.{EndSeen};
    ghost use Rattle.prio_pool.specs.Passes.{end_seen};
    ghost use Rattle.prio_pool.specs.Takers.{RanTaken};

    ghost Value = { EndSeen };

    ghost view = { λ p. end_seen p.takers p.records };

    ghost invariant = { λ p. RanTaken p.takers p.records };
}

/// What is left of a worker. Contracts see its pool, the list of its records, what it popped from each queue, all its looks,
/// oldest first, and which end of the pool it found.
#[derive(Drop)]
pub struct WorkerEnd<J> {
    pub(crate) takers: Takers<J>,
    pub(crate) records: Records,
}

impl<J> Model for WorkerEnd<J> {
    ghost use Rattle.pool_model.specs.Seen.{EndSeen};
    ghost use Rattle.prio_pool.specs.Passes.{end_seen};
    ghost use Rattle.prio_pool.specs.Takers.{RanTaken};

    ghost Value = { EndSeen };

    ghost view = { λ p. end_seen p.takers p.records };

    ghost invariant = { λ p. RanTaken p.takers p.records };
}

/// What is left of a helper. Contracts see the same of it.
#[derive(Drop)]
pub struct HelperEnd<J> {
    pub(crate) takers: Takers<J>,
    pub(crate) records: Records,
}

impl<J> Model for HelperEnd<J> {
    ghost use Rattle.pool_model.specs.Seen.{EndSeen};
    ghost use Rattle.prio_pool.specs.Passes.{end_seen};
    ghost use Rattle.prio_pool.specs.Takers.{RanTaken};

    ghost Value = { EndSeen };

    ghost view = { λ p. end_seen p.takers p.records };

    ghost invariant = { λ p. RanTaken p.takers p.records };
}

impl<J> PoolPass<J> {
    /// How many of its adds were accepted.
    pub fn adds(&self) -> u64
        ensures { result ≡ length (adds_of self.now) }
    {
        match self.adders.front() {
            Some(adders) => adders.count(),
            None => unreachable!(),
        }
    }
}

impl<J> PoolPass<J> {
    // The ticket of the next add.
    pub(crate) fn next_ticket(&self) -> Ticket
        ensures { result ≡ record { adder = self.now.number; index = length (adds_of self.now) } }
    {
        match self.adders.front() {
            Some(adders) => adders.next_ticket(),
            None => unreachable!(),
        }
    }
}

impl<J: Headed> PoolPass<J> {
    // Pushes a task under the next ticket on this queue, which is the one with this number. A worker is to be woken for it.
    pub(crate) fn add_task<R: Wait>(
        &mut self,
        rt: &R,
        queue: &TaskQueue<Placed<J>>,
        number: usize,
        task: Queued<Placed<J>>,
    ) -> Result<Call, Refused<Queued<Placed<J>>>>
        requires within { number < length self.old.pool.queues }
        requires queue { slice_index_or self.old.pool.queues number queue.now ≡ queue.now }
        requires ticket { task.ticket ≡ record { adder = self.old.number; index = length (adds_of self.old) } }
        requires room { length (adds_of self.old) < 4294967295 }
        ensures ok { OnOk result (self.new ≡ and_pushed self.old number (entry_of J.head task)) }
        ensures added { OnOk result (adds_of self.new ≡ adds_of self.old ++ add_on number (J.head task.job.job) ∷ []) }
        ensures refused { IfErr result (λ back. (back ≡ GivenBack task) × (self.new ≡ self.old)) }
    {
        match self.adders.front_mut() {
            Some(adders) => adders.add(rt, queue, number, task),
            None => unreachable!(),
        }
    }
}

impl<J> HelperPass<J> {
    /// Ends the helper.
    pub fn end(self) -> HelperEnd<J>
        ensures { result ≡ self }
    {
        let HelperPass { takers, records } = self;
        HelperEnd { takers, records }
    }
}
