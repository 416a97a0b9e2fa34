// The passes of one adder on each queue.
ghost use Rattle.std.specs.Prelude.{◌≡◌, ◌+◌, ◌<◌, ◌≤◌, List, [], ◌∷◌, ◌++◌, length, map, slice_index_or, vec_capacity, OnOk, IfErr};
ghost use Rattle.fan_base.specs.declared.refusal.Refused.TheVariants.{Memory as GivenBack};
ghost use Rattle.pool_model.specs.Passes.{HasNoGap, adds_of};
ghost use Rattle.prio_pool.specs.Gathering.{OneAdderMore, gathered_from};
ghost use Rattle.prio_pool.specs.Adders.{MayPush, PushedAt, add_on, and_pushed, entry_of};

use crate::gather::{gather_adders, put_adders};
use crate::make::Queues;
use crate::sleepers::Call;
use fan_base::Refused;
use job_trait::Headed;
use pool_model::Ticket;
use pool_runs::Placed;
use std::marker::Model;
use std::snapshot::Snapshot;
use std::sync::Wait;
use task_queue::{Adder, EndMark, Gathered, Packets, Queued, TaskQueue};

/// The room for what a pool's end puts together and takes out of the queues, one place a queue.
#[derive(Drop)]
pub struct Room<J> {
    pub gathered: Vec<Gathered<Placed<J>>>,
    pub rests: Vec<Packets<Queued<Placed<J>>>>,
}

/// An adder's pass of each queue, from the lowest, and how many adds it made. Contracts see what it pushed on each queue.
#[derive(Drop)]
pub struct Adders<J> {
    pub adders: Vec<Adder<Placed<J>>>,
    pub number: u32,
    pub passes: u32,
    pub count: u64,
    pub mark: Snapshot<EndMark>,
    pub room: Room<J>,
}

impl<J> Model for Adders<J> {
    ghost use Rattle.pool_model.specs.Seen.{PassSeen};
    ghost use Rattle.prio_pool.specs.Adders.{adders_seen, IsAdders};

    ghost Value = { PassSeen };

    ghost view = { adders_seen };

    ghost invariant = { IsAdders };
}

impl<J> Adders<J> {
    /// How many adds it made.
    pub fn count(&self) -> u64
        ensures { result ≡ length (adds_of self.now) }
    {
        self.count
    }

    /// What is known of its adds: they have no gap, and it has a list for each queue.
    pub fn told(&self)
        ensures gap { HasNoGap self.now }
        ensures as_many { length self.now.pushed ≡ length self.now.pool.queues }
        ensures few { length (adds_of self.now) ≤ 4294967295 }
    {
        let _number = self.number;
    }

    /// The ticket of the next add.
    pub fn next_ticket(&self) -> Ticket
        ensures { result ≡ record { adder = self.now.number; index = length (adds_of self.now) } }
    {
        Ticket {
            adder: self.number,
            index: self.count,
        }
    }
}

impl<J: Headed> Adders<J> {
    /// Pushes a task under the next ticket on this queue, which is the one with this number. A worker is to be woken for it.
    pub fn add<R: Wait>(
        &mut self,
        rt: &R,
        queue: &TaskQueue<Placed<J>>,
        number: usize,
        task: Queued<Placed<J>>,
    ) -> Result<Call, Refused<Queued<Placed<J>>>>
        requires within { number < length self.old.pool.queues }
        requires queue { slice_index_or self.old.pool.queues number queue.now ≡ queue.now }
        requires ticket { task.ticket ≡ record { adder = self.old.number; index = length (adds_of self.old) } }
        requires room { length (adds_of self.old) < 4294967295 }
        ensures ok { OnOk result (self.new ≡ and_pushed self.old number (entry_of J.head task)) }
        ensures added { OnOk result (adds_of self.new ≡ adds_of self.old ++ add_on number (J.head task.job.job) ∷ []) }
        ensures refused { IfErr result (λ back. (back ≡ GivenBack task) × (self.new ≡ self.old)) }
    {
        match push_at(rt, queue, &mut self.adders, number, task) {
            Ok(()) => {
                self.count += 1;
                Ok(Call::new())
            }
            Err(refused) => Err(refused),
        }
    }
}

impl<J: Headed> Adders<J> {
    /// Puts its passes to those of others, queue by queue.
    pub fn put_to(self, queues: &Queues<J>, gathered: &mut Vec<Gathered<Placed<J>>>)
        requires queues { self.pool.queues ≡ queues.now.items }
        requires gathered { map (λ g. g.queue) gathered.old.items ≡ queues.now.items }
        ensures { OneAdderMore self.pool.passes queues.now.items gathered.old.items self gathered.new.items }
    {
        let Adders {
            adders,
            number: _,
            passes: _,
            count: _,
            mark: _,
            room: _,
        } = self;
        put_adders(queues, gathered, adders);
    }

    /// Begins to put passes together, queue by queue, with its own. It gives the room for what is left of each queue.
    pub fn gather(
        self,
        queues: &Queues<J>,
    ) -> (Vec<Gathered<Placed<J>>>, Vec<Packets<Queued<Placed<J>>>>)
        requires queues { self.pool.queues ≡ queues.now.items }
        ensures gathered { result.0.items ≡ gathered_from self.pool.passes (self ∷ []) [] 0 queues.now.items }
        ensures room { (result.1.items ≡ []) × (length queues.now.items ≤ vec_capacity result.1) }
    {
        let Adders {
            adders,
            number: _,
            passes: _,
            count: _,
            mark: _,
            room,
        } = self;
        let Room { gathered, rests } = room;
        (gather_adders(queues, adders, gathered), rests)
    }
}

// Pushes a task by the pass with this number.
fn push_at<J: Headed, R: Wait>(
    rt: &R,
    queue: &TaskQueue<Placed<J>>,
    adders: &mut Vec<Adder<Placed<J>>>,
    number: usize,
    task: Queued<Placed<J>>,
) -> Result<(), Refused<Queued<Placed<J>>>>
    requires may { MayPush queue.now adders.old.items number task.ticket }
    ensures ok { OnOk result (PushedAt adders.old.items number (entry_of J.head task) adders.new.items) }
    ensures refused { IfErr result (λ back. (back ≡ GivenBack task) × (adders.new.items ≡ adders.old.items)) }
{
    queue.push(rt, &mut adders[number], task)
}
