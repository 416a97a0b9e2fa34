// The passes of one worker or helper on each queue.
ghost use Rattle.std.specs.Prelude.{◌≡◌, ◌≢◌, ◌≤◌, [], ◌∷◌, ◌++◌, None, IfSome, IfNone, List, length, map, slice_get, Some};
ghost use Rattle.prio_pool.specs.Takers.{TookAt, TookNext, FoundNone, HasTaken, HasTaker, and_looked, and_cleared, and_popped};
ghost use Rattle.pool_model.specs.Records.{Record};
ghost use Rattle.prio_pool.specs.Adders.{entry_of};
ghost use Rattle.prio_pool.specs.Gathering.{OneEndMore};
ghost use Rattle.prio_pool.specs.Passes.{end_seen};
ghost use Rattle.task_queue.specs.Looks.{pop_seen};

use crate::gather::put_takers;
use crate::make::Queues;
use job_trait::Headed;
use pool_model::Ending;
use pool_runs::Placed;
use std::marker::Model;
use std::sync::Wait;
use task_queue::{EndMark, Gathered, Looks, Queued, Taker, TaskQueue, Watch};

/// A worker's or helper's pass of each queue, from the lowest, its seat at the end mark, and its looks. Contracts see what it
/// popped from each queue, how often it looked at the mark, what its last look found, and all its looks, oldest first.
#[derive(Drop)]
pub struct Takers<J> {
    pub takers: Vec<Taker<Placed<J>>>,
    pub looks: Looks<Placed<J>>,
    pub watch: Watch,
    pub number: u32,
    pub passes: u32,
}

impl<J> Model for Takers<J> {
    ghost use Rattle.prio_pool.specs.Takers.{TakersSeen, takers_seen, IsTakers};

    ghost Value = { TakersSeen };

    ghost view = { takers_seen };

    ghost invariant = { IsTakers };
}

impl<J> Takers<J> {
    /// Which end of the pool has begun.
    pub fn look(&mut self, mark: &EndMark) -> Option<Ending>
        requires { self.old.pool.mark ≡ mark.now.mark }
        ensures looked { self.new ≡ and_looked self.old result }
        ensures stays { self.old.found ≢ None → result ≡ self.old.found }
    {
        mark.look(&mut self.watch, &mut self.looks)
    }

    /// What all its looks say of it.
    pub fn told(&self)
        ensures { HasTaken self.now }
    {
        let _number = self.number;
    }
}

impl<J: Headed> Takers<J> {
    /// Takes the first task of this queue.
    pub fn try_queue<R: Wait>(
        &mut self,
        rt: &R,
        queue: &TaskQueue<Placed<J>>,
        number: usize,
    ) -> Option<Queued<Placed<J>>>
        requires queue { slice_get self.old.pool.queues number ≡ Some queue.now }
        ensures found { IfSome result (λ task. self.new ≡ and_popped self.old number queue.now (entry_of J.head task)) }
        ensures empty { IfNone result (self.new ≡ and_cleared self.old number queue.now) }
    {
        let Some(task) = take_at(rt, queue, &mut self.takers, &mut self.looks, number) else {
            return None;
        };
        Some(task)
    }

    /// Takes the first task of the highest queue that it doesn't find empty. It looks at the queues from the highest down.
    pub fn next<R: Wait>(
        &mut self,
        rt: &R,
        queues: &Vec<TaskQueue<Placed<J>>>,
    ) -> Option<(u32, Queued<Placed<J>>)>
        requires queues { self.old.pool.queues ≡ queues.now.items }
        requires few { length queues.now.items ≤ 256 }
        ensures found { IfSome result (λ r. TookNext J.head self.old r.0 r.1 self.new) }
        ensures empty { IfNone result (FoundNone self.old self.new) }
    {
        let mut number = queues.len();
        while number > 0 {
            number -= 1;
            if let Some(task) = self.try_queue(rt, &queues[number], number) {
                return Some((number as u32, task));
            }
        }
        None
    }
}

impl<J: Headed> Takers<J> {
    /// Puts its passes to those of others, queue by queue, and gives its seat at the mark.
    pub fn put_to(self, queues: &Queues<J>, gathered: &mut Vec<Gathered<Placed<J>>>) -> Watch
        requires queues { self.pool.queues ≡ queues.now.items }
        requires gathered { map (λ g. g.queue) gathered.old.items ≡ queues.now.items }
        ensures gathered { (records : List Record) →
            OneEndMore self.pool.passes queues.now.items gathered.old.items (end_seen self records) gathered.new.items }
        ensures watch { (result.mark ≡ self.pool.mark) × (result.found ≡ self.found) }
    {
        let Takers {
            takers,
            looks: _,
            watch,
            number: _,
            passes: _,
        } = self;
        put_takers(queues, gathered, takers);
        watch
    }
}

// Takes a task by the pass with this number.
fn take_at<J: Headed, R: Wait>(
    rt: &R,
    queue: &TaskQueue<Placed<J>>,
    takers: &mut Vec<Taker<Placed<J>>>,
    looks: &mut Looks<Placed<J>>,
    number: usize,
) -> Option<Queued<Placed<J>>>
    requires { HasTaker takers.old.items number queue.now }
    ensures took { TookAt J.head takers.old.items number takers.new.items result }
    ensures noted { looks.new ≡ looks.old ++ pop_seen (λ p. J.head p.job) queue.now number result ∷ [] }
{
    queue.take(rt, &mut takers[number], number as u32, looks)
}
