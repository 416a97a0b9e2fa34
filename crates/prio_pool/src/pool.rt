// The pool: its adders, workers and helpers.
ghost use Rattle.std.specs.Prelude.{◌≡◌, ◌≢◌, ◌+◌, ◌<◌, ◌≤◌, ℕ, List, [], ◌∷◌, ◌++◌, length, None, IfOk, IfErr, OnOk};
ghost use Rattle.fan_base.specs.declared.refusal.Refused.TheVariants.{Memory as GivenBack};
ghost use Rattle.job_trait.specs.Runs.{Leads};
ghost use Rattle.pool_model.specs.Passes.{adds_of};
ghost use Rattle.pool_model.specs.Records.{ran_of};
ghost use Rattle.pool_model.specs.Seen.{steps_by};
ghost use Rattle.pool_model.specs.Steps.{Worked};
ghost use Rattle.pool_model.specs.Endings.{RanWhatItTook};
ghost use Rattle.prio_pool.specs.Adders.{add_on, and_pushed};
ghost use Rattle.prio_pool.specs.Ends.{HelpDid};
ghost use Rattle.prio_pool.specs.Given.{GivesJob};
ghost use Rattle.prio_pool.specs.Priority.{queue_in};

use crate::passes::{HelperPass, PoolPass, WorkerEnd, WorkerPass};
use crate::priority::queue_for;
use crate::sleepers::{Rest, Sleepers};
use crate::turn::{Turned, turn};
use fan_base::{ExecId, Gate, Refused};
use job_trait::{Headed, Job};
use keep_alive::KeepAlive;
use pool_model::{Ending, Ticket};
use pool_runs::{Place, Placed, Records};
use std::alloc::Global;
use std::marker::Model;
use std::snapshot::Snapshot;
use std::sync::Wait;
use task_queue::{KeptMark, Queued, TaskQueue};

/// A pool of workers over queues of different priorities. Contracts see which pool it is, the count of its keep-alives, its
/// executor, and how many passes of each kind it has. It is spent by [`Pool::join`] or [`Pool::stop`].
pub struct Pool<J: Headed> {
    pub(crate) queues: Vec<TaskQueue<Placed<J>>>,
    pub(crate) mark: KeptMark,
    pub(crate) alloc: Global,
    pub(crate) exec: ExecId,
    pub(crate) adders: u32,
    pub(crate) workers: u32,
    pub(crate) helpers: u32,
    pub(crate) sleepers: Sleepers,
    pub(crate) keep: Snapshot<KeepAlive>,
}

impl<J: Headed> Model for Pool<J> {
    ghost use Rattle.std.specs.Prelude.{◌≡◌, ◌+◌, ◌<◌, ◌≤◌, length};
    ghost use Rattle.pool_model.specs.Seen.{PoolSeen};
    ghost use Rattle.prio_pool.specs.Sleeping.{wakers_of, bits_from};

    ghost Value = { PoolSeen };

    ghost view = { λ p. record {
      id = record { queues = p.queues.items; passes = p.adders + p.workers + p.helpers; mark = p.mark.mark };
      count = p.keep.value.count;
      exec = p.exec;
      adders = p.adders;
      workers = p.workers;
      helpers = p.helpers;
    } };

    ghost invariant = { λ p. (0 < length p.queues.items) × (length p.queues.items ≤ 256) × (p.mark.adders ≡ p.adders) ×
        (0 < p.adders) × (p.adders ≤ 64) × (p.workers ≤ 64) × (p.helpers ≤ 64) ×
        (p.mark.count ≡ p.keep.value.count) × (wakers_of p.sleepers.wakers.items ≡ bits_from 0 p.workers) };
}

/// What a help did.
#[derive(Clone, Copy, Debug, PartialEq, Eq)]
pub enum Helped {
    /// It ran one task.
    Ran,
    /// Each queue was found empty.
    Empty,
}

impl<J: Headed> Pool<J> {
    /// Adds a task, whose job chose this pool's executor, to the queue of this priority. Where there is no memory for it,
    /// the job is given back. The push on the queue is the acceptance.
    pub fn add<R: Wait>(
        &self,
        rt: &R,
        keep: &KeepAlive,
        pass: &mut PoolPass<J>,
        priority: i8,
        job: J,
    ) -> Result<Ticket, Refused<J>>
        requires keep { keep.now.count ≡ self.now.count }
        requires pass { pass.old.pool ≡ self.now.id }
        requires exec { (J.head job).exec ≡ self.now.exec }
        requires room { length (adds_of pass.old) < 4294967295 }
        ensures ticket { IfOk result (λ t. t ≡ record { adder = pass.old.number; index = length (adds_of pass.old) }) }
        ensures pushed { IfOk result (λ t.
            pass.new ≡ and_pushed pass.old (queue_in self.now.id priority) (record { ticket = t; head = J.head job })) }
        ensures added { OnOk result (adds_of pass.new ≡ adds_of pass.old ++ add_on (queue_in self.now.id priority) (J.head job) ∷ []) }
        ensures refused { IfErr result (λ r. (r ≡ GivenBack job) × (pass.new ≡ pass.old)) }
    {
        let _ = keep;
        let queue = queue_for(self.queues.len() as u32, priority);
        let ticket = pass.next_ticket();
        let Ok(place) = Place::of(self.alloc, ticket, queue, job.exec(), job.id()) else {
            return Err(Refused::Memory(job));
        };
        let task = Queued {
            ticket,
            job: Placed { job, place },
        };
        let number = queue as usize;
        match pass.add_task(rt, &self.queues[number], number, task) {
            Ok(call) => {
                self.sleepers.wake_one(call);
                Ok(ticket)
            }
            Err(refused) => Err(refused_job(refused)),
        }
    }

    /// Works for the pool: takes the first task of the highest queue that it doesn't find empty, runs it between the two calls of the
    /// gate, and goes on, until the pool is stopped, or is joined and each queue is found empty. It sleeps while it finds no
    /// task.
    pub fn work<W, G: Gate, R: Wait>(
        &self,
        rt: &R,
        pass: WorkerPass<J>,
        world: &mut W,
        gate: &G,
    ) -> WorkerEnd<J>
    where
        J: Job<W>,
        requires { pass.pool ≡ self.now.id }
        ensures pool { (result.pool ≡ pass.pool) × (result.number ≡ pass.number) }
        ensures ran { Leads J.runs world.old (ran_of result.records) world.new }
        ensures ran_taken { RanWhatItTook result }
        ensures worked { Worked (length self.now.id.queues) result.found (steps_by result) }
        ensures found { result.found ≢ None }
    {
        let WorkerPass { mut takers, parker } = pass;
        let mut records = Records::new(self.alloc);
        let mut rest = Rest::new();
        for _ in rt.forever() {
            match turn(
                rt,
                (&self.queues, self.mark.mark(), &self.sleepers),
                &mut takers,
                &mut records,
                true,
                &mut rest,
                world,
                gate,
            ) {
                Turned::Ran => {}
                Turned::Idle(ending) => match ending {
                    None => rest.go_on(rt, &self.sleepers, &parker),
                    Some(Ending::Joins) => {
                        rest.leave();
                        return WorkerEnd { takers, records };
                    }
                    Some(Ending::Stops) => unreachable!(),
                },
                Turned::Stopped => {
                    rest.leave();
                    return WorkerEnd { takers, records };
                }
            }
        }
        unreachable!()
    }

    /// Takes the first task of the highest queue that it doesn't find empty, and runs it between the two calls of the gate.
    pub fn help<W, G: Gate, R: Wait>(
        &self,
        rt: &R,
        pass: &mut HelperPass<J>,
        world: &mut W,
        gate: &G,
    ) -> Helped
    where
        J: Job<W>,
        requires { pass.old.pool ≡ self.now.id }
        ensures pool { (pass.new.pool ≡ pass.old.pool) × (pass.new.number ≡ pass.old.number) }
        ensures helped { HelpDid J.runs result pass.old world.old pass.new world.new }
        ensures ran_taken { RanWhatItTook pass.new }
    {
        let mut rest = Rest::new();
        let turned = turn(
            rt,
            (&self.queues, self.mark.mark(), &self.sleepers),
            &mut pass.takers,
            &mut pass.records,
            false,
            &mut rest,
            world,
            gate,
        );
        rest.leave();
        match turned {
            Turned::Ran => Helped::Ran,
            Turned::Idle(_) => Helped::Empty,
            Turned::Stopped => unreachable!(),
        }
    }
}

// The job of a task that was refused.
fn refused_job<J>(refused: Refused<Queued<Placed<J>>>) -> Refused<J>
    ensures { GivesJob refused result }
{
    match refused {
        Refused::Memory(task) => {
            let Queued { ticket: _, job } = task;
            let Placed { job, place } = job;
            place.give_up();
            Refused::Memory(job)
        }
    }
}
