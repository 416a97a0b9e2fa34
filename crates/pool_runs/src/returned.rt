// The tasks that are handed back.
ghost use Rattle.std.specs.Prelude.{◌≡◌, ◌+◌, ◌<◌, ◌≤◌, [], ◌∷◌, length, MatchOption};
ghost use Rattle.pool_runs.specs.Returning.{HasFirst, back_from, back_of, FirstTaken, NextTaken};
ghost use Rattle.pool_runs.specs.Running.{Drained, RunsBack};

use crate::placed::Placed;
use crate::record::RunRecord;
use crate::records::Records;
use crate::run::run_task;
use job_trait::Job;
use pool_model::Ticket;
use std::alloc::Global;
use std::marker::Model;
use std::sync::Wait;
use task_queue::{Packets, Queued};

/// What waits of one queue.
pub type Rest<J> = Packets<Queued<Placed<J>>>;

/// The tasks that are handed back, from the highest queue to the lowest, each in order of acceptance. Contracts see of each its
/// ticket, its queue and its job.
#[derive(Drop)]
pub struct Returned<J> {
    rests: Vec<Rest<J>>,
    count: usize,
}

impl<J> Model for Returned<J> {
    ghost use Rattle.std.specs.Prelude.{◌≡◌, ◌≤◌, List, length};
    ghost use Rattle.pool_model.specs.Seen.{Returned};
    ghost use Rattle.pool_runs.specs.Returning.{back_from};

    ghost Value = { List (Returned J) };

    ghost view = { λ r. back_from 0 r.rests.items };

    ghost invariant = { λ r. (r.count ≡ length (back_from 0 r.rests.items)) × (length r.rests.items ≤ 256) };
}

impl<J> Returned<J> {
    fn new(rests: Vec<Rest<J>>, count: usize) -> Returned<J>
        requires { (count ≡ length (back_from 0 rests.items)) × (length rests.items ≤ 256) }
        ensures { result ≡ back_from 0 rests.items }
    {
        Returned { rests, count }
    }

    /// How many tasks are left.
    pub fn len(&self) -> usize
        ensures { result ≡ length self.now }
    {
        self.count
    }

    // The next task, with its queue.
    fn take(&mut self) -> Option<(u32, Queued<Placed<J>>)>
        ensures { MatchOption result ((self.old ≡ []) × (self.new ≡ [])) (λ t. self.old ≡ back_of t.0 t.1 ∷ self.new) }
    {
        let taken = take_next(&mut self.rests)?;
        self.count -= 1;
        Some(taken)
    }

    /// The next task: its ticket and its job. None comes exactly where none is left.
    pub fn pop(&mut self) -> Option<(Ticket, J)>
        ensures { MatchOption result ((self.old ≡ []) × (self.new ≡ [])) (λ t. HasFirst self.old t.0 t.1 self.new) }
    {
        let (_, task) = self.take()?;
        let Queued {
            ticket,
            job: placed,
        } = task;
        let Placed { job, place } = placed;
        place.give_up();
        Some((ticket, job))
    }

    /// Runs the next task, and makes its record. None comes exactly where none is left.
    pub fn run_next<W, R: Wait>(&mut self, rt: &R, world: &mut W) -> Option<RunRecord>
    where
        J: Job<W>,
        ensures { RunsBack J.head J.runs result self.old world.old self.new world.new }
    {
        let (queue, task) = self.take()?;
        let made = run_task(rt, queue, task, world);
        Some(made.into_record())
    }
}

// Takes the first task of the highest queue that has one.
fn take_next<J>(rests: &mut Vec<Rest<J>>) -> Option<(u32, Queued<Placed<J>>)>
    requires { length rests.old.items ≤ 256 }
    ensures { NextTaken rests.old.items result rests.new.items }
{
    while rests.len() > 0 {
        let number = rests.len() - 1;
        if let Some(task) = take_first(rests, number) {
            return Some((number as u32, task));
        }
        let _ = rests.pop();
    }
    None
}

// Takes the first task of what waits in this queue.
fn take_first<J>(rests: &mut Vec<Rest<J>>, number: usize) -> Option<Queued<Placed<J>>>
    requires { number < length rests.old.items }
    ensures { FirstTaken rests.old.items number result rests.new.items }
{
    let Some(task) = rests[number].pop_front() else {
        return None;
    };
    Some(task)
}

/// What is handed back of what was left in the queues, where so many tasks were added and so many have a record.
pub fn hand_back<J>(rests: Vec<Rest<J>>, accepted: u64, records: usize) -> Returned<J>
    requires count { records + length (back_from 0 rests.items) ≡ accepted }
    requires few { length rests.items ≤ 256 }
    ensures { result ≡ back_from 0 rests.items }
{
    Returned::new(rests, (accepted - records as u64) as usize)
}

/// Runs all tasks that are left, in order, and gives their records.
#[tactic(auto, using(crate::proofs::Draining::drained_all))]
pub fn drain<J: Job<W>, W, R: Wait>(
    rt: &R,
    alloc: Global,
    returned: &mut Returned<J>,
    world: &mut W,
) -> Records
    requires few { length returned.old ≤ 281474976710656 }
    ensures drained { Drained J.head J.runs returned.old result world.old world.new }
    ensures as_many { length result ≡ length returned.old }
    ensures empty { returned.new ≡ [] }
{
    let mut records = Records::new(alloc);
    while let Some(next) = returned.take() {
        let (queue, task) = next;
        let made = run_task(rt, queue, task, world);
        records.push(made);
    }
    records
}
