// The executor that keeps its jobs until it is told to run them.
ghost use Rattle.std.specs.Prelude.{◌≡◌, [], ◌∷◌, ◌++◌, map, min, take, drop, length, MatchOption};
ghost use Rattle.job_trait.specs.Runs.{RunsAll};

use crate::executor::Executor;
use crate::job::{Headed, Job};
use fan_base::{ExecId, Refused};
use std::alloc::Global;
use std::collections::VecDeque;
use std::marker::Model;
use std::sync::Wait;

/// Keeps each job, and runs the oldest first. Contracts see its number and the jobs that it holds.
#[derive(Drop)]
pub struct ManualExecutor<J> {
    exec: ExecId,
    // The oldest job, where it came while no other was held: it takes no memory.
    first: Option<J>,
    jobs: VecDeque<J>,
}

impl<J> Model for ManualExecutor<J> {
    ghost use Rattle.std.specs.Prelude.{◌++◌, option_to_list};
    ghost use Rattle.job_trait.specs.Manual.{Held};

    ghost Value = { Held J };

    ghost view = { λ e. record { exec = e.exec; jobs = option_to_list e.first ++ e.jobs.items } };
}

impl<J> ManualExecutor<J> {
    /// An executor with this number that holds no job.
    pub fn new(alloc: Global, exec: ExecId) -> ManualExecutor<J>
        ensures { result ≡ record { exec = exec; jobs = [] } }
    {
        ManualExecutor {
            exec,
            first: None,
            jobs: VecDeque::new(alloc),
        }
    }

    /// Hands the oldest job back. None where none is held.
    pub fn take_back(&mut self) -> Option<J>
        ensures oldest { MatchOption result (self.old.jobs ≡ []) (λ job. self.old.jobs ≡ job ∷ self.new.jobs) }
        ensures none { MatchOption result (self.new ≡ self.old) (λ _. self.new.exec ≡ self.old.exec) }
    {
        match self.first.take() {
            Some(job) => Some(job),
            None => self.jobs.pop_front(),
        }
    }

    // How many jobs it holds.
    fn count(&self) -> usize
        ensures { result ≡ length self.now.jobs }
    {
        match &self.first {
            Some(_) => 1 + self.jobs.len(),
            None => self.jobs.len(),
        }
    }

    /// Ends an executor that holds no job. It is for jobs that may not be dropped.
    pub fn close(self)
        requires { self.jobs ≡ [] }
    {
        let ManualExecutor {
            exec: _,
            first,
            jobs,
        } = self;
        let None = first else { unreachable!() };
        jobs.destroy_empty();
    }

    /// Runs the first `n` jobs, or all where there are fewer, and says how many.
    pub fn run<W, R: Wait>(&mut self, rt: &R, n: usize, world: &mut W) -> usize
    where
        J: Job<W>,
        ensures count { result ≡ min n (length self.old.jobs) }
        ensures ran { RunsAll J.runs (map J.head (take result self.old.jobs)) world.old world.new }
        ensures left { self.new ≡ record { exec = self.old.exec; jobs = drop result self.old.jobs } }
    {
        let mut count = 0;
        while count < n {
            let Some(job) = self.take_back() else {
                break;
            };
            let _mark = job.run(rt, world);
            count += 1;
        }
        count
    }

    /// Runs all jobs, and says how many.
    pub fn drain<W, R: Wait>(&mut self, rt: &R, world: &mut W) -> usize
    where
        J: Job<W>,
        ensures count { result ≡ length self.old.jobs }
        ensures ran { RunsAll J.runs (map J.head self.old.jobs) world.old world.new }
        ensures left { self.new ≡ record { exec = self.old.exec; jobs = [] } }
    {
        let all = self.count();
        self.run(rt, all, world)
    }
}

impl<J: Headed> Executor<J> for ManualExecutor<J> {
    ghost number = { λ e. e.exec };

    ghost adds = { λ before job after. after ≡ record { exec = before.exec; jobs = before.jobs ++ job ∷ [] } };

    fn exec(&self) -> ExecId {
        self.exec
    }

    fn add<R: Wait>(&mut self, _rt: &R, job: J) -> Result<(), Refused<J>> {
        if self.count() == 0 {
            let before = self.first.replace(job);
            let None = before else { unreachable!() };
            return Ok(());
        }
        self.jobs.push_back(job)?;
        Ok(())
    }
}
