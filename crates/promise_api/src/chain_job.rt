//! A chain with its outcome, as a job.
ghost use Rattle.std.specs.Prelude.{◌≡◌};

use crate::after::After;
use crate::chain::Chain;
use crate::landing::{Landing, hand_fire, hand_outcome};
use core_proxy::{Proxy, settle};
use core_word::Tally;
use fan_base::{ExecId, JobId, Mark, Try};
use job_steps::Cont;
use job_trait::{Headed, Job};
use std::sync::Wait;

/// A chain that fired: the core's number, which is the job's, the outcome and the chain. It must be spent.
pub struct ChainJob<'d, T, K, U, D, Q> {
    pub no: u64,
    pub outcome: Try<T>,
    pub chain: Chain<'d, K, U, D, Q>,
}

impl<'d, T, K, U, D, Q> Headed for ChainJob<'d, T, K, U, D, Q> {
    ghost head = { λ job. record { id = record { 0 = job.no }; exec = job.chain.exec; number = 0 } };

    fn id(&self) -> JobId {
        JobId(self.no)
    }

    fn exec(&self) -> ExecId {
        self.chain.exec()
    }
}

impl<'d, T, K, U, D, Q, W> Job<W> for ChainJob<'d, T, K, U, D, Q>
where
    K: Cont<T, Out = U, Later = Q>,
    Q: Proxy<U, D>,
    W: Landing<U, D>,
{
    ghost use Rattle.job_trait.specs.Marks.{IsMarkOf};
    ghost use Rattle.promise_api.specs.Landings.{JobRuns, JobRan};

    ghost runs = { JobRuns K.steps Q.gives Q.gives_up W.lands W.unclaims W.counts };

    /// Runs the chain once, settles its leave, and hands the world what that came to. The mark is always Done(0).
    fn run<R: Wait>(self, _rt: &R, world: &mut W) -> Mark
        ensures mark { IsMarkOf 0 result }
        ensures meaning { JobRuns K.steps Q.gives Q.gives_up W.lands W.unclaims W.counts (record { 0 = self.entry.no }) world.old result world.new }
        ensures chain { JobRan K.steps Q.gives Q.gives_up W.lands W.unclaims W.counts self.entry.chain.to self.entry.chain.cont self.entry.outcome world.old world.new }
    {
        let ChainJob {
            no: _,
            outcome,
            chain,
        } = self;
        let mut t = Tally::new();
        let After { landed, left } = chain.run(outcome, &mut t);
        let left_over = settle(left, &mut t);
        hand_fire(world, landed);
        hand_outcome(world, left_over);
        world.counted(t);
        Mark::Done(0)
    }
}
