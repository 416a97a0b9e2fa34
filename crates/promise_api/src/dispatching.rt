//! What is done with a chain's fire.
ghost use Rattle.std.specs.Prelude.{◌≡◌, ◌≢◌, ◌⊎◌, true, false, OnOk, IfErr};
ghost use Rattle.core_word.specs.Count.{raised};
ghost use Rattle.fan_base.specs.declared.refusal.Refused.TheVariants.{Memory};
ghost use Rattle.promise_api.specs.Here.{MatchHere, RanHere, job_of};

use crate::after::After;
use crate::chain::Chain;
use crate::chain_job::ChainJob;
use core_proxy::Proxy;
use core_word::{Fire, Tally};
use fan_base::{ExecId, Refused};
use job_steps::Cont;
use job_trait::Executor;
use std::sync::Wait;

/// Adds the chain's job to an executor with the chain's number. Where there is no memory for it, the job comes back, and the
/// fire counts as handed over all the same.
pub fn dispatch<'d, T, K, U, D, Q, E, R>(
    rt: &R,
    fire: Fire<T, Chain<'d, K, U, D, Q>>,
    executor: &mut E,
    t: &mut Tally,
) -> Result<(), Refused<ChainJob<'d, T, K, U, D, Q>>>
where
    E: Executor<ChainJob<'d, T, K, U, D, Q>>,
    R: Wait,
    requires { fire.callback.exec ≡ E.number executor.old }
    ensures ok { OnOk result (E.adds executor.old (job_of fire.entry) executor.new) }
    ensures refused { IfErr result (λ r. (r ≡ Memory (job_of fire.entry)) × (executor.new ≡ executor.old)) }
    ensures exec { E.number executor.new ≡ E.number executor.old }
    ensures tally { t.new ≡ record t.old { handed = raised t.old.handed } }
{
    let (no, outcome, chain) = fire.unpack(t);
    executor.add(rt, ChainJob { no, outcome, chain })
}

/// What `run_here` answers.
pub enum Here<'d, T, K, U, D, Q> {
    /// The chain was run once.
    Ran(After<'d, U, D, Q>),
    /// It wasn't: the fire is to be dispatched.
    Not(Fire<T, Chain<'d, K, U, D, Q>>),
}

/// Runs the chain at once where the fire may run inline and the chain's executor is `here`, on which the caller runs. Else it
/// gives the fire back.
pub fn run_here<'d, T, K, U, D, Q>(
    fire: Fire<T, Chain<'d, K, U, D, Q>>,
    here: ExecId,
    t: &mut Tally,
) -> Here<'d, T, K, U, D, Q>
where
    K: Cont<T, Out = U, Later = Q>,
    Q: Proxy<U, D>,
    ensures ran { MatchHere result (λ after. RanHere K.steps Q.gives fire.entry here after t.old t.new) (λ back. back ≡ fire.entry) }
    ensures not { MatchHere result (λ _. Unit {0}) (λ _. (fire.entry.inline ≡ false) ⊎ (fire.entry.callback.exec ≢ here)) }
    ensures kept { MatchHere result (λ _. Unit {0}) (λ _. t.new ≡ t.old) }
{
    let may_run = fire.may_inline() && fire.callback().exec() == here;
    if !may_run {
        return Here::Not(fire);
    }
    let (_, outcome, chain) = fire.unpack(t);
    Here::Ran(chain.run(outcome, t))
}
