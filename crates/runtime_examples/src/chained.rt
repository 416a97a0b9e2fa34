//! A continuation, and the executor that runs it.
ghost use Rattle.std.specs.Prelude.{◌≡◌, ◌*◌, ◌-◌, ◌^◌, min, Some};
ghost use Rattle.fan_base.specs.declared.outcome.Try.TheVariants as try;
ghost use Rattle.job_steps.specs.declared.cont.Step.TheVariants as step;

use crate::promised::answered;
use core_proxy::{NoProxy, settle};
use core_word::{Fire, Home, Key, Landed, Tally, Unspent};
use fan_base::{ExecId, Memory, Refused, Try};
use job_steps::{OnValue, Step, ValueStep};
use job_trait::{Executor, ManualExecutor};
use promise_api::{After, Chain, ChainJob, Landing, dispatch, promise};
use std::alloc::Global;
use std::mem;
use std::sync::Wait;

/// Doubles a value, as far as a u64 goes.
#[derive(Drop)]
pub struct Double;

impl ValueStep<u64> for Double {
    type Out = u64;

    type Later = NoProxy;

    ghost gives = { λ _ value answer. answer ≡ step.Now (try.Value (min (value * 2) (2 ^ 64 - 1))) };

    fn of(self, value: u64) -> Step<u64, NoProxy> {
        Step::Now(Try::Value(value.saturating_mul(2)))
    }
}

/// The callback that `then` makes of [`Double`]: it keeps a promise whose callback is a number.
pub type Doubling<'d> = Chain<'d, OnValue<Double>, u64, u64, NoProxy>;

/// The job of such a chain.
pub type DoublingJob<'d> = ChainJob<'d, u64, OnValue<Double>, u64, u64, NoProxy>;

/// The world in which jobs land: the last outcome that came with its callback, the last one that nobody had asked for, and what
/// all runs have counted.
#[derive(Drop)]
pub struct Arrived {
    pub last: Option<(Try<u64>, u64)>,
    pub unclaimed: Option<Try<u64>>,
    pub tally: Tally,
}

impl Arrived {
    /// Nothing has come.
    pub fn nothing() -> Arrived {
        Arrived {
            last: None,
            unclaimed: None,
            tally: Tally::new(),
        }
    }
}

impl Landing<u64, u64> for Arrived {
    ghost lands = { λ before fire after. after.last ≡ Some (fire.outcome, fire.callback) };

    ghost unclaims = { λ before outcome after. after.unclaimed ≡ Some outcome };

    ghost counts = { λ _ _ _. Unit {0} };

    fn landed(&mut self, fire: Fire<u64, u64>)
        ensures { self.new.last ≡ Some (fire.outcome, fire.callback) }
    {
        let (_, outcome, callback) = fire.unpack(&mut self.tally);
        self.last = Some((outcome, callback));
    }

    fn unclaimed(&mut self, outcome: Try<u64>)
        ensures { self.new.unclaimed ≡ Some outcome }
    {
        self.unclaimed = Some(outcome);
    }

    fn counted(&mut self, tally: Tally) {
        let before = mem::replace(&mut self.tally, Tally::new());
        self.tally = before.merge(tally);
    }
}

// Gives a chain up: its promise gets `Try::Broken`.
fn let_go(chain: Doubling<'_>, t: &mut Tally) {
    answered(chain.abandon(), t);
}

// Dispatches a chain that fired to this executor. It is given up where it chose another one, or where there is no memory for
// its job.
fn add<'d, R: Wait>(
    rt: &R,
    fire: Fire<u64, Doubling<'d>>,
    executor: &mut ManualExecutor<DoublingJob<'d>>,
    t: &mut Tally,
) {
    if fire.callback().exec() != Executor::exec(executor) {
        let (_, _, chain) = fire.unpack(t);
        return let_go(chain, t);
    }
    if let Err(Refused::Memory(job)) = dispatch(rt, fire, executor, t) {
        let ChainJob {
            no: _,
            outcome: _,
            chain,
        } = job;
        let_go(chain, t);
    }
}

// What an act of the first core comes to: a chain that fired is added to the executor.
fn acted<'d, R: Wait>(
    rt: &R,
    after: After<'_, u64, Doubling<'d>, NoProxy>,
    executor: &mut ManualExecutor<DoublingJob<'d>>,
    t: &mut Tally,
) {
    let After { landed, left } = after;
    settle(left, t);
    match landed {
        Landed::Waiting => {}
        Landed::Fire(fire) => add(rt, fire, executor, t),
    }
}

// The walk of a value through a promise, a continuation on an executor, and the promise that the continuation keeps.
fn through<'d, R: Wait>(
    rt: &R,
    alloc: Global,
    first: Key<'_, u64, Doubling<'d>, NoProxy>,
    second: Key<'d, u64, u64, NoProxy>,
    value: u64,
    callback: u64,
) -> Arrived {
    let mut arrived = Arrived::nothing();
    let t = &mut arrived.tally;
    let mut executor = ManualExecutor::new(alloc, ExecId(5));
    let (promise, future) = promise(first, 1, ExecId(5), t);
    let (doubled, asked) = future.then(second, 2, Double, t);
    acted(rt, asked, &mut executor, t);
    answered(doubled.on(callback, t), t);
    acted(rt, promise.fulfil(Try::Value(value)), &mut executor, t);
    executor.drain(rt, &mut arrived);
    executor.close();
    arrived
}

/// A value is promised, doubled on an executor, and asked for with a callback. The world shows what came. A home whose callback
/// is a chain is given back by `close`, since a chain that waits there must be given up.
pub fn double_value<R: Wait>(
    rt: &R,
    alloc: Global,
    value: u64,
    callback: u64,
) -> Result<Arrived, Memory> {
    let mut second = Home::new(alloc)?;
    let mut first = Home::new(alloc)?;
    let (Some(one), Some(two)) = (first.key(), second.key()) else {
        unreachable!()
    };
    let mut arrived = through(rt, alloc, one, two, value, callback);
    let Unspent {
        outcome: _,
        callback,
        proxy: _,
        end: _,
    } = first.close();
    if let Some(chain) = callback {
        let_go(chain, &mut arrived.tally);
    }
    Ok(arrived)
}
