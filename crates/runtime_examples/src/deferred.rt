//! Work that waits for an executor, which is chosen later, or never.
ghost use Rattle.std.specs.Prelude.{◌≡◌, false};

use crate::chained::Double;
use crate::promised::{Answer, answered};
use core_proxy::{NoProxy, settle};
use core_word::{Home, Landed, Tally, Unspent};
use fan_base::{ExecId, Memory, Try};
use job_steps::OnValue;
use promise_api::After;
use semi_defer::{Added, DeferChain, DeferJob, Deferred, DeferredHome, deferral, semi};
use std::alloc::Global;

/// The work of a deferral: [`Double`], what it gets, and the promise that it keeps.
pub type Work<'d> = DeferJob<'d, u64, OnValue<Double>, u64, u64, NoProxy>;

/// The callback that adds such work once the outcome is there.
pub type Callback<'d, 'e> = DeferChain<'d, 'e, u64, OnValue<Double>, u64, u64, NoProxy>;

/// The future of such work, whose executor is chosen later.
pub type Waiting<'d, 'e> = Deferred<'d, 'e, u64, OnValue<Double>, u64, u64, NoProxy>;

/// What came of a deferral: the executor of the work, the answer that was asked for, and the outcome that nobody asked for.
#[derive(Debug, PartialEq, Eq, Drop)]
pub struct Deferral {
    pub exec: Option<ExecId>,
    pub answer: Option<Answer>,
    pub unclaimed: Option<Try<u64>>,
}

// Runs the work, as its executor does.
fn run(work: Work<'_>, t: &mut Tally) -> Option<Answer> {
    let DeferJob { outcome, chain } = work;
    answered(chain.run(outcome, t), t)
}

// Gives the work up: its promise gets `Try::Broken`, which nobody asks for where the future was given up.
fn let_go(work: Work<'_>, t: &mut Tally) -> Option<Try<u64>> {
    let DeferJob { outcome: _, chain } = work;
    let After { landed, left } = chain.abandon();
    match landed {
        Landed::Waiting => {}
        Landed::Fire(fire) => {
            let _ = fire.unpack(t);
        }
    }
    settle(left, t)
}

// What an act of the first core comes to: where the outcome has met the callback, the work is added.
fn acted(after: After<'_, u64, Callback<'_, '_>, NoProxy>, t: &mut Tally) {
    let After { landed, left } = after;
    settle(left, t);
    match landed {
        Landed::Waiting => {}
        Landed::Fire(fire) => {
            let (_, outcome, callback) = fire.unpack(t);
            added(callback.land(outcome).0, t);
        }
    }
}

// What became of work that was added: kept for an executor, or for one that is there already, or for none.
fn added(added: Added<Work<'_>>, t: &mut Tally) {
    match added {
        Added::Kept => {}
        Added::RunOn(_, work) => {
            run(work, t);
        }
        Added::Gone(work) => {
            let_go(work, t);
        }
    }
}

// Chooses the executor: the work that was kept comes out and runs there, and the future is asked with the callback.
fn run_on(deferred: Waiting<'_, '_>, exec: ExecId, callback: u64, t: &mut Tally) -> Deferral {
    let (future, work, _) = deferred.via(exec);
    let asked = answered(future.on(callback, t), t);
    let Some(work) = work else {
        return Deferral {
            exec: None,
            answer: asked,
            unclaimed: None,
        };
    };
    Deferral {
        exec: Some(work.chain.exec()),
        answer: run(work, t).or(asked),
        unclaimed: None,
    }
}

// Chooses no executor: the work that was kept comes back, and never runs.
fn given_up(deferred: Waiting<'_, '_>, t: &mut Tally) -> Deferral {
    let (left, work, _) = deferred.give_up();
    let first = settle(left, t);
    let then = match work {
        Some(work) => let_go(work, t),
        None => None,
    };
    Deferral {
        exec: None,
        answer: None,
        unclaimed: then.or(first),
    }
}

// The walk of a value in these homes: work is deferred, the value comes, and then an executor is chosen, or none.
fn through<'h, 'd, 'e>(
    first: &'h mut Home<u64, Callback<'d, 'e>, NoProxy>,
    second: &'d mut Home<u64, u64, NoProxy>,
    home: &'e mut DeferredHome<Work<'d>>,
    value: u64,
    exec: Option<ExecId>,
    t: &mut Tally,
) -> Deferral
    requires first { first.old.taken ≡ false }
    requires second { second.old.taken ≡ false }
    requires home { home.old.taken ≡ false }
{
    let (Some(one), Some(two)) = (first.key(), second.key()) else {
        unreachable!()
    };
    let Some((adder, holder)) = home.pair() else {
        unreachable!()
    };
    let (promise, future) = semi(one, 1, t);
    let (deferred, callback) = deferral(adder, holder, two, 2, OnValue { step: Double }, t);
    acted(future.defer(callback, t), t);
    acted(promise.fulfil(Try::Value(value)), t);
    match exec {
        Some(exec) => run_on(deferred, exec, 7, t),
        None => given_up(deferred, t),
    }
}

// A callback that still waits in its home has no outcome any more.
fn end_first(first: Home<u64, Callback<'_, '_>, NoProxy>, t: &mut Tally) {
    let Unspent {
        outcome: _,
        callback,
        proxy: _,
        end: _,
    } = first.close();
    if let Some(callback) = callback {
        added(callback.land(Try::Broken).0, t);
    }
}

// Work that is still kept in its home is given up.
fn end_deferred(home: DeferredHome<Work<'_>>, t: &mut Tally) {
    if let Some(work) = home.close().into_job() {
        let_go(work, t);
    }
}

/// A value is promised, and its doubling is deferred; then the value comes, and then the executor, or none. Where there is one the
/// work runs there, and the callback 7 is answered; where there is none it comes back and is given up.
pub fn double_later(
    alloc: Global,
    value: u64,
    exec: Option<ExecId>,
    t: &mut Tally,
) -> Result<Deferral, Memory> {
    let mut second = Home::new(alloc)?;
    let mut home = DeferredHome::new(alloc)?;
    let mut first = match Home::new(alloc) {
        Ok(first) => first,
        Err(memory) => {
            end_deferred(home, t);
            return Err(memory);
        }
    };
    let deferral = through(&mut first, &mut second, &mut home, value, exec, t);
    end_first(first, t);
    end_deferred(home, t);
    Ok(deferral)
}
