//! A continuation that is deferred, and runs on the executor that is chosen afterwards, or not at all.
ghost use Rattle.std.specs.Prelude.{◌≡◌};

use core_proxy::{NoProxy, settle};
use core_word::{Home, Key, Landed, Tally};
use fan_base::{ExecId, Try};
use job_steps::{OnValue, Step, ValueStep};
use promise_api::After;
use semi_defer::{Added, Adder, DeferChain, DeferJob, DeferredHome, Holder, deferral, semi};
use std::alloc::Global;
use std::mem::ManuallyDrop;

// Adds its number to the value.
#[derive(Drop)]
struct Add(u64);

impl ValueStep<u64> for Add {
    type Out = u64;

    type Later = NoProxy;

    ghost gives = { λ _ _ _. Unit {0} };

    fn of(self, value: u64) -> Step<u64, NoProxy> {
        Step::Now(Try::Value(value.saturating_add(self.0)))
    }
}

type Work<'d> = DeferJob<'d, u64, OnValue<Add>, u64, u64, NoProxy>;

type Callback<'d, 'e> = DeferChain<'d, 'e, u64, OnValue<Add>, u64, u64, NoProxy>;

// The core that is fulfilled, and the core of the future.
type First<'d, 'e> = Home<u64, Callback<'d, 'e>, NoProxy>;

type Second = Home<u64, u64, NoProxy>;

type Keys<'h, 'd, 'e> = (
    Key<'h, u64, Callback<'d, 'e>, NoProxy>,
    Key<'d, u64, u64, NoProxy>,
);

type Sides<'d, 'e> = (Adder<'e, Work<'d>>, Holder<'e, Work<'d>>);

// The core's number, the outcome and the callback of a fire.
type End = (u64, Try<u64>, u64);

// What a row showed: whether the job was kept, its executor, the fire of the future, and the outcome that was left over.
#[derive(Debug, PartialEq, Eq, Drop)]
struct Shown {
    kept: bool,
    exec: Option<ExecId>,
    end: Option<End>,
    left_over: Option<Try<u64>>,
}

fn end_of(landed: Landed<u64, u64>, t: &mut Tally) -> Option<End> {
    match landed {
        Landed::Waiting => None,
        Landed::Fire(fire) => Some(fire.unpack(t)),
    }
}

// Abandons a job that was handed back, and says what was left over then.
fn abandoned(job: Work<'_>, t: &mut Tally) -> Option<Try<u64>> {
    let DeferJob { outcome: _, chain } = job;
    let After { landed, left } = chain.abandon();
    let _ = end_of(landed, t);
    settle(left, t)
}

// Lands a fire, and says whether its job was kept.
fn is_kept(landed: Landed<u64, Callback<'_, '_>>, t: &mut Tally) -> bool {
    match landed {
        Landed::Waiting => false,
        Landed::Fire(fire) => {
            let (_, outcome, callback) = fire.unpack(t);
            let (added, _) = callback.land(outcome);
            match added {
                Added::Kept => true,
                Added::RunOn(_, job) | Added::Gone(job) => {
                    let _ = abandoned(job, t);
                    false
                }
            }
        }
    }
}

// Runs a job, and says on which executor it was to run and what fired.
fn ran(job: Option<Work<'_>>, t: &mut Tally) -> (Option<ExecId>, Option<End>) {
    let Some(job) = job else {
        return (None, None);
    };
    let DeferJob { outcome, chain } = job;
    let exec = chain.exec();
    let After { landed, left } = chain.run(outcome, t);
    let _ = settle(left, t);
    (Some(exec), end_of(landed, t))
}

// Deferred, fulfilled with 2, landed, and then on executor 3, or given up.
fn row<'h, 'd, 'e>(
    keys: Keys<'h, 'd, 'e>,
    sides: Sides<'d, 'e>,
    gives_up: bool,
    t: &mut Tally,
) -> Shown
    requires { sides.0.home ≡ sides.1.home }
{
    let (to, waiting) = semi(keys.0, 1, t);
    let work = OnValue { step: Add(3) };
    let (deferred, callback) = deferral(sides.0, sides.1, keys.1, 2, work, t);
    let After { landed, left } = waiting.defer(callback, t);
    let _ = is_kept(landed, t);
    let _ = settle(left, t);
    let After { landed, left } = to.fulfil(Try::Value(2));
    let _ = settle(left, t);
    let kept = is_kept(landed, t);
    if gives_up {
        let (left, job, _) = deferred.give_up();
        let first = settle(left, t);
        let exec = job.as_ref().map(|job| job.chain.exec());
        let left_over = match job {
            Some(job) => abandoned(job, t),
            None => first,
        };
        return Shown {
            kept,
            exec,
            end: None,
            left_over,
        };
    }
    let (future, job, _) = deferred.via(ExecId(3));
    let After { landed, left } = future.on(7, t);
    let _ = end_of(landed, t);
    let left_over = settle(left, t);
    let (exec, end) = ran(job, t);
    Shown {
        kept,
        exec,
        end,
        left_over,
    }
}

fn begun<'h, 'd, 'e>(
    first: &'h mut First<'d, 'e>,
    second: &'d mut Second,
    home: &'e mut DeferredHome<Work<'d>>,
    gives_up: bool,
) -> Option<Shown> {
    let (Some(one), Some(two)) = (first.key(), second.key()) else {
        return None;
    };
    let sides = home.pair()?;
    let mut t = Tally::new();
    Some(row((one, two), sides, gives_up, &mut t))
}

// Lets go of a home whose callback or proxy can't be dropped: there is none in it any more.
fn forget<X>(home: X) {
    let _ = unsafe { ManuallyDrop::new_unchecked(home) };
}

// Whether a job is left in the home of a deferral.
fn has_job(home: DeferredHome<Work<'_>>) -> bool {
    match home.close().into_job() {
        Some(job) => {
            let _ = abandoned(job, &mut Tally::new());
            true
        }
        None => false,
    }
}

// The row, and whether a job is left in the home of the deferral.
fn whole_row(alloc: Global, gives_up: bool) -> (Option<Shown>, bool) {
    let mut shown = None;
    let mut is_left = true;
    if let Ok(mut second) = Home::new(alloc) {
        if let Ok(mut home) = DeferredHome::new(alloc) {
            if let Ok(mut first) = Home::new(alloc) {
                shown = begun(&mut first, &mut second, &mut home, gives_up);
                forget(first);
            }
            is_left = has_job(home);
        }
        forget(second);
    }
    (shown, is_left)
}

#[test]
fn deferred_work_runs_on_the_executor_that_is_chosen(rt: HostRuntime) {
    let ran = Shown {
        kept: true,
        exec: Some(ExecId(3)),
        end: Some((2, Try::Value(5), 7)),
        left_over: None,
    };
    assert_eq!(rt; whole_row(rt.alloc(), false), (Some(ran), false));
}

#[test]
fn deferred_work_that_is_given_up_never_runs(rt: HostRuntime) {
    let given_up = Shown {
        kept: true,
        exec: Some(ExecId(0)),
        end: None,
        left_over: Some(Try::Broken),
    };
    assert_eq!(rt; whole_row(rt.alloc(), true), (Some(given_up), false));
}
