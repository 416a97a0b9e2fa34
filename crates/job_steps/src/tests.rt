//! The three continuations over each kind of outcome.
ghost use Rattle.std.specs.Prelude.{◌≡◌};
ghost use Rattle.job_steps.specs.declared.cont.Step.TheVariants as step;
ghost use Rattle.fan_base.specs.declared.outcome.Try.TheVariants as try;

use crate::{Always, Cont, EnsureStep, FaultStep, OnFault, OnValue, Step, ValueStep};
use fan_base::{Fault, Try};
use std::cell::Cell;

// Answers that the outcome is that of a core with this number.
#[derive(Drop)]
struct Named(u64);

impl ValueStep<u64> for Named {
    type Out = u64;

    type Later = u64;

    ghost gives = { λ named _ answer. answer ≡ step.Later named.0 };

    fn of(self, _value: u64) -> Step<u64, u64> {
        Step::Later(self.0)
    }
}

impl FaultStep<u64> for Named {
    type Later = u64;

    ghost gives = { λ named _ answer. answer ≡ step.Now (try.Value named.0) };

    fn of(self, _fault: Fault) -> Step<u64, u64> {
        Step::Now(Try::Value(self.0))
    }
}

// Counts its calls.
#[derive(Drop)]
struct Counted<'a>(&'a Cell<u64>);

impl EnsureStep for Counted<'_> {
    type Later = u64;

    fn of(self) {
        self.0.set(self.0.get().saturating_add(1));
    }
}

#[test]
fn values_go_to_the_step_and_faults_stay(rt: HostRuntime) {
    for (outcome, answer) in [
        (Try::Value(5), Step::Later(9)),
        (Try::Broken, Step::Now(Try::Broken)),
        (Try::Memory, Step::Now(Try::Memory)),
        (Try::Cancelled(4), Step::Now(Try::Cancelled(4))),
    ] {
        let on = OnValue { step: Named(9) };
        assert_eq!(rt; on.step(outcome), answer);
    }
}

#[test]
fn faults_go_to_the_step_and_values_stay(rt: HostRuntime) {
    for (outcome, answer) in [
        (Try::Value(5), Step::Now(Try::Value(5))),
        (Try::Broken, Step::Now(Try::Value(9))),
        (Try::Memory, Step::Now(Try::Value(9))),
        (Try::Cancelled(4), Step::Now(Try::Value(9))),
    ] {
        let on = OnFault { step: Named(9) };
        assert_eq!(rt; on.step(outcome), answer);
    }
}

#[test]
fn outcomes_stay_and_the_step_is_called_for_each(rt: HostRuntime) {
    let calls = Cell::new(0);
    for (outcome, answer) in [
        (Try::Value(5), Step::Now(Try::Value(5))),
        (Try::Broken, Step::Now(Try::Broken)),
        (Try::Cancelled(4), Step::Now(Try::Cancelled(4))),
    ] {
        let on = Always {
            step: Counted(&calls),
        };
        assert_eq!(rt; on.step(outcome), answer);
    }
    assert_eq!(rt; calls.get(), 3);
}
