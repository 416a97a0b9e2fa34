//! The steps of the continuations that the tests run.
ghost use Rattle.std.specs.Prelude.{◌≡◌};

use core_proxy::NoProxy;
use core_word::Consumer;
use fan_base::{Fault, Parcel, Try};
use job_steps::{EnsureStep, FaultStep, Step, ValueStep};
use std::cell::Cell;

// Comes to its number, whatever the fault.
#[derive(Drop)]
pub(crate) struct Mend(pub(crate) u64);

impl FaultStep<u64> for Mend {
    type Later = NoProxy;

    ghost gives = { λ _ _ _. Unit {0} };

    fn of(self, _fault: Fault) -> Step<u64, NoProxy> {
        Step::Now(Try::Value(self.0))
    }
}

// Counts its calls.
#[derive(Drop)]
pub(crate) struct Count<'a>(pub(crate) &'a Cell<u64>);

impl EnsureStep for Count<'_> {
    type Later = NoProxy;

    fn of(self) {
        self.0.set(self.0.get().saturating_add(1));
    }
}

// Counts its calls, and comes to the value.
#[derive(Drop)]
pub(crate) struct Note<'a>(pub(crate) &'a Cell<u64>);

impl ValueStep<u64> for Note<'_> {
    type Out = u64;

    type Later = NoProxy;

    ghost gives = { λ _ _ _. Unit {0} };

    fn of(self, value: u64) -> Step<u64, NoProxy> {
        self.0.set(self.0.get().saturating_add(1));
        Step::Now(Try::Value(value))
    }
}

// Comes to the outcome of the core whose consumer it holds.
#[derive(Drop)]
pub(crate) struct Name<'i, C>(pub(crate) Parcel<Consumer<'i, u64, C, NoProxy>>);

impl<'i, C> ValueStep<u64> for Name<'i, C> {
    type Out = u64;

    type Later = Consumer<'i, u64, C, NoProxy>;

    ghost gives = { λ _ _ _. Unit {0} };

    fn of(self, _value: u64) -> Step<u64, Consumer<'i, u64, C, NoProxy>> {
        Step::Later(self.0.open())
    }
}

// Adds its number to the value.
#[derive(Drop)]
pub(crate) struct Add(pub(crate) u64);

impl ValueStep<u64> for Add {
    type Out = u64;

    type Later = NoProxy;

    ghost gives = { λ _ _ _. Unit {0} };

    fn of(self, value: u64) -> Step<u64, NoProxy> {
        Step::Now(Try::Value(value.saturating_add(self.0)))
    }
}
