//! The desk of the first outcome: collectAny.
ghost use Rattle.std.specs.Prelude.{◌≡◌, []};
ghost use Rattle.collect_ops.specs.Answers.{MatchArrived, ClaimedBy, IsBack, any_answer, answer_of, found_of};

use crate::answer::{Arrived, Reason};
use crate::arrival::Arrival;
use crate::desk::Desk;
use crate::kept::Kept;
use fan_base::Try;
use std::marker::PhantomData;

/// What a desk keeps that keeps no outcome.
#[derive(Drop)]
pub enum Nothing {}

/// The kind of a desk that completes at the first outcome.
#[derive(Drop)]
pub struct Any<T> {
    value: PhantomData<T>,
}

/// It completes with the first outcome that claims, and its index.
pub type AnyDesk<T, E> = Desk<Nothing, E, Any<T>>;

/// What an arrival at a desk of the first outcome answers: never `More`.
pub type AnyArrived<'d, T, E> = Arrived<'d, (usize, Try<T>), E, T, Nothing>;

impl<'d, T, E> Arrival<'d, AnyDesk<T, E>> {
    /// Claims with an outcome. The first completes, and every other comes back. It takes no memory.
    pub fn arrive(self, outcome: Try<T>) -> AnyArrived<'d, T, E>
        ensures answer { answer_of result ≡ any_answer outcome (found_of result) }
        ensures what { MatchArrived result (λ first end done. (first ≡ (self.entry.index, outcome)) × ClaimedBy self.entry end done) (λ back why. IsBack self.entry outcome back why) (λ _. ⊥) }
    {
        let pass = self.into_pass();
        let index = pass.index();
        match pass.claim() {
            Ok((end, done)) => Arrived::Complete((index, outcome), end, done),
            Err(lost) => Arrived::Back(outcome, Reason::Claimed(lost)),
        }
    }
}

impl<T, E> Kept<AnyDesk<T, E>> {
    /// None: this desk keeps no outcome.
    pub fn next(&mut self) -> Option<Try<T>>
        ensures none { result ≡ None }
        ensures rest { (self.old.outcomes ≡ []) × (self.new.outcomes ≡ []) }
        ensures end { self.new.end ≡ self.old.end }
    {
        match self.next_kept() {
            Some(nothing) => match nothing {},
            None => None,
        }
    }
}
