//! The desk of all outcomes: collectAll.
ghost use Rattle.std.specs.Prelude.{◌≡◌, ◌↔◌, [], ◌++◌, option_to_list, IsNone};
ghost use Rattle.collect_ops.specs.Answers.{Gathered, KeptBy, MatchArrived, all_answer, answer_of, found_of};

use crate::answer::Arrived;
use crate::arrival::Arrival;
use crate::desk::Desk;
use crate::kept::Kept;
use crate::listed::Listed;
use fan_base::Try;

/// The kind of a desk that keeps each outcome.
#[derive(Drop)]
pub struct All;

/// It completes with all outcomes by index, at the last one.
pub type AllDesk<T, E> = Desk<Try<T>, E, All>;

/// What an arrival at a desk of all outcomes answers: never `Back`.
pub type AllArrived<'d, T, E> = Arrived<'d, Listed<Try<T>>, E, T, Try<T>>;

impl<'d, T, E> Arrival<'d, AllDesk<T, E>> {
    /// Leaves an outcome at its index. The arrival that finds 1 left completes, with all outcomes by index; every other
    /// answers `More`. It takes no memory.
    pub fn arrive(self, outcome: Try<T>) -> AllArrived<'d, T, E>
        ensures answer { answer_of result ≡ all_answer outcome (found_of result) }
        ensures what { MatchArrived result (λ list end done. Gathered self.entry outcome list end done) (λ _ _. ⊥) (λ receipt. KeptBy self.entry outcome receipt) }
    {
        match self.into_pass().keep(outcome) {
            Ok((list, end, done)) => Arrived::Complete(list, end, done),
            Err(receipt) => Arrived::More(receipt),
        }
    }
}

impl<T, E> Kept<AllDesk<T, E>> {
    /// The next outcome that was kept and never handed out, the lowest index first. None exactly where none is left.
    pub fn next(&mut self) -> Option<Try<T>>
        ensures rest { self.old.outcomes ≡ option_to_list result ++ self.new.outcomes }
        ensures none { IsNone result ↔ (self.old.outcomes ≡ []) }
        ensures end { self.new.end ≡ self.old.end }
    {
        self.next_kept()
    }
}
