//! The rule of the free queue, and what each step on it tells. These types are for the proofs alone.
ghost use Rattle.core_cells.specs.Rule.{FreeHolds, opening, fills, left_by_count, right_by_count, left_by_fork, right_by_fork, with_pass, spent, takes, puts, Accounts};

use crate::view::View;
use core_word::Key;
use crossbeam_queue::RuledArrayQueue;
use crossbeam_queue::protocol::{Join, Lesson, Outcome, Protocol, Split};

/// The queue of the keys of free cells.
pub(crate) type FreeQueue<'h, T, C, P> = RuledArrayQueue<Key<'h, T, C, P>, View, FreeRule>;

/// A pass of it.
pub(crate) type FreePass<'h, T, C, P> = crossbeam_queue::Pass<Key<'h, T, C, P>, View>;

pub struct FreeRule;

impl<'h, T, C, P> Protocol<Key<'h, T, C, P>, View> for FreeRule {
    ghost holds = { FreeHolds };

    ghost first = { opening };
}

/// The first key of a home is put.
pub(crate) struct Fills;

impl<'h, T, C, P> Outcome<Key<'h, T, C, P>, View> for Fills {
    ghost then = { fills };
}

impl<'h, T, C, P> Lesson<Key<'h, T, C, P>, View> for Fills {
    ghost fact = { Accounts };
}

/// A pass is counted that there is to be.
pub(crate) struct Counts;

impl Split<View> for Counts {
    ghost left = { left_by_count };

    ghost right = { right_by_count };
}

/// A further pass is made.
pub(crate) struct Makes;

impl Split<View> for Makes {
    ghost left = { left_by_fork };

    ghost right = { right_by_fork };
}

/// A pass is taken in.
pub(crate) struct TakesIn;

impl Join<View> for TakesIn {
    ghost both = { with_pass };

    ghost spent = { spent };
}

/// A key is taken.
pub(crate) struct Takes;

impl<'h, T, C, P> Outcome<Key<'h, T, C, P>, View> for Takes {
    ghost then = { takes };
}

impl<'h, T, C, P> Lesson<Key<'h, T, C, P>, View> for Takes {
    ghost fact = { Accounts };
}

/// A key is put.
pub(crate) struct Puts;

impl<'h, T, C, P> Outcome<Key<'h, T, C, P>, View> for Puts {
    ghost then = { puts };
}

impl<'h, T, C, P> Lesson<Key<'h, T, C, P>, View> for Puts {
    ghost fact = { Accounts };
}
