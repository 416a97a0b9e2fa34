//! The rule of a home's table, and what each step on it tells. These types are for the proofs alone.
ghost use Rattle.core_interrupt.specs.Rule.{InterruptHolds};
ghost use Rattle.core_interrupt.specs.Steps.{takes_slot, sets, meets, gives_back, ends_unset, ends_armed, tries, places, tries_again, compares, begin_hearer, begin_raiser, both_views};
ghost use Rattle.core_interrupt.specs.declared.view.View.TheVariants as view;

use crate::view::{Item, View};
use atomic_table::{Join, Play, Seat, Shared, Split, TableRule};

/// The word and the slots of a home, as its two sides share them.
pub(crate) type InterruptTable<H, I> = Shared<Option<Item<H, I>>, View<H, I>, (), InterruptRule>;

/// The seat of a side.
pub(crate) type InterruptSeat<H, I> = Seat<Option<Item<H, I>>, View<H, I>>;

pub(crate) struct InterruptRule;

impl<H, I> TableRule<Option<Item<H, I>>, View<H, I>, ()> for InterruptRule {
    ghost holds = { λ _. InterruptHolds };

    ghost first = { λ _. view.Pair };
}

pub(crate) struct TakesSlot;

impl<H, I> Play<Option<Item<H, I>>, View<H, I>> for TakesSlot {
    ghost then = { λ _. takes_slot };
}

pub(crate) struct Sets;

impl<H, I> Play<Option<Item<H, I>>, View<H, I>> for Sets {
    ghost then = { λ _. sets };
}

pub(crate) struct Meets;

impl<H, I> Play<Option<Item<H, I>>, View<H, I>> for Meets {
    ghost then = { λ _. meets };
}

pub(crate) struct GivesBack;

impl<H, I> Play<Option<Item<H, I>>, View<H, I>> for GivesBack {
    ghost then = { λ _. gives_back };
}

pub(crate) struct EndsUnset;

impl<H, I> Play<Option<Item<H, I>>, View<H, I>> for EndsUnset {
    ghost then = { λ _. ends_unset };
}

pub(crate) struct EndsArmed;

impl<H, I> Play<Option<Item<H, I>>, View<H, I>> for EndsArmed {
    ghost then = { λ _. ends_armed };
}

pub(crate) struct Tries;

impl<H, I> Play<Option<Item<H, I>>, View<H, I>> for Tries {
    ghost then = { tries };
}

pub(crate) struct Places;

impl<H, I> Play<Option<Item<H, I>>, View<H, I>> for Places {
    ghost then = { λ _. places };
}

pub(crate) struct TriesAgain;

impl<H, I> Play<Option<Item<H, I>>, View<H, I>> for TriesAgain {
    ghost then = { tries_again };
}

pub(crate) struct Compares;

impl<H, I> Play<Option<Item<H, I>>, View<H, I>> for Compares {
    ghost then = { λ _. compares };
}

pub(crate) struct Pairs;

impl<H, I> Split<View<H, I>> for Pairs {
    ghost left = { begin_hearer };

    ghost right = { begin_raiser };
}

pub(crate) struct JoinsSides;

impl<H, I> Join<View<H, I>> for JoinsSides {
    ghost both = { both_views };

    ghost spent = { view.Spent };
}
