//! The rule of a home's table, and what each step on it tells. These types are for the proofs alone.
ghost use Rattle.semi_defer.specs.Rule.{DeferHolds};
ghost use Rattle.semi_defer.specs.Steps.{takes_slot, adds, chooses, gives_back, compares, begin_adder, begin_holder, both_views};
ghost use Rattle.semi_defer.specs.declared.view.View.TheVariants as view;

use crate::view::View;
use atomic_table::{Join, Play, Seat, Shared, Split, TableRule};

/// The word and the slot of a home, as its two sides share them.
pub(crate) type DeferTable<J> = Shared<Option<J>, View<J>, (), DeferRule>;

/// The seat of a side.
pub(crate) type DeferSeat<J> = Seat<Option<J>, View<J>>;

pub(crate) struct DeferRule;

impl<J> TableRule<Option<J>, View<J>, ()> for DeferRule {
    ghost holds = { λ _. DeferHolds };

    ghost first = { λ _. view.Pair };
}

pub(crate) struct TakesSlot;

impl<J> Play<Option<J>, View<J>> for TakesSlot {
    ghost then = { λ _. takes_slot };
}

pub(crate) struct Adds;

impl<J> Play<Option<J>, View<J>> for Adds {
    ghost then = { λ _. adds };
}

pub(crate) struct Chooses;

impl<J> Play<Option<J>, View<J>> for Chooses {
    ghost then = { λ st before found after. chooses before st.first found after };
}

pub(crate) struct GivesBack;

impl<J> Play<Option<J>, View<J>> for GivesBack {
    ghost then = { λ _. gives_back };
}

pub(crate) struct Compares;

impl<J> Play<Option<J>, View<J>> for Compares {
    ghost then = { λ _. compares };
}

pub(crate) struct Pairs;

impl<J> Split<View<J>> for Pairs {
    ghost left = { begin_adder };

    ghost right = { begin_holder };
}

pub(crate) struct JoinsSides;

impl<J> Join<View<J>> for JoinsSides {
    ghost both = { both_views };

    ghost spent = { view.Spent };
}
