//! The rule of a desk's table, and what each step on it tells. These types are for the proofs alone.
ghost use Rattle.collect_ops.specs.Rule.{DeskHolds};
ghost use Rattle.collect_ops.specs.Steps.{takes_end_slot, gives_end, dealer, dealt, takes_slot, keeps, claims, returns_end, returns_all, told, reads_told};
ghost use Rattle.collect_ops.specs.declared.view.View.TheVariants as view;

use crate::view::{Item, View};
use atomic_table::{Join, Play, Seat, Shared, Split, TableRule};

/// The words and slots of a desk, as its arrivals share them.
pub(crate) type DeskTable<X, E> = Shared<Option<Item<X, E>>, View<X, E>, (), DeskRule>;

/// The seat of a desk or of an arrival.
pub(crate) type Place<X, E> = Seat<Option<Item<X, E>>, View<X, E>>;

pub struct DeskRule;

impl<X, E> TableRule<Option<Item<X, E>>, View<X, E>, ()> for DeskRule {
    ghost holds = { λ _. DeskHolds };

    ghost first = { λ _. view.Making };
}

pub(crate) struct TakesEndSlot;

impl<X, E> Play<Option<Item<X, E>>, View<X, E>> for TakesEndSlot {
    ghost then = { λ step. takes_end_slot step.slots };
}

pub(crate) struct GivesEnd;

impl<X, E> Play<Option<Item<X, E>>, View<X, E>> for GivesEnd {
    ghost then = { λ _. gives_end };
}

pub(crate) struct Deals;

impl<X, E> Split<View<X, E>> for Deals {
    ghost left = { dealer };

    ghost right = { dealt };
}

pub(crate) struct TakesSlot;

impl<X, E> Play<Option<Item<X, E>>, View<X, E>> for TakesSlot {
    ghost then = { λ _. takes_slot };
}

pub(crate) struct Keeps;

impl<X, E> Play<Option<Item<X, E>>, View<X, E>> for Keeps {
    ghost then = { λ _. keeps };
}

pub(crate) struct Claims;

impl<X, E> Play<Option<Item<X, E>>, View<X, E>> for Claims {
    ghost then = { λ _. claims };
}

pub(crate) struct ReturnsEnd;

impl<X, E> Play<Option<Item<X, E>>, View<X, E>> for ReturnsEnd {
    ghost then = { λ _. returns_end };
}

pub(crate) struct ReturnsAll;

impl<X, E> Play<Option<Item<X, E>>, View<X, E>> for ReturnsAll {
    ghost then = { λ _. returns_all };
}

pub(crate) struct Tells;

impl<X, E> Join<View<X, E>> for Tells {
    ghost both = { told };

    ghost spent = { view.Spent };
}

pub(crate) struct ReadsTold;

impl<X, E> Play<Option<Item<X, E>>, View<X, E>> for ReadsTold {
    ghost then = { λ _. reads_told };
}

/// Two seats that exclude each other are put together. It never comes to that.
pub(crate) struct Meets;

impl<X, E> Join<View<X, E>> for Meets {
    ghost both = { λ _ _. view.Clash };

    ghost spent = { view.Spent };
}

/// A look that can't be.
pub(crate) struct Never;

impl<X, E> Play<Option<Item<X, E>>, View<X, E>> for Never {
    ghost then = { λ _ _ _ _. ⊥ };
}
