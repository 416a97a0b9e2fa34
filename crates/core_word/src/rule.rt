//! The rule of a home's table, and what each step on it tells. These types are for the proofs alone.
ghost use Rattle.core_word.specs.declared.view.ProducerSlot.TheVariants as slot;
ghost use Rattle.core_word.specs.Rule.{StandsFor};
ghost use Rattle.core_word.specs.Plays.{takes_producer_slot, takes_callback_slot, looks_for_callback, looks_for_leave, sees_waiting, sets_first, sets_second, sees_offer, demands_first, demands_result, demands_proxy, leaves, reads_end, sets_back, reopens, compares, both_halves, begin_producer, begin_consumer};
ghost use Rattle.core_word.specs.declared.view.View.TheVariants as view;

use crate::view::{Item, View};
use atomic_table::{Join, Play, Seat, Shared, Split, TableRule};

/// The words and slots of a home, as its halves share them.
pub(crate) type CoreTable<T, C, P> = Shared<Option<Item<T, C, P>>, View<T, C, P>, (), CoreRule>;

/// The seat of a half.
pub(crate) type CoreSeat<T, C, P> = Seat<Option<Item<T, C, P>>, View<T, C, P>>;

pub(crate) struct CoreRule;

impl<T, C, P> TableRule<Option<Item<T, C, P>>, View<T, C, P>, ()> for CoreRule {
    ghost holds = { λ _. StandsFor };

    ghost first = { λ _. view.Key 0 };
}

pub(crate) struct TakesResultSlot;

impl<T, C, P> Play<Option<Item<T, C, P>>, View<T, C, P>> for TakesResultSlot {
    ghost then = { λ _. takes_producer_slot slot.Result };
}

pub(crate) struct TakesProxySlot;

impl<T, C, P> Play<Option<Item<T, C, P>>, View<T, C, P>> for TakesProxySlot {
    ghost then = { λ _. takes_producer_slot slot.Proxy };
}

pub(crate) struct TakesCallbackSlot;

impl<T, C, P> Play<Option<Item<T, C, P>>, View<T, C, P>> for TakesCallbackSlot {
    ghost then = { λ _. takes_callback_slot };
}

pub(crate) struct LooksForCallback;

impl<T, C, P> Play<Option<Item<T, C, P>>, View<T, C, P>> for LooksForCallback {
    ghost then = { λ _. looks_for_callback };
}

pub(crate) struct LooksForLeave;

impl<T, C, P> Play<Option<Item<T, C, P>>, View<T, C, P>> for LooksForLeave {
    ghost then = { λ _. looks_for_leave };
}

pub(crate) struct LooksBeforeResult;

impl<T, C, P> Play<Option<Item<T, C, P>>, View<T, C, P>> for LooksBeforeResult {
    ghost then = { λ _. sees_waiting slot.Result };
}

pub(crate) struct LooksBeforeProxy;

impl<T, C, P> Play<Option<Item<T, C, P>>, View<T, C, P>> for LooksBeforeProxy {
    ghost then = { λ _. sees_waiting slot.Proxy };
}

pub(crate) struct SetsResult;

impl<T, C, P> Play<Option<Item<T, C, P>>, View<T, C, P>> for SetsResult {
    ghost then = { λ _. sets_first slot.Result };
}

pub(crate) struct SetsProxy;

impl<T, C, P> Play<Option<Item<T, C, P>>, View<T, C, P>> for SetsProxy {
    ghost then = { λ _. sets_first slot.Proxy };
}

pub(crate) struct SetsSecond;

impl<T, C, P> Play<Option<Item<T, C, P>>, View<T, C, P>> for SetsSecond {
    ghost then = { λ _. sets_second };
}

pub(crate) struct LooksBeforeCallback;

impl<T, C, P> Play<Option<Item<T, C, P>>, View<T, C, P>> for LooksBeforeCallback {
    ghost then = { λ _. sees_offer };
}

pub(crate) struct DemandsFirst;

impl<T, C, P> Play<Option<Item<T, C, P>>, View<T, C, P>> for DemandsFirst {
    ghost then = { λ _. demands_first };
}

pub(crate) struct DemandsResult;

impl<T, C, P> Play<Option<Item<T, C, P>>, View<T, C, P>> for DemandsResult {
    ghost then = { λ _. demands_result };
}

pub(crate) struct DemandsProxy;

impl<T, C, P> Play<Option<Item<T, C, P>>, View<T, C, P>> for DemandsProxy {
    ghost then = { λ _. demands_proxy };
}

pub(crate) struct Leaves;

impl<T, C, P> Play<Option<Item<T, C, P>>, View<T, C, P>> for Leaves {
    ghost then = { λ _. leaves };
}

pub(crate) struct ReadsEnd;

impl<T, C, P> Play<Option<Item<T, C, P>>, View<T, C, P>> for ReadsEnd {
    ghost then = { λ _. reads_end };
}

pub(crate) struct SetsBack;

impl<T, C, P> Play<Option<Item<T, C, P>>, View<T, C, P>> for SetsBack {
    ghost then = { λ _. sets_back };
}

pub(crate) struct Reopens;

impl<T, C, P> Play<Option<Item<T, C, P>>, View<T, C, P>> for Reopens {
    ghost then = { λ _. reopens };
}

pub(crate) struct Begins;

impl<T, C, P> Split<View<T, C, P>> for Begins {
    ghost left = { begin_producer };

    ghost right = { begin_consumer };
}

/// Both halves of one use, put into one seat.
pub(crate) struct JoinsHalves;

impl<T, C, P> Join<View<T, C, P>> for JoinsHalves {
    ghost both = { both_halves };

    ghost spent = { view.Spent };
}

/// A look at what both halves have done.
pub(crate) struct Compares;

impl<T, C, P> Play<Option<Item<T, C, P>>, View<T, C, P>> for Compares {
    ghost then = { λ _. compares };
}

/// Two seats that exclude each other, put into one. It never comes to that.
pub(crate) struct Clashes;

impl<T, C, P> Join<View<T, C, P>> for Clashes {
    ghost both = { λ _ _. view.Clash };

    ghost spent = { view.Spent };
}

/// A look that can't be.
pub(crate) struct Never;

impl<T, C, P> Play<Option<Item<T, C, P>>, View<T, C, P>> for Never {
    ghost then = { λ _ _ _ _. ⊥ };
}
