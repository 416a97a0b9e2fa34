//! The producer's half of a core.
ghost use Rattle.std.specs.Prelude.{◌≡◌, ◌≢◌, ◌<◌, suc};
ghost use Rattle.core_state.specs.Schedule.{leftover_from};
ghost use Rattle.core_word.specs.Answers.{LandsAt, PassesAt, IsFire, IsForward, MatchLeft, IfLast, IsLastLeave, leftover_as};
ghost use Rattle.core_word.specs.Views.{IsAwaited, KnowsStill, GotDemand};

use crate::fire::{Fire, Forward};
use crate::left::{Husk, Left, Receipt};
use crate::rule::{CoreSeat, CoreTable};
use crate::steps;
use crate::view::Sight;
use core_state::{Half, Offer, Request};
use fan_base::Try;
use std::marker::Model;
use std::snapshot::Snapshot;

/// What setting a result answers.
pub enum Landed<T, C> {
    /// No callback was there.
    Waiting,
    /// A callback was there: it gets this result, and may run inline where it was set with that allowance.
    Fire(Fire<T, C>),
}

/// What naming a proxy answers.
pub enum Passed<C, P> {
    /// No callback was there.
    Waiting,
    /// A callback was there: it goes to this proxy, with its allowance to run inline, if any.
    Forward(Forward<C, P>),
}

/// The half that sets a result or names a proxy. It must be spent.
pub struct Producer<'h, T, C, P> {
    table: &'h CoreTable<T, C, P>,
    seat: CoreSeat<T, C, P>,
    no: u64,
}

impl<'h, T, C, P> Model for Producer<'h, T, C, P> {
    ghost use Rattle.core_word.specs.Seen.{SeenProducer};
    ghost use Rattle.core_word.specs.Views.{use_of, learned_of};
    ghost use Rattle.core_word.specs.Plays.{IsHome, Sits, producer_ready};

    ghost Value = { SeenProducer };

    ghost view = { λ p. record { home = p.table.now.table_id; use_number = use_of p.seat.me.0; no = p.no; sight = (learned_of p.seat.me.0).sight; looks = (learned_of p.seat.me.0).looks } };

    ghost invariant = { λ p. IsHome p.table.now.table_id × Sits p.table.now.table_id p.seat (producer_ready (use_of p.seat.me.0) (learned_of p.seat.me.0)) };
}

impl<'h, T, C, P> Producer<'h, T, C, P> {
    ghost use Rattle.core_word.specs.Views.{use_of, learned_of};
    ghost use Rattle.core_word.specs.Plays.{IsHome, Sits, producer_ready};

    pub(crate) fn new(
        table: &'h CoreTable<T, C, P>,
        seat: CoreSeat<T, C, P>,
        no: u64,
    ) -> Producer<'h, T, C, P>
        requires home { IsHome table.now.table_id }
        requires sits { Sits table.now.table_id seat (producer_ready (use_of seat.me.0) (learned_of seat.me.0)) }
        ensures { result ≡ record { home = table.now.table_id; use_number = use_of seat.me.0; no = no; sight = (learned_of seat.me.0).sight; looks = (learned_of seat.me.0).looks } }
    {
        Producer { table, seat, no }
    }

    /// Looks what the consumer has done so far: first whether its callback is set, and if so, whether it has left. It
    /// never answers `Unseen`, nor less than an earlier look. After `Callback` this producer's act is a Fire or a Forward,
    /// and after `CallbackLeft` its leave is the last one too. After `NoCallback` either may come.
    pub fn look(&mut self) -> Sight
        ensures kept { self.new ≡ record self.old { sight = result; looks = suc self.old.looks } }
        ensures seen { result ≢ Sight.Unseen }
        ensures still { KnowsStill self.old.sight result }
    {
        if !steps::look_for_callback(self.table, &mut self.seat) {
            return Sight::NoCallback;
        }
        if !steps::look_for_leave(self.table, &mut self.seat) {
            return Sight::Callback;
        }
        Sight::CallbackLeft
    }

    /// Gives the result up. It is handed to the callback by the later of the two halves, here where a
    /// callback was there.
    pub fn set_result(self, outcome: Try<T>) -> (Landed<T, C>, LeftP<'h, T, C, P>)
        ensures home { (result.1.home ≡ self.entry.home) × (result.1.use_number ≡ self.entry.use_number) × (result.1.no ≡ self.entry.no) }
        ensures act { result.1.offer ≡ Offer.Result outcome }
        ensures sight { result.1.sight ≡ self.entry.sight }
        ensures answer { LandsAt result.1.found result.1.got self.entry.no outcome result.0 }
        ensures awaited { IsAwaited self.entry.sight → IsFire result.0 }
    {
        let Producer {
            table,
            mut seat,
            no,
        } = self;
        steps::take_result_slot(table, &mut seat);
        let Some(inline) = steps::set_first_result(table, &mut seat, outcome) else {
            return (Landed::Waiting, LeftP { table, seat, no });
        };
        let (outcome, request) = steps::set_second_result(table, &mut seat, inline);
        let Request { callback, inline } = request;
        (
            Landed::Fire(Fire::new(no, outcome, callback, inline)),
            LeftP { table, seat, no },
        )
    }

    /// Names another core, to which a callback is passed on by the later of the two halves, here where
    /// a callback was there.
    pub fn set_proxy(self, to: P) -> (Passed<C, P>, LeftP<'h, T, C, P>)
        ensures home { (result.1.home ≡ self.entry.home) × (result.1.use_number ≡ self.entry.use_number) × (result.1.no ≡ self.entry.no) }
        ensures act { result.1.offer ≡ Offer.Proxy to }
        ensures sight { result.1.sight ≡ self.entry.sight }
        ensures answer { PassesAt result.1.found result.1.got self.entry.no to result.0 }
        ensures awaited { IsAwaited self.entry.sight → IsForward result.0 }
    {
        let Producer {
            table,
            mut seat,
            no,
        } = self;
        steps::take_proxy_slot(table, &mut seat);
        let Some(inline) = steps::set_first_proxy(table, &mut seat, to) else {
            return (Passed::Waiting, LeftP { table, seat, no });
        };
        let (proxy, request) = steps::set_second_proxy(table, &mut seat, inline);
        let Request { callback, inline } = request;
        (
            Passed::Forward(Forward::new(no, callback, proxy, inline)),
            LeftP { table, seat, no },
        )
    }
}

/// A producer that has acted. It must be spent by `leave`.
pub struct LeftP<'h, T, C, P> {
    pub(crate) table: &'h CoreTable<T, C, P>,
    pub(crate) seat: CoreSeat<T, C, P>,
    pub(crate) no: u64,
}

impl<'h, T, C, P> Model for LeftP<'h, T, C, P> {
    ghost use Rattle.core_word.specs.Seen.{SeenLeftP};
    ghost use Rattle.core_word.specs.Views.{use_of, learned_of, offer_in_view, demand_in_view};
    ghost use Rattle.core_word.specs.Rule.{IsSet};
    ghost use Rattle.core_word.specs.Plays.{IsHome, Sits, producer_acted, found_by_producer};

    ghost Value = { SeenLeftP T C P };

    ghost view = { λ p. record { home = p.table.now.table_id; use_number = use_of p.seat.me.0; no = p.no; offer = offer_in_view p.seat.me.0; found = found_by_producer (demand_in_view p.seat.me.0); got = demand_in_view p.seat.me.0; sight = (learned_of p.seat.me.0).sight } };

    ghost invariant = { λ p. IsHome p.table.now.table_id × IsSet (offer_in_view p.seat.me.0) × Sits p.table.now.table_id p.seat (producer_acted (use_of p.seat.me.0) (learned_of p.seat.me.0) (offer_in_view p.seat.me.0) (demand_in_view p.seat.me.0)) };
}

impl<'h, T, C, P> LeftP<'h, T, C, P> {
    /// Leaves the core. The later of the two halves gets the husk, with what is left over: the result or the proxy where
    /// the consumer gave up, else nothing.
    pub fn leave(self) -> Left<'h, T, C, P>
        ensures last { self.entry.sight ≡ Sight.CallbackLeft → IsLastLeave result }
        ensures home { MatchLeft result (λ receipt. receipt.home ≡ self.entry.home) (λ leftover husk. husk.home ≡ self.entry.home) }
        ensures use_number { MatchLeft result (λ receipt. receipt.use_number ≡ self.entry.use_number) (λ leftover husk. husk.use_number ≡ self.entry.use_number) }
        ensures count { MatchLeft result (λ receipt. (receipt.half ≡ Half.Producer) × (1 < receipt.count_found)) (λ leftover husk. husk.count_found ≡ 1) }
        ensures acts { MatchLeft result (λ receipt. (receipt.offer ≡ self.entry.offer) × (receipt.demand ≡ self.entry.got)) (λ leftover husk. (husk.offer ≡ self.entry.offer) × GotDemand self.entry.got husk.demand) }
        ensures leftover { IfLast result (λ leftover husk. leftover ≡ leftover_as (leftover_from husk.offer husk.demand)) }
        ensures known { IfLast result (λ leftover husk. (husk.known_offer ≡ self.entry.offer) × (husk.known_demand ≡ self.entry.got)) }
    {
        let LeftP {
            table,
            mut seat,
            no: _,
        } = self;
        let before = Snapshot::of(&seat);
        if !steps::leave(table, &mut seat) {
            return Left::First(Receipt::new(table, Half::Producer, seat));
        }
        let leftover = steps::read_end(table, &mut seat);
        Left::Last(leftover, Husk::new(table, seat, before))
    }
}
