//! The consumer's half of a core.
ghost use Rattle.std.specs.Prelude.{◌≡◌, ◌<◌, true, false};
ghost use Rattle.core_state.specs.Schedule.{leftover_from};
ghost use Rattle.core_word.specs.Answers.{MeetsAt, MatchLeft, IfLast, leftover_as};
ghost use Rattle.core_word.specs.Rule.{IsSet};
ghost use Rattle.core_word.specs.Views.{GotOffer};

use crate::fire::{Fire, Forward};
use crate::left::{Husk, Left, Receipt};
use crate::rule::{CoreSeat, CoreTable};
use crate::steps;
use core_state::{Demand, Half, Offer, Request, State};
use std::marker::Model;
use std::snapshot::Snapshot;

/// What setting a callback answers.
pub enum Met<T, C, P> {
    /// Neither a result nor a proxy was there.
    Waiting,
    /// A result was there: this callback gets it, and may not run inline.
    Fire(Fire<T, C>),
    /// A proxy was there: this callback goes to it, with its allowance to run inline, if any.
    Forward(Forward<C, P>),
}

/// The half that sets a callback or gives up. It must be spent.
pub struct Consumer<'h, T, C, P> {
    table: &'h CoreTable<T, C, P>,
    seat: CoreSeat<T, C, P>,
    no: u64,
}

impl<'h, T, C, P> Model for Consumer<'h, T, C, P> {
    ghost use Rattle.core_word.specs.Seen.{SeenConsumer};
    ghost use Rattle.core_word.specs.Views.{use_of};
    ghost use Rattle.core_word.specs.Plays.{IsHome, Sits, consumer_ready};

    ghost Value = { SeenConsumer };

    ghost view = { λ c. record { home = c.table.now.table_id; use_number = use_of c.seat.me.0; no = c.no } };

    ghost invariant = { λ c. IsHome c.table.now.table_id × Sits c.table.now.table_id c.seat (consumer_ready (use_of c.seat.me.0)) };
}

impl<'h, T, C, P> Consumer<'h, T, C, P> {
    ghost use Rattle.core_word.specs.Views.{use_of};
    ghost use Rattle.core_word.specs.Plays.{IsHome, Sits, consumer_ready};

    pub(crate) fn new(
        table: &'h CoreTable<T, C, P>,
        seat: CoreSeat<T, C, P>,
        no: u64,
    ) -> Consumer<'h, T, C, P>
        requires home { IsHome table.now.table_id }
        requires sits { Sits table.now.table_id seat (consumer_ready (use_of seat.me.0)) }
        ensures { result ≡ record { home = table.now.table_id; use_number = use_of seat.me.0; no = no } }
    {
        Consumer { table, seat, no }
    }

    /// Gives the callback up. It gets the result, or is passed on to a proxy, by the later of the two
    /// halves, here where one of these was there. It may not run inline.
    pub fn set_callback(self, callback: C) -> (Met<T, C, P>, LeftC<'h, T, C, P>)
        ensures home { (result.1.home ≡ self.entry.home) × (result.1.use_number ≡ self.entry.use_number) × (result.1.no ≡ self.entry.no) }
        ensures act { result.1.demand ≡ Demand.Callback record { callback = callback; inline = false } }
        ensures answer { MeetsAt result.1.found result.1.got self.entry.no callback false result.0 }
    {
        self.set(callback, false)
    }

    /// The same with the allowance to run inline. It holds where the later half is the producer: a Fire
    /// that is got here may not run inline. A proxy's callback keeps it.
    pub fn set_callback_inline(self, callback: C) -> (Met<T, C, P>, LeftC<'h, T, C, P>)
        ensures home { (result.1.home ≡ self.entry.home) × (result.1.use_number ≡ self.entry.use_number) × (result.1.no ≡ self.entry.no) }
        ensures act { result.1.demand ≡ Demand.Callback record { callback = callback; inline = true } }
        ensures answer { MeetsAt result.1.found result.1.got self.entry.no callback true result.0 }
    {
        self.set(callback, true)
    }

    fn set(self, callback: C, inline: bool) -> (Met<T, C, P>, LeftC<'h, T, C, P>)
        ensures home { (result.1.home ≡ self.entry.home) × (result.1.use_number ≡ self.entry.use_number) × (result.1.no ≡ self.entry.no) }
        ensures act { result.1.demand ≡ Demand.Callback record { callback = callback; inline = inline } }
        ensures answer { MeetsAt result.1.found result.1.got self.entry.no callback inline result.0 }
    {
        let Consumer {
            table,
            mut seat,
            no,
        } = self;
        steps::take_callback_slot(table, &mut seat);
        match steps::demand_first(table, &mut seat, Request { callback, inline }) {
            State::Start => (Met::Waiting, LeftC { table, seat, no }),
            State::OnlyResult => {
                let (request, outcome) = steps::demand_result(table, &mut seat);
                (
                    Met::Fire(Fire::new(no, outcome, request.callback, false)),
                    LeftC { table, seat, no },
                )
            }
            State::Proxy => {
                let (request, proxy) = steps::demand_proxy(table, &mut seat);
                let Request { callback, inline } = request;
                (
                    Met::Forward(Forward::new(no, callback, proxy, inline)),
                    LeftC { table, seat, no },
                )
            }
            _ => unreachable!(),
        }
    }

    /// No callback will come. This makes no step: the leave tells the other half.
    pub fn give_up(self) -> LeftC<'h, T, C, P>
        ensures home { (result.home ≡ self.entry.home) × (result.use_number ≡ self.entry.use_number) × (result.no ≡ self.entry.no) }
        ensures act { result.demand ≡ Demand.Nothing }
        ensures found { (result.found ≡ State.Start) × (result.got ≡ Offer.Nothing) }
    {
        let Consumer { table, seat, no } = self;
        LeftC { table, seat, no }
    }
}

/// A consumer that has set its callback or given up. It must be spent by `leave`.
pub struct LeftC<'h, T, C, P> {
    pub(crate) table: &'h CoreTable<T, C, P>,
    pub(crate) seat: CoreSeat<T, C, P>,
    pub(crate) no: u64,
}

impl<'h, T, C, P> Model for LeftC<'h, T, C, P> {
    ghost use Rattle.core_word.specs.Seen.{SeenLeftC};
    ghost use Rattle.core_word.specs.Views.{use_of, offer_in_view, demand_in_view};
    ghost use Rattle.core_word.specs.Plays.{IsHome, Sits, consumer_acted, found_by_consumer};

    ghost Value = { SeenLeftC T C P };

    ghost view = { λ c. record { home = c.table.now.table_id; use_number = use_of c.seat.me.0; no = c.no; demand = demand_in_view c.seat.me.0; found = found_by_consumer (offer_in_view c.seat.me.0); got = offer_in_view c.seat.me.0 } };

    ghost invariant = { λ c. IsHome c.table.now.table_id × Sits c.table.now.table_id c.seat (consumer_acted (use_of c.seat.me.0) (demand_in_view c.seat.me.0) (offer_in_view c.seat.me.0)) };
}

impl<'h, T, C, P> LeftC<'h, T, C, P> {
    /// Leaves the core. The later of the two halves gets the husk, with what is left over: the result or the proxy where
    /// this consumer gave up, else nothing.
    pub fn leave(self) -> Left<'h, T, C, P>
        ensures home { MatchLeft result (λ receipt. receipt.home ≡ self.entry.home) (λ leftover husk. husk.home ≡ self.entry.home) }
        ensures use_number { MatchLeft result (λ receipt. receipt.use_number ≡ self.entry.use_number) (λ leftover husk. husk.use_number ≡ self.entry.use_number) }
        ensures count { MatchLeft result (λ receipt. (receipt.half ≡ Half.Consumer) × (1 < receipt.count_found)) (λ leftover husk. husk.count_found ≡ 1) }
        ensures acts { MatchLeft result (λ receipt. (receipt.demand ≡ self.entry.demand) × (receipt.offer ≡ self.entry.got)) (λ leftover husk. (husk.demand ≡ self.entry.demand) × IsSet husk.offer × GotOffer self.entry.got husk.offer) }
        ensures leftover { IfLast result (λ leftover husk. leftover ≡ leftover_as (leftover_from husk.offer husk.demand)) }
        ensures known { IfLast result (λ leftover husk. (husk.known_demand ≡ self.entry.demand) × (husk.known_offer ≡ self.entry.got)) }
    {
        let LeftC {
            table,
            mut seat,
            no: _,
        } = self;
        let before = Snapshot::of(&seat);
        if !steps::leave(table, &mut seat) {
            return Left::First(Receipt::new(table, Half::Consumer, seat));
        }
        let leftover = steps::read_end(table, &mut seat);
        Left::Last(leftover, Husk::new(table, seat, before))
    }
}
