//! The laws over two seats of one home: what both halves of a use say of each other, and that no use ends twice.
//! Each puts the two seats together, and so spends what it is given. The home is used no more.
ghost use Rattle.std.specs.Prelude.{◌≡◌, ◌≢◌, [], suc};
ghost use Rattle.core_word.specs.declared.view.Departure.{Departure};
ghost use Rattle.core_word.specs.Answers.{HaveAgreed};
ghost use Rattle.core_word.specs.Plays.{IsHome, Sits, leaving, IsLeaving, husk_at, key_at};
ghost use Rattle.core_word.specs.Views.{use_of, offer_in_view, demand_in_view};
ghost use Rattle.core_word.specs.Rule.{IsSet};

use crate::consumer::LeftC;
use crate::left::{Husk, Receipt};
use crate::producer::LeftP;
use crate::rule::{Clashes, Compares, CoreSeat, CoreTable, JoinsHalves, Never};
use crate::steps;

// Leaves, first or last.
fn depart<T, C, P>(table: &CoreTable<T, C, P>, seat: &mut CoreSeat<T, C, P>)
    requires home { IsHome table.now.table_id }
    requires leaving { (seat.old.table_id ≡ table.now.table_id) × IsLeaving seat.old.me }
    ensures { (left : Departure) × (left ≢ Departure.No) × Sits table.now.table_id seat.new (leaving left seat.old.me.0, []) }
{
    let _is_last = steps::leave(table, seat);
}

/// The law over both halves of one use. Where both have set something, one half alone got the other's act, and what it
/// got is what the other set: so the later of the two acts answers the Fire or the Forward, and that act alone. Where
/// the consumer gave up, neither got anything.
pub fn halves_agree<'h, T, C, P>(producer: LeftP<'h, T, C, P>, consumer: LeftC<'h, T, C, P>)
    requires { (producer.home ≡ consumer.home) × (producer.use_number ≡ consumer.use_number) }
    ensures set { IsSet producer.entry.offer }
    ensures agree { HaveAgreed producer.entry.offer producer.entry.got consumer.entry.demand consumer.entry.got }
{
    let LeftP {
        table,
        mut seat,
        no: _,
    } = producer;
    let LeftC {
        table: other_table,
        seat: mut other,
        no: _,
    } = consumer;
    depart(other_table, &mut other);
    table.join_seat::<JoinsHalves>(&mut seat, other);
    table.load::<Compares>(&mut seat, 0);
}

// A husk's seat becomes the key of the next use.
fn reopen<T, C, P>(table: &CoreTable<T, C, P>, seat: &mut CoreSeat<T, C, P>)
    requires home { IsHome table.now.table_id }
    requires husk { Sits table.now.table_id seat.old (husk_at (use_of seat.old.me.0) (offer_in_view seat.old.me.0) (demand_in_view seat.old.me.0)) }
    ensures { Sits table.now.table_id seat.new (key_at (suc (use_of seat.old.me.0))) }
{
    steps::set_back(table, seat);
    steps::attach_both(table, seat);
}

/// A law of the end of a use: a home has one husk at most. No call of this can be made.
pub fn one_husk<'h, T, C, P>(husk: Husk<'h, T, C, P>, other: Husk<'h, T, C, P>)
    requires { husk.home ≡ other.home }
    ensures { ⊥ }
{
    let Husk {
        table,
        mut seat,
        before: _,
    } = husk;
    let Husk {
        table: other_table,
        seat: mut other,
        before: _,
    } = other;
    reopen(other_table, &mut other);
    table.join_seat::<Clashes>(&mut seat, other);
    table.load::<Never>(&mut seat, 0);
}

/// A law of the end of a use: of its two leaves one at most answers First. No call of this can be made.
pub fn not_both_first<'h, T, C, P>(receipt: Receipt<'h, T, C, P>, other: Receipt<'h, T, C, P>)
    requires { (receipt.home ≡ other.home) × (receipt.use_number ≡ other.use_number) }
    ensures { ⊥ }
{
    let (table, mut seat) = receipt.into_seat();
    let (_, other) = other.into_seat();
    table.join_seat::<Clashes>(&mut seat, other);
    table.load::<Never>(&mut seat, 0);
}

/// A law of the end of a use: a home with a husk has no producer that hasn't left. So of the two leaves of a use the
/// earlier one answers First, and by `not_both_first` the later one answers Last. No call of this can be made.
pub fn no_producer_beside_husk<'h, T, C, P>(producer: LeftP<'h, T, C, P>, husk: Husk<'h, T, C, P>)
    requires { producer.home ≡ husk.home }
    ensures { ⊥ }
{
    let LeftP {
        table,
        mut seat,
        no: _,
    } = producer;
    let Husk {
        table: other_table,
        seat: mut other,
        before: _,
    } = husk;
    reopen(other_table, &mut other);
    table.join_seat::<Clashes>(&mut seat, other);
    table.load::<Never>(&mut seat, 0);
}

/// The same of a consumer.
pub fn no_consumer_beside_husk<'h, T, C, P>(consumer: LeftC<'h, T, C, P>, husk: Husk<'h, T, C, P>)
    requires { consumer.home ≡ husk.home }
    ensures { ⊥ }
{
    let LeftC {
        table,
        mut seat,
        no: _,
    } = consumer;
    let Husk {
        table: other_table,
        seat: mut other,
        before: _,
    } = husk;
    reopen(other_table, &mut other);
    table.join_seat::<Clashes>(&mut seat, other);
    table.load::<Never>(&mut seat, 0);
}
