//! Acts of a producer that knows that a callback is set and that its consumer has left: they hand the callback over for certain, and the
//! core is freed.
ghost use Rattle.std.specs.Prelude.{◌≡◌};
ghost use Rattle.core_word.specs.Count.{raised};
ghost use Rattle.core_word.specs.declared.view.Sight.TheVariants as seen;
ghost use Rattle.core_word.specs.Words.{Request};
ghost use Rattle.core_word.specs.Words.demanded;

use core_proxy::NoProxy;
use core_word::{
    Consumer, Fire, Forward, Key, Landed, Left, LeftC, LeftP, Leftover, Met, Passed, Producer,
    Sight, Tally, halves_agree, no_producer_beside_husk,
};
use fan_base::Try;
use std::sync::Wait;

/// Looks until it is seen that a callback is set and the consumer has left. Where the caller had done both, the first look sees it.
pub fn look_until_left<T, C, P, R: Wait>(rt: &R, producer: &mut Producer<'_, T, C, P>)
    ensures core { (producer.new.home ≡ producer.old.home) × (producer.new.use_number ≡ producer.old.use_number) × (producer.new.no ≡ producer.old.no) }
    ensures seen { producer.new.sight ≡ seen.CallbackLeft }
{
    for _ in rt.forever() {
        if producer.look() == Sight::CallbackLeft {
            return;
        }
    }
    unreachable!()
}

/// Sets the outcome, which goes to the callback that waits, leaves, and frees the core.
pub fn fulfil_awaited<T, C, P>(
    producer: Producer<'_, T, C, P>,
    outcome: Try<T>,
    t: &mut Tally,
) -> Fire<T, C>
    requires { producer.sight ≡ seen.CallbackLeft }
    ensures fire { (result.no ≡ producer.entry.no) × (result.outcome ≡ outcome) }
    ensures tally { t.new ≡ record t.old { freed = raised t.old.freed } }
{
    let (landed, left) = producer.set_result(outcome);
    let Landed::Fire(fire) = landed else {
        unreachable!()
    };
    free_last(left, t);
    fire
}

/// Leaves a core whose callback was handed over here, and whose consumer has left, and frees it.
fn free_last<T, C, P>(left: LeftP<'_, T, C, P>, t: &mut Tally)
    requires last { left.sight ≡ seen.CallbackLeft }
    requires got { (request : Request C) × (left.got ≡ demanded.Callback request) }
    ensures { t.new ≡ record t.old { freed = raised t.old.freed } }
{
    let left = left.leave();
    let Left::Last(leftover, husk) = left else {
        unreachable!()
    };
    let Leftover::Nothing = leftover else {
        unreachable!()
    };
    husk.end(t);
}

/// Begins the inner core of this key, to which the callback that waits is forwarded, leaves, and frees the outer core. The inner core's
/// producer knows that the callback is set there and the consumer has left. It waits for nobody but itself.
pub fn forward_awaited<'i, T, C, R: Wait>(
    rt: &R,
    producer: Producer<'_, T, C, Consumer<'i, T, C, NoProxy>>,
    key: Key<'i, T, C, NoProxy>,
    no: u64,
    t: &mut Tally,
) -> Producer<'i, T, C, NoProxy>
    requires { producer.sight ≡ seen.CallbackLeft }
    ensures inner { (result.home ≡ key.entry.home) × (result.no ≡ no) × (result.sight ≡ seen.CallbackLeft) }
    ensures tally { t.new ≡ record t.old { made = raised t.old.made; forwarded = raised t.old.forwarded; freed = raised t.old.freed } }
{
    let (inner, consumer) = key.start(no, t);
    let (passed, left) = producer.set_proxy(consumer);
    let Passed::Forward(forward) = passed else {
        unreachable!()
    };
    free_last(left, t);
    let (callback, consumer) = forward.unpack(t);
    give_first(rt, inner, consumer, callback)
}

/// Gives the callback to a core of which neither half has acted, and leaves it on the consumer's side.
fn give_first<'i, T, C, R: Wait>(
    rt: &R,
    mut producer: Producer<'i, T, C, NoProxy>,
    consumer: Consumer<'i, T, C, NoProxy>,
    callback: C,
) -> Producer<'i, T, C, NoProxy>
    requires { (producer.home ≡ consumer.home) × (producer.use_number ≡ consumer.use_number) }
    ensures inner { (result.home ≡ producer.entry.home) × (result.no ≡ producer.entry.no) × (result.sight ≡ seen.CallbackLeft) }
{
    let (met, left) = consumer.set_callback(callback);
    match met {
        Met::Waiting => {}
        Met::Fire(_fire) => {
            // The producer hasn't acted, so there is no result.
            look_until_left(rt, &mut producer);
            let (_landed, acted) = producer.set_result(Try::Broken);
            halves_agree(acted, left);
            unreachable!()
        }
        Met::Forward(forward) => match forward.unpack(&mut Tally::new()).1 {},
    }
    match left.leave() {
        Left::First(_) => {}
        Left::Last(_leftover, husk) => {
            // The producer hasn't left.
            let (_landed, acted) = producer.set_result(Try::Broken);
            no_producer_beside_husk(acted, husk);
            unreachable!()
        }
    }
    look_until_left(rt, &mut producer);
    producer
}
