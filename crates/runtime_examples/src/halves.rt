//! A core by hand: one half has a result, the other something to do with it.
ghost use Rattle.std.specs.Prelude.{◌≡◌, IfSome};
ghost use Rattle.fan_base.specs.declared.outcome.Try.TheVariants.{Value};

use core_word::{Consumer, Home, Landed, Left, Met, Producer, Tally};
use fan_base::{Memory, Try};
use std::alloc::Global;

/// What a core has handed over: its number, the result, and the callback, which is a number here.
pub type Handed = (u64, Try<u64>, u64);

/// Sets the result, and leaves. Where the callback was there already, the answer has both.
pub fn produce(producer: Producer<'_, u64, u64, ()>, value: u64, t: &mut Tally) -> Option<Handed>
    ensures number { IfSome result (λ handed. handed.0 ≡ producer.entry.no) }
    ensures outcome { IfSome result (λ handed. handed.1 ≡ Value value) }
{
    let (landed, left) = producer.set_result(Try::Value(value));
    end(left.leave(), t);
    match landed {
        Landed::Waiting => None,
        Landed::Fire(fire) => Some(fire.unpack(t)),
    }
}

/// Sets the callback, and leaves. Where the result was there already, the answer has both.
pub fn consume(consumer: Consumer<'_, u64, u64, ()>, callback: u64, t: &mut Tally) -> Option<Handed>
    ensures number { IfSome result (λ handed. handed.0 ≡ consumer.entry.no) }
    ensures callback { IfSome result (λ handed. handed.2 ≡ callback) }
{
    let (met, left) = consumer.set_callback(callback);
    end(left.leave(), t);
    match met {
        Met::Waiting => None,
        Met::Fire(fire) => Some(fire.unpack(t)),
        Met::Forward(forward) => {
            let (_, ()) = forward.unpack(t);
            None
        }
    }
}

// The half that leaves last frees the core.
fn end(left: Left<'_, u64, u64, ()>, t: &mut Tally) {
    match left {
        Left::First(_) => {}
        Left::Last(_, husk) => husk.end(t),
    }
}

/// One core with the number 1 on this thread: the half that comes second has both.
pub fn hand_over(
    alloc: Global,
    value: u64,
    callback: u64,
    t: &mut Tally,
) -> Result<Option<Handed>, Memory> {
    let mut home = Home::new(alloc)?;
    let Some(key) = home.key() else {
        unreachable!()
    };
    let (producer, consumer) = key.start(1, t);
    let first = consume(consumer, callback, t);
    let second = produce(producer, value, t);
    Ok(second.or(first))
}
