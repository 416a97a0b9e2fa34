//! What the calls of a core answer, as plain data that tests compare.
use core_word::{
    Consumer, Home, Landed, Left, LeftC, LeftP, Leftover, Met, Passed, Producer, Tally,
};
use fan_base::{Fault, Try};
use std::alloc::Global;
use std::fmt::Debug;
use std::process::Abort;

// Compares two values. A test compares by this, since each assertion that a body makes of its own makes that body dearer to prove.
pub(crate) fn same<T: PartialEq + Debug + Copy, R: Abort>(rt: &R, found: T, expected: T) {
    assert_eq!(rt; found, expected);
}

// An outcome as a value that may be copied.
pub(crate) type Outcome = Result<u64, Fault>;

pub(crate) fn told(outcome: Try<u64>) -> Outcome {
    match outcome {
        Try::Value(value) => Ok(value),
        Try::Broken => Err(Fault::Broken),
        Try::Memory => Err(Fault::Memory),
        Try::Cancelled(number) => Err(Fault::Cancelled(number)),
    }
}

// A core of numbers.
pub(crate) type Numbers = Home<u64, u64, u64>;

// What a setting call or a leave answers, as plain data.
#[derive(Clone, Copy, Debug, PartialEq, Eq)]
pub(crate) enum Answer {
    Waiting,
    /// The core's number, the outcome, the callback, and whether it may run inline.
    Fire(u64, Outcome, u64, bool),
    /// The callback, the proxy, and whether the callback has the allowance.
    Forward(u64, u64, bool),
    /// The first leave.
    Stays,
    /// The last leave: nothing is left over.
    Nothing,
    Outcome(Outcome),
    Proxy(u64),
}

pub(crate) fn landed(landed: Landed<u64, u64>, t: &mut Tally) -> Answer {
    match landed {
        Landed::Waiting => Answer::Waiting,
        Landed::Fire(fire) => {
            let inline = fire.may_inline();
            let (no, outcome, callback) = fire.unpack(t);
            Answer::Fire(no, told(outcome), callback, inline)
        }
    }
}

pub(crate) fn passed(passed: Passed<u64, u64>, t: &mut Tally) -> Answer {
    match passed {
        Passed::Waiting => Answer::Waiting,
        Passed::Forward(forward) => {
            let inline = forward.allows();
            let (callback, proxy) = forward.unpack(t);
            Answer::Forward(callback, proxy, inline)
        }
    }
}

pub(crate) fn met(met: Met<u64, u64, u64>, t: &mut Tally) -> Answer {
    match met {
        Met::Waiting => Answer::Waiting,
        Met::Fire(fire) => {
            let inline = fire.may_inline();
            let (no, outcome, callback) = fire.unpack(t);
            Answer::Fire(no, told(outcome), callback, inline)
        }
        Met::Forward(forward) => {
            let inline = forward.allows();
            let (callback, proxy) = forward.unpack(t);
            Answer::Forward(callback, proxy, inline)
        }
    }
}

pub(crate) fn left_told(leftover: Leftover<u64, u64>) -> Answer {
    match leftover {
        Leftover::Nothing => Answer::Nothing,
        Leftover::Outcome(outcome) => Answer::Outcome(told(outcome)),
        Leftover::Proxy(proxy) => Answer::Proxy(proxy),
    }
}

pub(crate) fn left(left: Left<'_, u64, u64, u64>, t: &mut Tally) -> Answer {
    match left {
        Left::First(_) => Answer::Stays,
        Left::Last(leftover, husk) => {
            husk.end(t);
            left_told(leftover)
        }
    }
}

pub(crate) fn producer_left(producer: LeftP<'_, u64, u64, u64>, t: &mut Tally) -> Answer {
    left(producer.leave(), t)
}

pub(crate) fn consumer_left(consumer: LeftC<'_, u64, u64, u64>, t: &mut Tally) -> Answer {
    left(consumer.leave(), t)
}

pub(crate) fn gave_up(consumer: Consumer<'_, u64, u64, u64>, t: &mut Tally) -> Answer {
    left(consumer.give_up().leave(), t)
}

pub(crate) fn begun<'h, R: Abort>(
    rt: &R,
    home: &'h mut Numbers,
    no: u64,
    t: &mut Tally,
) -> (Producer<'h, u64, u64, u64>, Consumer<'h, u64, u64, u64>) {
    match home.key() {
        Some(key) => key.start(no, t),
        None => rt.panic("a home without its key"),
    }
}

pub(crate) fn new_home<T, C, P, R: Abort>(rt: &R, alloc: Global) -> Home<T, C, P> {
    match Home::new(alloc) {
        Ok(home) => home,
        Err(_) => rt.panic("memory"),
    }
}

// Made, handed over, forwarded, freed and reopened.
pub(crate) fn counts(t: &Tally) -> (u64, u64, u64, u64, u64) {
    (t.made(), t.handed(), t.forwarded(), t.freed(), t.reopened())
}

pub(crate) fn asked<'h>(
    consumer: Consumer<'h, u64, u64, u64>,
    inline: bool,
    t: &mut Tally,
) -> (Answer, LeftC<'h, u64, u64, u64>) {
    let (answer, consumer) = if inline {
        consumer.set_callback_inline(7)
    } else {
        consumer.set_callback(7)
    };
    (met(answer, t), consumer)
}

pub(crate) fn given<'h>(
    producer: Producer<'h, u64, u64, u64>,
    is_proxy: bool,
    t: &mut Tally,
) -> (Answer, LeftP<'h, u64, u64, u64>) {
    if is_proxy {
        let (answer, producer) = producer.set_proxy(3);
        return (passed(answer, t), producer);
    }
    let (answer, producer) = producer.set_result(Try::Value(5));
    (landed(answer, t), producer)
}
