ghost use Rattle.std.specs.Prelude.{◌≡◌, ◌<◌};

use crate::answers::{
    Answer, Numbers, Outcome, asked, begun, consumer_left, counts, gave_up, given, landed, left,
    left_told, met, new_home, passed, producer_left, same, told,
};
use core_word::{
    Consumer, Home, Key, Landed, Left, Leftover, Met, Producer, Sight, State, Tally, Unspent,
};
use fan_base::{Fault, Try};
use std::alloc::Global;
use std::mem::ManuallyDrop;
use std::ops::Range;
use std::process::Abort;
use std::thread;
use std::thread::Threads;

// Callback, result, and the leaves of producer and consumer; and whether the home's key stays taken.
fn callback_first<R: Abort>(rt: &R, alloc: Global, t: &mut Tally) -> ([Answer; 4], bool) {
    let mut home: Numbers = new_home(rt, alloc);
    let (producer, consumer) = begun(rt, &mut home, 9, t);
    let (first, consumer) = asked(consumer, false, t);
    let (second, producer) = given(producer, false, t);
    let third = producer_left(producer, t);
    let fourth = consumer_left(consumer, t);
    ([first, second, third, fourth], home.key().is_none())
}

const FIRE: Answer = Answer::Fire(9, Ok(5), 7, false);

#[test]
fn callback_first_then_result(rt: HostRuntime) {
    let rt = &rt;
    let mut t = Tally::new();
    let expected = [Answer::Waiting, FIRE, Answer::Stays, Answer::Nothing];
    same(rt, callback_first(rt, rt.alloc(), &mut t), (expected, true));
    same(rt, counts(&t), (1, 1, 0, 1, 0));
}

// Result, the producer's leave, callback, and the consumer's leave.
fn result_first<R: Abort>(rt: &R, alloc: Global, t: &mut Tally) -> [Answer; 4] {
    let mut home: Numbers = new_home(rt, alloc);
    let (producer, consumer) = begun(rt, &mut home, 9, t);
    let (first, producer) = given(producer, false, t);
    let second = producer_left(producer, t);
    let (third, consumer) = asked(consumer, false, t);
    let fourth = consumer_left(consumer, t);
    [first, second, third, fourth]
}

#[test]
fn result_first_then_callback(rt: HostRuntime) {
    let rt = &rt;
    let mut t = Tally::new();
    let expected = [Answer::Waiting, Answer::Stays, FIRE, Answer::Nothing];
    same(rt, result_first(rt, rt.alloc(), &mut t), expected);
    same(rt, counts(&t), (1, 1, 0, 1, 0));
}

// The consumer gives up and leaves, and then the producer sets its result and leaves.
fn given_up_first<R: Abort>(rt: &R, alloc: Global, t: &mut Tally) -> [Answer; 3] {
    let mut home: Numbers = new_home(rt, alloc);
    let (producer, consumer) = begun(rt, &mut home, 1, t);
    let first = gave_up(consumer, t);
    let (second, producer) = given(producer, false, t);
    [first, second, producer_left(producer, t)]
}

// The producer acts and leaves, and then the consumer gives up and leaves.
fn given_up_last<R: Abort>(rt: &R, alloc: Global, is_proxy: bool, t: &mut Tally) -> [Answer; 3] {
    let mut home: Numbers = new_home(rt, alloc);
    let (producer, consumer) = begun(rt, &mut home, 2, t);
    let (first, producer) = given(producer, is_proxy, t);
    let second = producer_left(producer, t);
    [first, second, gave_up(consumer, t)]
}

#[test]
fn result_is_left_over_where_the_consumer_gives_up(rt: HostRuntime) {
    let rt = &rt;
    let mut t = Tally::new();
    let over = Answer::Outcome(Ok(5));
    let found = given_up_first(rt, rt.alloc(), &mut t);
    same(rt, found, [Answer::Stays, Answer::Waiting, over]);
    let found = given_up_last(rt, rt.alloc(), false, &mut t);
    same(rt, found, [Answer::Waiting, Answer::Stays, over]);
    same(rt, counts(&t), (2, 0, 0, 2, 0));
}

// Callback, proxy, and the leaves of consumer and producer.
fn proxy_last<R: Abort>(rt: &R, alloc: Global, t: &mut Tally) -> [Answer; 4] {
    let mut home: Numbers = new_home(rt, alloc);
    let (producer, consumer) = begun(rt, &mut home, 2, t);
    let (first, consumer) = asked(consumer, false, t);
    let (second, producer) = given(producer, true, t);
    let third = consumer_left(consumer, t);
    let fourth = producer_left(producer, t);
    [first, second, third, fourth]
}

#[test]
fn proxy_is_left_over_or_gets_the_callback(rt: HostRuntime) {
    let rt = &rt;
    let mut t = Tally::new();
    let found = given_up_last(rt, rt.alloc(), true, &mut t);
    same(
        rt,
        found,
        [Answer::Waiting, Answer::Stays, Answer::Proxy(3)],
    );
    let forward = Answer::Forward(7, 3, false);
    let expected = [Answer::Waiting, forward, Answer::Stays, Answer::Nothing];
    same(rt, proxy_last(rt, rt.alloc(), &mut t), expected);
    same(rt, counts(&t), (2, 0, 1, 2, 0));
}

// One use of a home: who acts first, and how, and what the second act has to answer.
#[derive(Clone, Copy)]
struct Use {
    callback_first: bool,
    inline: bool,
    is_proxy: bool,
    wanted: Answer,
}

fn one_use(callback_first: bool, inline: bool, is_proxy: bool, wanted: Answer) -> Use {
    Use {
        callback_first,
        inline,
        is_proxy,
        wanted,
    }
}

fn reopened<'h>(left: Left<'h, u64, u64, u64>, t: &mut Tally) -> Option<Key<'h, u64, u64, u64>> {
    match left {
        Left::First(_) => None,
        Left::Last(_, husk) => Some(husk.reopen(t)),
    }
}

// The key that one of two leaves has given.
fn either<'h, R: Abort>(
    rt: &R,
    one: Option<Key<'h, u64, u64, u64>>,
    other: Option<Key<'h, u64, u64, u64>>,
) -> Key<'h, u64, u64, u64> {
    match one.or(other) {
        Some(key) => key,
        None => rt.panic("a home that was not reopened"),
    }
}

// Uses a home once, compares what the two acts answer, and hands out the key of the next use.
fn used_once<'h, R: Abort>(
    rt: &R,
    key: Key<'h, u64, u64, u64>,
    case: Use,
    t: &mut Tally,
) -> Key<'h, u64, u64, u64> {
    let (producer, consumer) = key.start(9, t);
    if case.callback_first {
        let (first, consumer) = asked(consumer, case.inline, t);
        let (second, producer) = given(producer, case.is_proxy, t);
        same(rt, (first, second), (Answer::Waiting, case.wanted));
        let key = reopened(consumer.leave(), t);
        return either(rt, key, reopened(producer.leave(), t));
    }
    let (first, producer) = given(producer, case.is_proxy, t);
    let (second, consumer) = asked(consumer, case.inline, t);
    same(rt, (first, second), (Answer::Waiting, case.wanted));
    let key = reopened(producer.leave(), t);
    either(rt, key, reopened(consumer.leave(), t))
}

// Uses a home once for each case, one after another.
fn used_by_each<R: Abort>(rt: &R, home: &mut Numbers, cases: &[Use], t: &mut Tally) {
    let Some(mut key) = home.key() else {
        rt.panic("a home without its key")
    };
    for case in cases {
        key = used_once(rt, key, *case, t);
    }
}

#[test]
fn an_inline_allowance_goes_to_the_later_act(rt: HostRuntime) {
    let rt = &rt;
    let mut home: Numbers = new_home(rt, rt.alloc());
    let mut t = Tally::new();
    let forward = Answer::Forward(7, 3, false);
    let inline_forward = Answer::Forward(7, 3, true);
    let cases = [
        one_use(true, false, false, FIRE),
        one_use(true, true, false, Answer::Fire(9, Ok(5), 7, true)),
        one_use(false, false, false, FIRE),
        one_use(false, true, false, FIRE),
        one_use(true, false, true, forward),
        one_use(true, true, true, inline_forward),
        one_use(false, false, true, forward),
        one_use(false, true, true, inline_forward),
    ];
    used_by_each(rt, &mut home, &cases, &mut t);
    same(rt, counts(&t), (8, 4, 4, 8, 8));
    same(rt, rest(home), (None, None, None, State::Start, 2));
}

// What a producer's looks find: before the callback, behind it, and behind the consumer's leave. And what that leave, the result and
// the producer's leave answer.
fn looked<R: Abort>(rt: &R, alloc: Global) -> ([Sight; 3], [Answer; 3]) {
    let mut home: Numbers = new_home(rt, alloc);
    let mut t = Tally::new();
    let (mut producer, consumer) = begun(rt, &mut home, 9, &mut t);
    let before = producer.look();
    let (_, consumer) = asked(consumer, false, &mut t);
    let behind = producer.look();
    let first = consumer_left(consumer, &mut t);
    let last = producer.look();
    let (second, producer) = given(producer, false, &mut t);
    let third = producer_left(producer, &mut t);
    ([before, behind, last], [first, second, third])
}

#[test]
fn a_producer_learns_of_its_callback_before_it_acts(rt: HostRuntime) {
    let rt = &rt;
    let sights = [Sight::NoCallback, Sight::Callback, Sight::CallbackLeft];
    let answers = [Answer::Stays, FIRE, Answer::Nothing];
    same(rt, looked(rt, rt.alloc()), (sights, answers));
}

// What a thread has done with its halves: what it counted, what was left over, and how many answers had another
// core's number or value. Whoever left last has the key of the home's next use.
#[derive(Drop)]
struct Driven<'h> {
    key: Option<Key<'h, u64, u64, u64>>,
    tally: Tally,
    outcomes: u64,
    proxies: u64,
    strangers: u64,
}

impl<'h> Driven<'h> {
    fn new() -> Driven<'h> {
        Driven {
            key: None,
            tally: Tally::new(),
            outcomes: 0,
            proxies: 0,
            strangers: 0,
        }
    }

    fn with(self, other: Driven<'h>) -> Driven<'h> {
        Driven {
            key: self.key.or(other.key),
            tally: self.tally.merge(other.tally),
            outcomes: self.outcomes.saturating_add(other.outcomes),
            proxies: self.proxies.saturating_add(other.proxies),
            strangers: self.strangers.saturating_add(other.strangers),
        }
    }

    // The outcome, the callback and the proxy of the core n all are n.
    fn answered(&mut self, n: u64, answer: Answer) {
        let is_own = match answer {
            Answer::Waiting => true,
            Answer::Fire(no, Ok(value), callback, _) => no == n && value == n && callback == n,
            Answer::Forward(callback, proxy, _) => callback == n && proxy == n,
            _ => false,
        };
        if !is_own {
            self.strangers = self.strangers.saturating_add(1);
        }
    }

    fn left(&mut self, n: u64, answer: Left<'h, u64, u64, u64>) {
        match answer {
            Left::First(_) => {}
            Left::Last(leftover, husk) => {
                self.key = Some(husk.reopen(&mut self.tally));
                self.left_over(n, left_told(leftover));
            }
        }
    }

    fn left_over(&mut self, n: u64, leftover: Answer) {
        match leftover {
            Answer::Nothing => {}
            Answer::Outcome(Ok(value)) if value == n => {
                self.outcomes = self.outcomes.saturating_add(1);
            }
            Answer::Proxy(proxy) if proxy == n => {
                self.proxies = self.proxies.saturating_add(1);
            }
            _ => self.strangers = self.strangers.saturating_add(1),
        }
    }

    // With `mixed` two cores in four have a proxy.
    fn produce(&mut self, n: u64, producer: Producer<'h, u64, u64, u64>, mixed: bool) {
        if mixed && n % 4 >= 2 {
            let (answer, producer) = producer.set_proxy(n);
            let answer = passed(answer, &mut self.tally);
            self.answered(n, answer);
            self.left(n, producer.leave());
        } else {
            let (answer, producer) = producer.set_result(Try::Value(n));
            let answer = landed(answer, &mut self.tally);
            self.answered(n, answer);
            self.left(n, producer.leave());
        }
    }

    // With `mixed` every other core is given up.
    fn consume(&mut self, n: u64, consumer: Consumer<'h, u64, u64, u64>, mixed: bool) {
        if mixed && n % 2 == 1 {
            self.left(n, consumer.give_up().leave());
        } else {
            let (answer, consumer) = consumer.set_callback(n);
            let answer = met(answer, &mut self.tally);
            self.answered(n, answer);
            self.left(n, consumer.leave());
        }
    }
}

// Drives the producer, if it is still there.
fn produced<'h>(
    n: u64,
    producer: &mut Option<Producer<'h, u64, u64, u64>>,
    mixed: bool,
) -> Driven<'h>
    ensures { producer.new ≡ None }
{
    let mut driven = Driven::new();
    if let Some(producer) = producer.take() {
        driven.produce(n, producer, mixed);
    }
    driven
}

// Drives the consumer, if it is still there.
fn consumed<'h>(
    n: u64,
    consumer: &mut Option<Consumer<'h, u64, u64, u64>>,
    mixed: bool,
) -> Driven<'h>
    ensures { consumer.new ≡ None }
{
    let mut driven = Driven::new();
    if let Some(consumer) = consumer.take() {
        driven.consume(n, consumer, mixed);
    }
    driven
}

// Two threads have one half each.
fn driven_core<'h>(
    rt: &impl Threads,
    n: u64,
    key: Key<'h, u64, u64, u64>,
    mixed: bool,
) -> Driven<'h> {
    let mut begun = Driven::new();
    let (producer, consumer) = key.start(n, &mut begun.tally);
    let mut producer = Some(producer);
    let mut consumer = Some(consumer);
    let (one, two) = thread::join(
        rt,
        || produced(n, &mut producer, mixed),
        || consumed(n, &mut consumer, mixed),
    );
    let three = produced(n, &mut producer, mixed);
    let four = consumed(n, &mut consumer, mixed);
    let None = producer else { unreachable!() };
    let None = consumer else { unreachable!() };
    begun.with(one).with(two).with(three).with(four)
}

// What two threads have done with the halves of the cores with these numbers, all in one home, one after another.
fn driven_in_one<'h>(
    rt: &impl Threads,
    home: &'h mut Numbers,
    numbers: Range<u64>,
    mixed: bool,
) -> Driven<'h> {
    let mut all = Driven::new();
    all.key = home.key();
    for n in numbers {
        let Some(key) = all.key.take() else {
            break;
        };
        all = all.with(driven_core(rt, n, key, mixed));
    }
    all
}

// Numbers of a tally, then what was left over, and the answers of another core.
type Totals = (u64, u64, u64, u64, u64, u64, u64, u64);

fn totals(all: &Driven<'_>) -> Totals {
    let (made, handed, forwarded, freed, reopened) = counts(&all.tally);
    (
        made,
        handed,
        forwarded,
        freed,
        reopened,
        all.outcomes,
        all.proxies,
        all.strangers,
    )
}

// Two threads with the halves of a thousand cores in one home.
fn driven_thousand<R: Abort + Threads>(rt: &R, alloc: Global, mixed: bool) -> Totals {
    let mut home: Numbers = new_home(rt, alloc);
    totals(&driven_in_one(rt, &mut home, 0..1000, mixed))
}

// Two threads with the halves of a core in a home of its own.
fn driven_alone<R: Abort + Threads>(rt: &R, alloc: Global, n: u64) -> Tally
    requires { n < 1000 }
{
    let mut home: Numbers = new_home(rt, alloc);
    driven_in_one(rt, &mut home, n..n + 1, true).tally
}

#[test]
fn two_threads_use_one_home_a_thousand_times(rt: HostRuntime) {
    let rt = &rt;
    let expected = (1000, 1000, 0, 1000, 1000, 0, 0, 0);
    same(rt, driven_thousand(rt, rt.alloc(), false), expected);
}

#[test]
fn two_threads_mix_proxies_and_give_ups(rt: HostRuntime) {
    let rt = &rt;
    let mut all = Tally::new();
    for n in 0..1000 {
        all = all.merge(driven_alone(rt, rt.alloc(), n));
    }
    same(rt, counts(&all), (1000, 250, 250, 1000, 1000));
    let expected = (1000, 250, 250, 1000, 1000, 250, 250, 0);
    same(rt, driven_thousand(rt, rt.alloc(), true), expected);
}

// A value that can't be dropped.
struct Token(u64);

fn spent(token: Token) -> u64 {
    let Token(n) = token;
    n
}

fn outcome_spent(outcome: Try<Token>) -> u64 {
    match outcome {
        Try::Value(token) => spent(token),
        Try::Broken | Try::Memory => 0,
        Try::Cancelled(n) => n,
    }
}

// The outcome of tokens as one of numbers.
fn outcome_read(outcome: Option<Try<Token>>) -> Option<Outcome> {
    match outcome {
        Some(Try::Value(token)) => Some(Ok(spent(token))),
        Some(Try::Broken) => Some(Err(Fault::Broken)),
        Some(Try::Memory) => Some(Err(Fault::Memory)),
        Some(Try::Cancelled(n)) => Some(Err(Fault::Cancelled(n))),
        None => None,
    }
}

fn slot_read(slot: Option<Token>) -> Option<u64> {
    match slot {
        Some(token) => Some(spent(token)),
        None => None,
    }
}

// What was left over, and which home it was left in: the numbers of the values that come out.
fn token_left(left: Left<'_, Token, Token, Token>, t: &mut Tally) -> u64 {
    match left {
        Left::First(_) => 0,
        Left::Last(leftover, husk) => {
            husk.end(t);
            match leftover {
                Leftover::Nothing => 0,
                Leftover::Outcome(outcome) => outcome_spent(outcome),
                Leftover::Proxy(proxy) => spent(proxy),
            }
        }
    }
}

// The outcome, the callback and the proxy that a closed home hands out, its state, and how many halves were attached.
type Rest = (Option<Outcome>, Option<u64>, Option<u64>, State, u64);

fn closed(home: Home<Token, Token, Token>) -> Rest {
    let Unspent {
        outcome,
        callback,
        proxy,
        end,
    } = home.close();
    (
        outcome_read(outcome),
        slot_read(callback),
        slot_read(proxy),
        end.state(),
        end.attached(),
    )
}

// A core of tokens, once through: what was fired, what was left over by producer and consumer, and what the home held.
fn tokens_through(
    home: &mut Home<Token, Token, Token>,
    gives_up: bool,
    t: &mut Tally,
) -> (u64, u64, u64) {
    let Some(key) = home.key() else {
        return (0, 0, 0);
    };
    let (producer, consumer) = key.start(1, t);
    let (answer, producer) = producer.set_result(Try::Value(Token(5)));
    let mut fired = match answer {
        Landed::Waiting => 0,
        Landed::Fire(fire) => {
            let (_, outcome, callback) = fire.unpack(t);
            outcome_spent(outcome).saturating_add(spent(callback))
        }
    };
    let first = token_left(producer.leave(), t);
    if gives_up {
        return (fired, first, token_left(consumer.give_up().leave(), t));
    }
    let (answer, consumer) = consumer.set_callback(Token(70));
    match answer {
        Met::Waiting => {}
        Met::Fire(fire) => {
            let (_, outcome, callback) = fire.unpack(t);
            fired = outcome_spent(outcome).saturating_add(spent(callback));
        }
        Met::Forward(forward) => {
            let (callback, proxy) = forward.unpack(t);
            fired = spent(callback).saturating_add(spent(proxy));
        }
    }
    (fired, first, token_left(consumer.leave(), t))
}

// A core of tokens, once through, and what its closed home hands out.
fn tokens_closed<R: Abort>(
    rt: &R,
    alloc: Global,
    gives_up: bool,
    t: &mut Tally,
) -> ((u64, u64, u64), Rest) {
    let mut home = new_home(rt, alloc);
    let through = tokens_through(&mut home, gives_up, t);
    (through, closed(home))
}

#[test]
fn values_that_cannot_be_dropped_come_out(rt: HostRuntime) {
    let rt = &rt;
    let mut t = Tally::new();
    let rest = (None, None, None, State::Done, 0);
    let found = tokens_closed(rt, rt.alloc(), false, &mut t);
    same(rt, found, ((75, 0, 0), rest));
    let rest = (None, None, None, State::OnlyResult, 0);
    let found = tokens_closed(rt, rt.alloc(), true, &mut t);
    same(rt, found, ((0, 0, 5), rest));
    let rest = (None, None, None, State::Start, 2);
    same(rt, closed(new_home(rt, rt.alloc())), rest);
    same(rt, counts(&t), (2, 1, 0, 2, 0));
}

// Lets go of a value that can't be dropped.
fn forget<X>(value: X) {
    let _ = unsafe { ManuallyDrop::new_unchecked(value) };
}

fn rest(home: Numbers) -> Rest {
    let Unspent {
        outcome,
        callback,
        proxy,
        end,
    } = home.close();
    let outcome = match outcome {
        Some(outcome) => Some(told(outcome)),
        None => None,
    };
    (outcome, callback, proxy, end.state(), end.attached())
}

// A home that is closed with a result in it, or a proxy, of which the producer has left or not.
fn with_what_was_given<R: Abort>(rt: &R, alloc: Global, is_proxy: bool, leaves: bool) -> Rest {
    let mut home: Numbers = new_home(rt, alloc);
    let mut t = Tally::new();
    let (producer, consumer) = begun(rt, &mut home, 1, &mut t);
    forget(consumer);
    let (_, producer) = given(producer, is_proxy, &mut t);
    if leaves {
        producer_left(producer, &mut t);
    } else {
        forget(producer);
    }
    rest(home)
}

// A home that is closed with a callback in it, of which the consumer has left or not.
fn with_a_callback<R: Abort>(rt: &R, alloc: Global, inline: bool, leaves: bool) -> Rest {
    let mut home: Numbers = new_home(rt, alloc);
    let mut t = Tally::new();
    let (producer, consumer) = begun(rt, &mut home, 1, &mut t);
    forget(producer);
    let (_, consumer) = asked(consumer, inline, &mut t);
    if leaves {
        consumer_left(consumer, &mut t);
    } else {
        forget(consumer);
    }
    rest(home)
}

// Compares what a home hands out with a result in it, or a proxy.
fn check_given<R: Abort>(rt: &R, alloc: Global, is_proxy: bool, leaves: bool, expected: Rest) {
    same(
        rt,
        with_what_was_given(rt, alloc, is_proxy, leaves),
        expected,
    );
}

// Compares what a home hands out with a callback in it.
fn check_callback<R: Abort>(rt: &R, alloc: Global, inline: bool, leaves: bool, expected: Rest) {
    same(rt, with_a_callback(rt, alloc, inline, leaves), expected);
}

#[test]
fn what_waits_in_a_closed_home_comes_out(rt: HostRuntime) {
    let rt = &rt;
    let alloc = rt.alloc();
    let waits = (Some(Ok(5)), None, None, State::OnlyResult, 2);
    check_given(rt, alloc, false, false, waits);
    let waits = (Some(Ok(5)), None, None, State::OnlyResult, 1);
    check_given(rt, alloc, false, true, waits);
    let waits = (None, Some(7), None, State::OnlyCallback, 2);
    check_callback(rt, alloc, false, false, waits);
    let waits = (None, Some(7), None, State::OnlyCallback, 1);
    check_callback(rt, alloc, false, true, waits);
    let waits = (None, Some(7), None, State::OnlyCallbackAllowInline, 1);
    check_callback(rt, alloc, true, true, waits);
    let waits = (None, None, Some(3), State::Proxy, 2);
    check_given(rt, alloc, true, false, waits);
    let waits = (None, None, Some(3), State::Proxy, 1);
    check_given(rt, alloc, true, true, waits);
    let nothing = (None, None, None, State::Start, 2);
    same(rt, rest(new_home(rt, alloc)), nothing);
}

fn may_cross<X: Send>(_: &X) {}

// What a leave answered may cross, each part of it.
fn left_may_cross(left: &Left<'_, u64, u64, u64>) {
    match left {
        Left::First(receipt) => may_cross(receipt),
        Left::Last(leftover, husk) => {
            may_cross(leftover);
            may_cross(husk);
        }
    }
}

// A core whose every part could go to another thread: how many parts were shown.
fn crossing_parts(home: &mut Numbers, t: &mut Tally) -> u64 {
    let Some(key) = home.key() else {
        return 0;
    };
    may_cross(&key);
    let (producer, consumer) = key.start(1, t);
    may_cross(&producer);
    may_cross(&consumer);
    let (answer, producer) = producer.set_result(Try::Value(5));
    may_cross(&answer);
    landed(answer, t);
    may_cross(&producer);
    let (answer, consumer) = consumer.set_callback(7);
    may_cross(&answer);
    met(answer, t);
    may_cross(&consumer);
    let first = producer.leave();
    left_may_cross(&first);
    left(first, t);
    let last = consumer.leave();
    left_may_cross(&last);
    left(last, t);
    8
}

#[test]
fn every_part_of_a_core_may_cross_threads(rt: HostRuntime) {
    let rt = &rt;
    let mut home: Numbers = new_home(rt, rt.alloc());
    may_cross(&home);
    let mut t = Tally::new();
    same(rt, crossing_parts(&mut home, &mut t), 8);
    may_cross(&t);
}
