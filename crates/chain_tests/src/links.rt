//! A thousand chains of four links each, with a proxy in the middle: the second link comes to the outcome of an inner core.
ghost use Rattle.std.specs.Prelude.{◌≡◌, None, false};

use crate::seen::{Counts, Facts, Followed, Open, Plain, Seen, closed, kept, key_of, same};
use crate::steps::{Add, Name};
use core_proxy::{NoProxy, Proxy};
use core_word::{Consumer, Home, Key};
use fan_base::{ExecId, Gate, HoldGate, JobId, Parcel, Refused};
use job_steps::{OnValue, ValueStep};
use promise_api::{Chain, Future, promise};
use std::alloc::Global;
use std::sync::Wait;
use std::thread;
use std::thread::Threads;

// The callback of a core whose next link has the step K, and the number 7 at the end.
type Next<'d, K, C, Q> = Chain<'d, OnValue<K>, u64, C, Q>;

type Inner<'i, C> = Consumer<'i, u64, C, NoProxy>;

// The links behind a core with the callback C.
trait Links<C> {
    // Continues its future by all of them, and sets the callback at the end.
    fn chain<R: Wait, P: Proxy<u64, C>>(
        self,
        rt: &R,
        alloc: Global,
        future: Future<'_, u64, C, P>,
        seen: &mut Seen,
    );
}

// No link: the callback is the number 7.
#[derive(Drop)]
struct End;

impl Links<u64> for End {
    fn chain<R: Wait, P: Proxy<u64, u64>>(
        self,
        rt: &R,
        alloc: Global,
        future: Future<'_, u64, u64, P>,
        seen: &mut Seen,
    ) {
        let after = future.on(7, &mut seen.tally);
        seen.after(rt, alloc, after);
    }
}

// A link with its step, the key and the number of its core, and those behind it.
#[derive(Drop)]
struct Link<'d, K, C, Q, L> {
    key: Key<'d, u64, C, Q>,
    no: u64,
    step: K,
    rest: L,
}

impl<'d, K, C, Q, L> Links<Next<'d, K, C, Q>> for Link<'d, K, C, Q, L>
where
    K: ValueStep<u64, Out = u64, Later = Q> + Drop,
    C: Followed,
    Q: Proxy<u64, C>,
    L: Links<C>,
{
    fn chain<R: Wait, P: Proxy<u64, Next<'d, K, C, Q>>>(
        self,
        rt: &R,
        alloc: Global,
        future: Future<'_, u64, Next<'d, K, C, Q>, P>,
        seen: &mut Seen,
    ) {
        let Link {
            key,
            no,
            step,
            rest,
        } = self;
        let (future, after) = future.then(key, no, step, &mut seen.tally);
        seen.after(rt, alloc, after);
        rest.chain(rt, alloc, future, seen);
    }
}

// The value that a chain begins with, and whether another thread keeps its promises. The value says in which order they are
// kept, and on one thread which of them before anything is chained.
#[derive(Clone, Copy)]
struct Plan {
    alloc: Global,
    value: u64,
    threads: bool,
}

// Keeps the first core's promise by the value, and the inner one's by ten times the value.
fn both_kept<R: Wait, C: Followed, I: Followed>(
    rt: &R,
    alloc: Global,
    first: &mut Open<'_, C>,
    inner: &mut Open<'_, I>,
    value: u64,
) -> Seen
    ensures { first.new ≡ None }
{
    let mut seen = Seen::nothing();
    let tenfold = value.saturating_mul(10);
    if value % 2 != 0 {
        kept(rt, alloc, inner, tenfold, &mut seen);
    }
    kept(rt, alloc, first, value, &mut seen);
    kept(rt, alloc, inner, tenfold, &mut seen);
    seen
}

// A future, and the links that are to be chained to it.
struct Waiting<'h, C, L> {
    future: Future<'h, u64, C, NoProxy>,
    links: L,
}

// Chains the links, if that wasn't done before.
fn chained<R: Wait, C: Followed, L: Links<C>>(
    rt: &R,
    alloc: Global,
    waiting: &mut Option<Waiting<'_, C, L>>,
) -> Seen
    ensures { waiting.new ≡ None }
{
    let mut seen = Seen::nothing();
    if let Some(Waiting { future, links }) = waiting.take() {
        links.chain(rt, alloc, future, &mut seen);
    }
    seen
}

// One thread keeps the promises and the other one chains the links, where they can at the same time. Each runs the links whose
// fires it gets.
fn beside<R, C, I, L>(
    rt: &R,
    alloc: Global,
    first: &mut Open<'_, C>,
    inner: &mut Open<'_, I>,
    value: u64,
    waiting: &mut Option<Waiting<'_, C, L>>,
) -> Seen
where
    R: Threads + Wait + Sync,
    C: Followed + Send,
    I: Followed + Send,
    L: Links<C> + Send,
{
    let gate = HoldGate::new(JobId(1), JobId(2), 10_000);
    let (one, two) = thread::join(
        rt,
        || {
            gate.before(JobId(1));
            both_kept(rt, alloc, first, inner, value)
        },
        || {
            gate.before(JobId(2));
            chained(rt, alloc, waiting)
        },
    );
    let mut seen = one;
    seen.add(two);
    seen
}

// Promises the first core, chains these links to it, and keeps the promises.
fn run<R, C, I, L>(
    rt: &R,
    plan: Plan,
    key: Key<'_, u64, C, NoProxy>,
    inner: &mut Open<'_, I>,
    links: L,
) -> Seen
where
    R: Threads + Wait + Sync,
    C: Followed + Send,
    I: Followed + Send,
    L: Links<C> + Send,
{
    let Plan {
        alloc,
        value,
        threads,
    } = plan;
    let mut seen = Seen::nothing();
    let (to, future) = promise(key, 1, ExecId(3), &mut seen.tally);
    let mut first = Some(to);
    let mut waiting = Some(Waiting { future, links });
    if threads {
        seen.add(beside(rt, alloc, &mut first, inner, value, &mut waiting));
    }
    if value / 2 % 2 == 0 {
        kept(rt, alloc, &mut first, value, &mut seen);
    }
    if value / 4 % 2 == 0 {
        kept(rt, alloc, inner, value.saturating_mul(10), &mut seen);
    }
    seen.add(chained(rt, alloc, &mut waiting));
    seen.add(both_kept(rt, alloc, &mut first, inner, value));
    let None = first else { unreachable!() };
    let None = waiting else { unreachable!() };
    seen
}

// The homes are made from the last one to the first one, since the callbacks of each stand on those made before it.
fn with_one<R, C, I, L>(rt: &R, plan: Plan, inner: &mut Open<'_, I>, links: L, seen: &mut Seen)
where
    R: Threads + Wait + Sync,
    C: Followed + Send,
    I: Followed + Send,
    L: Links<C> + Drop + Send,
{
    if let Ok(mut home) = Home::new(plan.alloc) {
        seen.add(run(rt, plan, key_of(&mut home), inner, links));
        closed(home, &mut seen.tally);
    }
}

// The first link.
fn in_two<'b, R, C, I, L>(
    rt: &R,
    plan: Plan,
    home: &'b mut Home<u64, C, NoProxy>,
    inner: &mut Open<'_, I>,
    rest: L,
    seen: &mut Seen,
)
where
    R: Threads + Wait + Sync,
    C: Followed + Send,
    I: Followed + Send,
    L: Links<C> + Drop + Send,
    requires { home.now.taken ≡ false }
{
    let link = Link {
        key: key_of(home),
        no: 2,
        step: Add(1),
        rest,
    };
    with_one(rt, plan, inner, link, seen);
}

fn with_two<R, C, I, L>(rt: &R, plan: Plan, inner: &mut Open<'_, I>, rest: L, seen: &mut Seen)
where
    R: Threads + Wait + Sync,
    C: Followed + Send,
    I: Followed + Send,
    L: Links<C> + Drop + Send,
{
    if let Ok(mut home) = Home::new(plan.alloc) {
        in_two(rt, plan, &mut home, inner, rest, seen);
        closed(home, &mut seen.tally);
    }
}

// The second link. It is generic in its step and in its core's proxy, so that no call has bounds with two lifetimes.
fn linked<'c, R, K, C, Q, I, L>(
    rt: &R,
    plan: Plan,
    key: Key<'c, u64, C, Q>,
    inner: &mut Open<'_, I>,
    step: K,
    rest: L,
    seen: &mut Seen,
)
where
    R: Threads + Wait + Sync,
    K: ValueStep<u64, Out = u64, Later = Q> + Drop + Send,
    C: Followed + Send,
    Q: Proxy<u64, C> + Send,
    I: Followed + Send,
    L: Links<C> + Drop + Send,
{
    let link = Link {
        key,
        no: 3,
        step,
        rest,
    };
    with_two(rt, plan, inner, link, seen);
}

// The step of the second link comes to the inner core.
fn named<'c, 'i, R: Threads + Wait + Sync, C: Followed + Send, L: Links<C> + Drop + Send>(
    rt: &R,
    plan: Plan,
    key: Key<'c, u64, C, Inner<'i, C>>,
    consumer: Inner<'i, C>,
    inner: &mut Open<'_, C>,
    rest: L,
    seen: &mut Seen,
) {
    match Parcel::new(plan.alloc, consumer) {
        Err(Refused::Memory(consumer)) => {
            seen.refuse();
            seen.left(consumer.give_up().leave());
        }
        Ok(consumer) => linked(rt, plan, key, inner, Name(consumer), rest, seen),
    }
}

fn in_three<'c, 'i, R: Threads + Wait + Sync, C: Followed + Send, L: Links<C> + Drop + Send>(
    rt: &R,
    plan: Plan,
    home: &'c mut Home<u64, C, Inner<'i, C>>,
    inner: &'i mut Home<u64, C, NoProxy>,
    rest: L,
    seen: &mut Seen,
)
    requires { (home.now.taken ≡ false) × (inner.now.taken ≡ false) }
{
    let (to, future) = promise(key_of(inner), 6, ExecId(3), &mut seen.tally);
    let mut inner = Some(to);
    let consumer = future.into_consumer();
    named(rt, plan, key_of(home), consumer, &mut inner, rest, seen);
    kept(rt, plan.alloc, &mut inner, plan.value, seen);
    let None = inner else { unreachable!() };
}

fn with_three<R: Threads + Wait + Sync, C: Followed + Send, L: Links<C> + Drop + Send>(
    rt: &R,
    plan: Plan,
    rest: L,
    seen: &mut Seen,
) {
    if let Ok(mut inner) = Home::new(plan.alloc) {
        if let Ok(mut home) = Home::new(plan.alloc) {
            in_three(rt, plan, &mut home, &mut inner, rest, seen);
            closed(home, &mut seen.tally);
        }
        closed(inner, &mut seen.tally);
    }
}

// The third link. (It and the fourth one are made in two functions, since their types are dear to prove where they are all known.)
fn in_four<'d, R: Threads + Wait + Sync, C: Followed + Send, L: Links<C> + Drop + Send>(
    rt: &R,
    plan: Plan,
    home: &'d mut Home<u64, C, NoProxy>,
    rest: L,
    seen: &mut Seen,
)
    requires { home.now.taken ≡ false }
{
    let link = Link {
        key: key_of(home),
        no: 4,
        step: Add(1),
        rest,
    };
    with_three(rt, plan, link, seen);
}

fn with_four<R: Threads + Wait + Sync, C: Followed + Send, L: Links<C> + Drop + Send>(
    rt: &R,
    plan: Plan,
    rest: L,
    seen: &mut Seen,
) {
    if let Ok(mut home) = Home::new(plan.alloc) {
        in_four(rt, plan, &mut home, rest, seen);
        closed(home, &mut seen.tally);
    }
}

// The fourth link.
fn in_five<'e, R: Threads + Wait + Sync>(rt: &R, plan: Plan, home: &'e mut Plain, seen: &mut Seen)
    requires { home.now.taken ≡ false }
{
    let link = Link {
        key: key_of(home),
        no: 5,
        step: Add(1),
        rest: End,
    };
    with_four(rt, plan, link, seen);
}

// One chain in homes of its own.
fn chain<R: Threads + Wait + Sync>(rt: &R, plan: Plan) -> Seen {
    let mut seen = Seen::nothing();
    if let Ok(mut home) = Home::new(plan.alloc) {
        in_five(rt, plan, &mut home, &mut seen);
        closed(home, &mut seen.tally);
    }
    seen
}

// What is expected of a chain: its value at its end, once, with nothing left over, and counted as its length says.
fn expected(value: u64) -> Facts {
    let last = value.saturating_mul(10).saturating_add(2);
    (1, Some((5, Ok(last), 7, false)), 0, None, 0, (6, 5, 1, 6))
}

// How many of these chains were good, and the numbers of all.
fn chains<R: Threads + Wait + Sync>(rt: &R, alloc: Global, threads: bool) -> (u64, Counts) {
    let mut good = 0u64;
    let mut all = Seen::nothing();
    for value in 0..1000 {
        let plan = Plan {
            alloc,
            value,
            threads,
        };
        let seen = chain(rt, plan);
        if seen.facts() == expected(value) {
            good = good.saturating_add(1);
        }
        all.add(seen);
    }
    (good, all.counts())
}

#[test]
fn a_thousand_chains_give_each_its_value_once(rt: HostRuntime) {
    let answer = chains(&rt, rt.alloc(), false);
    same(&rt, answer, (1000, (6000, 5000, 1000, 6000)));
}

#[test]
fn a_thousand_chains_on_two_threads_give_each_its_value_once(rt: HostRuntime) {
    let answer = chains(&rt, rt.alloc(), true);
    same(&rt, answer, (1000, (6000, 5000, 1000, 6000)));
}
