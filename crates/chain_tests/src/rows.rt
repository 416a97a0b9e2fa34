//! Promises and futures by hand, each row with what must come of it.
ghost use Rattle.std.specs.Prelude.{◌≡◌, false};

use crate::seen::{
    Facts, Followed, Outcome, Plain, Seen, World, after_adding, closed, drained, key_of, same,
    try_of,
};
use crate::steps::{Count, Mend, Name, Note};
use core_proxy::{NoProxy, Proxy};
use core_word::{Consumer, Fire, Home, Key, Landed, Tally};
use fan_base::{ExecId, Fault, Parcel, Refused, Try};
use job_steps::{Always, OnFault, OnValue, ValueStep};
use job_trait::{InlineExecutor, ManualExecutor};
use promise_api::{After, Chain, Future, Here, Promise, dispatch, promise, promise_of, run_here};
use std::alloc::Global;
use std::cell::Cell;
use std::process::Abort;
use std::sync::Wait;

// The callback of a core whose continuation comes to a number, and the home of such a core.
type Called<'b, K, Q> = Chain<'b, K, u64, u64, Q>;

type CalledHome<'b, K, Q> = Home<u64, Called<'b, K, Q>, NoProxy>;

// The future of the next core, and what setting the callback came to.
type Continued<'a, 'b, K, Q> = (
    Future<'b, u64, u64, Q>,
    After<'a, u64, Called<'b, K, Q>, NoProxy>,
);

// What a row showed beside its end: the executors of the next future and of the chain, and whether the chain was run at once.
type Shown = (ExecId, ExecId, bool);

// What a row came to.
type Found = (Facts, Option<Shown>);

// The halves of a core.
type Halves<'h, C, P> = (Promise<'h, u64, C, P>, Future<'h, u64, C, P>);

// Promises a core in a home that is new, for executor 3.
fn promised<'h, C, P>(home: &'h mut Home<u64, C, P>, no: u64, t: &mut Tally) -> Halves<'h, C, P>
    requires { home.now.taken ≡ false }
{
    promise(key_of(home), no, ExecId(3), t)
}

// The promise and the future of a core that was begun before.
fn begun<'h, C, P>(
    key: Key<'h, u64, C, P>,
    no: u64,
    exec: ExecId,
    t: &mut Tally,
) -> Halves<'h, C, P> {
    let (producer, consumer) = key.start(no, t);
    promise_of(producer, consumer, exec)
}

// The promise and the future of core 1, promised or begun before.
fn started<'h, C, P>(
    home: &'h mut Home<u64, C, P>,
    by_hand: bool,
    t: &mut Tally,
) -> Halves<'h, C, P>
    requires { home.now.taken ≡ false }
{
    if by_hand {
        return begun(key_of(home), 1, ExecId(3), t);
    }
    promised(home, 1, t)
}

// Keeps a promise, or abandons it where there is no outcome, and answers what landed.
fn landed_by<C>(
    to: Promise<'_, u64, C, NoProxy>,
    outcome: Option<Outcome>,
    seen: &mut Seen,
) -> Landed<u64, C> {
    let After { landed, left } = match outcome {
        None => to.abandon(),
        Some(outcome) => to.fulfil(try_of(outcome)),
    };
    seen.left(left);
    landed
}

// Sets the callback 7 at the end of a chain, and keeps its first promise or abandons it. It answers what landed, and the executor
// of the next future. (For any callback, since each call is dear to prove where the continuation is known.)
fn fired<R: Wait, C: Followed, Q: Proxy<u64, u64>>(
    rt: &R,
    alloc: Global,
    to: Promise<'_, u64, C, NoProxy>,
    continued: (Future<'_, u64, u64, Q>, After<'_, u64, C, NoProxy>),
    outcome: Option<Outcome>,
    seen: &mut Seen,
) -> (Landed<u64, C>, ExecId) {
    let (next, after) = continued;
    seen.after(rt, alloc, after);
    let exec = next.exec();
    seen.set_callback(rt, alloc, next);
    (landed_by(to, outcome, seen), exec)
}

// What is expected of a row of two cores whose end gets this outcome, and what it shows.
fn end_of_two(outcome: Outcome, future: u32, chain: u32, ran_here: bool) -> Found {
    let facts = (1, Some((2, outcome, 7, false)), 0, None, 0, (2, 2, 0, 2));
    (facts, Some((ExecId(future), ExecId(chain), ran_here)))
}

// Dispatches a fire to an executor that runs it at once, and follows what comes of it.
fn run_mend<R: Wait>(
    rt: &R,
    alloc: Global,
    fire: Fire<u64, Called<'_, OnFault<Mend>, NoProxy>>,
    seen: &mut Seen,
) {
    let mut world = World::empty();
    let mut executor = InlineExecutor::new(fire.callback().exec(), &mut world);
    let added = dispatch(rt, fire, &mut executor, &mut seen.tally);
    drop(executor);
    after_adding(rt, alloc, added, world, seen);
}

// An abandoned promise, whose fault is mended on an executor that runs its job at once.
fn mended<'a, 'b, R: Wait>(
    rt: &R,
    alloc: Global,
    first: &'a mut CalledHome<'b, OnFault<Mend>, NoProxy>,
    second: &'b mut Plain,
    seen: &mut Seen,
) -> Shown
    requires { (first.now.taken ≡ false) × (second.now.taken ≡ false) }
{
    let (to, future) = promised(first, 1, &mut seen.tally);
    let continued = future.then_error(key_of(second), 2, Mend(3), &mut seen.tally);
    let (landed, exec) = fired(rt, alloc, to, continued, None, seen);
    match landed {
        Landed::Waiting => (exec, ExecId(0), false),
        Landed::Fire(fire) => {
            let chosen = fire.callback().exec();
            run_mend(rt, alloc, fire, seen);
            (exec, chosen, false)
        }
    }
}

#[test]
fn abandoned_promise_is_mended_by_its_step(rt: HostRuntime) {
    let rt = &rt;
    let mut seen = Seen::nothing();
    let mut shown = None;
    if let Ok(mut second) = Home::new(rt.alloc()) {
        if let Ok(mut first) = Home::new(rt.alloc()) {
            shown = Some(mended(rt, rt.alloc(), &mut first, &mut second, &mut seen));
            closed(first, &mut seen.tally);
        }
        closed(second, &mut seen.tally);
    }
    same(rt, (seen.facts(), shown), end_of_two(Ok(3), 3, 3, false));
}

// Dispatches a fire to an executor, and runs it there.
fn run_count<R: Wait>(
    rt: &R,
    alloc: Global,
    fire: Fire<u64, Called<'_, Always<Count<'_>>, NoProxy>>,
    seen: &mut Seen,
) {
    let mut executor = ManualExecutor::new(alloc, fire.callback().exec());
    let added = dispatch(rt, fire, &mut executor, &mut seen.tally);
    drained(rt, alloc, added, executor, seen);
}

// A step that is always called.
fn ensured<'a, 'b, 'c, R: Wait>(
    rt: &R,
    alloc: Global,
    first: &'a mut CalledHome<'b, Always<Count<'c>>, NoProxy>,
    second: &'b mut Plain,
    calls: &'c Cell<u64>,
    seen: &mut Seen,
) -> Shown
    requires { (first.now.taken ≡ false) × (second.now.taken ≡ false) }
{
    let (to, future) = promised(first, 1, &mut seen.tally);
    let continued = future.ensure(key_of(second), 2, Count(calls), &mut seen.tally);
    let (landed, exec) = fired(rt, alloc, to, continued, Some(Ok(2)), seen);
    match landed {
        Landed::Waiting => (exec, ExecId(0), false),
        Landed::Fire(fire) => {
            let chosen = fire.callback().exec();
            run_count(rt, alloc, fire, seen);
            (exec, chosen, false)
        }
    }
}

#[test]
fn ensured_step_is_called_once_and_the_outcome_stays(rt: HostRuntime) {
    let rt = &rt;
    let mut seen = Seen::nothing();
    let calls = Cell::new(0);
    let mut shown = None;
    if let Ok(mut second) = Home::new(rt.alloc()) {
        if let Ok(mut first) = Home::new(rt.alloc()) {
            shown = Some(ensured(rt, rt.alloc(), &mut first, &mut second, &calls, &mut seen));
            closed(first, &mut seen.tally);
        }
        closed(second, &mut seen.tally);
    }
    let found = (seen.facts(), shown);
    same(
        rt,
        (found, calls.get()),
        (end_of_two(Ok(2), 3, 3, false), 1),
    );
}

// How a step on the value is chained.
#[derive(Clone, Copy)]
enum How {
    // As it is.
    Then,
    // On this executor.
    Via(ExecId),
    // With the allowance to run inline, and run on this executor.
    Inline(ExecId),
    // By hand: both cores were begun already, the next future is for executor 5, and the chain for executor 4.
    ByHand,
}

type Noting<'b, 'c> = Called<'b, OnValue<Note<'c>>, NoProxy>;

// Continues core 1 by core 2. (For any step, since each call is dear to prove where it is known.)
fn chain_on<'a, 'b, K, Q>(
    how: How,
    future: Future<'a, u64, Called<'b, OnValue<K>, Q>, NoProxy>,
    key: Key<'b, u64, u64, Q>,
    step: K,
    t: &mut Tally,
) -> Continued<'a, 'b, OnValue<K>, Q>
where
    K: ValueStep<u64, Out = u64, Later = Q> + Drop,
    Q: Proxy<u64, u64>,
{
    match how {
        How::Then => future.then(key, 2, step, t),
        How::Via(exec) => future.via(exec).then(key, 2, step, t),
        How::Inline(_) => future.then_inline(key, 2, step, t),
        How::ByHand => {
            let (to, next) = begun(key, 2, ExecId(5), t);
            let chain = Chain::of(to, OnValue { step }, future.exec()).via(ExecId(4));
            (next, future.on(chain, t))
        }
    }
}

// Runs the chain at once where that may be, and dispatches its fire where not.
fn run<R: Wait>(
    rt: &R,
    alloc: Global,
    how: How,
    fire: Fire<u64, Noting<'_, '_>>,
    seen: &mut Seen,
) -> bool {
    let mut fire = fire;
    if let How::Inline(here) = how {
        match run_here(fire, here, &mut seen.tally) {
            Here::Ran(after) => {
                seen.after(rt, alloc, after);
                return true;
            }
            Here::Not(back) => fire = back,
        }
    }
    let mut executor = ManualExecutor::new(alloc, fire.callback().exec());
    let added = dispatch(rt, fire, &mut executor, &mut seen.tally);
    drained(rt, alloc, added, executor, seen);
    false
}

// A step on the value.
fn noted<'a, 'b, 'c, R: Wait>(
    rt: &R,
    alloc: Global,
    first: &'a mut CalledHome<'b, OnValue<Note<'c>>, NoProxy>,
    second: &'b mut Plain,
    calls: &'c Cell<u64>,
    row: (How, Outcome),
    seen: &mut Seen,
) -> Shown
    requires { (first.now.taken ≡ false) × (second.now.taken ≡ false) }
{
    let (how, outcome) = row;
    let by_hand = matches!(how, How::ByHand);
    let (to, future) = started(first, by_hand, &mut seen.tally);
    let continued = chain_on(how, future, key_of(second), Note(calls), &mut seen.tally);
    let (landed, exec) = fired(rt, alloc, to, continued, Some(outcome), seen);
    match landed {
        Landed::Waiting => (exec, ExecId(0), false),
        Landed::Fire(fire) => {
            let chosen = fire.callback().exec();
            (exec, chosen, run(rt, alloc, how, fire, seen))
        }
    }
}

// Checks what a row with a step on the value comes to, and how often the step is called.
fn check<R: Abort + Wait>(rt: &R, alloc: Global, row: (How, Outcome), expected: (Found, u64)) {
    let mut seen = Seen::nothing();
    let calls = Cell::new(0);
    let mut shown = None;
    if let Ok(mut second) = Home::new(alloc) {
        if let Ok(mut first) = Home::new(alloc) {
            shown = Some(noted(rt, alloc, &mut first, &mut second, &calls, row, &mut seen));
            closed(first, &mut seen.tally);
        }
        closed(second, &mut seen.tally);
    }
    let found = (seen.facts(), shown);
    same(rt, (found, calls.get()), expected);
}

#[test]
fn fault_passes_the_step_on_a_value(rt: HostRuntime) {
    let fault = Err(Fault::Cancelled(4));
    let expected = (end_of_two(fault, 3, 3, false), 0);
    check(&rt, rt.alloc(), (How::Then, fault), expected);
}

#[test]
fn chain_and_future_have_the_chosen_executor(rt: HostRuntime) {
    let expected = (end_of_two(Ok(1), 9, 9, false), 1);
    check(&rt, rt.alloc(), (How::Via(ExecId(9)), Ok(1)), expected);
}

#[test]
fn chain_runs_inline_on_its_own_executor_alone(rt: HostRuntime) {
    for (here, ran_here) in [(3, true), (4, false)] {
        let expected = (end_of_two(Ok(5), 3, 3, ran_here), 1);
        check(
            &rt,
            rt.alloc(),
            (How::Inline(ExecId(here)), Ok(5)),
            expected,
        );
    }
}

#[test]
fn cores_begun_already_are_chained_by_hand(rt: HostRuntime) {
    let expected = (end_of_two(Ok(5), 5, 4, false), 1);
    check(&rt, rt.alloc(), (How::ByHand, Ok(5)), expected);
}

type Inner<'i> = Consumer<'i, u64, u64, NoProxy>;

// Dispatches a fire to an executor, and runs it there.
fn run_name<'i, R: Wait>(
    rt: &R,
    alloc: Global,
    fire: Fire<u64, Called<'_, OnValue<Name<'i, u64>>, Inner<'i>>>,
    seen: &mut Seen,
) {
    let mut executor = ManualExecutor::new(alloc, fire.callback().exec());
    let added = dispatch(rt, fire, &mut executor, &mut seen.tally);
    drained(rt, alloc, added, executor, seen);
}

// A step that comes to another core's outcome.
fn named<'a, 'b, 'i, R: Wait>(
    rt: &R,
    alloc: Global,
    first: &'a mut CalledHome<'b, OnValue<Name<'i, u64>>, Inner<'i>>,
    second: &'b mut Home<u64, u64, Inner<'i>>,
    step: Name<'i, u64>,
    seen: &mut Seen,
) -> Shown
    requires { (first.now.taken ≡ false) × (second.now.taken ≡ false) }
{
    let (to, future) = promised(first, 1, &mut seen.tally);
    let continued = chain_on(How::Then, future, key_of(second), step, &mut seen.tally);
    let (landed, exec) = fired(rt, alloc, to, continued, Some(Ok(1)), seen);
    match landed {
        Landed::Waiting => (exec, ExecId(0), false),
        Landed::Fire(fire) => {
            let chosen = fire.callback().exec();
            run_name(rt, alloc, fire, seen);
            (exec, chosen, false)
        }
    }
}

// The same, where the other core is core 3, which is fulfilled by 6 afterwards.
fn named_in<'a, 'b, 'i, R: Wait>(
    rt: &R,
    alloc: Global,
    first: &'a mut CalledHome<'b, OnValue<Name<'i, u64>>, Inner<'i>>,
    second: &'b mut Home<u64, u64, Inner<'i>>,
    inner: &'i mut Plain,
    seen: &mut Seen,
) -> Option<Shown>
    requires { (first.now.taken ≡ false) × (second.now.taken ≡ false) × (inner.now.taken ≡ false) }
{
    let (later, inner) = promised(inner, 3, &mut seen.tally);
    let mut shown = None;
    match Parcel::new(alloc, inner.into_consumer()) {
        Err(Refused::Memory(inner)) => {
            seen.refuse();
            seen.left(inner.give_up().leave());
        }
        Ok(inner) => shown = Some(named(rt, alloc, first, second, Name(inner), seen)),
    }
    let after = later.fulfil(Try::Value(6));
    seen.after(rt, alloc, after);
    shown
}

#[test]
fn step_may_come_to_the_outcome_of_another_core(rt: HostRuntime) {
    let rt = &rt;
    let mut seen = Seen::nothing();
    let mut shown = None;
    if let Ok(mut inner) = Home::new(rt.alloc()) {
        if let Ok(mut second) = Home::new(rt.alloc()) {
            if let Ok(mut first) = Home::new(rt.alloc()) {
                shown = named_in(
                    rt,
                    rt.alloc(),
                    &mut first,
                    &mut second,
                    &mut inner,
                    &mut seen,
                );
                closed(first, &mut seen.tally);
            }
            closed(second, &mut seen.tally);
        }
        closed(inner, &mut seen.tally);
    }
    let facts = (1, Some((3, Ok(6), 7, false)), 0, None, 0, (3, 2, 1, 3));
    let expected = (facts, Some((ExecId(3), ExecId(3), false)));
    same(rt, (seen.facts(), shown), expected);
}

// A callback that may run inline, then a proxy, then the result of the core that it names. It answers what was seen before that.
fn passed_on<'o, 'i, R: Wait>(
    rt: &R,
    alloc: Global,
    outer: &'o mut Home<u64, u64, Inner<'i>>,
    inner: &'i mut Plain,
    seen: &mut Seen,
) -> Facts
    requires { (outer.now.taken ≡ false) × (inner.now.taken ≡ false) }
{
    let (to, future) = promised(outer, 1, &mut seen.tally);
    let (later, inner) = promised(inner, 2, &mut seen.tally);
    seen.set_callback_inline(rt, alloc, future);
    seen.set_proxy(rt, alloc, to, inner.into_consumer());
    let before = seen.facts();
    let after = later.fulfil(Try::Value(8));
    seen.after(rt, alloc, after);
    before
}

#[test]
fn allowance_to_run_inline_goes_through_a_proxy(rt: HostRuntime) {
    let rt = &rt;
    let mut seen = Seen::nothing();
    let mut before = None;
    if let Ok(mut inner) = Home::new(rt.alloc()) {
        if let Ok(mut outer) = Home::new(rt.alloc()) {
            before = Some(passed_on(rt, rt.alloc(), &mut outer, &mut inner, &mut seen));
            closed(outer, &mut seen.tally);
        }
        closed(inner, &mut seen.tally);
    }
    let early = (0, None, 0, None, 0, (2, 0, 1, 1));
    let late = (1, Some((2, Ok(8), 7, true)), 0, None, 0, (2, 1, 1, 2));
    same(rt, (before, seen.facts()), (Some(early), late));
}

// Fulfils by 1 and detaches, in this order. It answers what was seen when the first leave was settled.
fn detached<R: Wait>(rt: &R, alloc: Global, home: &mut Plain, seen: &mut Seen) -> Facts
    requires { home.now.taken ≡ false }
{
    let (to, future) = promised(home, 1, &mut seen.tally);
    let after = to.fulfil(Try::Value(1));
    seen.after(rt, alloc, after);
    let first = seen.facts();
    seen.left(future.detach());
    first
}

#[test]
fn one_leave_gives_out_what_nobody_claimed(rt: HostRuntime) {
    let mut seen = Seen::nothing();
    let mut first = None;
    if let Ok(mut home) = Home::new(rt.alloc()) {
        first = Some(detached(&rt, rt.alloc(), &mut home, &mut seen));
        closed(home, &mut seen.tally);
    }
    let both = (0, None, 1, Some(Ok(1)), 0, (1, 0, 0, 1));
    same(
        &rt,
        (first, seen.facts()),
        (Some((0, None, 0, None, 0, (1, 0, 0, 0))), both),
    );
}
