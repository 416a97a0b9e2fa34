//! A chain of three cores, of which the first two have a proxy, in two orders of its producers' acts, with the callback
//! given before, between and after them.
ghost use Rattle.std.specs.Prelude.{◌≡◌, false};

use crate::seen::{Facts, Outcome, Plain, Seen, closed, key_of, same, try_of};
use core_proxy::{NoProxy, Proxy, Taker};
use core_word::{Consumer, Home, Producer};
use fan_base::Fault;
use std::alloc::Global;
use std::process::Abort;
use std::sync::Wait;

type Third<'c> = Consumer<'c, u64, u64, NoProxy>;

type Second<'b, 'c> = Consumer<'b, u64, u64, Third<'c>>;

// What is done to the first core's consumer.
#[derive(Clone, Copy)]
enum Way {
    Give,
    GiveInline,
    GiveUp,
}

// One way through a chain: what is done to its first consumer and at which place, whether the producers act from the first
// core to the last one or the other way round, and the outcome.
#[derive(Clone, Copy)]
struct Plan {
    way: Way,
    place: u64,
    forwards: bool,
    outcome: Outcome,
}

// Names the proxy, and leaves.
fn proxied<R: Wait, P: Proxy<u64, u64>>(
    seen: &mut Seen,
    rt: &R,
    alloc: Global,
    producer: Producer<'_, u64, u64, P>,
    to: P,
) {
    let (passed, left) = producer.set_proxy(to);
    seen.left(left.leave());
    let landed = P::after_passing(passed, &mut seen.tally);
    seen.landed(rt, alloc, landed);
}

// Sets the outcome, and leaves.
fn fulfilled<R: Wait>(
    seen: &mut Seen,
    rt: &R,
    alloc: Global,
    producer: Producer<'_, u64, u64, NoProxy>,
    outcome: Outcome,
) {
    let (landed, left) = producer.set_result(try_of(outcome));
    seen.left(left.leave());
    seen.landed(rt, alloc, landed);
}

// Gives a core the callback 7, or gives it up.
fn consumed<R: Wait, P: Proxy<u64, u64>>(
    seen: &mut Seen,
    rt: &R,
    alloc: Global,
    consumer: Consumer<'_, u64, u64, P>,
    way: Way,
) {
    match way {
        Way::Give => {
            let landed = consumer.give(7, &mut seen.tally);
            seen.landed(rt, alloc, landed);
        }
        Way::GiveInline => {
            let landed = consumer.give_inline(7, &mut seen.tally);
            seen.landed(rt, alloc, landed);
        }
        Way::GiveUp => {
            let left_over = Taker::give_up(consumer, &mut seen.tally);
            seen.left_over(left_over);
        }
    }
}

// The same with the first core's consumer, where this is its place.
fn taken<R: Wait, P: Proxy<u64, u64>>(
    seen: &mut Seen,
    rt: &R,
    alloc: Global,
    first: &mut Option<Consumer<'_, u64, u64, P>>,
    plan: Plan,
    place: u64,
) {
    if plan.place == place {
        match first.take() {
            None => {}
            Some(first) => consumed(seen, rt, alloc, first, plan.way),
        }
    }
}

// A producer, and the proxy that it is to name.
type Named<'h, P> = (Producer<'h, u64, u64, P>, P);

// The producers act from the first core to the last one. Between them the first consumer may act. (This and the next one for any
// proxies, since each call is dear to prove where the types of three cores are known.)
fn forwards<R: Wait, P: Proxy<u64, u64>, Q: Proxy<u64, u64>>(
    rt: &R,
    alloc: Global,
    first: &mut Option<Consumer<'_, u64, u64, P>>,
    named: (Named<'_, P>, Named<'_, Q>),
    last: Producer<'_, u64, u64, NoProxy>,
    plan: Plan,
    seen: &mut Seen,
) {
    let ((one, second), (two, third)) = named;
    proxied(seen, rt, alloc, one, second);
    taken(seen, rt, alloc, first, plan, 1);
    proxied(seen, rt, alloc, two, third);
    taken(seen, rt, alloc, first, plan, 2);
    fulfilled(seen, rt, alloc, last, plan.outcome);
}

// The same from the last core to the first one.
fn backwards<R: Wait, P: Proxy<u64, u64>, Q: Proxy<u64, u64>>(
    rt: &R,
    alloc: Global,
    first: &mut Option<Consumer<'_, u64, u64, P>>,
    named: (Named<'_, P>, Named<'_, Q>),
    last: Producer<'_, u64, u64, NoProxy>,
    plan: Plan,
    seen: &mut Seen,
) {
    let ((one, second), (two, third)) = named;
    fulfilled(seen, rt, alloc, last, plan.outcome);
    taken(seen, rt, alloc, first, plan, 1);
    proxied(seen, rt, alloc, two, third);
    taken(seen, rt, alloc, first, plan, 2);
    proxied(seen, rt, alloc, one, second);
}

// All acts of a chain whose cores are begun. The first consumer acts before the producer with its place, or after all of them.
fn acted<R: Wait, P: Proxy<u64, u64>, Q: Proxy<u64, u64>>(
    rt: &R,
    alloc: Global,
    first: Consumer<'_, u64, u64, P>,
    named: (Named<'_, P>, Named<'_, Q>),
    last: Producer<'_, u64, u64, NoProxy>,
    plan: Plan,
    seen: &mut Seen,
) {
    let mut first = Some(first);
    taken(seen, rt, alloc, &mut first, plan, 0);
    if plan.forwards {
        forwards(rt, alloc, &mut first, named, last, plan, seen);
    } else {
        backwards(rt, alloc, &mut first, named, last, plan, seen);
    }
    match first {
        None => {}
        Some(first) => consumed(seen, rt, alloc, first, plan.way),
    }
}

// The whole chain, in homes that are new.
fn through<'a, 'b, 'c, R: Wait>(
    rt: &R,
    alloc: Global,
    first: &'a mut Home<u64, u64, Second<'b, 'c>>,
    second: &'b mut Home<u64, u64, Third<'c>>,
    third: &'c mut Plain,
    plan: Plan,
    seen: &mut Seen,
)
    requires { (first.now.taken ≡ false) × (second.now.taken ≡ false) × (third.now.taken ≡ false) }
{
    let (one, first) = key_of(first).start(1, &mut seen.tally);
    let (two, second) = key_of(second).start(2, &mut seen.tally);
    let (three, third) = key_of(third).start(3, &mut seen.tally);
    let named = ((one, second), (two, third));
    acted(rt, alloc, first, named, three, plan, seen);
}

fn chain<R: Wait>(rt: &R, alloc: Global, plan: Plan) -> Facts {
    let mut seen = Seen::nothing();
    if let Ok(mut third) = Home::new(alloc) {
        if let Ok(mut second) = Home::new(alloc) {
            if let Ok(mut first) = Home::new(alloc) {
                through(
                    rt,
                    alloc,
                    &mut first,
                    &mut second,
                    &mut third,
                    plan,
                    &mut seen,
                );
                closed(first, &mut seen.tally);
            }
            closed(second, &mut seen.tally);
        }
        closed(third, &mut seen.tally);
    }
    seen.facts()
}

// Tries this way at each place and in both orders.
fn check<R: Abort + Wait>(rt: &R, alloc: Global, way: Way, outcome: Outcome) {
    for place in 0..4 {
        for forwards in [true, false] {
            let plan = Plan {
                way,
                place,
                forwards,
                outcome,
            };
            same(rt, chain(rt, alloc, plan), expected(plan));
        }
    }
}

// What is expected of one. A fire may run inline where the callback may, the producers act from the first core to the last one, and
// the callback is given before the last of them has acted.
fn expected(plan: Plan) -> Facts {
    let inline = match plan.way {
        Way::Give => false,
        Way::GiveInline => plan.forwards && plan.place < 3,
        Way::GiveUp => return (0, None, 1, Some(plan.outcome), 0, (3, 0, 0, 3)),
    };
    let end = Some((3, plan.outcome, 7, inline));
    (1, end, 0, None, 0, (3, 1, 2, 3))
}

#[test]
fn callback_goes_to_the_end_of_its_chain(rt: HostRuntime) {
    for way in [Way::Give, Way::GiveInline] {
        check(&rt, rt.alloc(), way, Ok(8));
    }
}

#[test]
fn chain_that_is_given_up_gives_out_what_its_end_held(rt: HostRuntime) {
    for outcome in [
        Ok(8),
        Err(Fault::Broken),
        Err(Fault::Memory),
        Err(Fault::Cancelled(4)),
    ] {
        check(&rt, rt.alloc(), Way::GiveUp, outcome);
    }
}
