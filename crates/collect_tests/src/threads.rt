//! Each kind of desk filled by four threads, with outcomes that must be spent.
ghost use Rattle.std.specs.Prelude.{◌≡◌, vec_len};

use super::rows::{dealt, got, same};
use collect_ops::{
    All, AllDesk, AllValues, Any, AnyDesk, AnyValue, AnyValueDesk, Arrival, Arrived, Desk,
    FirstValue, Kept, Listed, Nothing, Values, ValuesDesk,
};
use fan_base::Try;
use std::alloc::Global;
use std::process::Abort;
use std::thread;
use std::thread::Threads;

const COUNT: usize = 1000;

// A value that can't be dropped.
struct Token(u64);

fn spent(token: Token) -> u64 {
    let Token(n) = token;
    n
}

fn outcome_spent(outcome: Try<Token>) -> u64 {
    match outcome {
        Try::Value(token) => spent(token),
        Try::Broken | Try::Memory => 0,
        Try::Cancelled(n) => n,
    }
}

// What arrivals have answered: completions, outcomes of a list that stood at their index, outcomes that came back, and
// outcomes that were kept.
#[derive(Clone, Copy, Debug, PartialEq, Eq)]
struct Seen {
    completed: u64,
    listed: u64,
    back: u64,
    more: u64,
}

impl Seen {
    fn new() -> Seen {
        Seen {
            completed: 0,
            listed: 0,
            back: 0,
            more: 0,
        }
    }

    fn with(self, other: Seen) -> Seen {
        Seen {
            completed: self.completed.saturating_add(other.completed),
            listed: self.listed.saturating_add(other.listed),
            back: self.back.saturating_add(other.back),
            more: self.more.saturating_add(other.more),
        }
    }

    fn complete(&mut self, end: Token) {
        spent(end);
        self.completed = self.completed.saturating_add(1);
    }

    fn back(&mut self, outcome: Try<Token>) {
        outcome_spent(outcome);
        self.back = self.back.saturating_add(1);
    }

    fn at(&mut self, index: u64, n: u64) {
        if index == n {
            self.listed = self.listed.saturating_add(1);
        }
    }
}

// A kind of desk whose arrivals can bring tokens.
trait Brings<X>: Sized {
    fn bring<'d>(arrival: Arrival<'d, Desk<X, Token, Self>>, seen: &mut Seen);

    // How many outcomes and ends come out of a closed desk.
    fn rest(kept: Kept<Desk<X, Token, Self>>) -> u64;
}

fn end_spent(end: Option<Token>) -> u64 {
    match end {
        Some(end) => {
            spent(end);
            1
        }
        None => 0,
    }
}

fn outcomes_seen(mut list: Listed<Try<Token>>, seen: &mut Seen) {
    let mut index = 0;
    while let Some(outcome) = list.pop() {
        seen.at(index, outcome_spent(outcome));
        index = index.saturating_add(1);
    }
    list.end();
}

fn values_seen(mut list: Listed<Token>, seen: &mut Seen) {
    let mut index = 0;
    while let Some(value) = list.pop() {
        seen.at(index, spent(value));
        index = index.saturating_add(1);
    }
    list.end();
}

impl Brings<Try<Token>> for All {
    fn bring<'d>(arrival: Arrival<'d, AllDesk<Token, Token>>, seen: &mut Seen) {
        let n = arrival.index() as u64;
        match arrival.arrive(Try::Value(Token(n))) {
            Arrived::Complete(list, end, _) => {
                seen.complete(end);
                outcomes_seen(list, seen);
            }
            Arrived::Back(outcome, _) => seen.back(outcome),
            Arrived::More(_) => seen.more = seen.more.saturating_add(1),
        }
    }

    fn rest(mut kept: Kept<AllDesk<Token, Token>>) -> u64 {
        let mut count = end_spent(kept.end());
        while let Some(outcome) = kept.next() {
            outcome_spent(outcome);
            count = count.saturating_add(1);
        }
        kept.finish();
        count
    }
}

impl Brings<Token> for Values {
    fn bring<'d>(arrival: Arrival<'d, ValuesDesk<Token, Token>>, seen: &mut Seen) {
        let n = arrival.index() as u64;
        match arrival.arrive(Try::Value(Token(n))) {
            Arrived::Complete(found, end, _) => {
                seen.complete(end);
                match found {
                    AllValues::Values(list) => values_seen(list, seen),
                    AllValues::Fault(_, fault) => {
                        outcome_spent(fault);
                    }
                }
            }
            Arrived::Back(outcome, _) => seen.back(outcome),
            Arrived::More(_) => seen.more = seen.more.saturating_add(1),
        }
    }

    fn rest(mut kept: Kept<ValuesDesk<Token, Token>>) -> u64 {
        let mut count = end_spent(kept.end());
        while let Some(outcome) = kept.next() {
            outcome_spent(outcome);
            count = count.saturating_add(1);
        }
        kept.finish();
        count
    }
}

impl Brings<Nothing> for Any<Token> {
    fn bring<'d>(arrival: Arrival<'d, AnyDesk<Token, Token>>, seen: &mut Seen) {
        let n = arrival.index() as u64;
        match arrival.arrive(Try::Value(Token(n))) {
            Arrived::Complete((index, outcome), end, _) => {
                seen.complete(end);
                seen.at(index as u64, outcome_spent(outcome));
            }
            Arrived::Back(outcome, _) => seen.back(outcome),
            Arrived::More(_) => seen.more = seen.more.saturating_add(1),
        }
    }

    fn rest(mut kept: Kept<AnyDesk<Token, Token>>) -> u64 {
        let mut count = end_spent(kept.end());
        while let Some(outcome) = kept.next() {
            outcome_spent(outcome);
            count = count.saturating_add(1);
        }
        kept.finish();
        count
    }
}

// All outcomes are faults.
impl Brings<()> for AnyValue<Token> {
    fn bring<'d>(arrival: Arrival<'d, AnyValueDesk<Token, Token>>, seen: &mut Seen) {
        let n = arrival.index() as u64;
        match arrival.arrive(Try::Cancelled(n)) {
            Arrived::Complete(FirstValue::Value(index, value), end, _) => {
                seen.complete(end);
                seen.at(index as u64, spent(value));
            }
            Arrived::Complete(FirstValue::AllFailed(index, fault), end, _) => {
                seen.complete(end);
                seen.at(index as u64, outcome_spent(fault));
            }
            Arrived::Back(outcome, _) => seen.back(outcome),
            Arrived::More(_) => seen.more = seen.more.saturating_add(1),
        }
    }

    fn rest(mut kept: Kept<AnyValueDesk<Token, Token>>) -> u64 {
        let mut count = end_spent(kept.end());
        while let Some(outcome) = kept.next() {
            outcome_spent(outcome);
            count = count.saturating_add(1);
        }
        kept.finish();
        count
    }
}

// Some of a desk's arrivals, and what they have answered.
struct Portion<'d, X, K> {
    arrivals: Vec<Arrival<'d, Desk<X, Token, K>>>,
    seen: Seen,
}

// Adds an item to a list.
fn add<X, R: Abort>(rt: &R, list: &mut Vec<X>, item: X) {
    match list.push(item) {
        Ok(()) => {}
        Err(_refused) => rt.panic("memory"),
    }
}

// All arrivals of a desk of 1,000, in four portions.
fn portions_of<'d, X, K, R: Abort>(
    rt: &R,
    alloc: Global,
    desk: &'d mut Desk<X, Token, K>,
) -> Vec<Portion<'d, X, K>> {
    let mut portions = Vec::new(alloc);
    let mut arrivals = dealt(rt, desk);
    for _ in 0..4 {
        let mut list = Vec::new(alloc);
        for _ in 0..250 {
            add(rt, &mut list, got(rt, arrivals.next()));
        }
        let portion = Portion {
            arrivals: list,
            seen: Seen::new(),
        };
        add(rt, &mut portions, portion);
    }
    portions
}

fn bring_all<'d, X: 'd, K: Brings<X> + 'd>(portion: &mut Portion<'d, X, K>)
    ensures { vec_len portion.new.arrivals ≡ 0 }
{
    while let Some(arrival) = portion.arrivals.pop() {
        K::bring(arrival, &mut portion.seen);
    }
}

// What a portion has seen, whose arrivals have all been brought.
fn seen_by<'d, X: 'd, K: Brings<X> + 'd>(mut portion: Portion<'d, X, K>) -> Seen {
    bring_all(&mut portion);
    let Portion { arrivals, seen } = portion;
    arrivals.destroy_empty();
    seen
}

fn desk<X, K, R: Abort>(rt: &R, alloc: Global) -> Desk<X, Token, K> {
    match Desk::new(alloc, COUNT, Token(70)) {
        Ok(desk) => desk,
        Err(_refused) => rt.panic("memory"),
    }
}

// What four portions have seen.
fn seen_in<'d, X: 'd, K: Brings<X> + 'd>(mut portions: Vec<Portion<'d, X, K>>) -> Seen {
    let mut seen = Seen::new();
    while let Some(portion) = portions.pop() {
        seen = seen.with(seen_by(portion));
    }
    portions.destroy_empty();
    seen
}

// What the arrivals of a desk of 1,000 answer that four threads bring, and how much is left there.
fn filled<X: Send, K: Brings<X> + Send, R: Abort + Threads + Sync>(
    rt: &R,
    alloc: Global,
) -> (Seen, u64) {
    let mut desk = desk::<X, K, R>(rt, alloc);
    let mut portions = portions_of(rt, alloc, &mut desk);
    thread::for_each_mut(rt, &mut portions, 4, &|_, portion| bring_all(portion));
    let seen = seen_in(portions);
    (seen, K::rest(desk.close()))
}

// One completion with the whole list, or with one outcome, and nothing left.
const WHOLE: (Seen, u64) = (
    Seen {
        completed: 1,
        listed: 1000,
        back: 0,
        more: 999,
    },
    0,
);

const FIRST: (Seen, u64) = (
    Seen {
        completed: 1,
        listed: 1,
        back: 999,
        more: 0,
    },
    0,
);

#[test]
fn four_threads_fill_each_desk(rt: HostRuntime) {
    let rt = &rt;
    let alloc = rt.alloc();
    same(rt, filled::<Try<Token>, All, _>(rt, alloc), WHOLE);
    same(rt, filled::<Token, Values, _>(rt, alloc), WHOLE);
    same(rt, filled::<Nothing, Any<Token>, _>(rt, alloc), FIRST);
    same(rt, filled::<(), AnyValue<Token>, _>(rt, alloc), FIRST);
}
