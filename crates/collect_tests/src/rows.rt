//! Desks filled by hand, each with the answers that it must give.
ghost use Rattle.std.specs.Prelude.{◌≤◌};

use collect_ops::{
    AllDesk, AllValues, AnyDesk, AnyValueDesk, Arrival, Arrivals, Arrived, Desk, FirstValue,
    Gathers, Kept, Listed, Taken, ValuesDesk,
};
use fan_base::{Fault, Try};
use std::alloc::Global;
use std::fmt::Debug;
use std::mem::ManuallyDrop;
use std::process::Abort;

// Compares two values. A test compares by this, since each assertion that a body makes of its own makes that body dearer to prove.
pub(crate) fn same<T: PartialEq + Debug + Copy, R: Abort>(rt: &R, found: T, expected: T) {
    assert_eq!(rt; found, expected);
}

// An outcome as a value that may be copied.
type Outcome = Result<u64, Fault>;

pub(crate) fn told(outcome: Try<u64>) -> Outcome {
    match outcome {
        Try::Value(value) => Ok(value),
        Try::Broken => Err(Fault::Broken),
        Try::Memory => Err(Fault::Memory),
        Try::Cancelled(number) => Err(Fault::Cancelled(number)),
    }
}

fn told_some(outcome: Option<Try<u64>>) -> Option<Outcome> {
    match outcome {
        Some(outcome) => Some(told(outcome)),
        None => None,
    }
}

// The first three outcomes by index, and how many there are beside these.
pub(crate) type List = (Option<Outcome>, Option<Outcome>, Option<Outcome>, usize);

const EMPTY: List = (None, None, None, 0);

pub(crate) fn outcomes_listed(mut list: Listed<Try<u64>>) -> List {
    let zero = told_some(list.pop());
    let one = told_some(list.pop());
    let two = told_some(list.pop());
    (zero, one, two, list.len())
}

fn value_told(value: Option<u64>) -> Option<Outcome> {
    match value {
        Some(value) => Some(Ok(value)),
        None => None,
    }
}

fn values_listed(mut list: Listed<u64>) -> List {
    let zero = value_told(list.pop());
    let one = value_told(list.pop());
    let two = value_told(list.pop());
    (zero, one, two, list.len())
}

// What an arrival answers, as plain data.
#[derive(Clone, Copy, Debug, PartialEq, Eq)]
pub(crate) enum Said {
    All(List, u64),
    First(usize, Outcome, u64),
    Back(Outcome),
    More,
}

fn all_said(arrival: Arrival<'_, AllDesk<u64, u64>>, outcome: Try<u64>) -> Said {
    match arrival.arrive(outcome) {
        Arrived::Complete(list, end, _) => Said::All(outcomes_listed(list), end),
        Arrived::Back(outcome, _) => Said::Back(told(outcome)),
        Arrived::More(_) => Said::More,
    }
}

fn values_said(arrival: Arrival<'_, ValuesDesk<u64, u64>>, outcome: Try<u64>) -> Said {
    match arrival.arrive(outcome) {
        Arrived::Complete(found, end, _) => match found {
            AllValues::Values(list) => Said::All(values_listed(list), end),
            AllValues::Fault(index, fault) => Said::First(index, told(fault), end),
        },
        Arrived::Back(outcome, _) => Said::Back(told(outcome)),
        Arrived::More(_) => Said::More,
    }
}

fn any_said(arrival: Arrival<'_, AnyDesk<u64, u64>>, outcome: Try<u64>) -> Said {
    match arrival.arrive(outcome) {
        Arrived::Complete((index, outcome), end, _) => Said::First(index, told(outcome), end),
        Arrived::Back(outcome, _) => Said::Back(told(outcome)),
        Arrived::More(_) => Said::More,
    }
}

fn any_value_said(arrival: Arrival<'_, AnyValueDesk<u64, u64>>, outcome: Try<u64>) -> Said {
    match arrival.arrive(outcome) {
        Arrived::Complete(found, end, _) => match found {
            FirstValue::Value(index, value) => Said::First(index, Ok(value), end),
            FirstValue::AllFailed(index, fault) => Said::First(index, told(fault), end),
        },
        Arrived::Back(outcome, _) => Said::Back(told(outcome)),
        Arrived::More(_) => Said::More,
    }
}

fn desk<X, K, R: Abort>(rt: &R, alloc: Global, size: usize) -> Desk<X, u64, K>
    requires { (1 ≤ size) × (size ≤ 4) }
{
    match Desk::new(alloc, size, 70) {
        Ok(desk) => desk,
        Err(_) => rt.panic("memory"),
    }
}

// The arrivals of a desk.
pub(crate) fn dealt<'d, X, E, K, R: Abort>(
    rt: &R,
    desk: &'d mut Desk<X, E, K>,
) -> Arrivals<'d, Desk<X, E, K>> {
    match desk.arrivals() {
        Ok(arrivals) => arrivals,
        Err(Taken) => rt.panic("arrivals that were taken"),
    }
}

pub(crate) fn got<'d, D: Gathers, R: Abort>(
    rt: &R,
    arrival: Option<Arrival<'d, D>>,
) -> Arrival<'d, D> {
    match arrival {
        Some(arrival) => arrival,
        None => rt.panic("an arrival"),
    }
}

type Two<'d, D> = (Arrival<'d, D>, Arrival<'d, D>);

type Three<'d, D> = (Arrival<'d, D>, Arrival<'d, D>, Arrival<'d, D>);

fn one<'d, X, K, R: Abort>(rt: &R, desk: &'d mut Desk<X, u64, K>) -> Arrival<'d, Desk<X, u64, K>> {
    let mut arrivals = dealt(rt, desk);
    got(rt, arrivals.next())
}

fn two<'d, X, K, R: Abort>(rt: &R, desk: &'d mut Desk<X, u64, K>) -> Two<'d, Desk<X, u64, K>> {
    let mut arrivals = dealt(rt, desk);
    let zero = got(rt, arrivals.next());
    let one = got(rt, arrivals.next());
    (zero, one)
}

fn three<'d, X, K, R: Abort>(rt: &R, desk: &'d mut Desk<X, u64, K>) -> Three<'d, Desk<X, u64, K>> {
    let mut arrivals = dealt(rt, desk);
    let zero = got(rt, arrivals.next());
    let one = got(rt, arrivals.next());
    let two = got(rt, arrivals.next());
    (zero, one, two)
}

// What was kept at a desk of all outcomes, and its end.
pub(crate) fn outcomes_kept(mut kept: Kept<AllDesk<u64, u64>>) -> (List, Option<u64>) {
    let end = kept.end();
    let zero = told_some(kept.next());
    let one = told_some(kept.next());
    let two = told_some(kept.next());
    let mut more = 0usize;
    while let Some(_) = kept.next() {
        more = more.saturating_add(1);
    }
    kept.finish();
    ((zero, one, two, more), end)
}

// The same of a desk of values.
fn values_kept(mut kept: Kept<ValuesDesk<u64, u64>>) -> (List, Option<u64>) {
    let end = kept.end();
    let zero = told_some(kept.next());
    let one = told_some(kept.next());
    let two = told_some(kept.next());
    let mut more = 0usize;
    while let Some(_) = kept.next() {
        more = more.saturating_add(1);
    }
    kept.finish();
    ((zero, one, two, more), end)
}

// Arrivals 2, 0 and 1 of a desk of all outcomes.
fn all_of_three<R: Abort>(rt: &R, alloc: Global) -> (Said, Said, Said) {
    let mut gathered: AllDesk<u64, u64> = desk(rt, alloc, 3);
    let (zero, one, two) = three(rt, &mut gathered);
    let first = all_said(two, Try::Value(2));
    let second = all_said(zero, Try::Broken);
    let third = all_said(one, Try::Value(1));
    (first, second, third)
}

#[test]
fn all_outcomes_by_index(rt: HostRuntime) {
    let rt = &rt;
    let all = (Some(Err(Fault::Broken)), Some(Ok(1)), Some(Ok(2)), 0);
    let expected = (Said::More, Said::More, Said::All(all, 70));
    same(rt, all_of_three(rt, rt.alloc()), expected);
}

// A desk of one outcome, and whether its arrivals were taken before a second time.
fn all_of_one<R: Abort>(rt: &R, alloc: Global) -> (Said, bool) {
    let mut gathered: AllDesk<u64, u64> = desk(rt, alloc, 1);
    let only = one(rt, &mut gathered);
    let answer = all_said(only, Try::Value(4));
    let taken = match gathered.arrivals() {
        Ok(_) => false,
        Err(Taken) => true,
    };
    (answer, taken)
}

#[test]
fn arrivals_come_once(rt: HostRuntime) {
    let rt = &rt;
    let all = (Some(Ok(4)), None, None, 0);
    same(rt, all_of_one(rt, rt.alloc()), (Said::All(all, 70), true));
}

// Arrivals 1 and 0 of a desk of two values.
fn values_of_two<R: Abort>(
    rt: &R,
    alloc: Global,
    first: Try<u64>,
    second: Try<u64>,
) -> (Said, Said) {
    let mut gathered: ValuesDesk<u64, u64> = desk(rt, alloc, 2);
    let (zero, one) = two(rt, &mut gathered);
    let first = values_said(one, first);
    let second = values_said(zero, second);
    (first, second)
}

#[test]
fn values_by_index_or_the_first_fault(rt: HostRuntime) {
    let rt = &rt;
    let faults = values_of_two(rt, rt.alloc(), Try::Broken, Try::Memory);
    let expected = (
        Said::First(1, Err(Fault::Broken), 70),
        Said::Back(Err(Fault::Memory)),
    );
    same(rt, faults, expected);
    let values = values_of_two(rt, rt.alloc(), Try::Value(8), Try::Value(7));
    let both = (Some(Ok(7)), Some(Ok(8)), None, 0);
    same(rt, values, (Said::More, Said::All(both, 70)));
}

// A value and then a fault at a desk of two values, and what is left there.
fn value_then_fault<R: Abort>(rt: &R, alloc: Global) -> (Said, Said, List, Option<u64>) {
    let mut gathered: ValuesDesk<u64, u64> = desk(rt, alloc, 2);
    let (zero, one) = two(rt, &mut gathered);
    let first = values_said(zero, Try::Value(7));
    let second = values_said(one, Try::Broken);
    let (kept, end) = values_kept(gathered.close());
    (first, second, kept, end)
}

// What is left of a desk at which a value alone has arrived, and the other was forgotten.
fn value_alone<R: Abort>(rt: &R, alloc: Global) -> (List, Option<u64>) {
    let mut gathered: ValuesDesk<u64, u64> = desk(rt, alloc, 2);
    let (zero, one) = two(rt, &mut gathered);
    let _ = unsafe { ManuallyDrop::new_unchecked(zero) };
    values_said(one, Try::Value(8));
    values_kept(gathered.close())
}

// What is left of a desk whose arrivals weren't taken.
fn value_never<R: Abort>(rt: &R, alloc: Global) -> (List, Option<u64>) {
    let untaken: ValuesDesk<u64, u64> = desk(rt, alloc, 2);
    values_kept(untaken.close())
}

#[test]
fn what_was_kept_comes_out_once(rt: HostRuntime) {
    let rt = &rt;
    let first = Said::First(1, Err(Fault::Broken), 70);
    let kept = (Some(Ok(7)), None, None, 0);
    let expected = (Said::More, first, kept, None);
    same(rt, value_then_fault(rt, rt.alloc()), expected);
    let kept = (Some(Ok(8)), None, None, 0);
    same(rt, value_alone(rt, rt.alloc()), (kept, Some(70)));
    same(rt, value_never(rt, rt.alloc()), (EMPTY, Some(70)));
}

// Arrivals 1 and 0 of a desk of the first of two outcomes.
fn any_of_two<R: Abort>(rt: &R, alloc: Global, first: Try<u64>, second: Try<u64>) -> (Said, Said) {
    let mut gathered: AnyDesk<u64, u64> = desk(rt, alloc, 2);
    let (zero, one) = two(rt, &mut gathered);
    let first = any_said(one, first);
    let second = any_said(zero, second);
    (first, second)
}

// What was kept at a desk of the first value, and its end.
fn any_value_kept(mut kept: Kept<AnyValueDesk<u64, u64>>) -> (Option<Outcome>, Option<u64>) {
    let end = kept.end();
    let outcome = kept.next();
    kept.finish();
    (told_some(outcome), end)
}

// Arrivals 0 and 1 of a desk of the first of two values, and what its desk keeps.
fn any_value_of_two<R: Abort>(
    rt: &R,
    alloc: Global,
    first: Try<u64>,
    second: Try<u64>,
) -> (Said, Said, Option<Outcome>, Option<u64>) {
    let mut gathered: AnyValueDesk<u64, u64> = desk(rt, alloc, 2);
    let (zero, one) = two(rt, &mut gathered);
    let first = any_value_said(zero, first);
    let second = any_value_said(one, second);
    let (outcome, end) = any_value_kept(gathered.close());
    (first, second, outcome, end)
}

// Arrivals 2, 0 and 1 of a desk of the first of three values.
fn any_value_of_three<R: Abort>(rt: &R, alloc: Global) -> (Said, Said, Said) {
    let mut gathered: AnyValueDesk<u64, u64> = desk(rt, alloc, 3);
    let (zero, one, two) = three(rt, &mut gathered);
    let first = any_value_said(two, Try::Broken);
    let second = any_value_said(zero, Try::Value(5));
    let third = any_value_said(one, Try::Value(6));
    (first, second, third)
}

#[test]
fn the_first_outcome_or_value(rt: HostRuntime) {
    let rt = &rt;
    let any = any_of_two(rt, rt.alloc(), Try::Broken, Try::Value(3));
    let expected = (Said::First(1, Err(Fault::Broken), 70), Said::Back(Ok(3)));
    same(rt, any, expected);
    let faults = any_value_of_two(rt, rt.alloc(), Try::Broken, Try::Memory);
    let back = Said::Back(Err(Fault::Broken));
    let first = Said::First(1, Err(Fault::Memory), 70);
    same(rt, faults, (back, first, None, None));
    let values = any_value_of_three(rt, rt.alloc());
    let first = Said::First(0, Ok(5), 70);
    same(rt, values, (back, first, Said::Back(Ok(6))));
}
