//! Desks in one hand, to which outcomes are brought one after another.
ghost use Rattle.std.specs.Prelude.{◌≡◌, ◌<◌, ◌≤◌, IfSome};

use crate::rows::{List, Said, outcomes_kept, outcomes_listed, same, told};
use collect_ops::{Brought, OwnedDesk};
use fan_base::{Fault, Try};
use std::alloc::Global;
use std::process::Abort;

type Owned = OwnedDesk<u64, u64>;

fn owned<R: Abort>(rt: &R, alloc: Global, size: usize) -> Owned
    requires { (1 ≤ size) × (size ≤ 4) }
    ensures { result.desk.size ≡ size }
{
    match OwnedDesk::new(alloc, size, 70) {
        Ok(desk) => desk,
        Err(_) => rt.panic("memory"),
    }
}

// What an owned desk answers to an outcome, and the desk where it isn't freed.
fn said(desk: Owned, index: usize, outcome: Try<u64>) -> (Said, Option<Owned>)
    requires { index < desk.desk.size }
    ensures { IfSome result.1 (λ d. d.desk.size ≡ desk.desk.size) }
{
    match desk.bring(index, outcome) {
        Brought::Complete(list, end) => (Said::All(outcomes_listed(list), end), None),
        Brought::More(desk, _receipt) => (Said::More, Some(desk)),
        Brought::Back(desk, outcome) => (Said::Back(told(outcome)), Some(desk)),
    }
}

// The same of a desk that isn't freed by it.
fn kept<R: Abort>(rt: &R, desk: Owned, index: usize, outcome: Try<u64>) -> (Said, Owned)
    requires { index < desk.desk.size }
    ensures { result.1.desk.size ≡ desk.desk.size }
{
    match said(desk, index, outcome) {
        (answer, Some(desk)) => (answer, desk),
        (_, None) => rt.panic("freed"),
    }
}

// The same of one that is.
fn freed<R: Abort>(rt: &R, desk: Owned, index: usize, outcome: Try<u64>) -> Said
    requires { index < desk.desk.size }
{
    match said(desk, index, outcome) {
        (answer, None) => answer,
        (_, Some(_desk)) => rt.panic("not freed"),
    }
}

// Outcomes 2, 2 once more, 0 and 1.
fn owned_of_three<R: Abort>(rt: &R, alloc: Global) -> (Said, Said, Said, Said) {
    let desk = owned(rt, alloc, 3);
    let (first, desk) = kept(rt, desk, 2, Try::Value(2));
    let (second, desk) = kept(rt, desk, 2, Try::Value(9));
    let (third, desk) = kept(rt, desk, 0, Try::Broken);
    let last = freed(rt, desk, 1, Try::Value(1));
    (first, second, third, last)
}

#[test]
fn outcomes_brought_by_index(rt: HostRuntime) {
    let rt = &rt;
    let all = (Some(Err(Fault::Broken)), Some(Ok(1)), Some(Ok(2)), 0);
    let expected = (
        Said::More,
        Said::Back(Ok(9)),
        Said::More,
        Said::All(all, 70),
    );
    same(rt, owned_of_three(rt, rt.alloc()), expected);
}

// A desk of one outcome, and one that is closed with one of its two.
fn owned_ends<R: Abort>(rt: &R, alloc: Global) -> (Said, List, Option<u64>) {
    let desk = owned(rt, alloc, 1);
    let only = freed(rt, desk, 0, Try::Value(4));
    let desk = owned(rt, alloc, 2);
    let (_, desk) = kept(rt, desk, 1, Try::Value(5));
    let (list, end) = outcomes_kept(desk.close());
    (only, list, end)
}

#[test]
fn what_was_brought_comes_out_at_the_close(rt: HostRuntime) {
    let rt = &rt;
    let all = (Some(Ok(4)), None, None, 0);
    let rest = (Some(Ok(5)), None, None, 0);
    same(
        rt,
        owned_ends(rt, rt.alloc()),
        (Said::All(all, 70), rest, Some(70)),
    );
}
