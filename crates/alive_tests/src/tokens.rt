// A count on one thread and on several.
ghost use Rattle.std.specs.Prelude.{◌≡◌, None};

use fan_base::Memory;
use keep_alive::{KeepAlive, KeepOwner, Receipt, Released, last_is_after_the_owner};
use std::sync::Wait;
use std::test::Fail;
use std::thread::{Threads, join, join_mut};

fn is_last(answer: Released) -> bool {
    match answer {
        Released::Last(_) => true,
        Released::More(_) => false,
    }
}

#[test]
fn a_token_and_its_copy_are_released(rt: HostRuntime) -> Result<(), Fail> {
    let (owner, mut keep) = KeepOwner::new(rt.alloc(), 1)?;
    let copy = keep.copy(0);
    assert_eq!(rt; keep.room(), 0);
    let copied = match copy {
        Ok(copy) => is_last(copy.release()),
        Err(_) => true,
    };
    let last = is_last(keep.release());
    owner.join(&rt);
    assert_eq!(rt; (copied, last), (false, false));
    Ok(())
}

// While the owner is there, the release of a first token that wasn't copied finds 2: a count begins at 2.
fn release_before_the_owner(owner: KeepOwner, keep: KeepAlive) -> (KeepOwner, Receipt)
    requires count { keep.count ≡ owner.count }
    requires first { keep.room ≡ keep.first_room }
    ensures owner { result.0.count ≡ owner.count }
    ensures found { result.1.found ≡ 2 }
{
    match keep.release() {
        Released::More(receipt) => (owner, receipt),
        Released::Last(receipt) => {
            last_is_after_the_owner(receipt, owner);
            unreachable!()
        }
    }
}

#[test]
fn no_release_is_the_last_before_the_owner_leaves(rt: HostRuntime) -> Result<(), Fail> {
    let (owner, keep) = KeepOwner::new(rt.alloc(), 0)?;
    let (owner, _) = release_before_the_owner(owner, keep);
    owner.join(&rt);
    Ok(())
}

// A token that is released where it is dropped.
struct Guard(KeepAlive);

impl Drop for Guard {
    fn drop(self) {
        let Guard(keep) = self;
        let _ = keep.release();
    }
}

// Copies the token and releases the copy, as often as there is room. Says how many tokens there were.
fn spend(mut guard: Guard) -> u64 {
    let mut tokens: u64 = 1;
    while guard.0.room() > 0 {
        match guard.0.copy(0) {
            Ok(copy) => {
                let _ = copy.release();
                tokens = tokens.saturating_add(1);
            }
            Err(_) => break,
        }
    }
    tokens
}

fn spend_two<R: Threads + Sync>(rt: &R, one: Guard, other: Guard) -> u64 {
    let (a, b) = join(rt, move || spend(one), move || spend(other));
    a.saturating_add(b)
}

fn spend_four<R: Threads + Sync>(rt: &R, left: &mut Option<(Guard, Guard, Guard, Guard)>) -> u64 {
    let Some((a, b, c, d)) = left.take() else {
        return 0;
    };
    let (front, back) = join(rt, move || spend_two(rt, a, b), move || spend_two(rt, c, d));
    front.saturating_add(back)
}

fn end<R: Wait>(rt: &R, owner: &mut Option<KeepOwner>)
    ensures { owner.new ≡ None }
{
    if let Some(owner) = owner.take() {
        owner.join(rt);
    }
}

// Three copies with room for 249 each, which leaves room for 249.
fn three_copies(first: &mut Guard) -> Result<(Guard, Guard, Guard), Memory>
    requires { first.old.0.room ≡ 999 }
{
    let one = Guard(first.0.copy(249)?);
    let two = Guard(first.0.copy(249)?);
    let three = Guard(first.0.copy(249)?);
    Ok((one, two, three))
}

#[test]
fn a_thousand_tokens_on_four_threads_while_the_owner_joins(rt: HostRuntime) -> Result<(), Fail> {
    let (owner, keep) = KeepOwner::new(rt.alloc(), 999)?;
    let mut owner = Some(owner);
    let mut first = Guard(keep);
    let tokens = match three_copies(&mut first) {
        Ok((one, two, three)) => {
            let mut left = Some((first, one, two, three));
            let mut tokens = 0;
            join_mut(
                &rt,
                &mut || end(&rt, &mut owner),
                &mut || tokens = spend_four(&rt, &mut left),
            );
            tokens
        }
        Err(_) => 0,
    };
    end(&rt, &mut owner);
    assert_eq!(rt; tokens, 1000);
    match owner {
        None => {}
        Some(_) => unreachable!(),
    }
    Ok(())
}
