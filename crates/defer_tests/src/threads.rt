//! Two threads, one that adds a job that must be spent and one that chooses.

use fan_base::ExecId;
use semi_defer::{Added, Adder, DeferredHome, Holder};
use std::alloc::{AllocError, Global};
use std::test::Fail;
use std::thread;
use std::thread::Threads;

// A job that can't be dropped.
struct Token(u64);

fn spent(token: Token) -> u64 {
    let Token(n) = token;
    n
}

fn spent_if(token: Option<Token>) -> u64 {
    match token {
        Some(token) => spent(token),
        None => 0,
    }
}

// How many jobs came out at the adder.
fn add(adder: &mut Option<Adder<'_, Token>>) -> u64 {
    match adder.take() {
        Some(adder) => match adder.add(Token(1)) {
            (Added::Kept, _) => 0,
            (Added::RunOn(_, job), _) | (Added::Gone(job), _) => spent(job),
        },
        None => 0,
    }
}

// How many jobs came out at the holder, which sets an executor or detaches.
fn choose(holder: &mut Option<Holder<'_, Token>>, detaches: bool) -> u64 {
    match holder.take() {
        Some(holder) => {
            let (job, _) = if detaches {
                holder.detach()
            } else {
                holder.set_executor(ExecId(3))
            };
            spent_if(job)
        }
        None => 0,
    }
}

// Spends the sides that are still there, which are none.
fn rest<'h>(adder: Option<Adder<'h, Token>>, holder: Option<Holder<'h, Token>>) -> u64 {
    if let Some(adder) = adder {
        adder.end();
    }
    match holder {
        Some(holder) => spent_if(holder.detach().0),
        None => 0,
    }
}

// How many jobs came out of a home at which two threads met.
fn meet(rt: &impl Threads, home: &mut DeferredHome<Token>, detaches: bool) -> u64 {
    let Some((adder, holder)) = home.pair() else {
        return 0;
    };
    let mut adder = Some(adder);
    let mut holder = Some(holder);
    let (added, chosen) = thread::join(rt, || add(&mut adder), || choose(&mut holder, detaches));
    added
        .saturating_add(chosen)
        .saturating_add(rest(adder, holder))
}

fn met(rt: &impl Threads, alloc: Global, detaches: bool) -> Result<u64, AllocError> {
    let mut home = DeferredHome::new(alloc).map_err(|_| AllocError)?;
    let count = meet(rt, &mut home, detaches);
    Ok(count.saturating_add(spent_if(home.close().into_job())))
}

#[test]
fn two_threads_meet_ten_thousand_times(rt: HostRuntime) -> Result<(), Fail> {
    let mut once: u64 = 0;
    for n in 0..10_000u64 {
        if met(&rt, rt.alloc(), n % 2 == 0)? == 1 {
            once = once.saturating_add(1);
        }
    }
    assert_eq!(rt; once, 10_000);
    Ok(())
}
