//! A closure at each item beside a front. What is lent keeps its value here, which a type that names lifetimes loses.
ghost use Rattle.run_stages.specs.Calls.{AcceptsAll, ChangesAll};

use run_stages::call_beside;
use std::sync::Wait;
use std::thread::Threads;

/// Calls `one` at each item, each on a thread of its own, beside the front, which is called on this thread.
pub(crate) fn call_all_beside<
    S: Send,
    H: Fn(&(), &mut S) + Sync,
    F: FnMut(),
    R: Threads + Wait + Sync,
>(rt: &R, one: &H, items: &mut Vec<S>, front: &mut F)
    requires items { AcceptsAll H.Fn one.now tt items.old.items }
    requires front { F.pre front.old }
    ensures items { ChangesAll H.Fn one.now tt items.old.items items.new.items }
    ensures front { F.step front.old tt front.new }
{
    call_beside(rt, &(), one, items.as_mut_slice(), front);
}
