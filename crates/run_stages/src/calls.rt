ghost use denote.Param.Send.{IsSend, IsSync};
ghost use Rattle.run_stages.specs.Calls.{AcceptsAll, AcceptsOne, ChangesAll, ChangesOne};

use std::sync::Wait;
use std::thread::{Threads, for_each_mut, join_mut};

/// Calls `one` at each item with what is shared, each on a thread of its own.
pub fn call_each<X: Sync, S: Send, H: Fn(&X, &mut S) + Sync, R: Threads + Wait + Sync>(
    rt: &R,
    shared: &X,
    one: &H,
    items: &mut [S],
)
    requires { AcceptsAll H.Fn one.now shared.now items.old }
    ensures { ChangesAll H.Fn one.now shared.now items.old items.new }
{
    let threads = items.len().max(1);
    let each = |_: usize, item: &mut S|
        requires { AcceptsOne H.Fn one.now shared.now item.now }
        ensures { ChangesOne H.Fn one.entry.now shared.entry.now item.entry.now item.exit.now }
    { one(shared, item) };
    for_each_mut(rt, items, threads, &each);
}

/// Calls the front on this thread, and beside it `one` at each item with what is shared, each on a thread of its own.
pub fn call_beside<
    X: Sync,
    S: Send,
    H: Fn(&X, &mut S) + Sync,
    F: FnMut(),
    R: Threads + Wait + Sync,
>(rt: &R, shared: &X, one: &H, items: &mut [S], front: &mut F)
    requires items { AcceptsAll H.Fn one.now shared.now items.old }
    requires front { F.pre front.old }
    ensures items { ChangesAll H.Fn one.now shared.now items.old items.new }
    ensures front { F.step front.old tt front.new }
{
    let mut theirs = ||
        requires { IsSync R.row × IsSync X.row × IsSync H.row × IsSend S.row × AcceptsAll H.Fn one.now shared.now items.now }
        ensures { ChangesAll H.Fn one.entry.now shared.entry.now items.entry.now items.exit.now }
    { call_each(rt, shared, one, items) };
    join_mut(rt, &mut theirs, front);
}
