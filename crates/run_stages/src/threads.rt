ghost use Rattle.run_stages.specs.Stages.{AllRan, AllReady};
ghost use denote.Param.Send.{IsSend, IsSync};

use crate::stage::Stage;
use std::sync::Wait;
use std::thread::{Threads, for_each_mut, join_mut};

/// Runs all these stages, each on a thread of its own.
pub fn run_each<X: Sync, S: Stage<X> + Send, R: Threads + Wait + Sync>(
    rt: &R,
    shared: &X,
    stages: &mut [S],
)
    requires { AllReady (S.ready shared.now) stages.old }
    ensures { AllRan (S.ran shared.now) stages.old stages.new }
{
    let threads = stages.len().max(1);
    let one = |_: usize, stage: &mut S|
        requires { S.ready shared.now stage.now }
        ensures { S.ran shared.entry.now stage.entry.now stage.exit.now }
    { stage.run(rt, shared) };
    for_each_mut(rt, stages, threads, &one);
}

/// Calls the front on this thread, and runs these stages beside it, each on a thread of its own.
pub fn run_beside<X: Sync, S: Stage<X> + Send, F: FnMut(), R: Threads + Wait + Sync>(
    rt: &R,
    shared: &X,
    stages: &mut [S],
    front: &mut F,
)
    requires stages { AllReady (S.ready shared.now) stages.old }
    requires front { F.pre front.old }
    ensures stages { AllRan (S.ran shared.now) stages.old stages.new }
    ensures front { F.step front.old tt front.new }
{
    let mut theirs = ||
        requires { IsSync R.row × IsSync X.row × IsSend S.row × AllReady (S.ready shared.now) stages.now }
        ensures { AllRan (S.ran shared.entry.now) stages.entry.now stages.exit.now }
    { run_each(rt, shared, stages) };
    join_mut(rt, &mut theirs, front);
}

/// Calls the others on this thread, and runs the last stage beside them, on a thread of its own.
pub fn run_before<X: Sync, P: Stage<X> + Send, F: FnMut(), R: Threads + Wait + Sync>(
    rt: &R,
    shared: &X,
    last: &mut P,
    others: &mut F,
)
    requires last { P.ready shared.now last.old }
    requires others { F.pre others.old }
    ensures last { P.ran shared.now last.old last.new }
    ensures others { F.step others.old tt others.new }
{
    let mut theirs = ||
        requires { P.ready shared.now last.now }
        ensures { P.ran shared.entry.now last.entry.now last.exit.now }
    { last.run(rt, shared) };
    join_mut(rt, &mut theirs, others);
}
