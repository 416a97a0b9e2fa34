// The phases of a round.
ghost use Rattle.std.specs.Prelude.{◌≡◌, ◌+◌, ◌≤◌, ◌<◌, ◌^◌, ◌⊎◌, min, true, List, [], IfSome, IfNone, length, map};
ghost use Rattle.std.specs.List.{sum_by};
ghost use Rattle.notify_queue.specs.declared.stamp.Stamped.{Stamped};
ghost use Rattle.event_base.specs.Rounds.{IsBeforePhase, AllRun, IsTick, AreTicks, IsLoopPhase};
ghost use Rattle.event_base.specs.Turns.{Turn};
ghost use Rattle.event_base.specs.SoFar.{LoopSoFar};

use crate::agenda::Agenda;
use crate::job::LoopJob;
use notify_queue::Stamped;
use std::collections::VecDeque;
use std::marker::Brand;
use std::sync::Wait;
use std::sync::ledger::{Blank, Ledger};
use tick_wheel::Steps;

// The most callbacks of one loop phase.
const LOOP_LIMIT: u64 = 65_536;

// Runs the callbacks that are held for the beginning of a round.
pub(crate) fn run_before<W, J: LoopJob<W>, R: Wait>(
    rt: &R,
    agenda: &mut Agenda<J>,
    world: &mut W,
) -> u64
    ensures { (turns : List (Turn J)) × (result ≡ length turns)
        × IsBeforePhase J.head J.runs (world.old, agenda.old) turns (world.new, agenda.new) }
{
    let count = agenda.count_before();
    for _ in 0..count {
        let Some(job) = agenda.take_before() else {
            unreachable!()
        };
        let _mark = job.run(rt, world, agenda);
    }
    count as u64
}

// Runs messages that were taken.
pub(crate) fn run_messages<W, J: LoopJob<W>, R: Wait>(
    rt: &R,
    agenda: &mut Agenda<J>,
    world: &mut W,
    messages: Vec<Stamped<J>>,
)
    ensures { (turns : List (Turn J))
        × AllRun J.head J.runs (map (λ (x : Stamped J). x.message) messages.items) (world.old, agenda.old) turns (world.new, agenda.new) }
{
    let mut messages = VecDeque::from_vec(messages);
    while let Some(Stamped { stamp: _, message }) = messages.pop_front() {
        let _mark = message.run(rt, world, agenda);
    }
    messages.destroy_empty();
}

// Runs the jobs of timers.
fn run_due<W, J: LoopJob<W>, R: Wait>(rt: &R, agenda: &mut Agenda<J>, world: &mut W, jobs: Vec<J>)
    ensures { (turns : List (Turn J)) × AllRun J.head J.runs jobs.items (world.old, agenda.old) turns (world.new, agenda.new) }
{
    let mut jobs = VecDeque::from_vec(jobs);
    while let Some(job) = jobs.pop_front() {
        let _mark = job.run(rt, world, agenda);
    }
    jobs.destroy_empty();
}

// Makes one tick and runs what is due then, and says how many; or changes nothing, where there is no memory.
fn run_tick<W, J: LoopJob<W>, R: Wait, L: Ledger>(
    rt: &R,
    agenda: &mut Agenda<J>,
    world: &mut W,
    steps: &mut Steps<L>,
) -> Option<usize>
    requires { agenda.old.wheel.tick < 2 ^ 63 }
    ensures some { IfSome result (λ count. (turns : List (Turn J)) × (count ≡ length turns)
        × IsTick J.head J.runs (world.old, agenda.old) turns (world.new, agenda.new)) }
    ensures none { IfNone result ((agenda.new ≡ agenda.old) × (world.new ≡ world.old)) }
{
    let jobs = match agenda.tick(steps) {
        Ok(jobs) => jobs,
        Err(_) => return None,
    };
    let count = jobs.len();
    run_due(rt, agenda, world, jobs);
    Some(count)
}

// Makes the ticks one by one. It answers how many timers ran, up to the last of its type, and how many ticks were not made.
fn run_counted_ticks<W, J: LoopJob<W>, R: Wait, L: Ledger>(
    rt: &R,
    agenda: &mut Agenda<J>,
    world: &mut W,
    ticks: u64,
    steps: &mut Steps<L>,
) -> (u64, u64)
    requires { agenda.old.wheel.tick + ticks ≤ 2 ^ 63 }
    ensures { (made : List (List (Turn J))) × (length made + result.1 ≡ ticks)
        × (result.0 ≡ min (sum_by length made) 18446744073709551615)
        × AreTicks J.head J.runs (world.old, agenda.old) made (world.new, agenda.new) }
{
    let mut timers: u64 = 0;
    for made in 0..ticks {
        match run_tick(rt, agenda, world, steps) {
            Some(count) => timers = timers.saturating_add(count as u64),
            None => return (timers, ticks - made),
        }
    }
    (timers, 0)
}

// Makes the ticks with a count of steps of their own.
fn run_fresh_ticks<W, J: LoopJob<W>, R: Wait, L: Ledger>(
    rt: &R,
    agenda: &mut Agenda<J>,
    world: &mut W,
    ticks: u64,
    blank: Blank,
) -> (u64, u64)
    requires name { blank.name ≡ L.name }
    requires parts { blank.parts ≡ L.parts }
    requires some { 0 < blank.parts }
    requires room { agenda.old.wheel.tick + ticks ≤ 2 ^ 63 }
    ensures { (made : List (List (Turn J))) × (length made + result.1 ≡ ticks)
        × (result.0 ≡ min (sum_by length made) 18446744073709551615)
        × AreTicks J.head J.runs (world.old, agenda.old) made (world.new, agenda.new) }
{
    let mut steps = Steps::<L>::new(blank);
    run_counted_ticks(rt, agenda, world, ticks, &mut steps)
}

// Makes the ticks, with a count of steps that ends with this call.
pub(crate) fn run_ticks<W, J: LoopJob<W>, R: Wait>(
    rt: &R,
    agenda: &mut Agenda<J>,
    world: &mut W,
    ticks: u64,
) -> (u64, u64)
    requires { agenda.old.wheel.tick + ticks ≤ 2 ^ 63 }
    ensures { (made : List (List (Turn J))) × (length made + result.1 ≡ ticks)
        × (result.0 ≡ min (sum_by length made) 18446744073709551615)
        × AreTicks J.head J.runs (world.old, agenda.old) made (world.new, agenda.new) }
{
    run_fresh_ticks::<W, J, R, Brand>(rt, agenda, world, ticks, Blank::new(1))
}

// Takes and runs the callbacks of a loop phase that has begun, as many as one phase may have.
fn run_phase<W, J: LoopJob<W>, R: Wait>(
    rt: &R,
    agenda: &mut Agenda<J>,
    world: &mut W,
    limit: u64,
) -> u64
    requires { agenda.old.in_loop ≡ true }
    ensures within { result ≤ limit }
    ensures ran { LoopSoFar J.head J.runs (world.old, agenda.old) result (world.new, agenda.new) }
    ensures ended { (result ≡ limit) ⊎ (agenda.new.loops ≡ []) }
{
    for count in 0..limit {
        let Some(job) = agenda.take_loop() else {
            return count;
        };
        let _mark = job.run(rt, world, agenda);
    }
    limit
}

// Runs a loop phase, and says how many callbacks ran.
pub(crate) fn run_loop<W, J: LoopJob<W>, R: Wait>(
    rt: &R,
    agenda: &mut Agenda<J>,
    world: &mut W,
) -> u64
    ensures { (turns : List (Turn J)) × (result ≡ length turns)
        × IsLoopPhase J.head J.runs 65536 (world.old, agenda.old) turns (world.new, agenda.new) }
{
    agenda.begin_phase();
    let count = run_phase(rt, agenda, world, LOOP_LIMIT);
    agenda.end_phase();
    count
}
