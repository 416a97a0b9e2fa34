// Rows of calls, each with the answer that it must give.
ghost use Rattle.std.specs.Prelude.{◌≡◌, ◌<◌, ◌≤◌, ◌^◌};

use std::alloc::Global;
use std::marker::Brand;
use std::sync::ledger::{Blank, Ledger};
use std::test::Fail;
use tick_wheel::{Refuse, ScheduleFault, Steps, Timer, Timers, Wheel};

// A call and its answer.
#[derive(Clone, Copy, Debug)]
enum Call {
    // A delay, an id, and why it is refused.
    Schedule(u64, u64, Option<Refuse>),
    // An id, and the tick at which it was due.
    Cancel(u64, Option<u64>),
    // So many ticks, none of which gives an id.
    Pass(u64),
    // One tick, and the ids that it gives.
    Tick(&'static [u64]),
    // All ids that are left.
    CancelAll(&'static [u64]),
}

fn expect(holds: bool, start: u64, call: Call) -> Result<(), Fail> {
    if holds {
        return Ok(());
    }
    Err(Fail::new(format_args!("from {start}: {call:?}")))
}

fn tick<L: Ledger>(wheel: &mut Wheel, steps: &mut Steps<L>) -> Result<Vec<u64>, Fail> {
    if wheel.now() >= 1 << 63 {
        return Err(Fail::new("the last tick was made"));
    }
    Ok(wheel.tick(steps)?)
}

fn pass<L: Ledger>(wheel: &mut Wheel, count: u64, steps: &mut Steps<L>) -> Result<bool, Fail> {
    for _ in 0..count {
        if !tick(wheel, steps)?.is_empty() {
            return Ok(false);
        }
    }
    Ok(true)
}

fn answers<L: Ledger>(wheel: &mut Wheel, call: Call, steps: &mut Steps<L>) -> Result<bool, Fail> {
    match call {
        Call::Schedule(delay, id, refuse) => {
            if wheel.holds(id) {
                return Err(Fail::new("the id is held"));
            }
            Ok(wheel.schedule(delay, id).err() == refuse)
        }
        Call::Cancel(id, due) => Ok(wheel.cancel(id) == due && !wheel.holds(id)),
        Call::Pass(count) => pass(wheel, count, steps),
        Call::Tick(ids) => Ok(tick(wheel, steps)?.as_slice() == ids),
        Call::CancelAll(ids) => Ok(wheel.cancel_all()?.as_slice() == ids && wheel.is_empty()),
    }
}

fn make<L: Ledger>(
    alloc: Global,
    start: u64,
    calls: &[Call],
    steps: &mut Steps<L>,
) -> Result<(), Fail>
    requires { start ≤ 2 ^ 62 }
{
    let mut wheel = Wheel::new(alloc, start)?;
    for call in calls {
        let holds = answers(&mut wheel, *call, steps)?;
        expect(holds, start, *call)?;
    }
    Ok(())
}

const LONGEST: u64 = 4294967295;

const FAR: u64 = 1 << 62;

// Both sides of each limit of a delay, ids in order of scheduling, and what is left.
const LIMITS: &[Call] = &[
    Call::Schedule(1, 7, None),
    Call::Schedule(1, 3, None),
    Call::Schedule(0, 1, Some(Refuse::ZeroDelay)),
    Call::Schedule(LONGEST + 1, 1, Some(Refuse::DelayTooLong)),
    Call::Tick(&[7, 3]),
    Call::Cancel(7, None),
    Call::Schedule(9, 4, None),
    Call::CancelAll(&[4]),
];

// One that is placed anew fires before one that was scheduled later.
const OLDER_FIRST: &[Call] = &[
    Call::Schedule(256, 1, None),
    Call::Pass(255),
    Call::Schedule(1, 2, None),
    Call::Tick(&[1, 2]),
];

// An id that has fired may be scheduled again, and an id that was cancelled doesn't fire.
const AGAIN: &[Call] = &[
    Call::Schedule(3, 1, None),
    Call::Schedule(3, 2, None),
    Call::Schedule(3, 3, None),
    Call::Schedule(300, 4, None),
    Call::Pass(2),
    Call::Cancel(1, Some(3)),
    Call::Tick(&[2, 3]),
    Call::Schedule(1, 2, None),
    Call::Schedule(1, 1, None),
    Call::Tick(&[2, 1]),
    Call::Pass(295),
    Call::Tick(&[4]),
    Call::CancelAll(&[]),
];

// All is given by ascending ids, whatever its due tick.
const ASCENDING: &[Call] = &[
    Call::Schedule(70000, 9, None),
    Call::Schedule(1, 5, None),
    Call::Schedule(LONGEST, 7, None),
    Call::Schedule(300, 1, None),
    Call::CancelAll(&[1, 5, 7, 9]),
    Call::Pass(300),
];

const ACROSS_A_BOUNDARY: &[Call] = &[
    Call::Schedule(65536, 9, None),
    Call::Pass(65535),
    Call::Tick(&[9]),
];

// The first delays that go to the coarsest wheel.
const FROM_THE_COARSEST: &[Call] = &[
    Call::Schedule(16777216, 9, None),
    Call::Schedule(16777217, 8, None),
    Call::Pass(16777215),
    Call::Tick(&[9]),
    Call::Tick(&[8]),
];

const LONGEST_DELAY: &[Call] = &[
    Call::Schedule(LONGEST, 1, None),
    Call::Cancel(1, Some(FAR + LONGEST)),
];

fn make_rows<L: Ledger>(alloc: Global, blank: Blank) -> Result<(), Fail>
    requires name { blank.name ≡ L.name }
    requires parts { blank.parts ≡ L.parts }
    requires some { 0 < blank.parts }
{
    let mut steps = Steps::<L>::new(blank);
    for start in [0, 65535, 1 << 32, FAR] {
        make(alloc, start, LIMITS, &mut steps)?;
        make(alloc, start, OLDER_FIRST, &mut steps)?;
        make(alloc, start, ASCENDING, &mut steps)?;
        make(alloc, start, ACROSS_A_BOUNDARY, &mut steps)?;
    }
    make(alloc, 0, AGAIN, &mut steps)?;
    make(alloc, 0, FROM_THE_COARSEST, &mut steps)?;
    make(alloc, FAR, LONGEST_DELAY, &mut steps)
}

#[test]
fn rows_of_calls_have_their_answers(rt: HostRuntime) -> Result<(), Fail> {
    make_rows::<Brand>(rt.alloc(), Blank::new(1))
}

// A thousand far timers are not touched by a tick that fires one.
fn fire_one_of_many<L: Ledger>(alloc: Global, blank: Blank) -> Result<(), Fail>
    requires name { blank.name ≡ L.name }
    requires parts { blank.parts ≡ L.parts }
    requires some { 0 < blank.parts }
{
    let mut steps = Steps::<L>::new(blank);
    let mut wheel = Wheel::new(alloc, 0)?;
    for id in 0..1000 {
        let holds = answers(&mut wheel, Call::Schedule(100000, id, None), &mut steps)?;
        expect(
            holds && wheel.len() as u64 == id + 1,
            0,
            Call::Schedule(100000, id, None),
        )?;
    }
    for call in [Call::Schedule(1, 5000, None), Call::Tick(&[5000])] {
        let holds = answers(&mut wheel, call, &mut steps)?;
        expect(holds, 0, call)?;
    }
    Ok(())
}

#[test]
fn one_of_many_fires(rt: HostRuntime) -> Result<(), Fail> {
    fire_one_of_many::<Brand>(rt.alloc(), Blank::new(1))
}

// What may not be dropped comes back at a refusal, at a tick, at a cancellation and at the end.
#[derive(Debug)]
struct Ticket(u64);

fn number_of(fault: ScheduleFault<Ticket>) -> (u64, u64) {
    match fault {
        ScheduleFault::ZeroDelay(Ticket(number)) => (0, number),
        ScheduleFault::DelayTooLong(Ticket(number)) => (1, number),
        ScheduleFault::Memory(Ticket(number)) => (2, number),
    }
}

fn add_tickets(mut tickets: Vec<Ticket>) -> u64 {
    let mut sum: u64 = 0;
    while let Some(Ticket(number)) = tickets.pop() {
        sum = sum.wrapping_add(number);
    }
    tickets.destroy_empty();
    sum
}

fn schedule_ticket(timers: &mut Timers<Ticket>, delay: u64, id: u64) -> Option<(u64, u64)> {
    if timers.holds(id) {
        return None;
    }
    match timers.schedule(delay, id, Ticket(id.wrapping_add(40))) {
        Ok(()) => None,
        Err(fault) => Some(number_of(fault)),
    }
}

fn fire_tickets<L: Ledger>(alloc: Global, timers: &mut Timers<Ticket>, blank: Blank) -> u64
    requires name { blank.name ≡ L.name }
    requires parts { blank.parts ≡ L.parts }
    requires some { 0 < blank.parts }
{
    let mut steps = Steps::<L>::new(blank);
    let mut tickets = Vec::new(alloc);
    if timers.now() < 1 << 63 {
        let _made = timers.tick_into(&mut steps, &mut tickets);
    }
    add_tickets(tickets)
}

// The numbers of what is left, by due tick and order of scheduling.
fn drain(timers: Timers<Ticket>) -> [u64; 4] {
    let mut rest = timers.into_rest();
    let mut numbers = [rest.len() as u64, 0, 0, 0];
    for place in 1..4 {
        if let Some(
            Timer {
                item: Ticket(number),
                ..
            },
        ) = rest.pop()
        {
            numbers[place] = number;
        }
    }
    while let Some(
        Timer {
            item: Ticket(number),
            ..
        },
    ) = rest.pop()
    {
        numbers[0] = number;
    }
    rest.destroy_empty();
    numbers
}

#[test]
fn tickets_come_back(rt: HostRuntime) {
    if let Ok(mut timers) = Timers::<Ticket>::new(rt.alloc(), 0) {
        let faults = (
            schedule_ticket(&mut timers, 0, 1),
            schedule_ticket(&mut timers, LONGEST + 1, 1),
        );
        let kept = (
            schedule_ticket(&mut timers, 1, 1),
            schedule_ticket(&mut timers, 1, 2),
            schedule_ticket(&mut timers, 9, 3),
        );
        let cancelled = timers.cancel(2).map(|Timer {
            due,
            id,
            item: Ticket(number),
        }| (due, id, number));
        let fired = fire_tickets::<Brand>(rt.alloc(), &mut timers, Blank::new(1));
        let later = (
            schedule_ticket(&mut timers, 70000, 2),
            schedule_ticket(&mut timers, 8, 1),
        );
        let numbers = drain(timers);
        assert_eq!(rt; faults, (Some((0, 41)), Some((1, 41))));
        assert_eq!(rt; kept, (None, None, None));
        assert_eq!(rt; cancelled, Some((1, 2, 42)));
        assert_eq!(rt; fired, 41);
        assert_eq!(rt; later, (None, None));
        assert_eq!(rt; numbers, [3, 43, 41, 42]);
    }
}

#[test]
fn all_are_cancelled_by_id(rt: HostRuntime) {
    if let Ok(mut timers) = Timers::<Ticket>::new(rt.alloc(), 0) {
        let kept = (
            schedule_ticket(&mut timers, 1, 9),
            schedule_ticket(&mut timers, 700, 3),
        );
        let all = timers.cancel_all().map(add_tickets);
        let numbers = drain(timers);
        assert_eq!(rt; kept, (None, None));
        assert_eq!(rt; all, Ok(92));
        assert_eq!(rt; numbers, [0, 0, 0, 0]);
    }
}
