//! Each caller once, with what must come of it.

use core_word::Tally;
use fan_base::{ExecId, JobId, Try};
use notify_queue::{Stamp, Stamped};
use runtime_examples::{
    Deferral, Heard, ask_another, double_later, double_value, gather_two, hand_over, hear_both,
    interrupt, keep, post_and_tick, run_two,
};
use std::test::Fail;

#[test]
fn a_core_hands_over_once(rt: HostRuntime) -> Result<(), Fail> {
    let mut tally = Tally::new();
    let handed = hand_over(rt.alloc(), 5, 7, &mut tally)?;
    assert_eq!(rt; handed, Some((1, Try::Value(5), 7)));
    assert_eq!(rt; (tally.made(), tally.handed(), tally.freed()), (1, 1, 1));
    Ok(())
}

#[test]
fn a_promise_is_kept(rt: HostRuntime) -> Result<(), Fail> {
    let mut tally = Tally::new();
    let answer = keep(rt.alloc(), 5, 7, &mut tally)?;
    assert_eq!(rt; answer, Some((Try::Value(5), 7)));
    assert_eq!(rt; (tally.made(), tally.handed(), tally.freed()), (1, 1, 1));
    Ok(())
}

#[test]
fn a_value_is_doubled_by_a_continuation(rt: HostRuntime) -> Result<(), Fail> {
    let arrived = double_value(&rt, rt.alloc(), 21, 7)?;
    let t = arrived.tally;
    assert_eq!(rt; (t.made(), t.handed(), t.freed()), (2, 2, 2));
    assert_eq!(rt; arrived.unclaimed, None);
    assert_eq!(rt; arrived.last, Some((Try::Value(42), 7)));
    Ok(())
}

#[test]
fn a_callback_goes_through_a_proxy(rt: HostRuntime) -> Result<(), Fail> {
    let mut tally = Tally::new();
    let answer = ask_another(rt.alloc(), 8, 7, &mut tally)?;
    assert_eq!(rt; answer, Some((Try::Value(8), 7)));
    assert_eq!(rt; (tally.made(), tally.handed()), (2, 1));
    assert_eq!(rt; (tally.forwarded(), tally.freed()), (1, 2));
    Ok(())
}

#[test]
fn deferred_work_runs_on_the_executor_that_is_chosen(rt: HostRuntime) -> Result<(), Fail> {
    let mut tally = Tally::new();
    let ran = double_later(rt.alloc(), 21, Some(ExecId(3)), &mut tally)?;
    let wanted = Deferral {
        exec: Some(ExecId(3)),
        answer: Some((Try::Value(42), 7)),
        unclaimed: None,
    };
    assert_eq!(rt; ran, wanted);
    assert_eq!(rt; (tally.made(), tally.handed(), tally.freed()), (2, 2, 2));
    Ok(())
}

#[test]
fn deferred_work_without_an_executor_never_runs(rt: HostRuntime) -> Result<(), Fail> {
    let mut tally = Tally::new();
    let given_up = double_later(rt.alloc(), 21, None, &mut tally)?;
    let wanted = Deferral {
        exec: None,
        answer: None,
        unclaimed: Some(Try::Broken),
    };
    assert_eq!(rt; given_up, wanted);
    assert_eq!(rt; (tally.made(), tally.handed(), tally.freed()), (2, 1, 2));
    Ok(())
}

#[test]
fn each_senders_messages_come_in_its_order(rt: HostRuntime) -> Result<(), Fail> {
    let Heard { taken, mut end } = hear_both(&rt, rt.alloc(), (1, 2), (7, 8))?;
    let message = |sender, index, message| Stamped {
        stamp: Stamp { sender, index },
        message,
    };
    let expected = [message(0, 0, 1), message(0, 1, 2), message(1, 0, 7)];
    assert_eq!(rt; taken.as_slice(), expected.as_slice());
    assert_eq!(rt; (end.put, end.taken), (4, 3));
    assert_eq!(rt; end.rest.pop(), Some(message(1, 1, 8)));
    Ok(())
}

#[test]
fn a_pool_runs_each_task_once(rt: HostRuntime) -> Result<(), Fail> {
    let mut count = 0;
    let mut end = run_two(&rt, rt.alloc(), (-1, 1), &mut count)?;
    assert_eq!(rt; (end.accepted, count, end.returned.len()), (2, 2, 0));
    for id in [2, 1] {
        let record = end.ran.pop().map(|record| record.job());
        assert_eq!(rt; record, Some(JobId(id)));
    }
    Ok(())
}

#[test]
fn a_message_runs_before_a_timer(rt: HostRuntime) -> Result<(), Fail> {
    let looped = post_and_tick(&rt, rt.alloc(), 5, 6)?;
    assert_eq!(rt; (looped.ran, looped.left), ((5, 6), 0));
    Ok(())
}

#[test]
fn two_outcomes_are_gathered_by_index(rt: HostRuntime) -> Result<(), Fail> {
    let got = gather_two(rt.alloc(), (Try::Value(1), Try::Broken), 9)?;
    let outcomes = got.map(|(mut list, end)| (list.pop(), list.pop(), list.pop(), end));
    let expected = (Some(Try::Value(1)), Some(Try::Broken), None, 9);
    assert_eq!(rt; outcomes, Some(expected));
    Ok(())
}

#[test]
fn a_raise_calls_the_handler(rt: HostRuntime) -> Result<(), Fail> {
    assert_eq!(rt; interrupt(rt.alloc(), 3, 4)?, (3, 4));
    Ok(())
}
