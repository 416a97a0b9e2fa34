use super::note::*;
use event_base::{BaseEnd, BaseRest, LoopEnd, Why};
use std::process::Abort;

#[test]
fn a_round_runs_its_phases_in_order(rt: HostRuntime) {
    let alloc = rt.alloc();
    let rt = &rt;
    let (mut base, mut poster) = one_poster(rt, alloc);
    let mut world = Vec::new(alloc);
    schedule_all(base.agenda());
    post(rt, &mut poster, 15);
    round(rt, &mut base, 1, &mut world, (0, [1, 1, 1, 2]));
    check_ids(rt, &world, &[13, 15, 14, 10, 12]);
    round(rt, &mut base, 0, &mut world, (1, [0, 0, 0, 1]));
    check_ids(rt, &world, &[13, 15, 14, 10, 12, 11]);
    close_empty(rt, alloc, base, poster.end(rt), (1, 1, 0));
}

#[test]
fn timers_are_refused_and_cancelled(rt: HostRuntime) {
    let alloc = rt.alloc();
    let rt = &rt;
    let (mut base, poster) = one_poster(rt, alloc);
    try_timers(rt, base.agenda());
    close_empty(rt, alloc, base, poster.end(rt), (0, 0, 0));
}

#[test]
fn a_loop_ends_by_its_mark_and_then_closed(rt: HostRuntime) {
    let alloc = rt.alloc();
    let rt = &rt;
    let (mut base, mut poster) = one_poster(rt, alloc);
    let mut world = Vec::new(alloc);
    post(rt, &mut poster, 15);
    let end = poster.end(rt);
    base.agenda().terminate_soon();
    let marked = LoopEnd {
        rounds: 1,
        why: Why::Terminated,
    };
    same(rt, whole_loop(rt, &mut base, &mut world), marked);
    check_ids(rt, &world, &[15]);
    same(rt, whole_loop(rt, &mut base, &mut world).why, Why::Closed);
    close_empty(rt, alloc, base, end, (1, 1, 0));
}

// These notes come back, and no more.
fn check_rest<R: Abort>(rt: &R, rest: &mut BaseRest<Note>, ids: &[u64]) {
    for id in ids {
        same(rt, rest.pop(), Some(note_on(EXEC, *id)));
    }
    same(rt, rest.pop(), None);
}

#[test]
fn what_is_left_comes_back_in_order(rt: HostRuntime) {
    let alloc = rt.alloc();
    let rt = &rt;
    let (mut base, mut poster) = one_poster(rt, alloc);
    schedule_all(base.agenda());
    post(rt, &mut poster, 15);
    let ends = place_for_one(rt, alloc);
    let BaseEnd { queue, mut rest } = close_one(rt, base, poster.end(rt), ends);
    check_queue(rt, &queue, (1, 0, 1));
    check_rest(rt, &mut rest, &[15, 13, 10, 14]);
}

// A poster that has not ended: its messages run in the next round, the eleventh in the one after it.
#[test]
fn a_living_posters_messages_run_in_the_next_round(rt: HostRuntime) {
    let alloc = rt.alloc();
    let rt = &rt;
    let (mut base, mut poster) = one_poster(rt, alloc);
    let mut world = Vec::new(alloc);
    post_all(rt, &mut poster, 20, 31);
    round(rt, &mut base, 0, &mut world, (0, [0, 10, 0, 0]));
    round(rt, &mut base, 0, &mut world, (1, [0, 1, 0, 0]));
    round(rt, &mut base, 0, &mut world, (2, [0, 0, 0, 0]));
    post(rt, &mut poster, 31);
    round(rt, &mut base, 0, &mut world, (3, [0, 1, 0, 0]));
    check_ids(
        rt,
        &world,
        &[20, 21, 22, 23, 24, 25, 26, 27, 28, 29, 30, 31],
    );
    close_empty(rt, alloc, base, poster.end(rt), (12, 12, 0));
}

// Ten messages of a poster that has ended: the round that takes them doesn't learn that nothing more can come. A base that sleeps behind it
// sleeps for good.
#[test]
fn a_loop_ends_behind_a_full_round(rt: HostRuntime) {
    let alloc = rt.alloc();
    let rt = &rt;
    let (mut base, mut poster) = one_poster(rt, alloc);
    let mut world = Vec::new(alloc);
    post_all(rt, &mut poster, 20, 30);
    let end = poster.end(rt);
    let all = whole_loop(rt, &mut base, &mut world);
    let closed = LoopEnd {
        rounds: 2,
        why: Why::Closed,
    };
    same(rt, (all, world.len()), (closed, 10));
    close_empty(rt, alloc, base, end, (10, 10, 0));
}
