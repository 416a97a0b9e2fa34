// The same round where one allocation is refused, whichever it is. `docs/refuse_allocations base_tests
// refusals::a_refusal_is_made_good` runs it once for each.
ghost use Rattle.std.specs.Prelude.{◌≡◌, ◌≤◌, ◌+◌, [], vec_capacity};
ghost use Rattle.notify_queue.specs.Ends.{new_sender};
ghost use Rattle.event_base.specs.Laws.{KeepsBase};
ghost use Rattle.event_base.specs.Seen.{new_base};

use super::note::*;
use event_base::{EventBase, Poster, rounds_keep_the_base};
use notify_queue::SenderEnd;
use std::process::Abort;
use std::sync::Wait;

// A round; where it finds no memory, another one with the ticks that are left.
fn round_or_two<R: Abort + Wait>(
    rt: &R,
    base: &mut EventBase<Note>,
    ticks: u64,
    world: &mut Vec<u64>,
)
    requires { base.old.agenda.wheel.tick + ticks ≤ 1000 }
    ensures { KeepsBase ticks base.old base.new }
{
    match base.loop_once(rt, ticks, world) {
        Ok(_) => rounds_keep_the_base::<Vec<u64>, Note>(),
        Err(fault) => {
            rounds_keep_the_base::<Vec<u64>, Note>();
            let _rest = base
                .loop_once(rt, fault.left_ticks, world)
                .expect(rt, "memory");
        }
    }
}

// The round of a base with one message, then one more, and the close.
fn run_and_close<R: Abort + Wait>(
    rt: &R,
    mut base: EventBase<Note>,
    mut poster: Poster<Note>,
    ends: Vec<SenderEnd<Note>>,
    world: &mut Vec<u64>,
)
    requires base { base ≡ new_base EXEC 0 base.queue.queue 1 }
    requires poster { poster ≡ new_sender base.queue.queue 0 }
    requires ends { (ends.items ≡ []) × (1 ≤ vec_capacity ends) }
{
    schedule_all(base.agenda());
    post(rt, &mut poster, 15);
    round_or_two(rt, &mut base, 1, world);
    round_or_two(rt, &mut base, 0, world);
    check_ids(rt, world, &[13, 15, 14, 10, 12, 11]);
    let end = close_one(rt, base, poster.end(rt), ends);
    check_empty(rt, end, (1, 1, 0));
}

#[test]
fn a_refusal_is_made_good(rt: HostRuntime) {
    let alloc = rt.alloc();
    let Ok(mut world) = Vec::with_capacity(alloc, 6) else {
        return;
    };
    let Ok(ends) = Vec::with_capacity(alloc, 1) else {
        return;
    };
    let Some((base, poster)) = one_poster_or_none(&rt, alloc) else {
        return;
    };
    run_and_close(&rt, base, poster, ends, &mut world);
}
