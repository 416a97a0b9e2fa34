// A note that schedules itself again and again.
ghost use Rattle.std.specs.Prelude.{◌≤◌};
ghost use Rattle.event_base.specs.Calls.{IsReached};
ghost use Rattle.event_base.specs.Laws.{KeepsBase};

use super::note::*;
use event_base::{Agenda, EventBase, LoopEnd, LoopJob, Why, calls_in_a_row};
use fan_base::Mark;
use job_trait::Headed;
use std::process::Abort;
use std::sync::Wait;

const TIMES: u64 = 10_000;

// How often the note is still to run, and whether each time is in a round of its own.
#[derive(Drop)]
struct Turns {
    left: u64,
    each_in_a_round: bool,
}

impl LoopJob<Turns> for Note {
    ghost runs = { λ id before mark after. Unit {0} };

    fn run<R: Wait>(self, _rt: &R, world: &mut Turns, agenda: &mut Agenda<Note>) -> Mark {
        let left = world.left;
        world.left = left.saturating_sub(1);
        schedule_again(agenda, left > 1, world.each_in_a_round);
        Mark::Done(self.0.number)
    }
}

fn schedule_again(agenda: &mut Agenda<Note>, wanted: bool, in_the_next_round: bool)
    ensures { IsReached ⟦<Note as Headed>⟧.head agenda.old agenda.new }
{
    let exec = agenda.exec();
    if !wanted {
        calls_in_a_row::<Note>();
    } else if in_the_next_round {
        in_loop(agenda, note_on(exec, 40));
    } else {
        this_iteration(agenda, note_on(exec, 40));
    }
}

// All turns in one phase.
fn turns_in_a_phase<R: Abort + Wait>(rt: &R, base: &mut EventBase<Note>)
    requires { base.old.agenda.wheel.tick ≤ 1000 }
    ensures { KeepsBase 0 base.old base.new }
{
    let mut world = Turns {
        left: TIMES,
        each_in_a_round: false,
    };
    hold(base, 40);
    round(rt, base, 0, &mut world, (0, [0, 0, 0, TIMES]));
    same(rt, world.left, 0);
}

// Each turn in a round of its own, up to the end of the loop.
fn turns_in_rounds<R: Abort + Wait>(rt: &R, base: &mut EventBase<Note>)
    ensures { KeepsBase 0 base.old base.new }
{
    let mut world = Turns {
        left: TIMES,
        each_in_a_round: true,
    };
    hold(base, 40);
    let all = whole_loop(rt, base, &mut world);
    let closed = LoopEnd {
        rounds: TIMES,
        why: Why::Closed,
    };
    same(rt, (all, world.left), (closed, 0));
}

#[test]
fn a_note_schedules_itself_ten_thousand_times(rt: HostRuntime) {
    let alloc = rt.alloc();
    let rt = &rt;
    let (mut base, poster) = one_poster(rt, alloc);
    let end = poster.end(rt);
    turns_in_a_phase(rt, &mut base);
    turns_in_rounds(rt, &mut base);
    close_empty(rt, alloc, base, end, (0, 0, 0));
}
