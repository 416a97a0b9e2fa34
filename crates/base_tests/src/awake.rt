// A callback that schedules itself for the next round while nothing is posted.
ghost use Rattle.event_base.specs.Calls.{IsReached};

use super::note::*;
use event_base::{Agenda, LoopEnd, LoopJob, Why, calls_in_a_row};
use fan_base::Mark;
use job_trait::Headed;
use std::sync::Wait;

// How often the note is still to run. Then it ends the loop.
#[derive(Drop)]
struct Left(u64);

impl LoopJob<Left> for Note {
    ghost runs = { λ id before mark after. Unit {0} };

    fn run<R: Wait>(self, _rt: &R, world: &mut Left, agenda: &mut Agenda<Note>) -> Mark {
        let left = world.0;
        world.0 = left.saturating_sub(1);
        again_or_end(agenda, left > 1);
        Mark::Done(self.0.number)
    }
}

fn again_or_end(agenda: &mut Agenda<Note>, again: bool)
    ensures { IsReached ⟦<Note as Headed>⟧.head agenda.old agenda.new }
{
    let exec = agenda.exec();
    if again {
        in_loop(agenda, note_on(exec, 40));
    } else {
        agenda.terminate_soon();
    }
}

// The poster lives and posts nothing: a base that sleeps while a callback is held would sleep for good.
#[test]
fn a_base_does_not_sleep_while_a_callback_is_held(rt: HostRuntime) {
    let alloc = rt.alloc();
    let rt = &rt;
    let (mut base, poster) = one_poster(rt, alloc);
    let mut world = Left(3);
    hold(&mut base, 40);
    let all = whole_loop(rt, &mut base, &mut world);
    let ended = LoopEnd {
        rounds: 3,
        why: Why::Terminated,
    };
    same(rt, (all, world.0), (ended, 0));
    close_empty(rt, alloc, base, poster.end(rt), (0, 0, 0));
}
