// A callback that posts to its own base while a round begins.
use super::answers::wrapped;
use super::note::*;
use event_base::{Agenda, LoopJob, Poster, calls_in_a_row};
use fan_base::Mark;
use std::sync::Wait;

// A poster of the base, by which each callback posts one note, and each note that was posted none.
struct Posting {
    poster: Poster<Note>,
}

impl LoopJob<Posting> for Note {
    ghost runs = { λ id before mark after. Unit {0} };

    fn run<R: Wait>(self, rt: &R, world: &mut Posting, _agenda: &mut Agenda<Note>) -> Mark {
        calls_in_a_row::<Note>();
        if self.0.id.0 == 13 && world.poster.puts() < 1 {
            let _stamp = world.poster.put(rt, note_on(EXEC, 15));
        }
        Mark::Done(self.0.number)
    }
}

// A round takes its messages before its first callback runs, so what that one posts waits for the next round.
#[test]
fn what_a_callback_posts_runs_in_the_next_round(rt: HostRuntime) {
    let alloc = rt.alloc();
    let rt = &rt;
    let (mut base, poster) = one_poster(rt, alloc);
    let mut world = Posting { poster };
    before_loop(base.agenda(), note_on(EXEC, 13));
    round(rt, &mut base, 0, &mut world, (0, [1, 0, 0, 0]));
    round(rt, &mut base, 0, &mut world, (1, [0, 1, 0, 0]));
    let Posting { poster } = world;
    let _end = poster.end(rt);
    let _base = wrapped(rt, alloc, base);
}
