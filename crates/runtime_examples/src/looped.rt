//! An event base: a job that is posted and one on a timer, and the round that runs them.
ghost use Rattle.std.specs.Prelude.{◌≡◌, ◌∷◌, ◌≤◌, [], All, IfOk, vec_capacity};
ghost use Rattle.std.specs.Bool.{OnTrue};
ghost use Rattle.notify_queue.specs.Ends.{new_sender};
ghost use Rattle.event_base.specs.declared.round.Round.{Round};
ghost use Rattle.event_base.specs.Calls.{with_timer};
ghost use Rattle.event_base.specs.Closing.{IsClosing};
ghost use Rattle.event_base.specs.Rounds.{Phases, IsWholeRound};
ghost use Rattle.event_base.specs.Seen.{new_base};

use event_base::{
    Agenda, BaseEnd, EventBase, LoopJob, Poster, calls_in_a_row, rounds_keep_the_base,
};
use fan_base::{ExecId, JobId, Mark, Memory};
use job_trait::{Head, Headed};
use notify_queue::SenderEnd;
use std::alloc::Global;
use std::sync::Wait;

/// A job that notes its id.
#[derive(Clone, Copy)]
pub struct Note(Head);

impl Headed for Note {
    ghost head = { λ note. note.0 };

    fn id(&self) -> JobId {
        self.0.id
    }

    fn exec(&self) -> ExecId {
        self.0.exec
    }
}

/// The ids of the last two jobs that ran, the earlier one first.
pub type LastTwo = (u64, u64);

impl LoopJob<LastTwo> for Note {
    ghost runs = { λ id before _ after. (after.0 ≡ (before.0.1, id.0)) × (after.1 ≡ before.1) };

    fn run<R: Wait>(self, _rt: &R, ran: &mut LastTwo, _agenda: &mut Agenda<Note>) -> Mark {
        calls_in_a_row::<Note>();
        *ran = (ran.1, self.0.id.0);
        Mark::Done(self.0.number)
    }
}

const EXEC: ExecId = ExecId(7);

fn make_note(id: u64) -> Note
    ensures { (result.0.id.0 ≡ id) × (result.0.exec ≡ EXEC) }
{
    Note(Head {
        id: JobId(id),
        exec: EXEC,
        number: 0,
    })
}

// A new base with its one poster.
fn one_poster(alloc: Global) -> Result<(EventBase<Note>, Poster<Note>), Memory>
    ensures base { IfOk result (λ made. made.0 ≡ new_base EXEC 0 made.0.queue.queue 1) }
    ensures poster { IfOk result (λ made. made.1 ≡ new_sender made.0.queue.queue 0) }
{
    let (base, mut posters) = EventBase::new(alloc, EXEC, 1, 0)?;
    let Some(poster) = posters.pop() else {
        unreachable!()
    };
    posters.destroy_empty();
    Ok((base, poster))
}

// Posts a note. `false`: there was no memory for it.
fn post<R: Wait>(rt: &R, poster: &mut Poster<Note>, note: Note) -> bool
    requires { poster.old.sent ≡ [] }
    ensures same { (poster.new.queue ≡ poster.old.queue) × (poster.new.number ≡ poster.old.number) }
    ensures sent { OnTrue result (poster.new.sent ≡ note ∷ []) }
    ensures posts { All (λ (n : Note). n.0.exec ≡ note.0.exec) poster.new.sent }
{
    poster.put(rt, note).is_ok()
}

// Has a note run at the next tick. `false`: there was no memory for that.
fn schedule_next(base: &mut EventBase<Note>, note: Note) -> bool
    requires exec { note.0.exec ≡ base.old.agenda.exec }
    requires none { base.old.agenda.wheel.timers ≡ [] }
    ensures queue { base.new.queue ≡ base.old.queue }
    ensures same { (base.new.agenda.exec ≡ base.old.agenda.exec) × (base.new.agenda.wheel.tick ≡ base.old.agenda.wheel.tick) }
    ensures timer { OnTrue result (base.new.agenda ≡ with_timer base.old.agenda 1 note.0.id.0 note) }
{
    base.agenda().schedule(1, note).is_ok()
}

// Makes a round with one tick. `false`: there was no memory for it.
fn make_round<R: Wait>(rt: &R, base: &mut EventBase<Note>, ran: &mut LastTwo) -> bool
    requires { base.old.agenda.wheel.tick ≡ 0 }
    ensures same { (base.new.queue.queue ≡ base.old.queue.queue) × (base.new.queue.senders ≡ base.old.queue.senders)
        × (base.new.agenda.exec ≡ base.old.agenda.exec) }
    ensures whole { OnTrue result ((round : Round) × (did : Phases Note)
        × IsWholeRound ⟦<Note as Headed>⟧.head ⟦<Note as LoopJob<LastTwo>>⟧.runs 1 ran.old base.old round did ran.new base.new) }
{
    rounds_keep_the_base::<LastTwo, Note>();
    base.loop_once(rt, 1, ran).is_ok()
}

// Closes a base of one poster.
fn close_one<R: Wait>(
    rt: &R,
    base: EventBase<Note>,
    end: SenderEnd<Note>,
    mut ends: Vec<SenderEnd<Note>>,
) -> BaseEnd<Note>
    requires base { (base.queue.senders ≡ 1) × (base.agenda.exec ≡ EXEC) }
    requires end { (end.queue ≡ base.queue.queue) × (end.number ≡ 0) }
    requires posts { All (λ (n : Note). n.0.exec ≡ EXEC) end.sent }
    requires ends { (ends.items ≡ []) × (1 ≤ vec_capacity ends) }
    ensures { IsClosing ⟦<Note as Headed>⟧.head base (end ∷ []) result.queue result.rest }
{
    ends.push_reserved(end);
    base.close(rt, ends)
}

/// What ran, and how many messages were left in the base's queue at its close.
#[derive(Clone, Copy)]
pub struct Looped {
    pub ran: LastTwo,
    pub left: u64,
}

/// A job is posted, another one is to run after one tick, and a round with one tick is made. Where the close of the base finds no
/// message left, both ran, each once, the message before the timer.
pub fn post_and_tick<R: Wait>(
    rt: &R,
    alloc: Global,
    posted: u64,
    timed: u64,
) -> Result<Looped, Memory>
    ensures order { IfOk result (λ l. l.left ≡ 0 → l.ran ≡ (posted, timed)) }
{
    let ends = Vec::with_capacity(alloc, 1)?;
    let (mut base, mut poster) = one_poster(alloc)?;
    let put = post(rt, &mut poster, make_note(posted));
    let scheduled = schedule_next(&mut base, make_note(timed));
    let mut ran = (0, 0);
    let made = make_round(rt, &mut base, &mut ran);
    let BaseEnd { queue, rest: _ } = close_one(rt, base, poster.end(rt), ends);
    if !put || !scheduled || !made {
        return Err(Memory);
    }
    Ok(Looped {
        ran,
        left: queue.left(),
    })
}
