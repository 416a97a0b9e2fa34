// Notes that may schedule others, on a base whose world is a list of what ran, and what the tests make of them.
ghost use Rattle.std.specs.Prelude.{◌≡◌, ◌+◌, ◌<◌, ◌≤◌, ◌++◌, ◌∷◌, ◌⊎◌, [], None, length, vec_capacity, IfSome};
ghost use Rattle.notify_queue.specs.Ends.{new_sender};
ghost use Rattle.tick_wheel.specs.TimerList.{handed_back, timer_at};
ghost use Rattle.event_base.specs.Calls.{IsReached};
ghost use Rattle.event_base.specs.Laws.{KeepsBase};
ghost use Rattle.event_base.specs.Seen.{new_base};
ghost use Rattle.base_tests.specs.Posts.{AllOn};

use event_base::{
    Agenda, BaseEnd, EventBase, LoopEnd, LoopJob, Poster, QueueNote, Round, calls_in_a_row,
    rounds_keep_the_base,
};
use fan_base::{ExecId, JobId, Mark, Refused};
use job_trait::{Head, Headed};
use notify_queue::SenderEnd;
use std::alloc::Global;
use std::fmt::Debug;
use std::process::Abort;
use std::sync::Wait;
use tick_wheel::ScheduleFault;

pub(crate) const EXEC: ExecId = ExecId(7);

// It notes its id, and the one with the id 10 schedules the notes 11 and 12.
#[derive(Clone, Copy, Debug, PartialEq, Eq)]
pub(crate) struct Note(pub(crate) Head);

impl Headed for Note {
    ghost head = { λ note. note.0 };

    fn id(&self) -> JobId {
        self.0.id
    }

    fn exec(&self) -> ExecId {
        self.0.exec
    }
}

impl LoopJob<Vec<u64>> for Note {
    ghost runs = { λ id before mark after. (after.0.items ≡ before.0.items ++ id.0 ∷ []) ⊎ (after.0.items ≡ before.0.items) };

    fn run<R: Wait>(self, _rt: &R, world: &mut Vec<u64>, agenda: &mut Agenda<Note>) -> Mark {
        schedule_more(agenda, self.0.id);
        if note_down(world, self.0.id.0) {
            Mark::Done(self.0.number)
        } else {
            Mark::Memory
        }
    }
}

// Compares two values. A test compares by this, since each assertion that a body makes of its own makes that body dearer to prove.
pub(crate) fn same<T: PartialEq + Debug + Drop, R: Abort>(rt: &R, found: T, expected: T) {
    assert_eq!(rt; found, expected);
}

// Compares the ids that ran.
pub(crate) fn check_ids<R: Abort>(rt: &R, world: &Vec<u64>, expected: &[u64]) {
    same(rt, world.as_slice(), expected);
}

// Notes an id, at a second try where the first finds no memory.
fn note_down(world: &mut Vec<u64>, id: u64) -> bool
    ensures { (world.new.items ≡ world.old.items ++ id ∷ []) ⊎ (world.new.items ≡ world.old.items) }
{
    match world.push(id) {
        Ok(()) => true,
        Err(_) => world.push(id).is_ok(),
    }
}

pub(crate) fn note_on(exec: ExecId, id: u64) -> Note
    ensures { result.0.exec ≡ exec }
{
    Note(Head {
        id: JobId(id),
        exec,
        number: id,
    })
}

// Each of these four calls again where the first call finds no memory.
pub(crate) fn in_loop(agenda: &mut Agenda<Note>, note: Note)
    requires { note.0.exec ≡ agenda.old.exec }
    ensures same { (agenda.new.exec ≡ agenda.old.exec) × (agenda.new.wheel.tick ≡ agenda.old.wheel.tick) }
    ensures calls { IsReached ⟦<Note as Headed>⟧.head agenda.old agenda.new }
{
    match agenda.run_in_loop(note) {
        Ok(()) => {}
        Err(Refused::Memory(note)) => {
            let _again = agenda.run_in_loop(note);
        }
    }
}

pub(crate) fn this_iteration(agenda: &mut Agenda<Note>, note: Note)
    requires { note.0.exec ≡ agenda.old.exec }
    ensures same { (agenda.new.exec ≡ agenda.old.exec) × (agenda.new.wheel.tick ≡ agenda.old.wheel.tick) }
    ensures calls { IsReached ⟦<Note as Headed>⟧.head agenda.old agenda.new }
{
    match agenda.run_this_iteration(note) {
        Ok(()) => {}
        Err(Refused::Memory(note)) => {
            let _again = agenda.run_this_iteration(note);
        }
    }
}

pub(crate) fn before_loop(agenda: &mut Agenda<Note>, note: Note)
    requires { note.0.exec ≡ agenda.old.exec }
    ensures same { (agenda.new.exec ≡ agenda.old.exec) × (agenda.new.wheel.tick ≡ agenda.old.wheel.tick) }
    ensures calls { IsReached ⟦<Note as Headed>⟧.head agenda.old agenda.new }
{
    match agenda.run_before_loop(note) {
        Ok(()) => {}
        Err(Refused::Memory(note)) => {
            let _again = agenda.run_before_loop(note);
        }
    }
}

fn after_one_tick(agenda: &mut Agenda<Note>, note: Note)
    requires { (note.0.exec ≡ agenda.old.exec) × (agenda.old.wheel.timers ≡ []) }
    ensures { (agenda.new.exec ≡ agenda.old.exec) × (agenda.new.wheel.tick ≡ agenda.old.wheel.tick) }
{
    match agenda.schedule(1, note) {
        Ok(()) => {}
        Err(fault) => {
            let note = note_of(fault);
            let _again = agenda.schedule(1, note);
        }
    }
}

fn note_of(fault: ScheduleFault<Note>) -> Note
    ensures { result ≡ handed_back fault }
{
    match fault {
        ScheduleFault::ZeroDelay(note) => note,
        ScheduleFault::DelayTooLong(note) => note,
        ScheduleFault::Memory(note) => note,
    }
}

// The note 10 schedules one for the next round and one for this phase.
fn schedule_more(agenda: &mut Agenda<Note>, id: JobId)
    ensures { IsReached ⟦<Note as Headed>⟧.head agenda.old agenda.new }
{
    if id.0 == 10 {
        schedule_two(agenda);
    } else {
        calls_in_a_row::<Note>();
    }
}

fn schedule_two(agenda: &mut Agenda<Note>)
    ensures { IsReached ⟦<Note as Headed>⟧.head agenda.old agenda.new }
{
    let exec = agenda.exec();
    in_loop(agenda, note_on(exec, 11));
    let exec = agenda.exec();
    this_iteration(agenda, note_on(exec, 12));
    calls_in_a_row::<Note>();
}

// Schedules the note 10 for the loop phase, 13 for the beginning of a round, and 14 after one tick.
pub(crate) fn schedule_all(agenda: &mut Agenda<Note>)
    requires { agenda.old.wheel.timers ≡ [] }
    ensures { (agenda.new.exec ≡ agenda.old.exec) × (agenda.new.wheel.tick ≡ agenda.old.wheel.tick) }
{
    let exec = agenda.exec();
    after_one_tick(agenda, note_on(exec, 14));
    let exec = agenda.exec();
    in_loop(agenda, note_on(exec, 10));
    let exec = agenda.exec();
    before_loop(agenda, note_on(exec, 13));
}

// No timer of this id is held.
fn lacks_timer<R: Abort>(rt: &R, agenda: &Agenda<Note>, id: JobId)
    ensures { timer_at id.0 agenda.now.wheel.timers ≡ None }
{
    assert!(rt; !agenda.has_timer(id));
}

// A timer without a delay is refused, and not held.
fn refuse_timer<R: Abort>(rt: &R, agenda: &mut Agenda<Note>, note: Note)
    requires { note.0.exec ≡ agenda.old.exec }
    ensures { agenda.new.exec ≡ agenda.old.exec }
{
    lacks_timer(rt, agenda, note.id());
    let refused = agenda.schedule(0, note);
    same(rt, refused, Err(ScheduleFault::ZeroDelay(note)));
    lacks_timer(rt, agenda, note.id());
}

// A timer is held, where none of its id was.
fn hold_timer<R: Abort>(rt: &R, agenda: &mut Agenda<Note>, delay: u64, note: Note)
    requires { note.0.exec ≡ agenda.old.exec }
    ensures { agenda.new.exec ≡ agenda.old.exec }
{
    lacks_timer(rt, agenda, note.id());
    let held = agenda.schedule(delay, note);
    same(rt, held, Ok(()));
    same(rt, agenda.has_timer(note.id()), true);
}

// All timers are cancelled, and this was the only one.
fn cancel_all<R: Abort>(rt: &R, agenda: &mut Agenda<Note>, note: Note)
    ensures { agenda.new.exec ≡ agenda.old.exec }
{
    let mut cancelled = agenda.cancel_timers().expect(rt, "memory");
    same(rt, cancelled.pop(), Some(note));
    same(rt, cancelled.pop(), None);
}

// A timer is refused, held and cancelled.
pub(crate) fn try_timers<R: Abort>(rt: &R, agenda: &mut Agenda<Note>)
    requires { agenda.old.exec ≡ EXEC }
    ensures { agenda.new.exec ≡ EXEC }
{
    let note = note_on(EXEC, 3);
    refuse_timer(rt, agenda, note);
    hold_timer(rt, agenda, 5, note);
    cancel_all(rt, agenda, note);
    hold_timer(rt, agenda, 6, note);
    same(rt, agenda.cancel_timer(note.id()), Some(note));
    same(rt, agenda.cancel_timer(note.id()), None);
}

// Posts a note, at a second try where the first finds no memory, and says whether it was posted.
fn try_to_post<R: Wait>(rt: &R, poster: &mut Poster<Note>, id: u64) -> bool
    requires few { length poster.old.sent < 1000000 }
    requires posts { AllOn (λ note. note.0.exec) EXEC poster.old }
    ensures same { (poster.new.queue ≡ poster.old.queue) × (poster.new.number ≡ poster.old.number) }
    ensures posts { AllOn (λ note. note.0.exec) EXEC poster.new }
{
    match poster.put(rt, note_on(EXEC, id)) {
        Ok(_) => true,
        Err(Refused::Memory(note)) => poster.put(rt, note).is_ok(),
    }
}

// Posts a note.
pub(crate) fn post<R: Abort + Wait>(rt: &R, poster: &mut Poster<Note>, id: u64)
    requires { AllOn (λ note. note.0.exec) EXEC poster.old }
    ensures same { (poster.new.queue ≡ poster.old.queue) × (poster.new.number ≡ poster.old.number) }
    ensures posts { AllOn (λ note. note.0.exec) EXEC poster.new }
{
    assert!(rt; poster.puts() < 1_000_000);
    assert!(rt; try_to_post(rt, poster, id));
}

// Posts the notes from one id up to another.
pub(crate) fn post_all<R: Abort + Wait>(rt: &R, poster: &mut Poster<Note>, first: u64, end: u64)
    requires { AllOn (λ note. note.0.exec) EXEC poster.old }
    ensures same { (poster.new.queue ≡ poster.old.queue) × (poster.new.number ≡ poster.old.number) }
    ensures posts { AllOn (λ note. note.0.exec) EXEC poster.new }
{
    for id in first..end {
        post(rt, poster, id);
    }
}

// A base and its one poster, or `None` where there is no memory.
pub(crate) fn one_poster_or_none<R: Abort>(
    rt: &R,
    alloc: Global,
) -> Option<(EventBase<Note>, Poster<Note>)>
    ensures base { IfSome result (λ made. made.0 ≡ new_base EXEC 0 made.0.queue.queue 1) }
    ensures poster { IfSome result (λ made. made.1 ≡ new_sender made.0.queue.queue 0) }
{
    match EventBase::new(alloc, EXEC, 1, 0) {
        Ok((base, mut posters)) => {
            let poster = posters.pop().expect(rt, "a poster");
            posters.destroy_empty();
            Some((base, poster))
        }
        Err(_) => None,
    }
}

pub(crate) fn one_poster<R: Abort>(rt: &R, alloc: Global) -> (EventBase<Note>, Poster<Note>)
    ensures base { result.0 ≡ new_base EXEC 0 result.0.queue.queue 1 }
    ensures poster { result.1 ≡ new_sender result.0.queue.queue 0 }
{
    one_poster_or_none(rt, alloc).expect(rt, "memory")
}

// Closes a base of one poster. It takes no memory.
pub(crate) fn close_one<R: Wait>(
    rt: &R,
    base: EventBase<Note>,
    end: SenderEnd<Note>,
    mut ends: Vec<SenderEnd<Note>>,
) -> BaseEnd<Note>
    requires base { (base.queue.senders ≡ 1) × (base.agenda.exec ≡ EXEC) }
    requires end { (end.queue ≡ base.queue.queue) × (end.number ≡ 0) }
    requires posts { AllOn (λ note. note.0.exec) EXEC end }
    requires ends { (ends.items ≡ []) × (1 ≤ vec_capacity ends) }
{
    ends.push_reserved(end);
    base.close(rt, ends)
}

pub(crate) fn place_for_one<R: Abort, X>(rt: &R, alloc: Global) -> Vec<X>
    ensures { (result.items ≡ []) × (1 ≤ vec_capacity result) }
{
    Vec::with_capacity(alloc, 1).expect(rt, "memory")
}

// Compares how many messages a base's queue had, how many the base took and how many were left.
pub(crate) fn check_queue<R: Abort>(rt: &R, queue: &QueueNote, expected: (u64, u64, u64)) {
    same(rt, queue.exec(), EXEC);
    same(rt, (queue.put(), queue.taken(), queue.left()), expected);
}

// Nothing is left in a base that was closed.
pub(crate) fn check_empty<R: Abort>(rt: &R, end: BaseEnd<Note>, expected: (u64, u64, u64)) {
    let BaseEnd { queue, mut rest } = end;
    check_queue(rt, &queue, expected);
    same(rt, rest.pop(), None);
}

// Closes a base of one poster, in which nothing is left.
pub(crate) fn close_empty<R: Abort + Wait>(
    rt: &R,
    alloc: Global,
    base: EventBase<Note>,
    end: SenderEnd<Note>,
    expected: (u64, u64, u64),
)
    requires base { (base.queue.senders ≡ 1) × (base.agenda.exec ≡ EXEC) }
    requires end { (end.queue ≡ base.queue.queue) × (end.number ≡ 0) }
    requires posts { AllOn (λ note. note.0.exec) EXEC end }
{
    let ends = place_for_one(rt, alloc);
    check_empty(rt, close_one(rt, base, end, ends), expected);
}

// A note for the loop phase of the base.
pub(crate) fn hold(base: &mut EventBase<Note>, id: u64)
    ensures { KeepsBase 0 base.old base.new }
{
    let agenda = base.agenda();
    let exec = agenda.exec();
    in_loop(agenda, note_on(exec, id));
}

fn check_counts<R: Abort>(rt: &R, round: &Round, expected: (u64, [u64; 4])) {
    let counts = [round.before, round.messages, round.timers, round.loops];
    same(rt, (round.number, counts), expected);
}

// A round that finds memory, with its number and how many ran in each of its phases, of which the caller knows what it keeps.
pub(crate) fn round<W, R: Abort + Wait>(
    rt: &R,
    base: &mut EventBase<Note>,
    ticks: u64,
    world: &mut W,
    expected: (u64, [u64; 4]),
)
where
    Note: LoopJob<W>,
    requires { base.old.agenda.wheel.tick + ticks ≤ 1000 }
    ensures { KeepsBase ticks base.old base.new }
{
    let round = base.loop_once(rt, ticks, world).expect(rt, "memory");
    rounds_keep_the_base::<W, Note>();
    check_counts(rt, &round, expected);
}

pub(crate) fn whole_loop<W, R: Abort + Wait>(
    rt: &R,
    base: &mut EventBase<Note>,
    world: &mut W,
) -> LoopEnd
where
    Note: LoopJob<W>,
    ensures { KeepsBase 0 base.old base.new }
{
    let end = base.loop_until_closed(rt, world).expect(rt, "memory");
    rounds_keep_the_base::<W, Note>();
    end
}
