// A thread that posts a note and waits until the base has run it, again and again: neither side sleeps through a message.
ghost use Rattle.std.specs.Prelude.{◌≡◌, Some, None};
ghost use Rattle.event_base.specs.Laws.{KeepsBase};
ghost use Rattle.base_tests.specs.Posts.{AllOn, AllOnIn, HasLeftEnd};

use super::note::*;
use event_base::{Agenda, LoopJob, Poster, Why, calls_in_a_row};
use fan_base::{Mark, Parcel};
use notify_queue::{Receiver, Sender, SenderEnd, Stamped, queue};
use std::alloc::Global;
use std::hint;
use std::process::Abort;
use std::sync::Wait;
use std::thread::{Threads, join_mut};

const NOTES: u64 = 20_000;

// Some thousandths of a second.
const A_WHILE: u64 = 1_000_000;

// Where the id of each note that ran is put.
struct Answers {
    sender: Sender<u64>,
}

impl LoopJob<Answers> for Note {
    ghost runs = { λ id before mark after. Unit {0} };

    fn run<R: Wait>(self, rt: &R, world: &mut Answers, _agenda: &mut Agenda<Note>) -> Mark {
        calls_in_a_row::<Note>();
        if world.sender.puts() < NOTES {
            let _stamp = world.sender.put(rt, self.0.id.0);
        }
        Mark::Done(self.0.number)
    }
}

fn next<R: Wait>(rt: &R, answers: &mut Receiver<u64>) -> u64 {
    for _ in rt.forever() {
        if let Some(Stamped { stamp: _, message }) = answers.take(rt) {
            return message;
        }
        answers.sleep(rt);
    }
    unreachable!()
}

// Longer and shorter, so that the base is found asleep and awake.
fn wait_a_little(id: u64) {
    for _ in 0..id % 8 * 64 {
        hint::spin_loop();
    }
}

// After a pause, posts so many notes, each once the one before has run.
fn post_and_wait<R: Abort + Wait>(
    rt: &R,
    poster: &mut Poster<Note>,
    answers: &mut Receiver<u64>,
    pause: u64,
    notes: u64,
)
    requires { AllOn (λ note. note.0.exec) EXEC poster.old }
    ensures same { (poster.new.queue ≡ poster.old.queue) × (poster.new.number ≡ poster.old.number) }
    ensures posts { AllOn (λ note. note.0.exec) EXEC poster.new }
{
    for _ in 0..pause {
        hint::spin_loop();
    }
    for id in 0..notes {
        wait_a_little(id);
        post(rt, poster, id);
        same(rt, next(rt, answers), id);
    }
}

// What a thread is lent: a sender, and its end once it has ended. Their types are parameters, so that it may cross threads where they may.
struct Slot<S, E> {
    sender: Option<S>,
    end: Option<E>,
}

fn new_slot<S, E>(sender: S) -> Slot<S, E>
    ensures { (result.sender ≡ Some sender) × (result.end ≡ None) }
{
    Slot {
        sender: Some(sender),
        end: None,
    }
}

impl<S, E> Slot<S, E> {
    // Keeps the end.
    fn put_end(&mut self, end: E)
        requires { self.old.end ≡ None }
        ensures { self.new.end ≡ Some end }
    {
        match self.end.replace(end) {
            None => {}
            Some(_) => unreachable!(),
        }
    }

    // The end, once it is there.
    fn end<R: Abort>(self, rt: &R) -> E
        ensures { self.end ≡ Some result }
    {
        let Slot { sender, end } = self;
        match (sender, end) {
            (None, Some(end)) => end,
            (Some(_sender), _) => rt.panic("a sender that has not ended"),
            (None, None) => rt.panic("an end"),
        }
    }
}

type Posting = Slot<Poster<Note>, SenderEnd<Note>>;

// Posts so many notes, and ends.
fn post_and_end<R: Abort + Wait>(
    rt: &R,
    posting: &mut Posting,
    answers: &mut Receiver<u64>,
    pause: u64,
    notes: u64,
)
    requires end { posting.old.end ≡ None }
    requires posts { AllOnIn (λ note. note.0.exec) EXEC posting.old.sender }
    ensures { HasLeftEnd (λ note. note.0.exec) EXEC posting.old.sender posting.new.end }
{
    let Some(mut poster) = posting.sender.take() else {
        return;
    };
    post_and_wait(rt, &mut poster, answers, pause, notes);
    posting.put_end(poster.end(rt));
}

// In a parcel a receiver or a base can be left where it is.
pub(crate) fn wrapped<X, R: Abort>(rt: &R, alloc: Global, value: X) -> Parcel<X>
    ensures { result ≡ value }
{
    match Parcel::new(alloc, value) {
        Ok(parcel) => parcel,
        Err(_) => rt.panic("memory"),
    }
}

fn one_sender<R: Abort>(rt: &R, alloc: Global) -> (Receiver<u64>, Sender<u64>) {
    let (receiver, mut senders) = queue(alloc, 1).expect(rt, "memory");
    let sender = senders.pop().expect(rt, "a sender");
    senders.destroy_empty();
    (receiver, sender)
}

// A thread that posts so many notes, and waits until each has run, beside the base.
fn post_beside_the_base<R: Abort + Threads + Wait + Sync>(
    rt: &R,
    alloc: Global,
    pause: u64,
    notes: u64,
) {
    let (mut base, poster) = one_poster(rt, alloc);
    let (mut answers, sender) = one_sender(rt, alloc);
    let mut world = Answers { sender };
    let mut posting: Posting = new_slot(poster);
    let (_, why) = join_mut(
        rt,
        &mut ||
            requires end { posting.end ≡ None }
            requires posts { AllOnIn (λ note. note.0.exec) EXEC posting.sender }
            ensures { HasLeftEnd (λ note. note.0.exec) EXEC posting.entry.sender posting.exit.end }
        { post_and_end(rt, &mut posting, &mut answers, pause, notes) },
        &mut ||
            ensures { KeepsBase 0 base.entry base.exit }
        { whole_loop(rt, &mut base, &mut world).why },
    );
    same(rt, why, Why::Closed);
    let Answers { sender } = world;
    let _end = sender.end(rt);
    let _answers = wrapped(rt, alloc, answers);
    close_empty(rt, alloc, base, posting.end(rt), (notes, notes, 0));
}

#[test]
fn no_note_is_slept_through(rt: HostRuntime) {
    post_beside_the_base(&rt, rt.alloc(), 0, NOTES);
}

// A thread that waits until the base has fallen asleep, by far, and ends without a post. A base that an end doesn't wake sleeps for good.
#[test]
fn an_end_wakes_a_base(rt: HostRuntime) {
    post_beside_the_base(&rt, rt.alloc(), A_WHILE, 0);
}
