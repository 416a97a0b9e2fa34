ghost use Rattle.std.specs.Prelude.{◌≡◌, ◌≤◌, [], length, vec_capacity, Some, None, IfSome};
ghost use Rattle.notify_queue.specs.Ends.{new_receiver, new_sender};
ghost use Rattle.queue_tests.specs.Lent.{IsSameSender, IsSameReceiver, HasLeftEnd};

use fan_base::{Memory, Refused};
use notify_queue::{QueueEnd, Receiver, Sender, SenderEnd, Stamped, queue};
use std::alloc::Global;
use std::fmt::Debug;
use std::hint;
use std::process::Abort;
use std::sync::Wait;
use std::thread::join_mut;

const MANY: u32 = 100_000;

const ROUNDS: u64 = 20_000;

fn two_senders<M, R: Abort>(rt: &R, alloc: Global) -> (Receiver<M>, Sender<M>, Sender<M>)
    ensures receiver { result.0 ≡ new_receiver result.0.queue 2 }
    ensures senders { (result.1 ≡ new_sender result.0.queue 0) × (result.2 ≡ new_sender result.0.queue 1) }
{
    let (receiver, mut senders) = queue(alloc, 2).expect(rt, "memory");
    let second = senders.pop().expect(rt, "a sender");
    let first = senders.pop().expect(rt, "a sender");
    senders.destroy_empty();
    (receiver, first, second)
}

fn close_two<M, R: Abort + Wait>(
    rt: &R,
    alloc: Global,
    receiver: Receiver<M>,
    first: SenderEnd<M>,
    second: SenderEnd<M>,
) -> QueueEnd<M>
    requires receiver { receiver.senders ≡ 2 }
    requires first { (first.queue ≡ receiver.queue) × (first.number ≡ 0) }
    requires second { (second.queue ≡ receiver.queue) × (second.number ≡ 1) }
{
    let mut ends = Vec::with_capacity(alloc, 2).expect(rt, "memory");
    ends.push_reserved(first);
    ends.push_reserved(second);
    receiver.close(rt, ends)
}

// Compares two values. A test compares by this, since each assertion that a body makes of its own makes that body dearer to prove.
fn same<T: PartialEq + Debug + Copy, R: Abort>(rt: &R, found: T, expected: T) {
    assert_eq!(rt; found, expected);
}

// A message with its stamp: the sender, how many messages that one had put before, and what it says.
type Row = (u32, u64, char);

fn told(found: Option<&Stamped<char>>) -> Option<Row> {
    let Stamped { stamp, message } = found?;
    Some((stamp.sender, stamp.index, *message))
}

// Puts a message, and compares its stamp.
fn put<R: Abort + Wait>(rt: &R, sender: &mut Sender<char>, row: Row)
    ensures { IsSameSender sender.old sender.new }
{
    assert!(rt; sender.puts() < 1000);
    let stamp = sender.put(rt, row.2).expect(rt, "memory");
    same(rt, (stamp.sender, stamp.index), (row.0, row.1));
}

// Puts messages, each by its sender.
fn put_rows<R: Abort + Wait>(
    rt: &R,
    first: &mut Sender<char>,
    second: &mut Sender<char>,
    rows: &[Row],
)
    ensures first { IsSameSender first.old first.new }
    ensures second { IsSameSender second.old second.new }
{
    for row in rows {
        if row.0 == 0 {
            put(rt, first, *row);
        } else {
            put(rt, second, *row);
        }
    }
}

// Takes once, and compares what came.
fn take<R: Abort + Wait>(rt: &R, receiver: &mut Receiver<char>, expected: Option<Row>)
    ensures { IsSameReceiver receiver.old receiver.new }
{
    same(rt, told(taken(rt, receiver).as_ref()), expected);
}

// Compares messages.
fn check_list<R: Abort>(rt: &R, found: Vec<Stamped<char>>, expected: &[Row]) {
    same(rt, found.len(), expected.len());
    for index in 0..expected.len() {
        same(rt, told(found.get(index)), Some(expected[index]));
    }
}

// Takes at most so many, and compares what came.
fn take_list<R: Abort + Wait>(rt: &R, receiver: &mut Receiver<char>, most: usize, expected: &[Row])
    ensures { IsSameReceiver receiver.old receiver.new }
{
    let found = receiver.take_up_to(rt, most).expect(rt, "memory");
    check_list(rt, found, expected);
}

// Compares whether all senders were found ended.
fn check_ended<R: Abort>(rt: &R, receiver: &mut Receiver<char>, expected: bool)
    ensures { IsSameReceiver receiver.old receiver.new }
{
    same(rt, receiver.ended(), expected);
}

// Compares how many messages were put and taken, and what is left, the oldest first.
fn check_end<R: Abort>(rt: &R, end: QueueEnd<char>, put: u64, taken: u64, left: &[Row]) {
    let mut rest = end.rest;
    same(
        rt,
        (end.put, end.taken, rest.len()),
        (put, taken, left.len()),
    );
    for row in left {
        same(rt, told(rest.pop().as_ref()), Some(*row));
    }
    same(rt, told(rest.pop().as_ref()), None);
}

#[test]
fn two_senders_and_what_is_left(rt: HostRuntime) {
    let rt = &rt;
    let (mut receiver, mut first, mut second) = two_senders(rt, rt.alloc());
    let rows = [(0, 0, 'x'), (1, 0, 'y'), (0, 1, 'z')];
    put_rows(rt, &mut first, &mut second, &rows);
    same(rt, first.puts(), 2);
    take_list(rt, &mut receiver, 2, &[(0, 0, 'x'), (1, 0, 'y')]);
    take(rt, &mut receiver, Some((0, 1, 'z')));
    take(rt, &mut receiver, None);
    check_ended(rt, &mut receiver, false);
    let rows = [(1, 1, 'v'), (0, 2, 'w')];
    put_rows(rt, &mut first, &mut second, &rows);
    let first = first.end(rt);
    check_ended(rt, &mut receiver, false);
    let second = second.end(rt);
    check_ended(rt, &mut receiver, true);
    let end = close_two(rt, rt.alloc(), receiver, first, second);
    check_end(rt, end, 5, 3, &rows);
}

#[test]
fn a_dry_receiver_leaves_nothing(rt: HostRuntime) {
    let rt = &rt;
    let (mut receiver, mut first, mut second) = two_senders(rt, rt.alloc());
    let rows = [(0, 0, 'x'), (1, 0, 'y'), (0, 1, 'z')];
    put_rows(rt, &mut first, &mut second, &rows);
    let first = first.end(rt);
    let second = second.end(rt);
    check_ended(rt, &mut receiver, true);
    take_list(rt, &mut receiver, 9, &rows);
    take(rt, &mut receiver, None);
    check_ended(rt, &mut receiver, true);
    let end = close_two(rt, rt.alloc(), receiver, first, second);
    check_end(rt, end, 3, 3, &[]);
}

// Takes once.
fn taken<M, R: Wait>(rt: &R, receiver: &mut Receiver<M>) -> Option<Stamped<M>>
    ensures { IsSameReceiver receiver.old receiver.new }
{
    receiver.take(rt)
}

// The next message, after as many sleeps as it takes, or `None` where none can come any more.
fn next<M, R: Wait>(rt: &R, receiver: &mut Receiver<M>) -> Option<Stamped<M>>
    ensures { IsSameReceiver receiver.old receiver.new }
{
    for _ in rt.forever() {
        if let Some(stamped) = taken(rt, receiver) {
            return Some(stamped);
        }
        if receiver.ended() {
            return taken(rt, receiver);
        }
        receiver.sleep(rt);
    }
    unreachable!()
}

// Puts so many messages, of a sender that has put none.
fn put_all<R: Abort + Wait>(rt: &R, sender: &mut Sender<u64>, many: u32)
    ensures { IsSameSender sender.old sender.new }
{
    same(rt, sender.puts(), 0);
    for number in 0..many {
        put_next(rt, sender, number as u64);
    }
}

// Puts a message of a sender that has put so many, or at most one more.
fn put_next<R: Abort + Wait>(rt: &R, sender: &mut Sender<u64>, message: u64)
    ensures { IsSameSender sender.old sender.new }
{
    assert!(rt; sender.puts() < 1_000_000);
    sender.put(rt, message).expect(rt, "memory");
}

// How many messages of each sender came, each of which was the next of its sender.
fn count_all<R: Abort + Wait>(rt: &R, receiver: &mut Receiver<u64>) -> [u64; 2]
    ensures { IsSameReceiver receiver.old receiver.new }
{
    let mut counts = [0; 2];
    for _ in rt.forever() {
        let Some(Stamped { stamp, message }) = next(rt, receiver) else {
            return counts;
        };
        let sender = stamp.sender as usize;
        assert!(rt; sender < 2);
        let expected = counts[sender];
        same(rt, (stamp.index, message), (expected, expected));
        counts[sender] = message.wrapping_add(1);
    }
    unreachable!()
}

// What a thread is lent: a sender, and its end once it has ended. Their types are parameters, so that it may cross threads where they may.
struct Slot<S, E> {
    sender: Option<S>,
    end: Option<E>,
}

fn new_slot<S, E>(sender: S) -> Slot<S, E>
    ensures { (result.sender ≡ Some sender) × (result.end ≡ None) }
{
    Slot {
        sender: Some(sender),
        end: None,
    }
}

impl<S, E> Slot<S, E> {
    // Keeps the end.
    fn put_end(&mut self, end: E)
        requires { self.old.end ≡ None }
        ensures { self.new.end ≡ Some end }
    {
        match self.end.replace(end) {
            None => {}
            Some(_) => unreachable!(),
        }
    }

    // The end, once it is there.
    fn end<R: Abort>(self, rt: &R) -> E
        ensures { self.end ≡ Some result }
    {
        let Slot { sender, end } = self;
        match (sender, end) {
            (None, Some(end)) => end,
            (Some(_sender), _) => rt.panic("a sender that has not ended"),
            (None, None) => rt.panic("an end"),
        }
    }
}

type Putter = Slot<Sender<u64>, SenderEnd<u64>>;

// Puts so many messages, and ends.
fn put_and_end<R: Abort + Wait>(rt: &R, putter: &mut Putter, many: u32)
    requires { putter.old.end ≡ None }
    ensures { HasLeftEnd putter.old.sender putter.new.end }
{
    let Some(mut sender) = putter.sender.take() else {
        return;
    };
    put_all(rt, &mut sender, many);
    putter.put_end(sender.end(rt));
}

// Closes a queue of two senders: how many messages were put, taken and left.
fn closed<R: Abort + Wait>(
    rt: &R,
    alloc: Global,
    receiver: Receiver<u64>,
    first: SenderEnd<u64>,
    second: SenderEnd<u64>,
) -> (u64, u64, usize)
    requires receiver { receiver.senders ≡ 2 }
    requires first { (first.queue ≡ receiver.queue) × (first.number ≡ 0) }
    requires second { (second.queue ≡ receiver.queue) × (second.number ≡ 1) }
{
    let end = close_two(rt, alloc, receiver, first, second);
    (end.put, end.taken, end.rest.len())
}

#[test]
fn two_threads_put_and_one_takes(rt: HostRuntime) {
    let rt = &rt;
    let alloc = rt.alloc();
    let (mut receiver, first, second) = two_senders::<u64, _>(rt, alloc);
    let mut first: Putter = new_slot(first);
    let mut second: Putter = new_slot(second);
    let (_, counts) = join_mut(
        rt,
        &mut ||
            requires { (first.end ≡ None) × (second.end ≡ None) }
            ensures first { HasLeftEnd first.entry.sender first.exit.end }
            ensures second { HasLeftEnd second.entry.sender second.exit.end }
        {
            join_mut(
                rt,
                &mut ||
                    requires { first.end ≡ None }
                    ensures { HasLeftEnd first.entry.sender first.exit.end }
                { put_and_end(rt, &mut first, MANY) },
                &mut ||
                    requires { second.end ≡ None }
                    ensures { HasLeftEnd second.entry.sender second.exit.end }
                { put_and_end(rt, &mut second, MANY) },
            );
        },
        &mut ||
            ensures { IsSameReceiver receiver.entry receiver.exit }
        { count_all(rt, &mut receiver) },
    );
    let many = MANY as u64;
    same(rt, counts, [many, many]);
    let found = closed(rt, alloc, receiver, first.end(rt), second.end(rt));
    same(rt, found, (2 * many, 2 * many, 0));
}

// Takes at most so many messages: how many these were.
fn count_up_to<R: Abort + Wait>(rt: &R, receiver: &mut Receiver<u64>, most: usize) -> usize
    ensures { IsSameReceiver receiver.old receiver.new }
{
    let found = receiver.take_up_to(rt, most).expect(rt, "memory");
    found.len()
}

#[test]
fn all_that_was_put_comes_before_none(rt: HostRuntime) {
    let rt = &rt;
    let alloc = rt.alloc();
    let (mut receiver, mut first, mut second) = two_senders::<u64, _>(rt, alloc);
    join_mut(
        rt,
        &mut ||
            ensures { IsSameSender first.entry first.exit }
        { put_all(rt, &mut first, 1000) },
        &mut ||
            ensures { IsSameSender second.entry second.exit }
        { put_all(rt, &mut second, 1000) },
    );
    same(rt, count_up_to(rt, &mut receiver, 3000), 2000);
    same(rt, taken(rt, &mut receiver).is_none(), true);
    let found = closed(rt, alloc, receiver, first.end(rt), second.end(rt));
    same(rt, found, (2000, 2000, 0));
}

// Longer and shorter, so that the other side is found asleep and awake.
fn wait_a_little(round: u64) {
    for _ in 0..round % 8 * 64 {
        hint::spin_loop();
    }
}

// Takes as many messages as there are rounds, and answers each by one.
fn bounce<R: Abort + Wait>(
    rt: &R,
    receiver: &mut Receiver<u64>,
    sender: &mut Sender<u64>,
    ahead: u64,
)
    ensures receiver { IsSameReceiver receiver.old receiver.new }
    ensures sender { IsSameSender sender.old sender.new }
{
    assert!(rt; ahead <= 1 && sender.puts() <= 1);
    for round in 0..ROUNDS {
        let came = next(rt, receiver).expect(rt, "a message");
        same(rt, came.message, round);
        wait_a_little(round);
        put_next(rt, sender, round + ahead);
    }
}

// Answers the other side, and ends.
fn play<R: Abort + Wait>(rt: &R, receiver: &mut Receiver<u64>, putter: &mut Putter, ahead: u64)
    requires { putter.old.end ≡ None }
    ensures receiver { IsSameReceiver receiver.old receiver.new }
    ensures end { HasLeftEnd putter.old.sender putter.new.end }
{
    let Some(mut sender) = putter.sender.take() else {
        return;
    };
    bounce(rt, receiver, &mut sender, ahead);
    putter.put_end(sender.end(rt));
}

#[test]
fn no_message_is_slept_through(rt: HostRuntime) {
    let rt = &rt;
    let alloc = rt.alloc();
    let (mut pings, mut ping, other_ping) = two_senders::<u64, _>(rt, alloc);
    let (mut pongs, pong, other_pong) = two_senders::<u64, _>(rt, alloc);
    put_next(rt, &mut ping, 0);
    let mut ping: Putter = new_slot(ping);
    let mut pong: Putter = new_slot(pong);
    join_mut(
        rt,
        &mut ||
            requires { pong.end ≡ None }
            ensures receiver { IsSameReceiver pings.entry pings.exit }
            ensures end { HasLeftEnd pong.entry.sender pong.exit.end }
        { play(rt, &mut pings, &mut pong, 0) },
        &mut ||
            requires { ping.end ≡ None }
            ensures receiver { IsSameReceiver pongs.entry pongs.exit }
            ensures end { HasLeftEnd ping.entry.sender ping.exit.end }
        { play(rt, &mut pongs, &mut ping, 1) },
    );
    let (_, _, pings) = closed(rt, alloc, pings, ping.end(rt), other_ping.end(rt));
    let (_, _, pongs) = closed(rt, alloc, pongs, pong.end(rt), other_pong.end(rt));
    same(rt, (pings, pongs), (1, 0));
}

// Where there is no memory for what stands on it, a queue is given up.
#[test]
fn an_unused_queue_is_given_up(rt: HostRuntime) {
    if let Ok((receiver, senders)) = queue::<Pledge>(rt.alloc(), 3) {
        same(&rt, senders.len(), 3);
        receiver.abandon(senders);
    }
}

// A message that must be spent.
struct Pledge {
    number: u64,
}

impl Pledge {
    fn spend(self) -> u64 {
        let Pledge { number } = self;
        number
    }
}

// Puts a pledge, and answers whether it was taken in. One that is refused comes back.
fn put_pledge<R: Abort + Wait>(rt: &R, sender: &mut Sender<Pledge>, number: u64, kept: u64) -> bool
    ensures { IsSameSender sender.old sender.new }
{
    assert!(rt; sender.puts() < 1000);
    match sender.put(rt, Pledge { number }) {
        Ok(stamp) => {
            same(rt, stamp.index, kept);
            true
        }
        Err(Refused::Memory(pledge)) => {
            same(rt, (pledge.spend(), sender.puts()), (number, kept));
            false
        }
    }
}

// Puts a hundred pledges, and answers how many were taken in.
fn put_pledges<R: Abort + Wait>(rt: &R, sender: &mut Sender<Pledge>) -> u64
    ensures { IsSameSender sender.old sender.new }
{
    let mut kept = 0;
    for number in 0..100 {
        if put_pledge(rt, sender, number, kept) {
            kept += 1;
        }
    }
    kept
}

// Spends what was taken, and says how many these were.
fn spend_all(mut got: Vec<Stamped<Pledge>>) -> u64
    ensures { result ≡ length got.items }
{
    let taken = got.len() as u64;
    while let Some(stamped) = got.pop() {
        stamped.message.spend();
    }
    got.destroy_empty();
    taken
}

// Takes three messages, or none where there is no memory for the list, and says how many these were.
fn take_three<R: Wait>(rt: &R, receiver: &mut Receiver<Pledge>) -> u64
    ensures receiver { IsSameReceiver receiver.old receiver.new }
    ensures few { result ≤ 3 }
{
    match receiver.take_up_to(rt, 3) {
        Ok(got) => spend_all(got),
        Err(Memory) => 0,
    }
}

// Closes a queue of one sender. It takes no memory.
fn close_one<R: Wait>(
    rt: &R,
    receiver: Receiver<Pledge>,
    mut ends: Vec<SenderEnd<Pledge>>,
    end: SenderEnd<Pledge>,
) -> QueueEnd<Pledge>
    requires receiver { receiver.senders ≡ 1 }
    requires ends { (ends.items ≡ []) × (1 ≤ vec_capacity ends) }
    requires end { (end.queue ≡ receiver.queue) × (end.number ≡ 0) }
{
    ends.push_reserved(end);
    receiver.close(rt, ends)
}

// A queue of one sender, where there is memory for it.
fn one_sender<R: Abort>(rt: &R, alloc: Global) -> Option<(Receiver<Pledge>, Sender<Pledge>)>
    ensures { IfSome result (λ q. (q.0 ≡ new_receiver q.0.queue 1) × (q.1 ≡ new_sender q.0.queue 0)) }
{
    let Ok((receiver, mut senders)) = queue::<Pledge>(alloc, 1) else {
        return None;
    };
    let sender = senders.pop().expect(rt, "a sender");
    senders.destroy_empty();
    Some((receiver, sender))
}

// Spends a message, and compares the index of its stamp.
fn spend<R: Abort>(rt: &R, found: Option<Stamped<Pledge>>, index: u64) {
    let Stamped { stamp, message } = found.expect(rt, "a message");
    same(rt, stamp.index, index);
    message.spend();
}

// Compares how many pledges were put and taken, and spends the first that is left.
fn check_pledges<R: Abort>(rt: &R, end: QueueEnd<Pledge>, put: u64, taken: u64) {
    same(rt, (end.put, end.taken), (put, taken));
    let mut rest = end.rest;
    spend(rt, rest.pop(), taken);
}

// Each call that takes memory is refused where an allocation fails, and all else goes on.
#[test]
fn a_refused_message_comes_back(rt: HostRuntime) {
    let rt = &rt;
    let alloc = rt.alloc();
    let Ok(ends) = Vec::with_capacity(alloc, 1) else {
        return;
    };
    let Some((mut receiver, mut sender)) = one_sender(rt, alloc) else {
        return;
    };
    let kept = put_pledges(rt, &mut sender);
    let had = take_three(rt, &mut receiver);
    spend(rt, taken(rt, &mut receiver), had);
    let end = close_one(rt, receiver, ends, sender.end(rt));
    check_pledges(rt, end, kept, had + 1);
}
