ghost use Rattle.std.specs.Prelude.{◌<◌, length};

use fan_base::{
    Failed, Fault, Gate, HoldGate, Ids, JobId, LineGate, LineSink, MemSink, MemSource, Memory,
    NullSink, Sink, Source, StdSink, StdSource, Try, Word, WordFault,
};
use std::alloc::Global;
use std::collections::HashMap;
use std::fmt::Debug;
use std::io::Cursor;
use std::process::Abort;
use std::thread::join;

// Compares two values. A test compares by this, since each assertion that a body makes of its own makes that body dearer to prove.
pub(crate) fn same<T: PartialEq + Debug + Copy, R: Abort>(rt: &R, found: T, expected: T) {
    assert_eq!(rt; found, expected);
}

fn fault<T: Drop>(outcome: Try<T>) -> Option<Fault> {
    outcome.fault()
}

#[test]
fn faults_of_outcomes(rt: HostRuntime) {
    let rt = &rt;
    same(rt, fault(Try::Value(7)), None);
    same(rt, fault::<u8>(Try::Broken), Some(Fault::Broken));
    same(rt, fault::<u8>(Try::Memory), Some(Fault::Memory));
    same(
        rt,
        fault::<u8>(Try::Cancelled(4)),
        Some(Fault::Cancelled(4)),
    );
}

// Compares whether these bytes are a word, which then has them.
fn check_word<R: Abort>(rt: &R, bytes: &[u8], is_word: bool) {
    match Word::new(bytes) {
        Ok(word) => same(rt, (word.as_bytes(), is_word), (bytes, true)),
        Err(fault) => same(rt, (fault, is_word), (WordFault::BadWord, false)),
    }
}

#[test]
fn words_of_letters_and_digits(rt: HostRuntime) {
    let longest = [b'z'; 32];
    let too_long = [b'z'; 33];
    for (bytes, is_word) in [
        (b"a1".as_slice(), true),
        (b"A", false),
        (b"", false),
        (b"a b", false),
        (longest.as_slice(), true),
        (too_long.as_slice(), false),
    ] {
        check_word(&rt, bytes, is_word);
    }
}

fn word<R: Abort>(rt: &R, bytes: &[u8]) -> Word {
    match Word::new(bytes) {
        Ok(word) => word,
        Err(_) => rt.panic("a word"),
    }
}

// How many words a map of these to their places has, and the place of one.
fn place_of<R: Abort>(
    rt: &R,
    alloc: Global,
    words: &[Word],
    wanted: Word,
) -> (usize, Option<usize>) {
    let mut places = HashMap::new(alloc);
    for (place, word) in words.iter().enumerate() {
        if places.insert(*word, place).is_err() {
            rt.panic("memory")
        }
    }
    (places.len(), places.get(&wanted).copied())
}

#[test]
fn words_compare_as_their_bytes(rt: HostRuntime) {
    let rt = &rt;
    let words = [
        word(rt, b"0"),
        word(rt, b"a"),
        word(rt, b"a0"),
        word(rt, b"ab"),
        word(rt, b"b"),
    ];
    same(rt, words.is_sorted(), true);
    let wanted = word(rt, b"ab");
    same(rt, place_of(rt, rt.alloc(), &words, wanted), (5, Some(3)));
    let padded = word(rt, b"a0");
    same(rt, &padded.as_array()[..4], b"a0\0\0".as_slice());
}

// A list of ids that two were pushed to, and whether it was empty before.
fn two_ids<R: Abort>(rt: &R, alloc: Global) -> (Ids, bool) {
    let mut ids = Ids::new(alloc);
    let was_empty = ids.is_empty();
    for id in [7, 4] {
        if ids.push(id).is_err() {
            rt.panic("memory")
        }
    }
    (ids, was_empty)
}

#[test]
fn list_keeps_its_items(rt: HostRuntime) {
    let rt = &rt;
    let (mut ids, was_empty) = two_ids(rt, rt.alloc());
    let found = (ids.len(), ids.get(1).copied(), ids.get(2).copied());
    same(rt, (found, was_empty), ((2, Some(4), None), true));
    same(rt, ids.pop(), Some(4));
}

// Reads once into this room: finds these bytes there, or the failure.
fn expect_read<S: Source>(
    rt: &impl Abort,
    source: &mut S,
    room: &mut [u8],
    expected: Result<&[u8], Failed>,
)
    requires { 0 < length room.old }
{
    match source.read(room) {
        Ok(size) => same(rt, room.get(..size), expected.ok()),
        Err(Failed) => same(rt, Err(Failed), expected),
    }
}

// Writes once: so many bytes are taken, or the failure comes.
fn expect_write<S: Sink>(
    rt: &impl Abort,
    sink: &mut S,
    bytes: &[u8],
    expected: Result<usize, Failed>,
)
    requires { 0 < length bytes.now }
{
    same(rt, sink.write(bytes), expected);
}

// The second call of an object in memory fails.
fn second_fails<R: Abort>(rt: &R, alloc: Global) -> Vec<u64> {
    let mut fails = Vec::new(alloc);
    if fails.push(1).is_err() {
        rt.panic("memory")
    }
    fails
}

fn mem_source<R: Abort>(rt: &R, alloc: Global, text: &str) -> MemSource {
    match text.as_bytes().to_vec(alloc) {
        Ok(bytes) => MemSource::new(bytes, 5, second_fails(rt, alloc)),
        Err(_) => rt.panic("memory"),
    }
}

fn mem_sink<R: Abort>(
    rt: &R,
    alloc: Global,
    capacity: usize,
    piece: usize,
    fails: Vec<u64>,
) -> MemSink
    requires { 0 < piece }
{
    match MemSink::new(alloc, capacity, piece, fails) {
        Ok(sink) => sink,
        Err(Memory) => rt.panic("memory"),
    }
}

#[test]
fn source_in_memory_gives_pieces(rt: HostRuntime) {
    let rt = &rt;
    let mut source = mem_source(rt, rt.alloc(), "abcdefg");
    let mut room = [0; 8];
    for expected in [Ok(b"abcde".as_slice()), Err(Failed), Ok(b"fg"), Ok(b"")] {
        expect_read(rt, &mut source, &mut room, expected);
    }
}

#[test]
fn sink_in_memory_takes_pieces(rt: HostRuntime) {
    let rt = &rt;
    let fails = second_fails(rt, rt.alloc());
    let mut sink = mem_sink(rt, rt.alloc(), 7, 5, fails);
    expect_write(rt, &mut sink, b"abcdefg", Ok(5));
    expect_write(rt, &mut sink, b"fg", Err(Failed));
    expect_write(rt, &mut sink, b"fgh", Ok(2));
    expect_write(rt, &mut sink, b"h", Err(Failed));
    same(rt, sink.bytes(), b"abcdefg".as_slice());
}

#[test]
fn std_reader_is_a_source(rt: HostRuntime) {
    let mut source = StdSource::new(Cursor::new(b"abc".as_slice()));
    let mut room = [0; 2];
    for expected in [b"ab".as_slice(), b"c", b""] {
        expect_read(&rt, &mut source, &mut room, Ok(expected));
    }
}

#[test]
fn std_writer_is_a_sink(rt: HostRuntime) {
    let rt = &rt;
    let mut room = [0; 2];
    let mut sink = StdSink::new(room.as_mut_slice());
    expect_write(rt, &mut sink, b"abc", Ok(2));
    expect_write(rt, &mut sink, b"c", Err(Failed));
}

#[test]
fn a_sink_that_takes_all_counts(rt: HostRuntime) {
    let rt = &rt;
    let mut sink = NullSink::new();
    expect_write(rt, &mut sink, b"abc", Ok(3));
    expect_write(rt, &mut sink, b"d", Ok(1));
    same(rt, sink.taken(), 4);
}

// Both calls of each of two jobs, one job after the other.
fn in_turn<G: Gate>(gate: &G) {
    for job in [JobId(1), JobId(2)] {
        gate.before(job);
        gate.after(job);
    }
}

#[test]
fn jobs_one_after_the_other_do_not_meet(rt: HostRuntime) {
    let rt = &rt;
    let holding = HoldGate::new(JobId(1), JobId(2), 3);
    let waiting = LineGate::new(JobId(1), JobId(2), 3);
    in_turn(&holding);
    in_turn(&waiting);
    same(rt, (holding.met(), waiting.met()), (false, false));
}

#[test]
fn jobs_at_the_same_time_meet(rt: HostRuntime) {
    let gate = HoldGate::new(JobId(1), JobId(2), 1_000_000_000);
    join(&rt, || gate.before(JobId(1)), || gate.before(JobId(2)));
    same(&rt, gate.met(), true);
}

fn line_sink<'g, R: Abort>(rt: &R, alloc: Global, gate: &'g LineGate) -> LineSink<'g> {
    LineSink::new(gate, mem_sink(rt, alloc, 8, 8, Vec::new(alloc)))
}

#[test]
fn a_line_between_two_jobs_is_seen(rt: HostRuntime) {
    let rt = &rt;
    let gate = LineGate::new(JobId(1), JobId(2), 3000);
    let mut sink = line_sink(rt, rt.alloc(), &gate);
    gate.before(JobId(1));
    expect_write(rt, &mut sink, b"a", Ok(1));
    gate.before(JobId(2));
    same(rt, gate.met(), false);
    expect_write(rt, &mut sink, b"b\n", Ok(2));
    gate.before(JobId(2));
    same(rt, gate.met(), true);
    same(rt, sink.into_inner().bytes(), b"ab\n".as_slice());
}

#[test]
fn a_byte_before_the_early_job_is_seen(rt: HostRuntime) {
    let rt = &rt;
    let gate = LineGate::new(JobId(1), JobId(2), 3000);
    let mut sink = line_sink(rt, rt.alloc(), &gate);
    expect_write(rt, &mut sink, b"a\n", Ok(2));
    gate.before(JobId(1));
    gate.before(JobId(2));
    same(rt, gate.met(), false);
}
