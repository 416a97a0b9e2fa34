use crate::args::Args;
use crate::report::{Report, Status};
use crate::run::query_main;
use fan_base::{Gate, MemSink, MemSource, OpenGate, Sink, Source};
use std::alloc::{AllocGlobal, Global};
use std::fmt::Debug;
use std::process::Abort;
use std::sync::Wait;
use std::test::Fail;
use std::thread::Threads;

mod gates;
mod lines;
mod reports;

const RED: &str = "doc 7 red apple\ndoc 4 red\nfind red\n";

// 17 times the same query.
const MANY_RED: &str =
    "doc 7 red apple\ndoc 4 red\nfind red\nfind red\nfind red\nfind red\nfind red\nfind red\nfind red\nfind red\nfind red\nfind red\nfind red\nfind red\nfind red\nfind red\nfind red\nfind red\nfind red\n";

/// Inputs, and what a run over the default shards writes, which ends well.
const ANSWERS: &[(&str, &str)] = &[
    ("", ""),
    (RED, "1 find 2: 4 7\n"),
    ("doc 7 red apple\ndoc 4 red\nfind blue\n", "1 find 0:\n"),
    ("find !red", "1 find 0:\n"),
    (
        "doc 7 red apple\ndoc 4 red\ndoc 9 green\nfind !red\ncount !red | red\n",
        "1 find 1: 9\n2 count 3\n",
    ),
    ("DOC  1 Red\r\n\r\n# note\r\nfind RED", "1 find 1: 1\n"),
    (
        "doc 5 a\nhi exists a\nlo exists b\n",
        "1 exists yes\n2 exists no\n",
    ),
    (
        "doc 1 a b\ndoc 2 a b\ndoc 3 c\ntop 2 a b zzz\ntop 5 c\n",
        "1 top 2: 1=2 2=2\n2 top 1: 3=3\n",
    ),
    ("doc 1 a a\ndoc 2 a\ntop 9 a a\n", "1 top 2: 1=2 2=1\n"),
    ("count a\ndoc 1 a\n", "1 count 0\n"),
    (
        "doc 1 a\ntop 2 a\ndoc 2 b\ntop 2 a\n",
        "1 top 1: 1=1\n2 top 1: 1=2\n",
    ),
    ("find !a\ndoc 5 b\nfind !a\n", "1 find 0:\n2 find 1: 5\n"),
    ("doc 7 red apple\ndoc 4 red\nfind re", "1 find 0:\n"),
    (
        "doc 9 a\ndoc 8 a\ndoc 7 a\ndoc 6 a\ndoc 5 a\ncount a\nfind a\n",
        "1 count 5\n2 find 5: 5 6 7 8 9\n",
    ),
    // As deep as an expression may be.
    (
        "doc 1 a\ndoc 2 b\nfind !!!!!!!!!!!!!!!!!!!!!!!!!!!!!!!!!!!!!!!!!!!!!!!!!!!!!!!!!!!!!!!!a\n",
        "1 find 1: 1\n",
    ),
];

const DELAYS_AND_CANCELS: &[(&str, &str)] = &[
    (
        "doc 1 a\nafter 2 count a\ncount b\ntick 1\ntick 1\n",
        "2 count 0\n1 count 1\n",
    ),
    (
        "doc 1 a\nafter 256 count a\ntick 255\nafter 1 count a\ntick 1\n",
        "1 count 1\n2 count 1\n",
    ),
    ("after 5 find a\n", "1 cancelled\n"),
    (
        "doc 1 a\ncount a\ndoc 2 a\ncount a\nafter 1 count a\ndoc 3 a\ntick 1\n",
        "1 count 1\n2 count 2\n3 count 2\n",
    ),
    (
        "doc 1 a\nafter 2 count a\nafter 2 exists a\ncancel 1\ntick 2\ncancel 2\n",
        "1 cancelled\n2 exists yes\n",
    ),
    (
        "cancel 1\nafter 5 find a\ncancel 1\ncancel 1\ncount a\n",
        "1 cancelled\n2 count 0\n",
    ),
];

/// Inputs that are refused, and the error line.
const REFUSALS: &[(&str, &str)] = &[
    ("find (a | b\n", "error line 1: bad expression\n"),
    ("doc 4 x\ndoc 04 y\n", "error line 2: duplicate document\n"),
    (
        "doc 1 a\nfind a\ndoc 01 b\n",
        "error line 3: duplicate document\n",
    ),
    ("tick 10000000\ntick 1\n", "error line 2: too many ticks\n"),
    (
        "find !!!!!!!!!!!!!!!!!!!!!!!!!!!!!!!!!!!!!!!!!!!!!!!!!!!!!!!!!!!!!!!!!a\n",
        "error line 1: expression too deep\n",
    ),
    ("doc 4294967296 a\n", "error line 1: bad number\n"),
    ("doc\n", "error line 1: missing field\n"),
    ("seek a\n", "error line 1: unknown command\n"),
    ("find a\tb\n", "error line 1: bad byte\n"),
];

/// Words, and the text and the status that they come to where the input has nothing.
const COMMAND_LINES: &[(&str, &str, u8)] = &[
    ("", "", 2),
    ("run x", "", 2),
    ("run --workers 0", "", 2),
    ("run --workers 33", "", 2),
    ("run --bases 1 --bases 1", "", 2),
    ("run --workers=2", "", 0),
    (
        "run --shards 64 --workers 32 --bases=8 --stop-at 007 --",
        "",
        0,
    ),
    ("run --shards 65", "", 2),
    ("help", "", 2),
    ("--help", "", 2),
    ("--version", "", 2),
    ("gen 1 2", "", 2),
    ("gen 1 20001 0", "", 2),
    ("gen 1 0 4097", "", 2),
    (
        "gen 5 0 0",
        "documents 0 queries 0 lines 0 bytes 0 sum 0\n",
        0,
    ),
    (
        "gen -- 5 0 0",
        "documents 0 queries 0 lines 0 bytes 0 sum 0\n",
        0,
    ),
    (
        "gen 0 1 20 --shards 3",
        "documents 1 queries 20 lines 20 bytes 224 sum 16040\n",
        0,
    ),
    (
        "gen 18446744073709551615 3 12",
        "documents 3 queries 12 lines 12 bytes 125 sum 8527\n",
        0,
    ),
];

/// An input that is made up, over each number of shards.
const GENERATED: &[(&str, &str, u8)] = &[
    (
        "gen 42 2000 500 --shards 16 --workers 8 --bases 4",
        "documents 2000 queries 500 lines 500 bytes 72852 sum 3611916\n",
        0,
    ),
    (
        "gen 42 2000 500 --shards 1 --workers 1 --bases 1",
        "documents 2000 queries 500 lines 500 bytes 72852 sum 3611916\n",
        0,
    ),
];

fn args(alloc: Global, words: &str) -> Result<Args, Fail> {
    let mut args = Args::new(alloc);
    for word in words.split(' ') {
        if !word.is_empty() {
            args.push(word)?;
        }
    }
    Ok(args)
}

/// The report of the words over any source and sink, with any gate: the only call of what is tested, so that it is proved once, and without
/// what the three are.
fn report_of<S: Source, K: Sink + Send, G: Gate, R: AllocGlobal + Threads + Wait + Sync>(
    rt: &R,
    words: &str,
    source: &mut S,
    sink: &mut K,
    gate: &G,
) -> Result<Report, Fail> {
    let words = args(rt.alloc(), words)?;
    Ok(query_main(rt, rt.alloc(), &words, source, sink, gate))
}

/// The number of the status alone.
fn number_of<S: Source, K: Sink + Send, G: Gate, R: AllocGlobal + Threads + Wait + Sync>(
    rt: &R,
    words: &str,
    source: &mut S,
    sink: &mut K,
    gate: &G,
) -> Result<u8, Fail> {
    let report = report_of(rt, words, source, sink, gate)?;
    Ok(report.status.number())
}

/// The number of the status of the words over this source and this sink, and what was written.
fn written<R: AllocGlobal + Threads + Wait + Sync>(
    rt: &R,
    words: &str,
    mut source: MemSource,
    mut sink: MemSink,
) -> Result<(u8, Vec<u8>), Fail> {
    let number = number_of(rt, words, &mut source, &mut sink, &OpenGate::new())?;
    Ok((number, sink.bytes().to_vec(rt.alloc())?))
}

/// A source of this text that gives few bytes at a time.
fn slow_source(alloc: Global, text: &str) -> Result<MemSource, Fail> {
    let input = Vec::from_slice(alloc, text.as_bytes())?;
    Ok(MemSource::new(input, 5, Vec::new(alloc)))
}

/// A source of this text that gives up to 70,000 bytes at a time.
fn fast_source(alloc: Global, text: Vec<u8>) -> MemSource {
    MemSource::new(text, 70_000, Vec::new(alloc))
}

/// A sink that takes few bytes at a time.
fn slow_sink(alloc: Global) -> Result<MemSink, Fail> {
    Ok(MemSink::new(alloc, 1000, 10, Vec::new(alloc))?)
}

/// A sink that takes all bytes at a time.
fn fast_sink(alloc: Global) -> Result<MemSink, Fail> {
    Ok(MemSink::new(alloc, 1000, 1000, Vec::new(alloc))?)
}

/// Compares two values. Each assertion that a body makes of its own makes that body dearer to prove.
fn same<T: PartialEq + Debug + Drop, R: Abort>(rt: &R, of: &str, found: T, expected: T) {
    assert_eq!(rt; found, expected, "{of:?}");
}

/// Compares the number of a status, and what was written, with what must come of this.
fn check_end<R: Abort>(rt: &R, of: &str, found: (u8, &[u8]), expected: (u8, &[u8])) {
    assert_eq!(rt; found, expected, "{of:?}");
}

/// Runs a row, over a source and a sink that take few bytes at a time.
fn check_row<R: AllocGlobal + Abort + Threads + Wait + Sync>(
    rt: &R,
    words: &str,
    input: &str,
    status: u8,
    output: &str,
) -> Result<(), Fail> {
    let source = slow_source(rt.alloc(), input)?;
    let (number, written) = written(rt, words, source, slow_sink(rt.alloc())?)?;
    let of = if input.is_empty() { words } else { input };
    check_end(
        rt,
        of,
        (number, written.as_slice()),
        (status, output.as_bytes()),
    );
    Ok(())
}

/// Runs each input over the default shards.
fn check_inputs<R: AllocGlobal + Abort + Threads + Wait + Sync>(
    rt: &R,
    status: u8,
    rows: &[(&str, &str)],
) -> Result<(), Fail> {
    for (input, output) in rows {
        check_row(rt, "run", input, status, output)?;
    }
    Ok(())
}

/// Runs the words of each row, over no input.
fn check_words<R: AllocGlobal + Abort + Threads + Wait + Sync>(
    rt: &R,
    rows: &[(&str, &str, u8)],
) -> Result<(), Fail> {
    for (words, output, status) in rows {
        check_row(rt, words, "", *status, output)?;
    }
    Ok(())
}

#[test]
fn inputs_are_answered(rt: HostRuntime) -> Result<(), Fail> {
    check_inputs(&rt, 0, ANSWERS)?;
    check_inputs(&rt, 0, DELAYS_AND_CANCELS)
}

#[test]
fn inputs_are_refused(rt: HostRuntime) -> Result<(), Fail> {
    check_inputs(&rt, 3, REFUSALS)
}

#[test]
fn words_are_read(rt: HostRuntime) -> Result<(), Fail> {
    check_words(&rt, COMMAND_LINES)
}

#[test]
fn a_generated_input_is_summed_up_over_each_number_of_shards(rt: HostRuntime) -> Result<(), Fail> {
    check_words(&rt, GENERATED)
}

// The run over two documents and one query, from a source whose call of this number fails.
fn check_failed_read<R: AllocGlobal + Abort + Threads + Wait + Sync>(
    rt: &R,
    call: u64,
) -> Result<(), Fail> {
    let alloc = rt.alloc();
    let input = Vec::from_slice(alloc, RED.as_bytes())?;
    let source = MemSource::new(input, 5, vec![in alloc; call; 1]?);
    let (number, written) = written(rt, "run", source, slow_sink(alloc)?)?;
    let expected = (Status::ReadFault.number(), b"".as_slice());
    check_end(rt, "failed read", (number, written.as_slice()), expected);
    Ok(())
}

#[test]
fn a_read_fails_at_each_call(rt: HostRuntime) -> Result<(), Fail> {
    for call in 0..8 {
        check_failed_read(&rt, call)?;
    }
    Ok(())
}

// What words and an input come to with this sink: the number of the status, and what is written.
fn check_input<R: AllocGlobal + Abort + Threads + Wait + Sync>(
    rt: &R,
    words: &str,
    input: Vec<u8>,
    sink: MemSink,
    expected: (u8, &[u8]),
) -> Result<(), Fail> {
    let (number, written) = written(rt, words, fast_source(rt.alloc(), input), sink)?;
    check_end(rt, words, (number, written.as_slice()), expected);
    Ok(())
}

// The run over two documents and one query, to a sink that fails behind these bytes.
fn check_failed_write<R: AllocGlobal + Abort + Threads + Wait + Sync>(
    rt: &R,
    sink: MemSink,
    output: &[u8],
) -> Result<(), Fail> {
    let input = Vec::from_slice(rt.alloc(), RED.as_bytes())?;
    check_input(
        rt,
        "run",
        input,
        sink,
        (Status::WriteFault.number(), output),
    )
}

#[test]
fn a_write_fails_at_each_byte(rt: HostRuntime) -> Result<(), Fail> {
    let alloc = rt.alloc();
    let output = b"1 find 2: 4 7\n".as_slice();
    for size in 0..output.len() {
        let sink = MemSink::new(alloc, 100, 1, vec![in alloc; size as u64; 1]?)?;
        check_failed_write(&rt, sink, &output[..size])?;
        let sink = MemSink::new(alloc, size, 10, Vec::new(alloc))?;
        check_failed_write(&rt, sink, &output[..size])?;
    }
    Ok(())
}

#[test]
fn an_error_line_is_cut(rt: HostRuntime) -> Result<(), Fail> {
    let alloc = rt.alloc();
    let input = Vec::from_slice(alloc, b"find (a | b\n")?;
    let sink = MemSink::new(alloc, 5, 10, Vec::new(alloc))?;
    check_input(&rt, "run", input, sink, (3, b"error"))
}

// Reads once, and finds these five bytes.
fn expect_five<S: Source>(rt: &impl Abort, source: &mut S, expected: &[u8]) {
    let mut left = [0; 5];
    assert_eq!(rt; source.read(&mut left), Ok(5));
    assert_eq!(rt; left.as_slice(), expected);
}

#[test]
fn nothing_is_read_behind_a_failed_read(rt: HostRuntime) -> Result<(), Fail> {
    let alloc = rt.alloc();
    let input = Vec::from_slice(alloc, RED.as_bytes())?;
    let mut source = MemSource::new(input, 5, Vec::from_slice(alloc, &[1])?);
    let mut sink = fast_sink(alloc)?;
    let number = number_of(&rt, "run", &mut source, &mut sink, &OpenGate::new())?;
    same(&rt, "run", number, Status::ReadFault.number());
    expect_five(&rt, &mut source, b" red ");
    Ok(())
}

// So many times the same query.
fn counts(alloc: Global, times: usize) -> Result<Vec<u8>, Fail> {
    let mut input = String::new(alloc);
    for _ in 0..times {
        input.push_str("count a\n")?;
    }
    Ok(input.into_bytes())
}

#[test]
fn too_many_tasks(rt: HostRuntime) -> Result<(), Fail> {
    let input = counts(rt.alloc(), 4_097)?;
    let wanted = b"error line 4097: too many tasks\n".as_slice();
    let sink = fast_sink(rt.alloc())?;
    check_input(&rt, "run --shards 64", input, sink, (3, wanted))
}

// 101 documents and a query that finds all of them.
fn all_documents(alloc: Global) -> Result<Vec<u8>, Fail> {
    let mut input = String::new(alloc);
    for id in 0..101 {
        input.push_str(format!(in alloc; "doc {id} w\n")?.as_str())?;
    }
    input.push_str("find w\n")?;
    Ok(input.into_bytes())
}

// The reply, which lists 100.
fn first_hundred(alloc: Global) -> Result<Vec<u8>, Fail> {
    let mut output = String::from_str(alloc, "1 find 101:")?;
    for id in 0..100 {
        output.push_str(format!(in alloc; " {id}")?.as_str())?;
    }
    output.push_str("\n")?;
    Ok(output.into_bytes())
}

#[test]
fn one_hundred_ids_are_listed(rt: HostRuntime) -> Result<(), Fail> {
    let input = all_documents(rt.alloc())?;
    let output = first_hundred(rt.alloc())?;
    let sink = fast_sink(rt.alloc())?;
    check_input(&rt, "run", input, sink, (0, output.as_slice()))
}

// One comment of so many bytes: nothing is written.
fn check_comment<R: AllocGlobal + Abort + Threads + Wait + Sync>(
    rt: &R,
    size: usize,
    status: Status,
) -> Result<(), Fail> {
    let input = vec![in rt.alloc(); b'#'; size]?;
    check_input(
        rt,
        "run",
        input,
        fast_sink(rt.alloc())?,
        (status.number(), b""),
    )
}

#[test]
fn largest_input_and_one_byte_more(rt: HostRuntime) -> Result<(), Fail> {
    check_comment(&rt, 67_108_864, Status::Done)?;
    check_comment(&rt, 67_108_865, Status::TooLarge)
}
