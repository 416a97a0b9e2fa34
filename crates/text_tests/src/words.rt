use super::compare::{same, same_of};
use query_words::{Command, Generation, Settings, read_command};
use std::alloc::Global;
use std::process::Abort;

// A line of words, parted by single spaces: two of them hold an empty word.
fn words_of<R: Abort>(rt: &R, alloc: Global, line: &str) -> Vec<String> {
    let mut words = Vec::new(alloc);
    for word in line.split(' ') {
        let word = String::from_str(alloc, word).expect(rt, "memory");
        words.push(word).expect(rt, "memory");
    }
    words
}

fn check<R: Abort>(rt: &R, alloc: Global, line: &str, command: Option<Command>) {
    let words = words_of(rt, alloc, line);
    same_of(rt, line, read_command(words.as_slice()), command);
}

// Workers, bases and shards.
type Numbers = (u32, u32, u32);

fn settings(numbers: Numbers, stop_at: Option<u64>) -> Settings {
    let (workers, bases, shards) = numbers;
    Settings {
        workers,
        bases,
        shards,
        stop_at,
    }
}

// `run`, each with its settings.
const RUNS: &[(&str, Numbers, Option<u64>)] = &[
    ("run", (4, 2, 4), None),
    ("run --workers=2", (2, 2, 4), None),
    ("run --shards 64", (4, 2, 64), None),
    ("run --shards 8 --workers 1 --stop-at 1", (1, 2, 8), Some(1)),
    (
        "run --workers 32 --bases 8 --shards 64 --stop-at 4294967295",
        (32, 8, 64),
        Some(4_294_967_295),
    ),
    (
        "run --stop-at=0 --shards=1 --bases=1 --workers=1",
        (1, 1, 1),
        Some(0),
    ),
    ("run --workers=0032", (32, 2, 4), None),
    (
        "run --bases 0000000000000000000000000000000000000003",
        (4, 3, 4),
        None,
    ),
    ("run --", (4, 2, 4), None),
    ("run --workers 2 --", (2, 2, 4), None),
];

const DEFAULTS: Numbers = (4, 2, 4);

// `gen`, each with its seed, documents and queries, and its settings.
const GENERATIONS: &[(&str, (u64, u32, u32), Numbers, Option<u64>)] = &[
    ("gen -- 5 0 0", (5, 0, 0), DEFAULTS, None),
    ("gen 5 0 0", (5, 0, 0), DEFAULTS, None),
    ("gen 5 -- 0 0", (5, 0, 0), DEFAULTS, None),
    ("gen 5 0 0 --", (5, 0, 0), DEFAULTS, None),
    ("gen 1 2 3", (1, 2, 3), DEFAULTS, None),
    (
        "gen --workers 2 1 2 3 --bases=3",
        (1, 2, 3),
        (2, 3, 4),
        None,
    ),
    (
        "gen 1 --workers 2 2 --stop-at=7 3",
        (1, 2, 3),
        (2, 2, 4),
        Some(7),
    ),
    ("gen --shards 5 1 -- 2 3", (1, 2, 3), (4, 2, 5), None),
    (
        "gen 42 2000 500 --shards 16 --workers 8 --bases 4",
        (42, 2_000, 500),
        (8, 4, 16),
        None,
    ),
    (
        "gen 18446744073709551615 20000 4096",
        (18_446_744_073_709_551_615, 20_000, 4_096),
        DEFAULTS,
        None,
    ),
    (
        "gen 00000000000018446744073709551615 020000 0004096",
        (18_446_744_073_709_551_615, 20_000, 4_096),
        DEFAULTS,
        None,
    ),
];

const REFUSED: &[&str] = &[
    "",
    "run x",
    "run --workers 0",
    "run --workers 33",
    "run --bases 1 --bases 1",
    "gen 1 2",
    "gen 1 20001 0",
    "gen 1 0 4097",
    "help",
    "--version",
    // no command
    "--help",
    "run --help",
    "gen --help",
    "--",
    "RUN",
    "run run",
    "ru",
    "runs",
    "gen",
    // values
    "run --workers=",
    "run --workers=033",
    "run --workers",
    "run --workers -- 2",
    "run --workers --",
    "run --workers --bases 2",
    "run --workers +2",
    "run --workers -2",
    "run --workers 2x",
    "run --workers 0x2",
    "run --workers 2.0",
    "run --workers=2=2",
    "run --workers==2",
    "run --workers ２",
    // names
    "run -workers 2",
    "run --Workers 2",
    "run --worker 2",
    "run --workersx 2",
    "run =2",
    "run --stop_at 2",
    "run --workers2",
    // ranges
    "run --bases 0",
    "run --bases 9",
    "run --shards=0",
    "run --shards=65",
    "run --stop-at 4294967296",
    "run --stop-at 99999999999999999999999999999999999999999999999999",
    "gen 18446744073709551616 0 0",
    "gen 99999999999999999999 0 0",
    // given twice
    "run --workers=2 --workers 2",
    "gen 1 2 3 --stop-at 1 --stop-at=1",
    // `--` and numbers
    "run 1",
    "run -- 1",
    "run -- --",
    "run -- --workers 2",
    "gen 1 2 3 -- --bases 1",
    "gen -- 1 2 --bases=1 3",
    "gen 1 -- 2 -- 3",
    "gen 1 2 3 4",
    "gen 1 2 3 -- 4",
    "gen 1 2 --",
    // empty words
    "run ",
    " run",
    "gen 1  2 3",
    "run --workers  2",
];

fn generation(numbers: (u64, u32, u32)) -> Generation {
    let (seed, docs, queries) = numbers;
    Generation {
        seed,
        docs,
        queries,
    }
}

#[test]
fn runs_are_read(rt: HostRuntime) {
    let rt = &rt;
    for (line, numbers, stop_at) in RUNS {
        let command = Command::Run(settings(*numbers, *stop_at));
        check(rt, rt.alloc(), line, Some(command));
    }
}

#[test]
fn generations_are_read(rt: HostRuntime) {
    let rt = &rt;
    for (line, made, numbers, stop_at) in GENERATIONS {
        let command = Command::Generate(generation(*made), settings(*numbers, *stop_at));
        check(rt, rt.alloc(), line, Some(command));
    }
}

#[test]
fn other_words_are_refused(rt: HostRuntime) {
    let rt = &rt;
    for line in REFUSED {
        check(rt, rt.alloc(), line, None);
    }
}

#[test]
fn no_words_are_refused(rt: HostRuntime) {
    same(&rt, read_command(&[]), None);
}
