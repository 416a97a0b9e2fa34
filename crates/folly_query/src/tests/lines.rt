// Lines that are refused where they stand alone as the input.
use super::{check_input, slow_sink};
use std::alloc::{AllocGlobal, Global};
use std::process::Abort;
use std::sync::Wait;
use std::test::Fail;
use std::thread::Threads;

const REFUSED: &[(&[u8], &str)] = &[
    (b"find a\x80", "bad byte"),
    (b"find a\x00", "bad byte"),
    (b"findx a", "unknown command"),
    (b"after 1 tick 1", "unknown command"),
    (b"hi lo find a", "unknown command"),
    (b"lo after 1 find a", "unknown command"),
    (b"doc x", "bad number"),
    (b"doc 4294967296", "bad number"),
    (b"tick 0", "bad number"),
    (b"tick 10000001", "bad number"),
    (b"cancel 0", "bad number"),
    (b"cancel 50001", "bad number"),
    (b"after 0 find a", "bad number"),
    (b"top 0 a", "bad number"),
    (b"top 101 a", "bad number"),
    (b"doc 1 a-b", "bad word"),
    (b"find a-b", "bad word"),
    (b"find aaaaaaaaaaaaaaaaaaaaaaaaaaaaaaaaa", "bad word"),
    (b"top 1 a!", "bad word"),
    (b"doc", "missing field"),
    (b"tick", "missing field"),
    (b"cancel", "missing field"),
    (b"after", "missing field"),
    (b"after 1", "missing field"),
    (b"hi", "missing field"),
    (b"top", "missing field"),
    (b"top 1", "missing field"),
    (b"tick 1 2", "extra field"),
    (b"cancel 1 1", "extra field"),
    (b"find", "bad expression"),
    (b"find )", "bad expression"),
    (b"find a |", "bad expression"),
    (b"find (a", "bad expression"),
    (b"find ()", "bad expression"),
    (b"find (a | b", "bad expression"),
    (b"count", "bad expression"),
    (b"exists", "bad expression"),
];

// Heads of lines with so many words behind them.
const TOO_LONG: &[(&[u8], usize, &str)] = &[
    (b"doc 1", 1_001, "too many words"),
    (b"top 1", 1_001, "too many words"),
    (b"find", 1_025, "expression too long"),
];

// What is written of a first line that is refused with this text.
fn error_line(alloc: Global, text: &str) -> Result<String, Fail> {
    Ok(format!(in alloc; "error line 1: {text}\n")?)
}

fn check_refused<R: AllocGlobal + Abort + Threads + Wait + Sync>(
    rt: &R,
    line: Vec<u8>,
    text: &str,
) -> Result<(), Fail> {
    let wanted = error_line(rt.alloc(), text)?;
    let sink = slow_sink(rt.alloc())?;
    check_input(rt, "run", line, sink, (3, wanted.as_bytes()))
}

// A head, and so many times ` a` behind it.
fn line_of(alloc: Global, head: &[u8], times: usize) -> Result<Vec<u8>, Fail> {
    let mut line = head.to_vec(alloc)?;
    for _ in 0..times {
        line.extend_from_slice(b" a")?;
    }
    Ok(line)
}

#[test]
fn lines_are_refused_alone(rt: HostRuntime) -> Result<(), Fail> {
    for (line, text) in REFUSED {
        check_refused(&rt, line.to_vec(rt.alloc())?, text)?;
    }
    for (head, times, text) in TOO_LONG {
        check_refused(&rt, line_of(rt.alloc(), head, *times)?, text)?;
    }
    Ok(())
}
