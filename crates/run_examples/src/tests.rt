//! A text over one, three and 64 shards.
ghost use Rattle.std.specs.Prelude.{◌≤◌};
ghost use Rattle.fanout.specs.Asked.{AreKnobs};

use crate::answer_text;
use fan_base::{MemSink, Memory, OpenGate};
use fanout::{FanOutcome, Knobs};
use query_model::{BadInput, BadKind, InputFault};
use std::alloc::AllocGlobal;
use std::process::Abort;
use std::sync::Wait;
use std::test::Fail;
use std::thread::Threads;

const LINES: &str =
    "find a\nafter 2 top 2 a b\ndoc 7 a b\ndoc 3 a\ncount a | b\ntick 2\nafter 1 exists a\ncancel 4\n";

const REPLIES: &str = "1 find 0:\n3 count 2\n2 top 0:\n4 cancelled\n";

// What is written, and how the run ends, over so many shards.
fn check_answered<R: AllocGlobal + Abort + Threads + Wait + Sync>(
    rt: &R,
    shards: u32,
    knobs: Knobs,
) -> Result<(), Fail>
    requires some { 1 ≤ shards }
    requires many { shards ≤ 64 }
    requires knobs { AreKnobs knobs }
{
    let alloc = rt.alloc();
    let mut sink = MemSink::new(alloc, 1000, 1000, Vec::new(alloc))?;
    let gate = OpenGate::new();
    match answer_text(rt, alloc, LINES.as_bytes(), shards, knobs, &mut sink, &gate) {
        Ok(end) => assert_eq!(rt; end.outcome, FanOutcome::Done),
        Err(_) => return Err(Fail::from(Memory)),
    }
    assert_eq!(rt; sink.bytes(), REPLIES.as_bytes());
    Ok(())
}

#[test]
fn a_text_over_one_three_and_64_shards(rt: HostRuntime) -> Result<(), Fail> {
    for (shards, workers, bases) in [(1, 1, 1), (3, 2, 2), (64, 4, 8)] {
        let knobs = Knobs {
            workers,
            bases,
            stop_at: None,
        };
        check_answered(&rt, shards, knobs)?;
    }
    Ok(())
}

#[test]
fn a_text_that_is_refused(rt: HostRuntime) -> Result<(), Fail> {
    let alloc = rt.alloc();
    let mut sink = MemSink::new(alloc, 1000, 1000, Vec::new(alloc))?;
    let knobs = Knobs {
        workers: 1,
        bases: 1,
        stop_at: None,
    };
    let text = b"doc 1 a\nfind a\nseek a\n";
    let Err(fault) = answer_text(&rt, alloc, text, 1, knobs, &mut sink, &OpenGate::new()) else {
        return Err(Fail::from(Memory));
    };
    let bad = BadInput {
        line: 3,
        kind: BadKind::UnknownCommand,
    };
    assert_eq!(&rt; fault, InputFault::Bad(bad));
    assert!(&rt; sink.bytes().is_empty());
    Ok(())
}
