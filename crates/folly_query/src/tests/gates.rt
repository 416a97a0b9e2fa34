// What runs at the same time: a gate at which tasks wait for each other, and one at which a task waits for a reply.
use super::{RED, check_end, fast_sink, fast_source, number_of};
use fan_base::{Gate, HoldGate, JobId, LineGate, LineSink, Sink};
use std::alloc::AllocGlobal;
use std::process::Abort;
use std::sync::Wait;
use std::test::Fail;
use std::thread::Threads;

// Looks enough for two workers to meet.
const TURNS: u64 = 200_000_000;

// Looks for a tenth of a second or so.
const FEW_TURNS: u64 = 20_000_000;

// Answers this input with any sink and gate, and gives the number of the status.
fn answer_input<K: Sink + Send, G: Gate, R: AllocGlobal + Threads + Wait + Sync>(
    rt: &R,
    words: &str,
    input: &[u8],
    sink: &mut K,
    gate: &G,
) -> Result<u8, Fail> {
    let mut source = fast_source(rt.alloc(), Vec::from_slice(rt.alloc(), input)?);
    number_of(rt, words, &mut source, sink, gate)
}

// Whether the tasks of a query over two shards run at the same time.
fn tasks_meet<R: AllocGlobal + Abort + Threads + Wait + Sync>(
    rt: &R,
    words: &str,
    turns: u64,
) -> Result<bool, Fail> {
    let mut sink = fast_sink(rt.alloc())?;
    let gate = HoldGate::new(JobId(64), JobId(65), turns);
    let number = answer_input(rt, words, RED.as_bytes(), &mut sink, &gate)?;
    check_end(rt, words, (number, sink.bytes()), (0, b"1 find 2: 4 7\n"));
    Ok(gate.met())
}

#[test]
fn two_workers_run_tasks_at_the_same_time(rt: HostRuntime) -> Result<(), Fail> {
    assert!(rt; tasks_meet(&rt, "run --shards 2 --workers 2", TURNS)?);
    Ok(())
}

#[test]
fn one_worker_runs_tasks_one_after_another(rt: HostRuntime) -> Result<(), Fail> {
    assert!(rt; !tasks_meet(&rt, "run --shards 2 --workers 1", FEW_TURNS)?);
    Ok(())
}

// Whether the last task of the first query finds no byte written, and another task, which waits for a line, sees one.
fn line_comes<R: AllocGlobal + Abort + Threads + Wait + Sync>(
    rt: &R,
    waits: JobId,
    turns: u64,
) -> Result<bool, Fail> {
    let gate = LineGate::new(JobId(67), waits, turns);
    let mut sink = LineSink::new(&gate, fast_sink(rt.alloc())?);
    let input = b"doc 7 red apple\ndoc 4 red\nfind red\ncount red\n";
    let number = answer_input(rt, "run", input, &mut sink, &gate)?;
    let written = sink.into_inner();
    let expected = (0, b"1 find 2: 4 7\n2 count 2\n".as_slice());
    check_end(rt, "run", (number, written.bytes()), expected);
    Ok(gate.met())
}

// The first task of the second query waits.
#[test]
fn a_reply_is_printed_while_a_later_task_waits(rt: HostRuntime) -> Result<(), Fail> {
    assert!(rt; line_comes(&rt, JobId(128), TURNS)?);
    Ok(())
}

// A task of the first query waits, without which there is no line. So it is in a run that prints behind all tasks.
#[test]
fn no_reply_comes_before_its_tasks(rt: HostRuntime) -> Result<(), Fail> {
    assert!(rt; !line_comes(&rt, JobId(64), FEW_TURNS)?);
    Ok(())
}
