// What runs report.
use super::{
    MANY_RED, RED, check_end, fast_sink, fast_source, report_of, same, slow_sink, slow_source,
};
use crate::report::{Report, Status};
use core_word::Tally;
use fan_base::{ExecId, JobId, Mark, MemSink, MemSource, OpenGate};
use prio_pool::{DirectRecord, RunRecord, Runs};
use run_notes::{DirectRecords, Notes, PoolNote, RunRecords};
use std::alloc::{AllocGlobal, Global};
use std::process::Abort;
use std::sync::Wait;
use std::test::Fail;
use std::thread::Threads;

/// The tasks of a query: the first one's job, the queue of all, and their marks by shard.
type Tasks = (u64, u32, &'static [u64]);

/// What is told of a task: its job, its queue, the executor that ran it, and its mark.
type Task = (JobId, u32, ExecId, Mark);

/// A run that ends well, and what it must report.
#[derive(Clone, Copy)]
struct ReportRow {
    words: &'static str,
    input: &'static str,
    output: &'static str,
    /// What the pool ran, or handed back and was run then.
    early: &'static [Tasks],
    /// What never was in the pool.
    late: &'static [Tasks],
    is_stopped: bool,
    /// How many messages each queue had, by executor from 1 on.
    puts: &'static [u64],
    /// How many cores were made, handed over, forwarded, freed and used again.
    cores: &'static [u64],
}

const CANCELLED: &str = "cancel 1\nafter 5 find a\ncancel 1\ncancel 1\ncount a\n";

// In the order of answers.
const EVERYDAY_TASKS: &[Tasks] = &[
    (64, 2, &[0, 0, 1, 0]),
    (128, 1, &[0, 1, 0, 0]),
    (256, 1, &[0, 0, 0, 0]),
    (192, 1, &[1, 1, 1, 0]),
    (320, 1, &[1, 1, 0, 0]),
];

// The two documents of RED over 64 shards.
const WIDE_MARKS: &[u64] = &[
    1, 1, 0, 0, 0, 0, 0, 0, 0, 0, 0, 0, 0, 0, 0, 0, 0, 0, 0, 0, 0, 0, 0, 0, 0, 0, 0, 0, 0, 0, 0, 0,
    0, 0, 0, 0, 0, 0, 0, 0, 0, 0, 0, 0, 0, 0, 0, 0, 0, 0, 0, 0, 0, 0, 0, 0, 0, 0, 0, 0, 0, 0, 0, 0,
];

const MANY_TASKS: &[Tasks] = &[
    (64, 1, WIDE_MARKS),
    (128, 1, WIDE_MARKS),
    (192, 1, WIDE_MARKS),
    (256, 1, WIDE_MARKS),
    (320, 1, WIDE_MARKS),
    (384, 1, WIDE_MARKS),
    (448, 1, WIDE_MARKS),
    (512, 1, WIDE_MARKS),
    (576, 1, WIDE_MARKS),
    (640, 1, WIDE_MARKS),
    (704, 1, WIDE_MARKS),
    (768, 1, WIDE_MARKS),
    (832, 1, WIDE_MARKS),
    (896, 1, WIDE_MARKS),
    (960, 1, WIDE_MARKS),
    (1024, 1, WIDE_MARKS),
    (1088, 1, WIDE_MARKS),
];

const RED_TASKS: &[Tasks] = &[(64, 1, &[1, 1, 0, 0])];

const EVERYDAY: ReportRow = ReportRow {
    words: "run",
    input: "# catalogue\ndoc 101 the quick brown fox\ndoc 102 the lazy dog\ndoc 103 quick dog training\nhi find quick !fox\ncount the dog\nafter 3 top 2 quick dog\nexists cat\ntick 5\nfind the\n",
    output: "1 find 1: 103\n2 count 1\n4 exists no\n3 top 2: 103=2 101=1\n5 find 2: 101 102\n",
    early: EVERYDAY_TASKS,
    late: &[],
    is_stopped: false,
    puts: &[12, 8, 5],
    cores: &[26, 25, 1, 26, 20],
};

/// 1,088 tasks.
const MANY_RED_RUN: ReportRow = ReportRow {
    words: "run --shards 64",
    input: MANY_RED,
    output: "1 find 2: 4 7\n2 find 2: 4 7\n3 find 2: 4 7\n4 find 2: 4 7\n5 find 2: 4 7\n6 find 2: 4 7\n7 find 2: 4 7\n8 find 2: 4 7\n9 find 2: 4 7\n10 find 2: 4 7\n11 find 2: 4 7\n12 find 2: 4 7\n13 find 2: 4 7\n14 find 2: 4 7\n15 find 2: 4 7\n16 find 2: 4 7\n17 find 2: 4 7\n",
    early: MANY_TASKS,
    late: &[],
    is_stopped: false,
    puts: &[576, 512, 17],
    cores: &[1105, 1105, 0, 1105, 1088],
};

const RED_RUN: ReportRow = ReportRow {
    words: "run",
    input: RED,
    output: "1 find 2: 4 7\n",
    early: RED_TASKS,
    late: &[],
    is_stopped: false,
    puts: &[4, 0, 1],
    cores: &[5, 5, 0, 5, 4],
};

/// An input that is made up, of nothing.
const MADE_UP: ReportRow = ReportRow {
    words: "gen 5 0 0",
    input: "",
    output: "documents 0 queries 0 lines 0 bytes 0 sum 0\n",
    early: &[],
    late: &[],
    is_stopped: false,
    puts: &[0, 0, 0],
    cores: &[0, 0, 0, 0, 0],
};

const JOINED_RUNS: &[ReportRow] = &[
    ReportRow {
        words: "run",
        input: "",
        output: "",
        early: &[],
        late: &[],
        is_stopped: false,
        puts: &[0, 0, 0],
        cores: &[0, 0, 0, 0, 0],
    },
    MADE_UP,
    RED_RUN,
    ReportRow {
        words: "run",
        input: "after 5 find a\n",
        output: "1 cancelled\n",
        early: &[],
        late: &[],
        is_stopped: false,
        puts: &[0, 0, 1],
        cores: &[0, 0, 0, 0, 0],
    },
    ReportRow {
        words: "run",
        input: "doc 1 a b\ndoc 2 a b\ndoc 3 c\ntop 2 a b zzz\ntop 5 c\n",
        output: "1 top 2: 1=2 2=2\n2 top 1: 3=3\n",
        early: &[(64, 1, &[1, 1, 0, 0]), (128, 1, &[0, 0, 1, 0])],
        late: &[],
        is_stopped: false,
        puts: &[4, 4, 2],
        cores: &[12, 10, 2, 12, 8],
    },
    ReportRow {
        words: "run",
        input: "doc 5 a\nhi exists a\nlo exists b\n",
        output: "1 exists yes\n2 exists no\n",
        early: &[(64, 2, &[1, 0, 0, 0]), (128, 0, &[0, 0, 0, 0])],
        late: &[],
        is_stopped: false,
        puts: &[4, 4, 2],
        cores: &[10, 10, 0, 10, 8],
    },
    EVERYDAY,
];

/// Delays, a `top` alone, and cancels.
const DELAYED_RUNS: &[ReportRow] = &[
    ReportRow {
        words: "run",
        input: "doc 1 a\nafter 2 count a\ncount b\ntick 1\ntick 1\n",
        output: "2 count 0\n1 count 1\n",
        early: &[(128, 1, &[0, 0, 0, 0]), (64, 1, &[1, 0, 0, 0])],
        late: &[],
        is_stopped: false,
        puts: &[4, 4, 2],
        cores: &[10, 10, 0, 10, 8],
    },
    ReportRow {
        words: "run",
        input: "doc 1 a\nafter 256 count a\ntick 255\nafter 1 count a\ntick 1\n",
        output: "1 count 1\n2 count 1\n",
        early: &[(64, 1, &[1, 0, 0, 0]), (128, 1, &[1, 0, 0, 0])],
        late: &[],
        is_stopped: false,
        puts: &[4, 4, 2],
        cores: &[10, 10, 0, 10, 8],
    },
    ReportRow {
        words: "run",
        input: "doc 1 a a\ndoc 2 a\ntop 9 a a\n",
        output: "1 top 2: 1=2 2=1\n",
        early: &[(64, 1, &[1, 1, 0, 0])],
        late: &[],
        is_stopped: false,
        puts: &[4, 0, 1],
        cores: &[6, 5, 1, 6, 4],
    },
    ReportRow {
        words: "run",
        input: "doc 1 a\nafter 2 count a\nafter 2 exists a\ncancel 1\ntick 2\ncancel 2\n",
        output: "1 cancelled\n2 exists yes\n",
        early: &[(128, 1, &[1, 0, 0, 0])],
        late: &[],
        is_stopped: false,
        puts: &[0, 4, 2],
        cores: &[5, 5, 0, 5, 4],
    },
    ReportRow {
        words: "run",
        input: CANCELLED,
        output: "1 cancelled\n2 count 0\n",
        early: &[(128, 1, &[0, 0, 0, 0])],
        late: &[],
        is_stopped: false,
        puts: &[0, 4, 2],
        cores: &[5, 5, 0, 5, 4],
    },
];

/// Runs that are stopped.
const STOPPED_RUNS: &[ReportRow] = &[
    ReportRow {
        words: "run --shards 8 --workers 1 --stop-at 1",
        input: RED,
        output: "1 find 2: 4 7\n",
        early: &[(64, 1, &[1, 1, 0, 0, 0, 0, 0, 0])],
        late: &[],
        is_stopped: true,
        puts: &[8, 0, 1],
        cores: &[9, 9, 0, 9, 8],
    },
    ReportRow {
        words: "run --stop-at 1",
        input: "doc 7 red apple\ndoc 4 red\nfind red\ncount red\n",
        output: "1 find 2: 4 7\n2 count 2\n",
        early: RED_TASKS,
        late: &[(128, 1, &[1, 1, 0, 0])],
        is_stopped: true,
        puts: &[4, 4, 2],
        cores: &[10, 10, 0, 10, 8],
    },
    ReportRow {
        words: "run --stop-at 0",
        input: "doc 1 a b\ndoc 2 a b\ndoc 3 c\ntop 2 a b zzz\ntop 5 c\n",
        output: "1 top 2: 1=2 2=2\n2 top 1: 3=3\n",
        early: &[],
        late: &[(64, 1, &[1, 1, 0, 0]), (128, 1, &[0, 0, 1, 0])],
        is_stopped: true,
        puts: &[4, 4, 2],
        cores: &[12, 10, 2, 12, 8],
    },
    ReportRow {
        words: "run --stop-at 0",
        input: "doc 1 a\nafter 2 count a\nafter 2 exists a\ncancel 1\ntick 2\ncancel 2\n",
        output: "1 cancelled\n2 exists yes\n",
        early: &[],
        late: &[(128, 1, &[1, 0, 0, 0])],
        is_stopped: true,
        puts: &[0, 4, 2],
        cores: &[5, 5, 0, 5, 4],
    },
    ReportRow {
        words: "run --stop-at 0",
        input: CANCELLED,
        output: "1 cancelled\n2 count 0\n",
        early: &[],
        late: &[(128, 1, &[0, 0, 0, 0])],
        is_stopped: true,
        puts: &[0, 4, 2],
        cores: &[5, 5, 0, 5, 4],
    },
    ReportRow {
        words: "run --stop-at 1",
        input: CANCELLED,
        output: "1 cancelled\n2 count 0\n",
        early: &[(128, 1, &[0, 0, 0, 0])],
        late: &[],
        is_stopped: true,
        puts: &[0, 4, 2],
        cores: &[5, 5, 0, 5, 4],
    },
];

/// The everyday run, stopped behind so many answered queries, where it has as many.
fn everyday_stopped(words: &'static str, stop: usize) -> ReportRow {
    let (early, late) = EVERYDAY_TASKS.split_at(stop.min(EVERYDAY_TASKS.len()));
    ReportRow {
        words,
        early,
        late,
        is_stopped: stop <= EVERYDAY_TASKS.len(),
        ..EVERYDAY
    }
}

/// In the order of jobs.
fn by_job(mut tasks: Vec<Task>) -> Result<Vec<Task>, Fail> {
    tasks.sort_by_key(|task| task.0)?;
    Ok(tasks)
}

/// The tasks, by job.
fn wanted(alloc: Global, all: &[Tasks], exec: ExecId) -> Result<Vec<Task>, Fail> {
    let mut wanted = Vec::new(alloc);
    for &(first, queue, marks) in all {
        let mut job = first;
        for &mark in marks {
            wanted.push((JobId(job), queue, exec, Mark::Done(mark)))?;
            job = job.wrapping_add(1);
        }
    }
    by_job(wanted)
}

fn task_of(record: &RunRecord) -> Task {
    (record.job(), record.queue(), record.exec(), record.mark())
}

fn task_of_direct(record: &DirectRecord) -> Task {
    (record.job(), record.queue(), record.exec(), record.mark())
}

/// Puts what the pool ran behind these tasks.
fn push_ran(tasks: &mut Vec<Task>, mut ran: Runs) -> Result<(), Fail> {
    for _ in 0..ran.len() {
        if let Some(record) = ran.pop() {
            tasks.push(task_of(&record))?;
        }
    }
    Ok(())
}

/// Puts what the pool handed back behind these tasks.
fn push_returned(tasks: &mut Vec<Task>, mut returned: RunRecords) -> Result<(), Fail> {
    for _ in 0..returned.len() {
        if let Some(record) = returned.pop() {
            tasks.push(task_of(&record))?;
        }
    }
    Ok(())
}

/// What the pool ran and what it handed back, by job.
fn early_tasks(alloc: Global, ran: Runs, returned: RunRecords) -> Result<Vec<Task>, Fail> {
    let mut early = Vec::new(alloc);
    push_ran(&mut early, ran)?;
    push_returned(&mut early, returned)?;
    by_job(early)
}

fn late_tasks(alloc: Global, mut direct: DirectRecords) -> Result<Vec<Task>, Fail> {
    let mut late = Vec::new(alloc);
    for _ in 0..direct.len() {
        if let Some(record) = direct.pop() {
            late.push(task_of_direct(&record))?;
        }
    }
    by_job(late)
}

fn check_tasks<R: Abort>(rt: &R, of: &str, found: Vec<Task>, expected: Vec<Task>) {
    assert_eq!(rt; found, expected, "{of:?}");
}

fn check_numbers<R: Abort>(rt: &R, of: &str, found: &[u64], expected: &[u64]) {
    assert_eq!(rt; found, expected, "{of:?}");
}

fn check_pool<R: AllocGlobal + Abort>(
    rt: &R,
    pool: PoolNote,
    want: &ReportRow,
) -> Result<(), Fail> {
    let PoolNote {
        accepted,
        ran,
        returned,
        direct,
    } = pool;
    let early = wanted(rt.alloc(), want.early, ExecId(0))?;
    same(
        rt,
        want.input,
        (accepted, ran.stopped()),
        (early.len() as u64, want.is_stopped),
    );
    if !want.is_stopped {
        same(rt, want.input, returned.len(), 0);
    }
    check_tasks(
        rt,
        want.input,
        early_tasks(rt.alloc(), ran, returned)?,
        early,
    );
    // With two gathering bases and the printer's, the front's base is the fourth.
    let late = wanted(rt.alloc(), want.late, ExecId(4))?;
    check_tasks(rt, want.input, late_tasks(rt.alloc(), direct)?, late);
    Ok(())
}

/// How many messages each queue had: all of them were taken.
fn check_queues<R: Abort>(rt: &R, of: &str, queues: &Notes, puts: &[u64]) {
    same(rt, of, queues.len(), puts.len());
    let mut base = 0u32;
    for (note, &put) in queues.iter().zip(puts) {
        base = base.wrapping_add(1);
        let found = (note.exec(), note.put(), note.taken(), note.left());
        same(rt, of, found, (ExecId(base), put, put, 0));
    }
}

fn check_cores<R: Abort>(rt: &R, of: &str, tally: &Tally, cores: &[u64]) {
    let found = [
        tally.made(),
        tally.handed(),
        tally.forwarded(),
        tally.freed(),
        tally.reopened(),
    ];
    check_numbers(rt, of, &found, cores);
}

fn check_report<R: AllocGlobal + Abort>(
    rt: &R,
    report: Report,
    want: &ReportRow,
) -> Result<(), Fail> {
    let Report {
        status: _,
        pool,
        queues,
        tally,
    } = report;
    check_queues(rt, want.input, &queues, want.puts);
    check_cores(rt, want.input, &tally, want.cores);
    assert!(rt; pool.is_some(), "{:?}", want.input);
    if let Some(pool) = pool {
        check_pool(rt, pool, want)?;
    }
    Ok(())
}

/// Runs it over a source and a sink that take few bytes at a time.
fn check_run<R: AllocGlobal + Abort + Threads + Wait + Sync>(
    rt: &R,
    want: &ReportRow,
) -> Result<(), Fail> {
    let mut source = slow_source(rt.alloc(), want.input)?;
    let mut sink = slow_sink(rt.alloc())?;
    let report = report_of(rt, want.words, &mut source, &mut sink, &OpenGate::new())?;
    let found = (report.status.number(), sink.bytes());
    check_end(rt, want.input, found, (0, want.output.as_bytes()));
    check_report(rt, report, want)
}

fn check_runs<R: AllocGlobal + Abort + Threads + Wait + Sync>(
    rt: &R,
    runs: &[ReportRow],
) -> Result<(), Fail> {
    for want in runs {
        check_run(rt, want)?;
    }
    Ok(())
}

#[test]
fn joined_runs_report(rt: HostRuntime) -> Result<(), Fail> {
    check_runs(&rt, JOINED_RUNS)
}

#[test]
fn delayed_runs_report(rt: HostRuntime) -> Result<(), Fail> {
    check_runs(&rt, DELAYED_RUNS)
}

#[test]
fn stopped_runs_report(rt: HostRuntime) -> Result<(), Fail> {
    check_runs(&rt, STOPPED_RUNS)
}

const STOPS: &[&str] = &[
    "run --stop-at 0",
    "run --stop-at 1",
    "run --stop-at 2",
    "run --stop-at 3",
    "run --stop-at 4",
    "run --stop-at 5",
    "run --stop-at 6",
];

#[test]
fn a_run_is_stopped_behind_each_query(rt: HostRuntime) -> Result<(), Fail> {
    for (stop, words) in STOPS.iter().enumerate() {
        check_run(&rt, &everyday_stopped(words, stop))?;
    }
    Ok(())
}

#[test]
fn a_thousand_tasks_report(rt: HostRuntime) -> Result<(), Fail> {
    check_run(&rt, &MANY_RED_RUN)
}

// The report of a run over two documents and one query, whose second write fails.
fn failed_write<R: AllocGlobal + Abort + Threads + Wait + Sync>(rt: &R) -> Result<Report, Fail> {
    let alloc = rt.alloc();
    let mut source = fast_source(alloc, Vec::from_slice(alloc, RED.as_bytes())?);
    let mut sink = MemSink::new(alloc, 1000, 10, vec![in alloc; 1; 1]?)?;
    let report = report_of(rt, "run", &mut source, &mut sink, &OpenGate::new())?;
    let found = (report.status.number(), sink.bytes());
    check_end(
        rt,
        "failed write",
        found,
        (Status::WriteFault.number(), b"1 find 2: "),
    );
    Ok(report)
}

#[test]
fn a_failed_write_leaves_the_report_whole(rt: HostRuntime) -> Result<(), Fail> {
    let report = failed_write(&rt)?;
    check_report(&rt, report, &RED_RUN)
}

// Words and an input that are refused, or whose second read fails, with the number of the status.
const REFUSALS: &[(&str, &str, &[u64], u8)] = &[
    ("", RED, &[], 2),
    ("run x", RED, &[], 2),
    ("run --workers 0", RED, &[], 2),
    ("run --workers 33", RED, &[], 2),
    ("run --bases 1 --bases 1", RED, &[], 2),
    ("run", "find (a | b\n", &[], 3),
    ("run", RED, &[1], 4),
];

// The report of words and an input, from a source of which these calls fail.
fn refused<R: AllocGlobal + Threads + Wait + Sync>(
    rt: &R,
    words: &str,
    input: &str,
    fails: &[u64],
) -> Result<Report, Fail> {
    let input = Vec::from_slice(rt.alloc(), input.as_bytes())?;
    let fails = Vec::from_slice(rt.alloc(), fails)?;
    let mut source = MemSource::new(input, 5, fails);
    let mut sink = fast_sink(rt.alloc())?;
    report_of(rt, words, &mut source, &mut sink, &OpenGate::new())
}

// Nothing was run.
fn check_nothing<R: Abort>(rt: &R, of: &str, report: Report, status: u8) {
    same(rt, of, report.status.number(), status);
    same(
        rt,
        of,
        (report.pool.is_none(), report.queues.is_empty()),
        (true, true),
    );
    same(rt, of, (report.tally.made(), report.tally.freed()), (0, 0));
}

#[test]
fn refusals_report_nothing(rt: HostRuntime) -> Result<(), Fail> {
    for (words, input, fails, status) in REFUSALS {
        let report = refused(&rt, words, input, fails)?;
        check_nothing(&rt, words, report, *status);
    }
    Ok(())
}
