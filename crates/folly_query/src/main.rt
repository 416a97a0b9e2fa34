//! Documents and queries in, replies out: `folly_query run` reads standard input and writes the replies to standard output.
//! `folly_query gen` answers an input that is made up from a seed, and writes the line that sums up the replies.
//!
//! The program is this project's own, and no header of Folly's has it; it does its work through the runtime (`fanout`).
//! docs/QUERIES.md has its words, texts and exit statuses for users.
//!
//! ```text
//! main: the real source, sink and gate --query_main--> Report: the status, the pool, the queues, the cores
//!
//! words   no command: Usage, and nothing is read or written
//! run     source --read_source--> table --with_shards--> lines without words, shards --fan_run_named--> sink
//!            | ReadFault, TooLarge: nothing is written | BadInput: the error line is     Done | WriteFault
//! gen     seed --generate--> table, answered the same way into memory --summary_text--> sink      Done | WriteFault
//! any     Memory, where there was too little
//!
//! status  Done 0, Memory 1, Usage 2, BadInput 3, ReadFault 4, WriteFault 5, TooLarge 6
//! ```
//!
//! The promises, by clause of `query_main`, on content where source and sink tell it:
//! * usage exactly where the words are no command, and then nothing is read or written (`usage`, `untouched`); nothing is
//!   written where a read fails or there is too much (`unwritten`);
//! * what the status of a run says of what was read, written and reported: on Done all was read, the sink gained exactly the
//!   output, and the report is that of a run over this input (`ends`, by `EndsAs`, specs/Endings.antt);
//! * which status a run comes to, by its bytes, unless memory runs out (`comes`);
//! * of `gen`: on Done exactly the summary line, and the report of a run over that input (`sums_up`); the source is left as it
//!   was (`unread`);
//! * where the words or the input are refused, a read fails or there is too much, no pool, no queues and no cores are reported
//!   (`nothing`), and without a pool no queues and no cores (`unmade`), and no reply was written (`unanswered`); where there is
//!   a pool, whatever the status, it was stopped exactly where the words ask for it; of a stopped one each record of what it ran
//!   or handed back is of one of the first early tasks, with its ticket, no two of one, and of a joined one each task that it
//!   accepted, the first early ones, has one record (`pool`, `made_up_pool`).
//!
//! That a run ends, which thread did what, how many workers there are, and when a reply is written is in no clause; README.md
//! has what of this is tested.
#![tactic(auto)]

ghost use Rattle.std.specs.Prelude.{◌≡◌};
ghost use Rattle.std.specs.Process.{exit_status};
ghost use Rattle.folly_query.specs.Statuses.{exit_number};

use args::Args;
use fan_base::{OpenGate, StdSink, StdSource};
use report::Status;
use run::query_main;
use std::process::ExitCode;
use std::rt::Runtime;
use std::{env, io, mem};

mod answer;
mod args;
mod buffer;
mod generated;
mod report;
mod run;
#[cfg(test)]
mod tests;

/// The words behind the program's name; none of them where they can't be had, and then the status that this ends with.
fn words<R: Runtime + AllocGlobal>(rt: &R) -> Result<Args, Status> {
    let mut words = Args::new(rt.alloc());
    let given = match env::args(rt) {
        Ok(given) => given,
        Err(error) if error.kind() == io::ErrorKind::OutOfMemory => return Err(Status::Memory),
        Err(_) => return Err(Status::Usage),
    };
    for word in given.skip(1) {
        if words.push(word.as_str()).is_err() {
            return Err(Status::Memory);
        }
    }
    Ok(words)
}

/// Says on standard error how a run ended, and gives what the program ends with.
fn end_as<R: Runtime>(rt: &R, status: Status) -> ExitCode
    ensures { exit_status result ≡ exit_number status }
{
    if let Some(text) = status.text() {
        let _ = rt.eprintln(text);
    }
    ExitCode::from(status.number())
}

fn main(rt: HostRuntime) -> ExitCode {
    let status = match words(&rt) {
        Ok(words) => {
            let mut source = StdSource::new(rt.stdin());
            let mut sink = StdSink::new(rt.stdout());
            let gate = OpenGate::new();
            let report = query_main(&rt, rt.alloc(), &words, &mut source, &mut sink, &gate);
            let status = report.status;
            // The process ends, and what the report holds goes with it.
            mem::forget(report);
            status
        }
        Err(status) => status,
    };
    end_as(&rt, status)
}
