use crate::{Printer, Progress};
use fan_base::MemSink;
use query_model::Reply;
use std::alloc::{AllocGlobal, Global};
use std::process::Abort;
use std::test::Fail;

/// Replies that come for these places, and what must come of them. Each write takes at most ten bytes.
#[derive(Clone, Copy, Debug)]
struct Case {
    name: &'static str,
    places: &'static [u32],
    fails: &'static [u64],
    output: &'static str,
    progress: Progress,
    next: u64,
}

fn cases() -> [Case; 5] {
    [
        Case {
            name: "in any order",
            places: &[2, 0, 1],
            fails: &[],
            output: "7 count 0\n7 count 1\n7 count 2\n",
            progress: Progress::Writing,
            next: 3,
        },
        Case {
            name: "one is missing",
            places: &[0, 2, 3],
            fails: &[],
            output: "7 count 0\n",
            progress: Progress::Writing,
            next: 1,
        },
        Case {
            name: "a write fails, and the others are ordered all the same",
            places: &[1, 0, 2],
            fails: &[1],
            output: "7 count 0\n",
            progress: Progress::WriteFault,
            next: 3,
        },
        Case {
            name: "a place that went out",
            places: &[0, 0, 1],
            fails: &[],
            output: "7 count 0\n",
            progress: Progress::Repeated,
            next: 1,
        },
        Case {
            name: "a place that is held",
            places: &[1, 1, 0],
            fails: &[],
            output: "",
            progress: Progress::Repeated,
            next: 0,
        },
    ]
}

// Prints the replies of a case.
fn printed(alloc: Global, case: &Case) -> Result<(Printer, MemSink), Fail> {
    let fails = Vec::from_slice(alloc, case.fails)?;
    let mut sink = MemSink::new(alloc, 1_000, 10, fails)?;
    let mut printer = Printer::new(alloc);
    for &place in case.places {
        let place = u64::from(place);
        printer.print(alloc, &mut sink, place, 7, Reply::Count(place));
    }
    Ok((printer, sink))
}

fn check_cases(rt: &(impl AllocGlobal + Abort), cases: &[Case]) -> Result<(), Fail> {
    for case in cases {
        let (printer, sink) = printed(rt.alloc(), case)?;
        assert_eq!(rt; sink.bytes(), case.output.as_bytes(), "{case:?}");
        assert_eq!(rt; printer.progress(), case.progress, "{case:?}");
        assert_eq!(rt; printer.next_place(), case.next, "{case:?}");
    }
    Ok(())
}

#[test]
fn replies_go_out_by_their_places(rt: HostRuntime) -> Result<(), Fail> {
    check_cases(&rt, &cases())
}
