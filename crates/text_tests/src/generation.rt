ghost use Rattle.std.specs.Prelude.{◌≤◌};

use super::compare::{same, same_text};
use query_gen::{generate, summary_text};
use query_model::{Ask, Line, Lines, Prio, Query};
use std::alloc::Global;
use std::process::Abort;

fn lines_of<R: Abort>(rt: &R, alloc: Global, seed: u64, docs: u32, queries: u32) -> Lines
    requires { docs ≤ 20000 }
{
    let table = generate(alloc, seed, docs, queries).expect(rt, "memory");
    table.into_lines(alloc).expect(rt, "memory")
}

fn check_summary<R: Abort>(
    rt: &R,
    alloc: Global,
    docs: u32,
    queries: u32,
    replies: &[u8],
    wanted: &str,
) {
    let line = summary_text(alloc, docs, queries, replies).expect(rt, "memory");
    same_text(rt, line.as_slice(), wanted);
}

#[test]
fn no_documents_and_no_queries(rt: HostRuntime) {
    let rt = &rt;
    let lines = lines_of(rt, rt.alloc(), 5, 0, 0);
    same(rt, lines.len(), 0);
    let wanted = "documents 0 queries 0 lines 0 bytes 0 sum 0\n";
    check_summary(rt, rt.alloc(), 0, 0, b"", wanted);
}

#[test]
fn replies_are_summed_up(rt: HostRuntime) {
    let rt = &rt;
    let replies = b"1 count 0\n2 count 1\n";
    let wanted = "documents 3 queries 2 lines 2 bytes 20 sum 1450\n";
    check_summary(rt, rt.alloc(), 3, 2, replies, wanted);
}

// The numbers of the document, of the query at place 8, which is a `top`, and of the ticks behind ten queries.
fn some_numbers(lines: &Lines) -> Option<(u32, usize, u32, u32)> {
    let Some(Line::Doc(doc)) = lines.get(0) else {
        return None;
    };
    let Some(Line::Query(query)) = lines.get(8) else {
        return None;
    };
    let Some(Line::Tick(ticks)) = lines.get(11) else {
        return None;
    };
    Some((doc.id, doc.words.len(), listed(query)?, *ticks))
}

fn listed(query: &Query) -> Option<u32> {
    match &query.ask {
        Ask::Top(listed, _) if query.prio == Prio::Mid => Some(*listed),
        _ => None,
    }
}

#[test]
fn a_document_and_queries(rt: HostRuntime) {
    let rt = &rt;
    let lines = lines_of(rt, rt.alloc(), 0, 1, 20);
    same(rt, lines.len(), 23);
    same(rt, some_numbers(&lines), Some((1, 48, 6, 286)));
}
