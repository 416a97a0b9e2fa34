ghost use Rattle.std.specs.Prelude.{◌≤◌};

use super::compare::{append, same, same_text};
use fan_base::{List, Word};
use query_text::{
    BadInput, BadKind, Hits, Input, InputFault, Limit, Line, Prio, Reply, error_line, read_input,
    reply_line, write_input,
};
use std::alloc::Global;
use std::process::Abort;

/// What is read over so many shards, without what is said of it.
fn read(alloc: Global, text: &[u8], shards: u32) -> Result<Input, InputFault>
    requires at_least_one { 1 ≤ shards }
    requires at_most_64 { shards ≤ 64 }
{
    read_input(alloc, text, shards)
}

/// The error line of a text, or nothing where it is accepted.
fn error_of<R: Abort>(rt: &R, alloc: Global, text: &[u8]) -> Vec<u8> {
    match read(alloc, text, 4) {
        Ok(_) => Vec::new(alloc),
        Err(InputFault::Bad(bad)) => error_line(alloc, &bad).expect(rt, "memory"),
        Err(InputFault::Memory) => rt.panic("memory"),
    }
}

/// The error line of a text has to be this one, or nothing.
fn check_error<R: Abort>(rt: &R, alloc: Global, text: &[u8], wanted: &str) {
    let found = error_of(rt, alloc, text);
    same_text(rt, found.as_slice(), wanted);
}

/// The same of a text with another line behind it.
fn check_error_behind<R: Abort>(rt: &R, alloc: Global, text: &[u8], line: &[u8], wanted: &str) {
    let more = repeated(rt, alloc, text, line, 1);
    check_error(rt, alloc, more.as_slice(), wanted);
}

/// The text `head` and then so many times `piece`.
fn repeated<R: Abort>(rt: &R, alloc: Global, head: &[u8], piece: &[u8], times: usize) -> Vec<u8> {
    let mut text = Vec::new(alloc);
    append(rt, &mut text, head);
    for _ in 0..times {
        append(rt, &mut text, piece);
    }
    text
}

// Single lines, each with its fault.
const FAULTY_LINES: &[(&[u8], &str)] = &[
    (b"find a\x80", "bad byte"),
    (b"find a\x00", "bad byte"),
    (b"find a\t", "bad byte"),
    (b"top\x7f 1 a", "bad byte"),
    (b"find a\r\r", "bad byte"),
    (b"findx a", "unknown command"),
    (b"find(a)", "unknown command"),
    (b"after 1 tick 1", "unknown command"),
    (b"hi lo find a", "unknown command"),
    (b"lo after 1 find a", "unknown command"),
    (b"lo tick", "unknown command"),
    (b"after 1 after 1 find a", "unknown command"),
    (b"seek", "unknown command"),
    (b"doc x", "bad number"),
    (b"doc 4294967296", "bad number"),
    (b"doc +1 $", "bad number"),
    (b"tick 0", "bad number"),
    (b"tick 10000001", "bad number"),
    (b"tick x 1", "bad number"),
    (b"cancel 0", "bad number"),
    (b"cancel 50001", "bad number"),
    (b"after 0 find a", "bad number"),
    (b"after 4294967296 find a", "bad number"),
    (b"top 0 a", "bad number"),
    (b"top 101 a", "bad number"),
    (b"lo top x", "bad number"),
    (b"doc 1 a-b", "bad word"),
    (b"find a-b", "bad word"),
    (b"find ) a $", "bad word"),
    (b"top 1 a!", "bad word"),
    (b"top 1 |", "bad word"),
    (b"find aaaaaaaaaaaaaaaaaaaaaaaaaaaaaaaaa", "bad word"),
    (b"doc", "missing field"),
    (b"tick", "missing field"),
    (b"cancel", "missing field"),
    (b"after", "missing field"),
    (b"after 1", "missing field"),
    (b"hi", "missing field"),
    (b"after 1 hi", "missing field"),
    (b"top", "missing field"),
    (b"top 1", "missing field"),
    (b"LO TOP 100", "missing field"),
    (b"tick 1 2", "extra field"),
    (b"cancel 1 x", "extra field"),
    (b"find", "bad expression"),
    (b"count", "bad expression"),
    (b"exists", "bad expression"),
    (b"find )", "bad expression"),
    (b"find a |", "bad expression"),
    (b"find (a", "bad expression"),
    (b"find (a | b", "bad expression"),
    (b"find ()", "bad expression"),
];

// The error line of a first line.
fn first_error<R: Abort>(rt: &R, alloc: Global, text: &str) -> String {
    format!(in alloc; "error line 1: {text}\n").expect(rt, "memory")
}

fn check_first<R: Abort>(rt: &R, alloc: Global, line: &[u8], text: &str) {
    let wanted = first_error(rt, alloc, text);
    check_error(rt, alloc, line, wanted.as_str());
}

#[test]
fn each_line_has_its_fault(rt: HostRuntime) {
    let rt = &rt;
    for (line, text) in FAULTY_LINES {
        check_first(rt, rt.alloc(), line, text);
    }
}

// Lines of a head and so many of a piece, each with its fault, if it has one.
const LONG_LINES: &[(&[u8], &[u8], usize, &str)] = &[
    (b"doc 1", b" a", 1_001, "error line 1: too many words\n"),
    (b"doc 1", b" a", 1_000, ""),
    (b"doc 1 $", b" a", 1_000, "error line 1: bad word\n"),
    (b"top 1", b" a", 1_001, "error line 1: too many words\n"),
    (b"top 1", b" a", 1_000, ""),
    (b"find", b" a", 1_025, "error line 1: expression too long\n"),
    (b"find", b" a", 1_026, "error line 1: expression too long\n"),
    (b"find", b" )", 1_025, "error line 1: expression too long\n"),
    (b"find", b" a", 1_024, ""),
    (
        b"find a\nfind a",
        b"!",
        64,
        "error line 2: bad expression\n",
    ),
    (b"find ", b"!", 65, "error line 1: expression too deep\n"),
    (b"find ", b"(", 64, "error line 1: bad expression\n"),
];

fn check_long<R: Abort>(
    rt: &R,
    alloc: Global,
    head: &[u8],
    piece: &[u8],
    times: usize,
    wanted: &str,
) {
    let line = repeated(rt, alloc, head, piece, times);
    check_error(rt, alloc, line.as_slice(), wanted);
}

#[test]
fn limits_of_a_line(rt: HostRuntime) {
    let rt = &rt;
    for (head, piece, times, text) in LONG_LINES {
        check_long(rt, rt.alloc(), head, piece, *times, text);
    }
    let deep = repeated(rt, rt.alloc(), b"find ", b"!", 64);
    check_error_behind(rt, rt.alloc(), deep.as_slice(), b"a", "");
}

// Files, each with its first fault, if it has one.
const FILES: &[(&[u8], &str)] = &[
    (b"", ""),
    (b"\n\r\n   \n# \xff\n  #\nfind a\n\r", ""),
    (b"doc 4 x\ndoc 04 y\n", "error line 2: duplicate document\n"),
    (b"count a\ndoc 1 a\n", ""),
    (
        b"doc 1 a\nfind a\ndoc 01 b\n",
        "error line 3: duplicate document\n",
    ),
    (b"find a\n\ndoc\n", "error line 3: missing field\n"),
    (b"find A\ndoc x\nfind )\n", "error line 2: bad number\n"),
    (b"tick 10000000\ntick 1\n", "error line 2: too many ticks\n"),
    // What comes first of two faults in a line.
    (b"doc 1 a\ndoc 1 a-b\n", "error line 2: bad word\n"),
    (b"tick 10000000\ntick 0\n", "error line 2: bad number\n"),
    (b"tick 10000000\ntick 1 1\n", "error line 2: extra field\n"),
    (b"tick 9999999\ncancel 7\ntick 1\n", ""),
    (b"find red\nfind (re", "error line 2: bad expression\n"),
    (b"doc 5 a\nhi exists a\nlo exists b\n", ""),
    (
        b"doc 4294967295 a\nafter 4294967295 top 100 a\ncancel 50000\ntick 10000000\nfind aaaaaaaaaaaaaaaaaaaaaaaaaaaaaaaa\n",
        "",
    ),
];

#[test]
fn first_fault_of_a_file(rt: HostRuntime) {
    let rt = &rt;
    for (text, wanted) in FILES {
        check_error(rt, rt.alloc(), text, wanted);
    }
}

// The id of the document in a line, how many words it has, and the first one.
fn document(line: Option<&Line>) -> Option<(u32, usize, Word)> {
    let Some(Line::Doc(doc)) = line else {
        return None;
    };
    let first = doc.words.as_slice().first()?;
    Some((doc.id, doc.words.len(), *first))
}

fn prio_of(line: Option<&Line>) -> Option<Prio> {
    match line {
        Some(Line::Query(query)) => Some(query.prio),
        _ => None,
    }
}

fn accepted<R: Abort>(rt: &R, alloc: Global, text: &[u8]) -> Input {
    match read(alloc, text, 64) {
        Ok(input) => input,
        Err(_) => rt.panic("the text is refused"),
    }
}

#[test]
fn capitals_carriage_returns_and_comments(rt: HostRuntime) {
    let rt = &rt;
    let text = b"DOC  1 Red\r\n\r\n# note\r\nHI find RED";
    let input = accepted(rt, rt.alloc(), text);
    let red = Word::new(b"red").expect(rt, "a word");
    let first = document(input.lines.get(0));
    let second = prio_of(input.lines.get(1));
    let expected = (2, Some((1, 1, red)), Some(Prio::Hi));
    same(rt, (input.lines.len(), first, second), expected);
}

// The fault of a text over so many shards.
fn fault_over(alloc: Global, text: &[u8], shards: u32) -> Option<InputFault>
    requires at_least_one { 1 ≤ shards }
    requires at_most_64 { shards ≤ 64 }
{
    read(alloc, text, shards).err()
}

// So many queries, over 64 shards and over 63.
fn check_queries<R: Abort>(rt: &R, alloc: Global, queries: usize, faults: [Option<InputFault>; 2]) {
    let text = repeated(rt, alloc, b"", b"count a\n", queries);
    let more = fault_over(alloc, text.as_slice(), 64);
    let fewer = fault_over(alloc, text.as_slice(), 63);
    same(rt, [more, fewer], faults);
}

#[test]
fn queries_times_shards(rt: HostRuntime) {
    let rt = &rt;
    let bad = BadInput {
        line: 4_097,
        kind: BadKind::Limit(Limit::Tasks),
    };
    check_queries(rt, rt.alloc(), 4_096, [None, None]);
    let faults = [Some(InputFault::Bad(bad)), None];
    check_queries(rt, rt.alloc(), 4_097, faults);
}

// Lines behind as many queries as there may be, each with its fault.
const BEHIND_QUERIES: &[(&[u8], &str)] = &[
    (b"", ""),
    (b"count a\n", "error line 50001: too many queries\n"),
    (b"count )\n", "error line 50001: bad expression\n"),
];

// Lines behind a text, each with its fault.
fn check_behind<R: Abort>(rt: &R, alloc: Global, text: &[u8], lines: &[(&[u8], &str)]) {
    for (line, wanted) in lines {
        check_error_behind(rt, alloc, text, line, wanted);
    }
}

#[test]
fn as_many_queries_as_there_may_be(rt: HostRuntime) {
    let rt = &rt;
    let text = repeated(rt, rt.alloc(), b"", b"count a\n", 50_000);
    check_behind(rt, rt.alloc(), text.as_slice(), BEHIND_QUERIES);
}

fn document_line<R: Abort>(rt: &R, alloc: Global, id: u32) -> String {
    format!(in alloc; "doc {id}\n").expect(rt, "memory")
}

// Documents with the ids below this one.
fn documents<R: Abort>(rt: &R, alloc: Global, count: u32) -> Vec<u8> {
    let mut text = Vec::new(alloc);
    for id in 0..count {
        let line = document_line(rt, alloc, id);
        append(rt, &mut text, line.as_bytes());
    }
    text
}

// Lines behind as many documents as there may be, each with its fault.
const BEHIND_DOCUMENTS: &[(&[u8], &str)] = &[
    (b"", ""),
    (b"doc 199999\n", "error line 200001: duplicate document\n"),
    (b"doc 200000\n", "error line 200001: too many documents\n"),
];

#[test]
fn as_many_documents_as_there_may_be(rt: HostRuntime) {
    let rt = &rt;
    let text = documents(rt, rt.alloc(), 200_000);
    check_behind(rt, rt.alloc(), text.as_slice(), BEHIND_DOCUMENTS);
}

// Texts, each with its canonical one.
const TEXTS: &[(&[u8], &str)] = &[
    (
        b"DOC 04 B  a\nafter 7 mid find ((a|b) c)\nLO top 03 a\n",
        "doc 4 b a\nafter 7 find (a | b) c\nlo top 3 a\n",
    ),
    (
        b"# note\n\ndoc 7\r\nTICK 0001\ncancel 02\nhi  count !(!a)|b\n",
        "doc 7\ntick 1\ncancel 2\nhi count !!a | b\n",
    ),
    (
        b"exists (a (b c)) !(d|(e|f))\nfind (((a|b)))|((c d) e)",
        "exists a (b c) !(d | (e | f))\nfind a | b | c d e\n",
    ),
];

// The canonical text of a text, or nothing where it is refused.
fn canonical<R: Abort>(rt: &R, alloc: Global, text: &[u8]) -> Vec<u8> {
    match read(alloc, text, 4) {
        Ok(input) => write_input(alloc, &input).expect(rt, "memory"),
        Err(_) => Vec::new(alloc),
    }
}

fn check_canonical<R: Abort>(rt: &R, alloc: Global, text: &[u8], wanted: &str) {
    let written = canonical(rt, alloc, text);
    same_text(rt, written.as_slice(), wanted);
}

#[test]
fn canonical_texts(rt: HostRuntime) {
    let rt = &rt;
    for (text, wanted) in TEXTS {
        check_canonical(rt, rt.alloc(), text, wanted);
    }
}

// The line of a reply.
fn check_line<R: Abort>(rt: &R, alloc: Global, number: u64, reply: Reply, wanted: &str) {
    let line = reply_line(alloc, number, &reply).expect(rt, "memory");
    same_text(rt, line.as_slice(), wanted);
}

fn list_of<X: Copy, R: Abort>(rt: &R, alloc: Global, items: &[X]) -> List<X> {
    match items.to_vec(alloc) {
        Ok(items) => List::from_vec(items),
        Err(_) => rt.panic("memory"),
    }
}

// What was found, with the number and the line of its reply.
const FOUND: &[(u64, &[u32], &str)] = &[(1, &[4, 7], "1 find 2: 4 7\n"), (2, &[], "2 find 0:\n")];

// These ids are all that was found.
#[test]
fn lines_of_what_was_found(rt: HostRuntime) {
    let rt = &rt;
    let alloc = rt.alloc();
    for (number, ids, wanted) in FOUND {
        let found = Reply::Find(Hits {
            ids: list_of(rt, alloc, ids),
            total: ids.len() as u64,
        });
        check_line(rt, alloc, *number, found, wanted);
    }
}

// What was ranked.
const RANKED: &[(u64, &[(u32, u64)], &str)] = &[
    (6, &[(103, 2), (101, 1)], "6 top 2: 103=2 101=1\n"),
    (7, &[], "7 top 0:\n"),
];

#[test]
fn lines_of_what_was_ranked(rt: HostRuntime) {
    let rt = &rt;
    let alloc = rt.alloc();
    for (number, scores, wanted) in RANKED {
        let ranked = Reply::Top(list_of(rt, alloc, scores));
        check_line(rt, alloc, *number, ranked, wanted);
    }
}

#[test]
fn lines_of_replies(rt: HostRuntime) {
    let rt = &rt;
    let alloc = rt.alloc();
    let most = Reply::Count(18_446_744_073_709_551_615);
    check_line(rt, alloc, 3, most, "3 count 18446744073709551615\n");
    check_line(rt, alloc, 4, Reply::Present(true), "4 exists yes\n");
    check_line(rt, alloc, 5, Reply::Present(false), "5 exists no\n");
    check_line(rt, alloc, 50_000, Reply::Cancelled, "50000 cancelled\n");
}
