// Queries whose replies are known, answered part by part, with the marks of the parts.
ghost use Rattle.std.specs.Prelude.{length};
ghost use Rattle.query_parts.specs.Merging.{AreAsked};
ghost use Rattle.query_parts.specs.Parts.{AreShards};

use crate::documents::{check_sizes, docs_of, expression, put, same, words_of};
use fan_base::{Docs, Numbers};
use query_model::Ask;
use query_parts::{answer_by_parts, answer_part, build_shards};
use query_text::reply_line;
use shard_index::Shard;
use std::alloc::Global;
use std::process::Abort;

type Documents = &'static [(u32, &'static str)];

const FRUIT: Documents = &[(7, "red apple"), (4, "red"), (9, "green")];

const LETTERS: Documents = &[(1, "a b"), (2, "a b"), (3, "c")];

const CATALOGUE: Documents = &[
    (101, "the quick brown fox"),
    (102, "the lazy dog"),
    (103, "quick dog training"),
];

fn ask_of<R: Abort>(rt: &R, alloc: Global, asked: &str, text: &str) -> Ask {
    match asked {
        "find" => Ask::Find(expression(rt, alloc, text)),
        "count" => Ask::Count(expression(rt, alloc, text)),
        "exists" => Ask::Present(expression(rt, alloc, text)),
        "top 2" => Ask::Top(2, words_of(rt, alloc, text)),
        _ => Ask::Top(5, words_of(rt, alloc, text)),
    }
}

// The documents in four shards.
fn four_shards<R: Abort>(rt: &R, alloc: Global, docs: &Docs) -> Vec<Shard>
    ensures { AreShards result.items docs.now }
{
    check_sizes(rt, docs.as_slice());
    build_shards(alloc, docs, 4).expect(rt, "memory")
}

// Compares the marks of the parts.
fn check_marks<R: Abort>(
    rt: &R,
    alloc: Global,
    shards: &[Shard],
    ask: &Ask,
    before: u32,
    wanted: [u64; 4],
)
    requires { AreAsked shards.now before }
{
    let mut marks = Numbers::new(alloc);
    for shard in shards {
        let part = answer_part(shard, ask, before).expect(rt, "memory");
        put(rt, &mut marks, part.mark());
    }
    same(rt, marks.as_slice(), wanted.as_slice());
}

// Compares the line of the reply.
fn check_reply<R: Abort>(
    rt: &R,
    alloc: Global,
    shards: &[Shard],
    ask: &Ask,
    before: u32,
    wanted: &str,
)
    requires { AreAsked shards.now before }
{
    let reply = answer_by_parts(alloc, shards, ask, before).expect(rt, "memory");
    let line = reply_line(alloc, 1, &reply).expect(rt, "memory");
    same(rt, line.as_slice(), wanted.as_bytes());
}

// Documents, what is asked of the first of them, the line of the reply, and the marks of the parts.
const ROWS: &[(Documents, u32, &str, &str, &str, [u64; 4])] = &[
    (FRUIT, 2, "find", "red", "1 find 2: 4 7\n", [1, 1, 0, 0]),
    (FRUIT, 3, "find", "! red", "1 find 1: 9\n", [0, 0, 1, 0]),
    (
        FRUIT,
        3,
        "count",
        "! red | red",
        "1 count 3\n",
        [1, 1, 1, 0],
    ),
    (FRUIT, 0, "count", "red", "1 count 0\n", [0, 0, 0, 0]),
    (FRUIT, 1, "exists", "red", "1 exists yes\n", [1, 0, 0, 0]),
    (FRUIT, 3, "exists", "blue", "1 exists no\n", [0, 0, 0, 0]),
    (
        LETTERS,
        3,
        "top 2",
        "a b zzz",
        "1 top 2: 1=2 2=2\n",
        [1, 1, 0, 0],
    ),
    (LETTERS, 3, "top 5", "c", "1 top 1: 3=3\n", [0, 0, 1, 0]),
    (LETTERS, 1, "top 5", "a a a", "1 top 1: 1=1\n", [1, 0, 0, 0]),
    (
        LETTERS,
        3,
        "top 5",
        "c b c",
        "1 top 3: 3=3 1=1 2=1\n",
        [1, 1, 1, 0],
    ),
    (
        LETTERS,
        3,
        "top 5",
        "a b c a b c a b c a b c a b c a b c a b c a b c a b c a b c a b c a b c",
        "1 top 3: 3=3 1=2 2=2\n",
        [1, 1, 1, 0],
    ),
    (
        CATALOGUE,
        3,
        "find",
        "quick ! fox",
        "1 find 1: 103\n",
        [0, 0, 1, 0],
    ),
    (
        CATALOGUE,
        3,
        "top 2",
        "quick dog",
        "1 top 2: 103=2 101=1\n",
        [1, 1, 1, 0],
    ),
];

// Compares the line of the reply over the first `before` of these documents, in four shards, and the marks of the parts.
fn check_row<R: Abort>(
    rt: &R,
    alloc: Global,
    docs: &Docs,
    before: u32,
    ask: &Ask,
    line: &str,
    marks: [u64; 4],
) {
    assert!(rt; docs.len() >= before as usize);
    let shards = four_shards(rt, alloc, docs);
    check_marks(rt, alloc, shards.as_slice(), ask, before, marks);
    check_reply(rt, alloc, shards.as_slice(), ask, before, line);
}

#[test]
fn replies_and_marks_of_worked_documents(rt: HostRuntime) {
    let rt = &rt;
    let alloc = rt.alloc();
    for (table, before, asked, text, line, marks) in ROWS {
        let docs = docs_of(rt, alloc, table);
        let ask = ask_of(rt, alloc, asked, text);
        check_row(rt, alloc, &docs, *before, &ask, line, *marks);
    }
}
