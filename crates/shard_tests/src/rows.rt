// Questions whose answers are known.
ghost use Rattle.std.specs.Prelude.{◌≤◌};
ghost use Rattle.shard_index.specs.Counting.{DifferentWords};
ghost use Rattle.shard_index.specs.Standing.{StandForSome, Stands};

use crate::documents::{
    docs_of, expression, found, one_shard, put, ranked, same, shards_of, words_of,
};
use fan_base::{Docs, List, Scores, Words};
use query_model::Ask;
use shard_index::{Shard, Shards, each_once, merge_scores, merged_scores_are_the_whole};
use std::alloc::Global;
use std::process::Abort;

const FRUIT: &[(u32, &str)] = &[(7, "red apple"), (4, "red"), (9, "green")];

// Expressions, asked of the first documents, with the total and the ids that are to be found.
const FINDS: &[(&str, u32, u64, &[u32])] = &[
    ("red", 3, 2, &[4, 7]),
    ("blue", 3, 0, &[]),
    ("! red", 3, 1, &[9]),
    ("! red", 2, 0, &[]),
    ("! red", 0, 0, &[]),
    ("! red | red", 3, 3, &[4, 7, 9]),
    ("red | green", 1, 1, &[7]),
    ("apple red", 3, 1, &[7]),
    ("! apple ! green", 3, 1, &[4]),
    ("! apple", 9, 2, &[4, 9]),
];

// Compares the total and the ids that are found.
fn check_find<R: Abort>(
    rt: &R,
    alloc: Global,
    shards: &Shards,
    asked: &str,
    before: u32,
    wanted: (u64, &[u32]),
)
    requires { StandForSome shards.now }
{
    let ask = Ask::Find(expression(rt, alloc, asked));
    let hits = found(rt, shards, &ask, before);
    same(
        rt,
        (asked, hits.total, hits.ids.as_slice()),
        (asked, wanted.0, wanted.1),
    );
}

#[test]
fn finds_of_worked_documents(rt: HostRuntime) {
    let rt = &rt;
    let alloc = rt.alloc();
    let docs = docs_of(rt, alloc, FRUIT);
    let shards = shards_of(rt, alloc, &docs, 4);
    for (asked, before, total, ids) in FINDS {
        check_find(rt, alloc, &shards, asked, *before, (*total, *ids));
    }
}

// Documents, words asked of the first of them, and the scores that are to come.
const TOPS: &[(&[(u32, &str)], u32, u32, &str, &[(u32, u64)])] = &[
    (
        &[(1, "a b"), (2, "a b"), (3, "c")],
        3,
        2,
        "a b zzz",
        &[(1, 2), (2, 2)],
    ),
    (&[(1, "a b"), (2, "a b"), (3, "c")], 3, 5, "c", &[(3, 3)]),
    (&[(1, "a a"), (2, "a")], 2, 9, "a a", &[(1, 2), (2, 1)]),
    (&[(1, "a"), (2, "b")], 1, 2, "a", &[(1, 1)]),
    (&[(1, "a"), (2, "b")], 2, 2, "a", &[(1, 2)]),
    (
        &[(9, "a"), (5, "a"), (7, "a a")],
        3,
        2,
        "a",
        &[(7, 2), (5, 1)],
    ),
    (&[(1, "a"), (2, "b")], 0, 2, "a", &[]),
];

// Compares what ranks first in so many shards of the documents.
fn check_top<R: Abort>(
    rt: &R,
    alloc: Global,
    docs: &Docs,
    count: u32,
    before: u32,
    k: u32,
    words: &str,
    wanted: &[(u32, u64)],
)
    requires some { 1 ≤ count }
    requires many { count ≤ 64 }
{
    let shards = shards_of(rt, alloc, docs, count);
    let ask = Ask::Top(k, words_of(rt, alloc, words));
    let scores = ranked(rt, &shards, &ask, before);
    same(rt, (words, scores.as_slice()), (words, wanted));
}

#[test]
fn the_best_of_worked_documents(rt: HostRuntime) {
    let rt = &rt;
    let alloc = rt.alloc();
    for (table, before, k, words, wanted) in TOPS {
        let docs = docs_of(rt, alloc, table);
        for count in [1, 3] {
            check_top(rt, alloc, &docs, count, *before, *k, words, wanted);
        }
    }
}

// The words of a text, each once.
fn different_words<R: Abort>(rt: &R, alloc: Global, text: &str) -> Words
    ensures { DifferentWords result }
{
    merged_scores_are_the_whole();
    each_once(alloc, words_of(rt, alloc, text).as_slice()).expect(rt, "memory")
}

fn check_counts<R: Abort>(rt: &R, shard: &Shard, words: &Words, before: u32, with: &[u64], any: u64)
    requires { Stands shard.now }
{
    let counts = shard.counts(words, before).expect(rt, "memory");
    same(rt, (counts.with.as_slice(), counts.any), (with, any));
}

// The first two scores by the weights 1 and 3.
fn scores_by<R: Abort>(rt: &R, shard: &Shard, words: &Words, before: u32) -> Scores
    requires stands { Stands shard.now }
    requires differ { DifferentWords words.now }
{
    assert!(rt; words.len() == 2);
    shard.scores(words, &[1, 3], 2, before).expect(rt, "memory")
}

// The first two of these scores and of none.
fn merged_with_none<R: Abort>(rt: &R, alloc: Global, scores: Scores) -> Scores {
    let mut parts = List::new(alloc);
    put(rt, &mut parts, scores);
    put(rt, &mut parts, Scores::new(alloc));
    merge_scores(alloc, parts.as_slice(), 2).expect(rt, "memory")
}

#[test]
fn counts_and_scores_of_one_shard(rt: HostRuntime) {
    let rt = &rt;
    let alloc = rt.alloc();
    let docs = docs_of(rt, alloc, &[(1, "a b"), (2, "a b"), (3, "c")]);
    let shard = one_shard(rt, alloc, &docs);
    let words = different_words(rt, alloc, "a c");
    check_counts(rt, &shard, &words, 3, &[2, 1], 3);
    check_counts(rt, &shard, &words, 2, &[2, 0], 2);
    let all = scores_by(rt, &shard, &words, 3);
    same(rt, all.as_slice(), [(3, 3), (1, 1)].as_slice());
    let first = scores_by(rt, &shard, &words, 2);
    same(rt, first.as_slice(), [(1, 1), (2, 1)].as_slice());
    let merged = merged_with_none(rt, alloc, first);
    same(rt, merged.as_slice(), [(1, 1), (2, 1)].as_slice());
}
