// Drawn documents, of which shards have to say what a plain shard says that looks at each of them.
ghost use Rattle.std.specs.Prelude.{◌≤◌};
ghost use Rattle.shard_index.specs.Standing.{StandForAll, StandForSome};

use crate::documents::{expression, found, put, ranked, same, shards_of, word_of, words_of};
use crate::plain::PlainShard;
use fan_base::{Doc, Docs, Numbers, Word, Words};
use query_expr::Expr;
use query_model::Ask;
use shard_index::{Counts, Shards};
use std::alloc::Global;
use std::process::Abort;

/// What is asked of documents: of the first n of them for every n below `end`.
struct Questions {
    finds: &'static [&'static str],
    tops: &'static [(u32, &'static str)],
    counts: &'static [&'static str],
    end: u32,
}

const TEXTS: [&str; 7] = ["a b", "a c a", "b c", "c", "d a a a", "b d", "a b c d"];

pub const ASKED: [&str; 8] = [
    "a",
    "e",
    "! a",
    "a b",
    "a | b",
    "! a ! b",
    "! ( a b ) | c",
    "a ( b | ! c ) | ! ( a | d )",
];

const OF_DRAWN: Questions = Questions {
    finds: &ASKED,
    tops: &[(3, "a"), (100, "c a"), (7, "d e b"), (200, "d")],
    counts: &["a b c d e a", "d", "e"],
    end: 135,
};

// A word so many times.
fn one_word<R: Abort>(rt: &R, alloc: Global, text: &[u8], times: u32) -> Words {
    let mut words = Words::new(alloc);
    for _ in 0..times {
        put(rt, &mut words, word_of(rt, text));
    }
    words
}

/// 133 documents whose ids don't come in order, some with a word several times, one of 1,000 words and one of none.
pub fn drawn_docs<R: Abort>(rt: &R, alloc: Global) -> Docs {
    let mut docs = Docs::new(alloc);
    for i in 0..131u32 {
        let id = (i * 37 + 11) % 131;
        let words = words_of(rt, alloc, TEXTS[i as usize * 5 % 7]);
        put(rt, &mut docs, Doc { id, words });
    }
    // The greatest document, and an empty one.
    let words = one_word(rt, alloc, b"d", 1000);
    put(rt, &mut docs, Doc { id: 132, words });
    let words = Words::new(alloc);
    put(rt, &mut docs, Doc { id: 131, words });
    docs
}

const FREQUENT: [&str; 7] = ["f", "f g", "f f", "g", "f g f", "f", "h"];

const OF_ASCENDING: Questions = Questions {
    finds: &[
        "f",
        "r",
        "! r",
        "! f",
        "r f",
        "f r",
        "r ! f",
        "f ! r",
        "r | f",
        "! r ! f",
        "r ( f | ! g ) | h g",
    ],
    tops: &[(150, "f"), (5, "r"), (100, "r f"), (7, "g r h")],
    counts: &["f r", "h g r e"],
    end: 302,
};

// The text of one of 300 documents.
fn ascending_text(i: u32) -> &'static str {
    match i % 100 {
        41 => "r",
        53 => "r f r",
        99 => "g r",
        _ if i > 280 => "g",
        _ => FREQUENT[i as usize % 7],
    }
}

// 300 documents whose ids ascend. The word f stands in more than 16 times as many as r, but not in the last ones.
fn ascending_docs<R: Abort>(rt: &R, alloc: Global) -> Docs {
    let mut docs = Docs::new(alloc);
    for i in 0..300u32 {
        let id = i * 3 + 5;
        let words = words_of(rt, alloc, ascending_text(i));
        put(rt, &mut docs, Doc { id, words });
    }
    docs
}

const OF_MANY_WORDS: Questions = Questions {
    finds: &[
        "w0000",
        "w4999",
        "w2559 | w2560",
        "a w0255",
        "w0256 ! a",
        "! a",
    ],
    tops: &[(3, "a w3000"), (100, "w0150 w4095")],
    counts: &["w0000 a w4999", "w4096 w4097"],
    end: 101,
};

// One of ten thousand words.
fn numbered_word<R: Abort>(rt: &R, number: u32) -> Word {
    let mut text = *b"w0000";
    let mut rest = number;
    for place in [4, 3, 2, 1] {
        text[place] = b"0123456789"[(rest % 10) as usize];
        rest /= 10;
    }
    word_of(rt, &text)
}

// 50 words that no other document has; every third has one word more.
fn own_words<R: Abort>(rt: &R, alloc: Global, i: u32) -> Words
    requires { i ≤ 100 }
{
    let mut words = Words::new(alloc);
    for j in 0..50u32 {
        put(rt, &mut words, numbered_word(rt, i * 50 + j));
    }
    if i % 3 == 0 {
        put(rt, &mut words, word_of(rt, b"a"));
    }
    words
}

// 100 documents with 50 words each that no other has, so many that one shard sorts their places in two goes; every third has one word more.
fn docs_of_many_words<R: Abort>(rt: &R, alloc: Global) -> Docs {
    let mut docs = Docs::new(alloc);
    for i in 0..100u32 {
        let id = (i * 37 + 11) % 101;
        let words = own_words(rt, alloc, i);
        put(rt, &mut docs, Doc { id, words });
    }
    docs
}

/// Where shards are compared with the plain shard: how many shards, what is asked, and of how many documents.
type At<'t> = (usize, &'t str, u32);

/// Compares what is found, and for how many documents of all shards the expression holds.
fn check_find<R: Abort>(
    rt: &R,
    shards: &Shards,
    plain: &PlainShard,
    e: &Expr,
    ask: &Ask,
    at: At<'_>,
)
    requires { StandForAll shards.now plain.now.docs }
{
    let wanted = plain.find(e, at.2).expect(rt, "memory");
    let hits = found(rt, shards, ask, at.2);
    let total = count_together(rt, shards, plain, e, at.2);
    same(
        rt,
        (at, hits.total, total, hits.ids.as_slice()),
        (at, wanted.total, wanted.total, wanted.ids.as_slice()),
    );
}

/// Compares what is found among the first n documents, for every n below `end`.
fn check_finds<R: Abort>(rt: &R, shards: &Shards, plain: &PlainShard, text: &str, end: u32)
    requires { StandForAll shards.now plain.now.docs }
{
    let e = expression(rt, plain.alloc, text);
    let ask = Ask::Find(expression(rt, plain.alloc, text));
    let count = shards.as_slice().len();
    for before in 0..end {
        check_find(rt, shards, plain, &e, &ask, (count, text, before));
    }
}

/// Compares what ranks first.
fn check_top<R: Abort>(
    rt: &R,
    shards: &Shards,
    plain: &PlainShard,
    words: &Words,
    k: u32,
    ask: &Ask,
    at: At<'_>,
)
    requires { StandForSome shards.now }
{
    let wanted = plain.top(words, k, at.2).expect(rt, "memory");
    let scores = ranked(rt, shards, ask, at.2);
    same(rt, (at, scores.as_slice()), (at, wanted.as_slice()));
}

/// The same for every n below `end`.
fn check_tops<R: Abort>(rt: &R, shards: &Shards, plain: &PlainShard, k: u32, text: &str, end: u32)
    requires { StandForSome shards.now }
{
    let words = words_of(rt, plain.alloc, text);
    let ask = Ask::Top(k, words_of(rt, plain.alloc, text));
    let count = shards.as_slice().len();
    for before in 0..end {
        check_top(rt, shards, plain, &words, k, &ask, (count, text, before));
    }
}

/// Compares what all shards count together.
fn check_count<R: Abort>(rt: &R, shards: &Shards, plain: &PlainShard, words: &Words, at: At<'_>)
    requires { StandForAll shards.now plain.now.docs }
{
    let wanted = plain.counts(words, at.2).expect(rt, "memory");
    let counts = counts_together(rt, shards, plain, words, at.2);
    same(
        rt,
        (at, counts.any, counts.with.as_slice()),
        (at, wanted.any, wanted.with.as_slice()),
    );
}

/// The same for every n below `end`.
fn check_counts<R: Abort>(rt: &R, shards: &Shards, plain: &PlainShard, text: &str, end: u32)
    requires { StandForAll shards.now plain.now.docs }
{
    let words = words_of(rt, plain.alloc, text);
    let count = shards.as_slice().len();
    for before in 0..end {
        check_count(rt, shards, plain, &words, (count, text, before));
    }
}

/// For how many documents of all shards the expression holds.
fn count_together<R: Abort>(
    rt: &R,
    shards: &Shards,
    plain: &PlainShard,
    e: &Expr,
    before: u32,
) -> u64
    requires { StandForAll shards.now plain.now.docs }
{
    let mut total = 0u64;
    for shard in shards.as_slice() {
        total = total.saturating_add(shard.count(e, before).expect(rt, "memory"));
    }
    total
}

fn add_each(totals: &mut [u64], more: &[u64]) {
    for (total, more) in totals.iter_mut().zip(more) {
        *total = total.saturating_add(*more);
    }
}

/// What the shards of the plain shard's documents count, added up.
fn counts_together<R: Abort>(
    rt: &R,
    shards: &Shards,
    plain: &PlainShard,
    words: &Words,
    before: u32,
) -> Counts
    requires { StandForAll shards.now plain.now.docs }
{
    let mut with = zeros(rt, plain.alloc, words.len());
    let mut any = 0u64;
    for shard in shards.as_slice() {
        let counts = shard.counts(words, before).expect(rt, "memory");
        add_each(with.as_mut_slice(), counts.with.as_slice());
        any = any.saturating_add(counts.any);
    }
    Counts {
        with: Numbers::from_vec(with),
        any,
    }
}

fn zeros<R: Abort>(rt: &R, alloc: Global, count: usize) -> Vec<u64> {
    vec![in alloc; 0u64; count].expect(rt, "memory")
}

/// Asks so many shards what the plain shard is asked.
fn check_shards<R: Abort>(rt: &R, plain: &PlainShard, count: u32, asked: &Questions)
    requires some { 1 ≤ count }
    requires many { count ≤ 64 }
{
    let shards = shards_of(rt, plain.alloc, &plain.docs, count);
    for text in asked.finds {
        check_finds(rt, &shards, plain, text, asked.end);
    }
    for (k, text) in asked.tops {
        check_tops(rt, &shards, plain, *k, text, asked.end);
    }
    for text in asked.counts {
        check_counts(rt, &shards, plain, text, asked.end);
    }
}

/// Asks 1, 3 and 64 shards of the documents, and a plain shard of them.
fn check_docs<R: Abort>(rt: &R, alloc: Global, docs: Docs, asked: &Questions) {
    let plain = PlainShard::new(rt, alloc, docs);
    for count in [1, 3, 64] {
        check_shards(rt, &plain, count, asked);
    }
}

#[test]
fn shards_answer_as_a_plain_shard_does(rt: HostRuntime) {
    let rt = &rt;
    check_docs(rt, rt.alloc(), drawn_docs(rt, rt.alloc()), &OF_DRAWN);
}

#[test]
fn shards_of_ascending_ids_answer_as_a_plain_shard_does(rt: HostRuntime) {
    let rt = &rt;
    let docs = ascending_docs(rt, rt.alloc());
    check_docs(rt, rt.alloc(), docs, &OF_ASCENDING);
}

#[test]
fn a_shard_of_many_words_answers_as_a_plain_shard_does(rt: HostRuntime) {
    let rt = &rt;
    let docs = docs_of_many_words(rt, rt.alloc());
    check_docs(rt, rt.alloc(), docs, &OF_MANY_WORDS);
}
