// What the files of tests make: documents, expressions, shards, and what shards answer.
ghost use Rattle.std.specs.Prelude.{◌≡◌, ◌*◌, ◌≤◌, ◌^◌, length, nat_le};
ghost use Rattle.std.specs.List.{list_all};
ghost use Rattle.query_model.specs.Limits.{most_words};
ghost use Rattle.shard_index.specs.Standing.{AreShort, StandForAll, StandForSome, StandsFor};

use fan_base::{Doc, Docs, List, Scores, Word, Words};
use query_expr::{Expr, Token, parse};
use query_model::limits::{MOST_DOCUMENTS, MOST_WORDS};
use query_model::{Ask, Hits, Reply};
use shard_index::{Shard, Shards};
use std::alloc::Global;
use std::fmt::Debug;
use std::process::Abort;

/// Compares two values. A test compares by this, since each assertion that a body makes of its own makes that body dearer to prove.
pub fn same<T: PartialEq + Debug + Copy, R: Abort>(rt: &R, found: T, expected: T) {
    assert_eq!(rt; found, expected);
}

/// Puts an item behind the others of a list.
pub fn put<X, R: Abort>(rt: &R, list: &mut List<X>, item: X) {
    match list.push(item) {
        Ok(()) => {}
        Err(_) => rt.panic("memory"),
    }
}

/// The word that a text is.
pub fn word_of<R: Abort>(rt: &R, text: &[u8]) -> Word {
    Word::new(text).expect(rt, "a word")
}

/// The words of a text, which single spaces part.
pub fn words_of<R: Abort>(rt: &R, alloc: Global, text: &str) -> Words {
    let mut words = Words::new(alloc);
    for part in text.split(' ') {
        put(rt, &mut words, word_of(rt, part.as_bytes()));
    }
    words
}

fn token_of<R: Abort>(rt: &R, text: &str) -> Token {
    match text {
        "|" => Token::Bar,
        "!" => Token::Bang,
        "(" => Token::Left,
        ")" => Token::Right,
        word => Token::Word(word_of(rt, word.as_bytes())),
    }
}

/// The expression that a text is, whose tokens single spaces part.
pub fn expression<R: Abort>(rt: &R, alloc: Global, text: &str) -> Expr {
    let mut tokens = List::new(alloc);
    for part in text.split(' ') {
        put(rt, &mut tokens, token_of(rt, part));
    }
    parse(alloc, tokens.as_slice()).expect(rt, "an expression")
}

/// The documents of a table of ids and texts.
pub fn docs_of<R: Abort>(rt: &R, alloc: Global, table: &[(u32, &str)]) -> Docs {
    let mut docs = Docs::new(alloc);
    for (id, text) in table {
        let words = words_of(rt, alloc, text);
        put(rt, &mut docs, Doc { id: *id, words });
    }
    docs
}

/// Whether no document has more than 1,000 words.
fn are_short(docs: &[Doc]) -> bool
    ensures { result ≡ list_all (λ doc. nat_le (length doc.words) most_words) docs.now }
{
    docs.iter().all(|doc| doc.words.len() <= MOST_WORDS)
}

/// Documents as an index wants them: few enough, and short.
#[tactic(auto, using(crate::proofs::Short::all_short))]
pub fn check_sizes<R: Abort>(rt: &R, docs: &[Doc])
    ensures few { length docs.now * most_words ≤ 2 ^ 32 }
    ensures short { AreShort docs.now }
{
    assert!(rt; docs.len() <= MOST_DOCUMENTS && are_short(docs));
}

/// So many shards of the documents.
pub fn shards_of<R: Abort>(rt: &R, alloc: Global, docs: &Docs, shards: u32) -> Shards
    requires some { 1 ≤ shards }
    requires many { shards ≤ 64 }
    ensures { StandForAll result docs.now }
{
    check_sizes(rt, docs.as_slice());
    Shards::build(alloc, docs, shards).expect(rt, "memory")
}

/// One shard of all documents.
pub fn one_shard<R: Abort>(rt: &R, alloc: Global, docs: &Docs) -> Shard
    ensures { StandsFor result docs.now 1 0 }
{
    check_sizes(rt, docs.as_slice());
    Shard::build(alloc, docs, 1, 0).expect(rt, "memory")
}

fn answer_of<R: Abort>(rt: &R, shards: &Shards, ask: &Ask, before: u32) -> Reply
    requires { StandForSome shards.now }
{
    shards.answer(ask, before).expect(rt, "memory")
}

/// What the shards find.
pub fn found<R: Abort>(rt: &R, shards: &Shards, ask: &Ask, before: u32) -> Hits
    requires { StandForSome shards.now }
{
    match answer_of(rt, shards, ask, before) {
        Reply::Find(hits) => hits,
        _ => rt.panic("no hits"),
    }
}

/// What ranks first.
pub fn ranked<R: Abort>(rt: &R, shards: &Shards, ask: &Ask, before: u32) -> Scores
    requires { StandForSome shards.now }
{
    match answer_of(rt, shards, ask, before) {
        Reply::Top(scores) => scores,
        _ => rt.panic("no scores"),
    }
}
