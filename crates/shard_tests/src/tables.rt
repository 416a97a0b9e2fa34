// Shards of a table beside shards of the documents themselves.
ghost use Rattle.std.specs.Prelude.{◌≡◌, ◌*◌, ◌<◌, ◌≤◌, ◌^◌, IfOk, length};
ghost use Rattle.query_model.specs.Limits.{most_words};
ghost use Rattle.word_table.specs.Tables.{IsTableOf};
ghost use Rattle.shard_index.specs.Standing.{AreShort, Stands, StandsFor};

use crate::documents::{check_sizes, expression, same, words_of};
use crate::drawn::{ASKED, drawn_docs};
use fan_base::{Doc, Docs, Memory, Words};
use query_expr::Expr;
use query_model::Hits;
use shard_index::{Counts, Shard};
use std::alloc::{AllocError, Global};
use std::process::Abort;
use word_table::{Dictionary, DocTable, numbers_stay};

/// A table of the documents.
fn table_of(alloc: Global, docs: &[Doc]) -> Result<DocTable, AllocError>
    requires few { length docs.now * most_words ≤ 2 ^ 32 }
    requires short { AreShort docs.now }
    ensures { IfOk result (λ table. IsTableOf table docs.now) }
{
    numbers_stay();
    let mut dictionary = Dictionary::new(alloc);
    let mut numbered = Vec::new(alloc);
    for doc in docs {
        let one = dictionary.number_doc(doc)?;
        numbered.push(one)?;
    }
    DocTable::new(alloc, dictionary, numbered)
}

/// The shard of the documents.
fn shard_of_docs<R: Abort>(rt: &R, alloc: Global, docs: &Docs, shards: u32, no: u32) -> Shard
    requires number { no < shards }
    requires shards { shards ≤ 64 }
    requires few { length docs.now * most_words ≤ 2 ^ 32 }
    requires short { AreShort docs.now }
    ensures { StandsFor result docs.now shards no }
{
    Shard::build(alloc, docs, shards, no).expect(rt, "memory")
}

/// The shard of their table.
fn shard_of_table(
    alloc: Global,
    docs: &Docs,
    table: &DocTable,
    shards: u32,
    no: u32,
) -> Result<Shard, Memory>
    requires number { no < shards }
    requires shards { shards ≤ 64 }
    requires few { length docs.now * most_words ≤ 2 ^ 32 }
    requires short { AreShort docs.now }
    requires table { IsTableOf table.now docs.now }
    ensures { IfOk result (λ shard. StandsFor shard docs.now shards no) }
{
    Shard::of_table(alloc, table, shards, no)
}

fn hits_of<R: Abort>(rt: &R, shard: &Shard, e: &Expr, before: u32) -> Hits
    requires { Stands shard.now }
{
    shard.find(e, before).expect(rt, "memory")
}

fn counts_of<R: Abort>(rt: &R, shard: &Shard, words: &Words, before: u32) -> Counts
    requires { Stands shard.now }
{
    shard.counts(words, before).expect(rt, "memory")
}

/// Compares what both shards find before a line.
fn check_find<R: Abort>(
    rt: &R,
    alloc: Global,
    own: &Shard,
    shared: &Shard,
    asked: &str,
    before: u32,
)
    requires own { Stands own.now }
    requires shared { Stands shared.now }
{
    let e = expression(rt, alloc, asked);
    let wanted = hits_of(rt, own, &e, before);
    let hits = hits_of(rt, shared, &e, before);
    same(
        rt,
        (asked, before, hits.total, hits.ids.as_slice()),
        (asked, before, wanted.total, wanted.ids.as_slice()),
    );
}

/// Compares what both shards count before a line.
fn check_counts<R: Abort>(rt: &R, own: &Shard, shared: &Shard, words: &Words, before: u32)
    requires own { Stands own.now }
    requires shared { Stands shared.now }
{
    let wanted = counts_of(rt, own, words, before);
    let counts = counts_of(rt, shared, words, before);
    same(
        rt,
        (before, counts.any, counts.with.as_slice()),
        (before, wanted.any, wanted.with.as_slice()),
    );
}

/// Compares what both shards answer.
fn check_both<R: Abort>(rt: &R, alloc: Global, own: &Shard, shared: &Shard)
    requires own { Stands own.now }
    requires shared { Stands shared.now }
{
    let words = words_of(rt, alloc, "a b c d e a");
    for before in [0, 1, 40, 131, 133] {
        for asked in ASKED {
            check_find(rt, alloc, own, shared, asked, before);
        }
        check_counts(rt, own, shared, &words, before);
    }
}

/// Compares the shard of the documents with that of their table.
fn check_shard<R: Abort>(rt: &R, alloc: Global, docs: &Docs, table: &DocTable, shards: u32, no: u32)
    requires number { no < shards }
    requires shards { shards ≤ 64 }
    requires few { length docs.now * most_words ≤ 2 ^ 32 }
    requires short { AreShort docs.now }
    requires table { IsTableOf table.now docs.now }
{
    let own = shard_of_docs(rt, alloc, docs, shards, no);
    let shared = shard_of_table(alloc, docs, table, shards, no).expect(rt, "memory");
    check_both(rt, alloc, &own, &shared);
}

#[test]
fn shards_of_a_table_answer_as_those_of_the_documents(rt: HostRuntime) {
    let rt = &rt;
    let alloc = rt.alloc();
    let docs = drawn_docs(rt, alloc);
    check_sizes(rt, docs.as_slice());
    let table = table_of(alloc, docs.as_slice()).expect(rt, "memory");
    for count in [1, 3, 64] {
        for number in 0..count {
            check_shard(rt, alloc, &docs, &table, count, number);
        }
    }
}
