//! The shards of all documents, one after another or beside each other.
ghost use Rattle.std.specs.Prelude.{◌≡◌, ◌+◌, ◌++◌, ◌<◌, ◌≤◌, ◌^◌, List, Ok, IfOk, OnOk, length, map};
ghost use Rattle.fan_base.specs.declared.doc.Doc.{Doc};
ghost use Rattle.word_table.specs.Tables.{IsTableOf};
ghost use Rattle.shard_index.specs.Standing.{AreShort, StandsFor};
ghost use Rattle.query_parts.specs.Parts.{AreShards, StandFrom};

use crate::among::push;
use fan_base::Memory;
use shard_index::Shard;
use std::alloc::Global;
use std::thread::{Threads, map_indices};
use word_table::DocTable;

/// How many shards are built beside each other at most: while one is built, it has a vector as long as the dictionary.
const MOST_BESIDE: u32 = 8;

/// So many shards of a table's documents, 1 to 64, in the order of their numbers, up to eight built beside each other, each on a thread
/// of its own where one can be made. They share the table's dictionary.
pub fn build_shards_beside<R: Threads + Sync>(
    rt: &R,
    alloc: Global,
    table: &DocTable,
    shards: u32,
) -> Result<Vec<Shard>, Memory>
    requires some { 1 ≤ shards }
    requires many { shards ≤ 64 }
    requires table { (docs : List Doc) × IsTableOf table.now docs × (length docs < 2 ^ 32) × AreShort docs }
    ensures shards { (docs : List Doc) → IsTableOf table.now docs → IfOk result (λ all. AreShards all.items docs) }
    ensures many { IfOk result (λ all. length all.items ≡ shards) }
{
    let mut all = Vec::new(alloc);
    let mut first = 0;
    'first: while first < shards {
        let count = MOST_BESIDE.min(shards - first);
        let more = build_some(rt, alloc, table, shards, first, count)?;
        put_behind(&mut all, more)?;
        first += count;
    }
    Ok(all)
}

/// The shards with so many numbers from the first on, of so many shards in all.
fn build_some<R: Threads + Sync>(
    rt: &R,
    alloc: Global,
    table: &DocTable,
    shards: u32,
    first: u32,
    count: u32,
) -> Result<Vec<Shard>, Memory>
    requires within { first + count ≤ shards }
    requires many { shards ≤ 64 }
    requires table { (docs : List Doc) × IsTableOf table.now docs × (length docs < 2 ^ 32) × AreShort docs }
    ensures stand { (docs : List Doc) → IsTableOf table.now docs → IfOk result (λ some. StandFrom some.items docs shards first) }
    ensures many { IfOk result (λ some. length some.items ≡ count) }
{
    let one = |number: usize| -> Result<Shard, Memory>
        requires { (first + number < shards) × (shards ≤ 64) × ((docs : List Doc) × IsTableOf table.now docs × (length docs < 2 ^ 32) × AreShort docs) }
        ensures { (docs : List Doc) → IsTableOf table.entry.now docs → IfOk result (λ shard. StandsFor shard docs shards (first + number)) }
    { Shard::of_table(alloc, table, shards, first + number as u32) };
    let made = map_indices(rt, alloc, count as usize, &one)?;
    all_made(alloc, made)
}

/// All shards, where each was made.
fn all_made(alloc: Global, made: Vec<Result<Shard, Memory>>) -> Result<Vec<Shard>, Memory>
    ensures { IfOk result (λ all. map Ok all.items ≡ made.items) }
{
    let mut all = Vec::new(alloc);
    for shard in made {
        push(&mut all, shard?)?;
    }
    Ok(all)
}

/// Puts shards behind the others.
fn put_behind(all: &mut Vec<Shard>, more: Vec<Shard>) -> Result<(), Memory>
    ensures { OnOk result (all.new.items ≡ all.old.items ++ more.items) }
{
    for shard in more {
        push(all, shard)?;
    }
    Ok(())
}
