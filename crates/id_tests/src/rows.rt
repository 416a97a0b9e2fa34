// Rows of calls, each with the answer that it must give.
ghost use Rattle.std.specs.Prelude.{◌≡◌, ◌<◌};

use id_table::IdTable;
use std::alloc::Global;
use std::test::Fail;

// A call and its answer.
#[derive(Clone, Copy, Debug)]
enum Call {
    // An id that isn't held, and its value.
    Insert(u64, u32),
    Get(u64, Option<u32>),
    Remove(u64, Option<u32>),
    Len(usize),
}

fn insert(table: &mut IdTable<u32>, id: u64, value: u32) -> Result<bool, Fail> {
    if table.get(id).is_some() {
        return Ok(false);
    }
    let Ok(()) = table.insert(id, value) else {
        return Err(Fail::new(format_args!("no memory")));
    };
    Ok(true)
}

fn answers(table: &mut IdTable<u32>, call: Call) -> Result<bool, Fail> {
    match call {
        Call::Insert(id, value) => insert(table, id, value),
        Call::Get(id, value) => Ok(table.get(id).copied() == value),
        Call::Remove(id, value) => Ok(table.remove(id) == value),
        Call::Len(len) => Ok(table.len() == len && table.is_empty() == (len == 0)),
    }
}

const ROW: [Call; 21] = [
    Call::Get(0, None),
    Call::Remove(0, None),
    Call::Len(0),
    Call::Insert(0, 0),
    Call::Insert(u64::MAX, u32::MAX),
    Call::Insert(7, 12),
    Call::Len(3),
    Call::Get(0, Some(0)),
    Call::Get(u64::MAX, Some(u32::MAX)),
    Call::Remove(7, Some(12)),
    Call::Insert(7, 13),
    Call::Get(7, Some(13)),
    Call::Remove(0, Some(0)),
    Call::Get(0, None),
    Call::Get(7, Some(13)),
    Call::Insert(0, 5),
    Call::Remove(u64::MAX, Some(u32::MAX)),
    Call::Len(2),
    Call::Remove(7, Some(13)),
    Call::Insert(7, 1),
    Call::Get(7, Some(1)),
];

// Ids below, at and above 2^32, and ids with the same lower half.
const BOUND: [Call; 21] = [
    Call::Insert(4_294_967_295, 1),
    Call::Insert(4_294_967_296, 2),
    Call::Insert(u64::MAX, 3),
    Call::Insert(0, 4),
    Call::Len(4),
    Call::Get(4_294_967_295, Some(1)),
    Call::Get(4_294_967_296, Some(2)),
    Call::Get(u64::MAX, Some(3)),
    Call::Get(0, Some(4)),
    Call::Get(1, None),
    Call::Get(4_294_967_297, None),
    Call::Remove(0, Some(4)),
    Call::Get(4_294_967_296, Some(2)),
    Call::Remove(4_294_967_295, Some(1)),
    Call::Remove(u64::MAX, Some(3)),
    Call::Remove(u64::MAX, None),
    Call::Len(1),
    Call::Get(4_294_967_296, Some(2)),
    Call::Remove(4_294_967_296, Some(2)),
    Call::Get(4_294_967_296, None),
    Call::Len(0),
];

fn run(alloc: Global, row: &[Call]) -> Result<(), Fail> {
    let mut table = IdTable::new(alloc);
    for call in row {
        if !answers(&mut table, *call)? {
            return Err(Fail::new(format_args!("{call:?}")));
        }
    }
    Ok(())
}

#[test]
fn rows_of_calls(rt: HostRuntime) -> Result<(), Fail> {
    run(rt.alloc(), &ROW)?;
    run(rt.alloc(), &BOUND)
}

// The ids of a run of 300.
fn id_of(first: u64, step: u64, k: u32) -> u64 {
    first.wrapping_add(step.wrapping_mul(k as u64))
}

fn fill_up(alloc: Global, first: u64, step: u64) -> Result<bool, Fail> {
    let mut table = IdTable::new(alloc);
    for k in 0..300u32 {
        if !insert(&mut table, id_of(first, step, k), k)? {
            return Ok(false);
        }
    }
    for k in 0..300u32 {
        if table.remove(id_of(first, step, k)) != Some(k) {
            return Ok(false);
        }
    }
    Ok(table.is_empty())
}

// Ids that begin far apart, all at one cell, and at neighbours, and ids on both sides of 2^32.
#[test]
fn ids_in_a_run(rt: HostRuntime) -> Result<(), Fail> {
    for step in [1, 4096, 0xf1de_83e1_9937_733d, 0x33d0_0000_0000_0000] {
        if !fill_up(rt.alloc(), 0, step)? {
            return Err(Fail::new(format_args!("step {step}")));
        }
    }
    if !fill_up(rt.alloc(), 4_294_967_146, 1)? {
        return Err(Fail::new(format_args!("from 4294967146")));
    }
    Ok(())
}
