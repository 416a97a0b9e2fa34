// Drawn calls on a table and on an ordered map, which give the same answers.
ghost use Rattle.std.specs.Prelude.{◌≡◌, ◌<◌};

use id_table::IdTable;
use std::alloc::Global;
use std::collections::BTreeMap;
use std::test::Fail;

// A number that is drawn from the one before.
fn draw(seed: &mut u64) -> u64 {
    *seed = seed
        .wrapping_mul(6364136223846793005)
        .wrapping_add(1442695040888963407);
    *seed >> 33
}

fn differ(id: u64) -> Result<(), Fail> {
    Err(Fail::new(format_args!("the table and the map differ at {id}")))
}

// What is in the box of an id.
fn seen(table: &IdTable<Box<u32>>, id: u64) -> Option<u32> {
    match table.get(id) {
        Some(value) => Some(**value),
        None => None,
    }
}

// Takes an id out, and what was in its box.
fn taken(table: &mut IdTable<Box<u32>>, id: u64) -> Option<u32> {
    match table.remove(id) {
        Some(value) => Some(*value),
        None => None,
    }
}

// Holds an id that isn't held.
fn hold(
    alloc: Global,
    table: &mut IdTable<Box<u32>>,
    map: &mut BTreeMap<u64, u32>,
    id: u64,
    value: u32,
) -> Result<(), Fail> {
    if table.get(id).is_some() {
        return Ok(());
    }
    let Ok(()) = table.insert(id, Box::new(alloc, value)?) else {
        return Err(Fail::new(format_args!("no memory")));
    };
    map.insert(id, value)?;
    Ok(())
}

fn call_both(
    alloc: Global,
    table: &mut IdTable<Box<u32>>,
    map: &mut BTreeMap<u64, u32>,
    first: u64,
    ids: u64,
    seed: &mut u64,
) -> Result<(), Fail>
    requires { 0 < ids }
{
    let id = first.wrapping_add(draw(seed) % ids);
    let value = (draw(seed) % 4_000_000_000) as u32;
    if draw(seed) % 2 == 0 {
        hold(alloc, table, map, id, value)?;
    } else if taken(table, id) != map.remove(&id) {
        return differ(id);
    }
    if seen(table, id) != map.get(&id).copied() || table.len() != map.len() {
        return differ(id);
    }
    Ok(())
}

// The table's ids, in order, are the map's.
fn same_ids(
    alloc: Global,
    table: &IdTable<Box<u32>>,
    map: &BTreeMap<u64, u32>,
) -> Result<bool, Fail> {
    let mut ids = table.ids(alloc)?;
    ids.sort_unstable();
    let mut keys = Vec::new(alloc);
    for key in map.keys() {
        keys.push(*key)?;
    }
    Ok(ids == keys)
}

// Drawn calls on so many ids from the first one, and then a look at each id.
fn compare(alloc: Global, first: u64, ids: u64, seed: u64) -> Result<(), Fail>
    requires { 0 < ids }
{
    let mut table = IdTable::new(alloc);
    let mut map = BTreeMap::new(alloc);
    let mut seed = seed;
    for _ in 0..400 {
        call_both(alloc, &mut table, &mut map, first, ids, &mut seed)?;
    }
    for k in 0..ids {
        let id = first.wrapping_add(k);
        if seen(&table, id) != map.get(&id).copied() {
            return differ(id);
        }
    }
    if !same_ids(alloc, &table, &map)? {
        return differ(first);
    }
    Ok(())
}

#[test]
fn a_table_is_an_ordered_map(rt: HostRuntime) -> Result<(), Fail> {
    compare(rt.alloc(), 0, 7, 1)?;
    compare(rt.alloc(), 0, 60, 2)?;
    compare(rt.alloc(), 0, 1000, 3)?;
    compare(rt.alloc(), 4_294_967_266, 60, 4)
}
