// Values that may not be dropped: each has to be spent.
use id_table::{Cell, IdTable};
use std::alloc::Global;
use std::test::Fail;

#[derive(Debug)]
struct Coin {
    worth: u64,
}

fn spend(coin: Coin) -> u64 {
    let Coin { worth } = coin;
    worth
}

// Puts a coin in, or spends it where its id is held or there is no memory.
fn put_in(table: &mut IdTable<Coin>, id: u64) -> bool {
    let coin = Coin { worth: id };
    if table.get(id).is_some() {
        spend(coin);
        return false;
    }
    match table.insert(id, coin) {
        Ok(()) => true,
        Err(back) => {
            spend(back);
            false
        }
    }
}

// What the coins of a table are worth.
fn worth_of(table: IdTable<Coin>) -> u64 {
    let mut sum = 0u64;
    let mut cells = table.into_cells();
    while let Some(cell) = cells.pop() {
        if let Some(Cell { value, .. }) = cell {
            sum = sum.wrapping_add(spend(value));
        }
    }
    cells.destroy_empty();
    sum
}

// Puts in the coins 1 to 100, takes out the even ones, and counts what the others are worth: 1 + 3 + .. + 99.
fn odd_ones(alloc: Global) -> u64 {
    let mut table = IdTable::new(alloc);
    for id in 1..101u64 {
        put_in(&mut table, id);
    }
    for id in 1..51u64 {
        if let Some(coin) = table.remove(2 * id) {
            spend(coin);
        }
    }
    worth_of(table)
}

#[test]
fn coins_are_spent(rt: HostRuntime) -> Result<(), Fail> {
    IdTable::<Coin>::new(rt.alloc()).destroy_empty();
    if odd_ones(rt.alloc()) != 2500 {
        return Err(Fail::new(format_args!("2500")));
    }
    Ok(())
}
