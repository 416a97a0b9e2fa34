//! The tables of the gathering bases.
ghost use Rattle.std.specs.Prelude.{◌≡◌, ◌≤◌, IfOk, length};
ghost use Rattle.fan_model.specs.Comings.{comings_of};
ghost use Rattle.run_gathering.specs.Dealt.{AreDealt};

use fan_base::Memory;
use fan_parts::RunName;
use run_gathering::PartTable;
use std::alloc::Global;

/// A table for each of the run's gathering bases, for queries with a number up to the highest, which is how many come. Nothing stands in
/// them yet. Where memory runs out, those that were made are closed.
pub(crate) fn new_tables<'r, 'i: 'r, N: RunName>(
    alloc: Global,
    bases: u32,
    shards: u32,
    highest: u32,
) -> Result<Vec<PartTable<'r, 'i, N>>, Memory>
    requires bases { 1 ≤ bases }
    requires shards { (1 ≤ shards) × (shards ≤ 64) }
    requires highest { highest ≤ 50000 }
    requires of_bases { bases ≡ N.asked.bases }
    requires of_shards { shards ≡ N.asked.shards }
    requires comings { highest ≡ length (comings_of N.asked.lines) }
    ensures as_many { IfOk result (λ tables. length tables.items ≡ bases) }
    ensures dealt { IfOk result (λ tables. AreDealt N.asked 0 tables.items) }
{
    let Ok(mut tables) = Vec::with_capacity(alloc, bases as usize) else {
        return Err(Memory);
    };
    'making: while tables.len() < bases as usize {
        match PartTable::new(alloc, bases, shards, highest) {
            Ok(table) => tables.push_reserved(table),
            Err(Memory) => {
                close_tables(tables);
                return Err(Memory);
            }
        }
    }
    Ok(tables)
}

/// Closes these tables: what they await is given up.
pub(crate) fn close_tables<'r, 'i: 'r, N: RunName>(mut tables: Vec<PartTable<'r, 'i, N>>) {
    'tables: while let Some(table) = tables.pop() {
        table.close();
    }
    tables.destroy_empty();
}
