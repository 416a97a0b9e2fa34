ghost use Rattle.std.specs.Prelude.{◌≡◌, ◌≤◌, IfOk};
ghost use Rattle.query_model.specs.Generated.{generated_input};

use crate::draws::Draws;
use fan_base::Memory;
use line_table::LineTable;
use std::alloc::Global;

/// How many documents an input that is made up has at most.
pub const MOST_DOCUMENTS: u32 = 20_000;

/// The input that is made up from this seed, with so many documents, at most 20,000, and then so many queries. Behind each tenth
/// query there are ticks. Its documents have numbers in place of words, as they are drawn.
pub fn generate(alloc: Global, seed: u64, docs: u32, queries: u32) -> Result<LineTable, Memory>
    requires { docs ≤ MOST_DOCUMENTS }
    ensures { IfOk result (λ table. table ≡ (generated_input seed docs queries).lines) }
{
    let mut draws = Draws::new(seed);
    let documents = draws.documents(alloc, docs)?;
    draws.queries(alloc, queries, documents)
}
