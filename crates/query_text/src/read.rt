ghost use Rattle.std.specs.Prelude.{◌≡◌, ◌≤◌, Err, IfOk};
ghost use Rattle.query_model.specs.declared.fault.BadInput.{BadInput};
ghost use Rattle.query_model.specs.declared.line.Input.{Input};
ghost use Rattle.query_model.specs.Reading.{Accepts, Refuses};
ghost use Rattle.query_text.specs.Outcomes.{AreLinesOf, IsInput, IsRefusal};

use crate::law::input_law;
use crate::reading::Reading;
use line_table::LineTable;
use query_model::{Input, InputFault};
use std::alloc::Global;

/// Reads the lines of an input that is to be answered over so many shards, their documents by numbers.
///
/// A refusal is that of the first line with an unmet check, and its kind is that of the check.
pub fn read_lines(alloc: Global, bytes: &[u8], shards: u32) -> Result<LineTable, InputFault>
    requires at_least_one { 1 ≤ shards }
    requires at_most_64 { shards ≤ 64 }

    // What is given is accepted, and what is accepted is given, unless memory runs out.
    ensures accepted { IfOk result (λ lines. Accepts bytes.now shards (record { lines = lines })) }
    ensures accepts { (input : Input) → Accepts bytes.now shards input → AreLinesOf result input }

    // The same of a refusal.
    ensures refused { (bad : BadInput) → result ≡ Err (InputFault.Bad bad) → Refuses bytes.now shards bad }
    ensures refuses { (bad : BadInput) → Refuses bytes.now shards bad → IsRefusal result bad }
{
    input_law();
    read_whole(alloc, bytes, shards)
}

/// Reads an input that is to be answered over so many shards, with all its words.
///
/// A refusal is that of the first line with an unmet check, and its kind is that of the check.
pub fn read_input(alloc: Global, bytes: &[u8], shards: u32) -> Result<Input, InputFault>
    requires at_least_one { 1 ≤ shards }
    requires at_most_64 { shards ≤ 64 }

    // What is given is accepted, and what is accepted is given, unless memory runs out.
    ensures accepted { IfOk result (Accepts bytes.now shards) }
    ensures accepts { (input : Input) → Accepts bytes.now shards input → IsInput result input }

    // The same of a refusal.
    ensures refused { (bad : BadInput) → result ≡ Err (InputFault.Bad bad) → Refuses bytes.now shards bad }
    ensures refuses { (bad : BadInput) → Refuses bytes.now shards bad → IsRefusal result bad }
{
    let lines = read_lines(alloc, bytes, shards)?;
    Ok(Input {
        lines: lines.into_lines(alloc)?,
    })
}

/// The lines that these bytes stand for, or the first refusal.
fn read_whole(alloc: Global, bytes: &[u8], shards: u32) -> Result<LineTable, InputFault>
    ensures accepted { IfOk result (λ lines. Accepts bytes.now shards (record { lines = lines })) }
    ensures refused { (bad : BadInput) → result ≡ Err (InputFault.Bad bad) → Refuses bytes.now shards bad }
{
    match Reading::new(alloc).read(alloc, shards, bytes) {
        Ok(reading) => Ok(reading.into_table()),
        Err(fault) => Err(fault),
    }
}
