ghost use Rattle.std.specs.Prelude.{◌≡◌, Some};
ghost use Rattle.std.specs.List.{slice_get};
ghost use Rattle.query_model.specs.declared.line.Line.TheVariants as line;
ghost use Rattle.query_model.specs.declared.line.Query.{Query};
ghost use Rattle.query_model.specs.Alike.{AreAlike};
ghost use Rattle.fan_model.specs.Tasks.{printer_exec};
ghost use Rattle.query_opening.specs.Turns.{IsAskAt, IsBegun, IsCancelled};

use fan_base::ExecId;
use fan_model::laws::{comings_in_order, queries_are_numbered};
use fan_parts::{CancelledReply, NumberedAsk, RunName};
use query_model::laws::alike_lines_ask_the_same;
use query_model::{Line, Lines, Query};
use query_parts::documents_before_are_the_first;

/// What is asked by the query whose turn has come at a place: its number, the place of its line, and how many documents stand before it.
pub fn numbered_ask<'i, N: RunName>(
    lines: &'i Lines,
    place: u32,
    number: u32,
    line: usize,
    documents: u32,
) -> NumberedAsk<'i, N>
    requires lines { AreAlike lines.now N.asked.lines }
    requires begun { IsBegun N.asked place number line documents }
    ensures { IsAskAt N.asked place number documents result }
{
    alike_lines_ask_the_same();
    comings_in_order();
    queries_are_numbered();
    documents_before_are_the_first();
    let query = query_at(lines, line);
    NumberedAsk::new(number, &query.ask, documents)
}

/// The query of the line at a place.
fn query_at(lines: &Lines, place: usize) -> &Query
    requires { (query : Query) × (slice_get lines.now place ≡ Some (line.Query query)) }
    ensures { (query : Query) → slice_get lines.now place ≡ Some (line.Query query) → result.now ≡ query }
{
    let Some(line) = lines.get(place) else {
        unreachable!()
    };
    match line {
        Line::Query(query) => query,
        Line::Doc(_) | Line::Tick(_) | Line::Cancel(_) => unreachable!(),
    }
}

/// The reply of a query that is cancelled at a place.
pub fn cancelled_reply<N: RunName>(place: u32, number: u32, printer: ExecId) -> CancelledReply<N>
    requires cancelled { IsCancelled N.asked place number }
    requires printer { printer ≡ printer_exec N.asked.bases }
    ensures { result ≡ record { place = place; number = number; exec = printer } }
{
    comings_in_order();
    CancelledReply::new(place, number, printer)
}
