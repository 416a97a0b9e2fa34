//! What follows of turns. These functions do nothing: their clauses are laws.
ghost use Rattle.std.specs.Prelude.{◌≡◌, ◌≤◌, ℕ, ◌+◌, List, [], ◌∷◌, ◌++◌, Some, length, take, drop, slice_get};
ghost use Rattle.query_model.specs.declared.line.Line.{Line};
ghost use Rattle.query_model.specs.declared.line.Line.TheVariants as line;
ghost use Rattle.query_model.specs.Alike.{AreAlike};
ghost use Rattle.query_model.specs.Documents.{queries_of};
ghost use Rattle.query_model.specs.Order.{Asked};
ghost use Rattle.fan_model.specs.Answered.{answered_in};
ghost use Rattle.fan_model.specs.Comings.{Coming, ComesAt, comings_of, query_of};
ghost use Rattle.fan_parts.specs.Facts.{IsCountable};
ghost use Rattle.front_walk.specs.Following.{IsInput};
ghost use Rattle.query_opening.specs.Turns.{IsBegun, IsCancelled};
ghost use Rattle.run_notes.specs.Counting.{HasCounted};
ghost use Rattle.run_notes.specs.declared.counting.Counted.{Counted};
ghost use Rattle.run_plan.specs.declared.turn.BegunQuery.{BegunQuery};
ghost use Rattle.run_plan.specs.declared.turn.Turn.{Turn};
ghost use Rattle.run_plan.specs.declared.turn.Turn.TheVariants as turn;
ghost use Rattle.run_plan.specs.Turns.{AreTurnsOf, begun_between, begun_in};

use fan_model::laws::{
    alike_lines_come_to_the_same, comings_in_order, each_query_has_a_reply, queries_are_numbered,
};
use fan_parts::RunName;
use query_model::laws::alike_lines_ask_the_same;

/// The turn at a place is what comes there in the run.
pub fn turns_are_of_the_run<N: RunName>()
    ensures begun { (turns : List Turn) (place : ℕ) (query : BegunQuery) → AreTurnsOf N.asked.lines turns → IsInput N.asked.lines
        → IsCountable N.asked → slice_get turns place ≡ Some (turn.Begin query) → IsBegun N.asked place query.number query.line query.documents }
    ensures cancelled { (turns : List Turn) (place number : ℕ) → AreTurnsOf N.asked.lines turns
        → slice_get turns place ≡ Some (turn.Cancel number) → IsCancelled N.asked place number }
{
    comings_are_queries();
}

/// There are as many turns as queries, and no more than 50,000.
pub fn turns_are_few()
    ensures as_many { (lines : List Line) (turns : List Turn) → AreTurnsOf lines turns → length turns ≡ length (queries_of lines) }
    ensures few { (lines : List Line) (turns : List Turn) → AreTurnsOf lines turns → IsInput lines → length turns ≤ 50000 }
{
    each_query_has_a_reply();
}

/// Place by place: a query that is begun is the last of those that are begun so far, and the first of those that are still to be begun. A
/// query that is cancelled changes neither.
pub fn place_by_place()
    ensures none { (lines : List Line) (place : ℕ) → begun_between lines place place ≡ [] }
    ensures begun { (lines : List Line) (start place : ℕ) (asked : Asked) → ComesAt lines place (Coming.begins asked) → start ≤ place
        → begun_between lines start (place + 1) ≡ begun_between lines start place ++ asked ∷ [] }
    ensures cancelled { (lines : List Line) (start place : ℕ) (asked : Asked) → ComesAt lines place (Coming.cancels asked) → start ≤ place
        → begun_between lines start (place + 1) ≡ begun_between lines start place }
    ensures before { (lines : List Line) (place : ℕ) → begun_between lines 0 place ≡ begun_in (take place (comings_of lines)) }
    ensures behind { (lines : List Line) (turns : List Turn) (place : ℕ) → AreTurnsOf lines turns
        → begun_between lines place (length turns) ≡ begun_in (drop place (comings_of lines)) }
    ensures all { (lines : List Line) (turns : List Turn) → AreTurnsOf lines turns → begun_between lines 0 (length turns) ≡ answered_in lines }
    ensures next_begun { (lines : List Line) (place : ℕ) (asked : Asked) → ComesAt lines place (Coming.begins asked)
        → begun_in (drop place (comings_of lines)) ≡ asked ∷ begun_in (drop (place + 1) (comings_of lines)) }
    ensures next_cancelled { (lines : List Line) (place : ℕ) (asked : Asked) → ComesAt lines place (Coming.cancels asked)
        → begun_in (drop place (comings_of lines)) ≡ begun_in (drop (place + 1) (comings_of lines)) }
{
    comings_in_order();
}

/// What comes is a query of the lines: its number is at most the number of queries, and its line stands at its place.
pub fn comings_are_queries()
    ensures number { (lines : List Line) (place : ℕ) (coming : Coming) → ComesAt lines place coming
        → (query_of coming).number ≤ length (queries_of lines) }
    ensures line { (lines : List Line) (place : ℕ) (asked : Asked) → ComesAt lines place (Coming.begins asked)
        → slice_get lines asked.place ≡ Some (line.Query asked.query) }
    ensures from_one { (lines : List Line) (place : ℕ) (asked : Asked) → ComesAt lines place (Coming.begins asked) → 1 ≤ asked.number }
{
    comings_in_order();
    queries_are_numbered();
}

/// Alike lines have the same turns, and as many of their queries are answered.
pub fn alike_lines_have_the_same_turns()
    ensures turns { (lines others : List Line) (turns : List Turn) → AreAlike lines others → AreTurnsOf lines turns → AreTurnsOf others turns }
    ensures counts { (lines others : List Line) (bases : ℕ) (counted : Counted) → AreAlike lines others
        → HasCounted lines bases counted → HasCounted others bases counted }
{
    alike_lines_ask_the_same();
    alike_lines_come_to_the_same();
}
