//! What is known of the turns of a run. These functions do nothing: their clauses are laws.
ghost use Rattle.std.specs.Prelude.{◌≡◌, ℕ, ◌≤◌, List, Some, length};
ghost use Rattle.std.specs.List.{slice_get};
ghost use Rattle.query_model.specs.declared.line.Line.{Line};
ghost use Rattle.query_model.specs.declared.line.Line.TheVariants as line;
ghost use Rattle.query_model.specs.Order.{Asked};
ghost use Rattle.fan_model.specs.Comings.{Coming, ComesAt, comings_of};
ghost use Rattle.fan_parts.specs.Facts.{IsAskOf, IsCountable};
ghost use Rattle.fan_parts.specs.Seen.{AskSeen};
ghost use Rattle.front_walk.specs.Following.{IsInput};
ghost use Rattle.query_opening.specs.Turns.{IsBegun};
ghost use Rattle.run_plan.specs.declared.turn.Turn.{Turn};
ghost use Rattle.run_plan.specs.Turns.{AreTurnsOf};
ghost use Rattle.run_desks.specs.Turns.{IsTurnAt};

use fan_model::laws::comings_in_order;
use fan_parts::RunName;
use run_plan::laws::{turns_are_few, turns_are_of_the_run};

/// Each turn is what comes at its place, there is one for each that comes, and there are no more than 50,000.
pub fn known_turns<N: RunName>()
    ensures each { (turns : List Turn) (place : ℕ) (turn : Turn) → AreTurnsOf N.asked.lines turns → IsInput N.asked.lines →
        IsCountable N.asked → slice_get turns place ≡ Some turn → IsTurnAt N.asked place turn }
    ensures few { (turns : List Turn) → AreTurnsOf N.asked.lines turns → IsInput N.asked.lines → length turns ≤ 50000 }
    ensures as_many { (turns : List Turn) → AreTurnsOf N.asked.lines turns → length turns ≡ length (comings_of N.asked.lines) }
{
    turns_are_of_the_run::<N>();
    turns_are_few();
}

/// The query that is begun at a place is the one of its number, and its line stands at its place.
pub fn begun_query_is_asked<N: RunName>()
    ensures line { (place number at documents : ℕ) (b : IsBegun N.asked place number at documents) →
        slice_get N.asked.lines at ≡ Some (line.Query b.query.query) }
    ensures from_one { (place number at documents : ℕ) → IsBegun N.asked place number at documents → 1 ≤ number }
    ensures same { (place number at documents : ℕ) (b : IsBegun N.asked place number at documents) (ask : AskSeen)
        (is_ask : IsAskOf N.asked ask.number ask.asks ask.before) → ask.number ≡ number → is_ask.query ≡ b.query }
{
    comings_in_order();
}

/// A query is begun at one place alone.
pub(crate) fn begun_once()
    ensures { (lines : List Line) (place other : ℕ) (a b : Asked) → ComesAt lines place (Coming.begins a) →
        ComesAt lines other (Coming.begins b) → a.number ≡ b.number → place ≡ other }
{
    comings_in_order();
}
