// What is done with a query whose turn has come.
ghost use Rattle.std.specs.Prelude.{ℕ, List, Bool, is_ok};
ghost use Rattle.query_model.specs.declared.line.Line.{Line};
ghost use Rattle.query_model.specs.Order.{Asked};
ghost use Rattle.fan_model.specs.Comings.{Coming, ComesAt};
ghost use Rattle.front_walk.specs.Turns.{IsBeginning, IsCancelling};

use fan_base::Memory;
use query_model::Query;
use std::sync::Wait;

/// A query whose turn has come.
#[derive(Clone, Copy, Debug, PartialEq, Eq)]
pub struct QueryTurn {
    /// Its number among the queries, from 1.
    pub number: u64,
    /// The place of its line among the lines, from 0.
    pub line: usize,
    /// How many documents stand before its line.
    pub documents: u32,
}

/// What is done with the queries of an input, place by place in the order of answers.
pub trait AtTurn {
    // The lines of the input.
    ghost lines: { List Line };

    // At this place this comes: what was before, whether memory sufficed, and what is after.
    ghost does: { ℕ → Coming → Self → Bool → Self → Type 0 };

    /// The work of a query is begun, which is answered at this place.
    fn begin<R: Wait>(
        &mut self,
        rt: &R,
        place: u64,
        turn: QueryTurn,
        query: &Query,
    ) -> Result<(), Memory>
        requires { IsBeginning lines place turn query.now }
        ensures { (asked : Asked) → ComesAt lines place (Coming.begins asked) → does place (Coming.begins asked) self.old (is_ok result) self.new };

    /// The query with this number is cancelled, at this place.
    fn cancel<R: Wait>(&mut self, rt: &R, place: u64, number: u64) -> Result<(), Memory>
        requires { IsCancelling lines place number }
        ensures { (asked : Asked) → ComesAt lines place (Coming.cancels asked) → does place (Coming.cancels asked) self.old (is_ok result) self.new };
}
