// The laws that a walk stands on.
ghost use Rattle.front_walk.specs.Laws.{CountLaws, Laws, NextLaws};

use fan_model::laws::{
    comings_in_order, comings_line_by_line, each_query_has_a_reply, queries_are_numbered,
    the_next_query,
};

/// What comes at each line, of the next query, and how many come.
pub(crate) fn known_laws()
    ensures laws { Laws }
    ensures next { NextLaws }
    ensures counts { CountLaws }
{
    comings_line_by_line();
    queries_are_numbered();
    the_next_query();
    comings_in_order();
    each_query_has_a_reply();
}
