ghost use Rattle.std.specs.Prelude.{◌≡◌, ◌<◌, ◌≤◌, List, length, IfSome, IfNone};
ghost use Rattle.std.specs.List.{count_by};
ghost use Rattle.query_model.specs.declared.line.Line.{Line};
ghost use Rattle.run_plan.specs.Turns.{AreTurnsOf, is_begin};
ghost use Rattle.run_plan.specs.Stopping.{IsBehind, IsStopPlace, IsUnstopped};

use crate::turn::Turn;
use fan_model::laws::comings_in_order;

/// Behind how many turns the pool is stopped: right behind the query that is the last one before the stop point, or 0 for a stop point of 0.
/// `None` where the pool isn't stopped: there is no stop point, or fewer queries are answered.
pub fn stop_place(turns: &[Turn], stop_at: Option<u64>) -> Option<usize>
    ensures within { IfSome result (λ place. place ≤ length turns.now) }
    ensures place { IfSome result (λ place. IfSome stop_at (λ stop. IsBehind stop turns.now place)) }
    ensures some { (lines : List Line) → AreTurnsOf lines turns.now → IfSome result (IsStopPlace lines stop_at) }
    ensures none { (lines : List Line) → AreTurnsOf lines turns.now → IfNone result (IsUnstopped lines stop_at) }
{
    comings_in_order();
    let stop = stop_at?;
    place_behind(turns, stop)
}

// The place right behind so many turns that begin a query, where there are so many.
fn place_behind(turns: &[Turn], stop: u64) -> Option<usize>
    ensures some { IfSome result (IsBehind stop turns.now) }
    ensures none { IfNone result (count_by is_begin turns.now < stop) }
{
    let mut begun = 0;
    for place in 0..turns.len() {
        if begun == stop {
            return Some(place);
        }
        if begins(turns[place]) {
            begun += 1;
        }
    }
    if begun == stop {
        Some(turns.len())
    } else {
        None
    }
}

fn begins(turn: Turn) -> bool
    ensures { result ≡ is_begin turn }
{
    match turn {
        Turn::Begin(_) => true,
        Turn::Cancel(_) => false,
    }
}
