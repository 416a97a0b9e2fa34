ghost use Rattle.std.specs.Prelude.{◌≡◌, ◌≤◌, Some};
ghost use Rattle.std.specs.List.{slice_get};
ghost use Rattle.query_model.specs.declared.line.Line.TheVariants as line;
ghost use Rattle.query_model.specs.declared.line.Query.{Query};
ghost use Rattle.fan_model.specs.Notes.{base_of};
ghost use Rattle.fan_model.specs.Tasks.{queue_of};
ghost use Rattle.run_front.specs.Turns.{pool_priority};

use fan_base::ExecId;
use query_model::{Line, Lines, Prio};

/// How soon the query of the line at a place is taken up.
pub(crate) fn prio_at(lines: &Lines, place: usize) -> Prio
    requires { (query : Query) × (slice_get lines.now place ≡ Some (line.Query query)) }
    ensures { (query : Query) → slice_get lines.now place ≡ Some (line.Query query) → result ≡ query.prio }
{
    let Some(line) = lines.get(place) else {
        unreachable!()
    };
    match line {
        Line::Query(query) => query.prio,
        Line::Doc(_) | Line::Tick(_) | Line::Cancel(_) => unreachable!(),
    }
}

/// The priority at which a task is added to the pool: the lowest, the middle or the highest one, as Folly's executors name them.
pub(crate) fn priority_of(prio: Prio) -> i8
    ensures { result ≡ pool_priority prio }
{
    match prio {
        Prio::Lo => i8::MIN,
        Prio::Mid => 0,
        Prio::Hi => i8::MAX,
    }
}

/// The queue of a priority: 0 is taken last.
pub(crate) fn queue_number(prio: Prio) -> u32
    ensures { result ≡ queue_of prio }
{
    match prio {
        Prio::Lo => 0,
        Prio::Mid => 1,
        Prio::Hi => 2,
    }
}

/// The executor of the base on which the parts of a query are gathered.
pub(crate) fn gathering_exec(number: u32, bases: u32) -> ExecId
    requires number { 1 ≤ number }
    requires bases { (1 ≤ bases) × (bases ≤ 8) }
    ensures { result ≡ record { 0 = base_of bases number } }
{
    ExecId(1 + (number - 1) % bases)
}
