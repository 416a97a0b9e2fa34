ghost use Rattle.std.specs.Prelude.{◌≡◌, ◌<◌, ◌≤◌, ◌^◌, ◌+◌, ◌-◌, ◌%◌, List, length, IfOk, All, Some, slice_get, slice_index_or, slice_set, if◌then◌else◌};
ghost use Rattle.query_model.specs.declared.line.Line.TheVariants as line;
ghost use Rattle.query_model.specs.declared.line.Query.{Query};
ghost use Rattle.fan_model.specs.Answered.{is_top};
ghost use Rattle.front_walk.specs.Following.{IsInput};
ghost use Rattle.run_notes.specs.Counting.{HasCounted};
ghost use Rattle.run_plan.specs.Turns.{AreTurnsOf};
ghost use Rattle.run_plan.specs.Counting.{HasCountedTo};

use crate::laws::{comings_are_queries, place_by_place, turns_are_few};
use crate::turn::{BegunQuery, Turn};
use fan_base::Memory;
use query_model::{Ask, Line, Lines};
use run_notes::Counted;
use std::alloc::Global;

/// How many queries are answered: in all, of those that rank, and by the base on which they are gathered.
pub fn count(alloc: Global, lines: &Lines, turns: &[Turn], bases: u32) -> Result<Counted, Memory>
    requires input { IsInput lines.now }
    requires turns { AreTurnsOf lines.now turns.now }
    requires bases { 1 ≤ bases }
    ensures counted { IfOk result (HasCounted lines.now bases) }
    ensures few_answered { IfOk result (λ counted. counted.answered ≤ 50000) }
    ensures few_tops { IfOk result (λ counted. counted.tops ≤ 50000) }
    ensures few_by_base { IfOk result (λ counted. All (λ count. count ≤ 2 ^ 32) counted.by_base.items) }
{
    place_by_place();
    turns_are_few();
    let mut counted = Counted {
        answered: 0,
        tops: 0,
        by_base: vec![in alloc; 0; bases as usize]?,
    };
    'places: for place in 0..turns.len() {
        count_turn(lines, turns, place, bases, &mut counted);
    }
    Ok(counted)
}

// The turn at a place is counted too.
fn count_turn(lines: &Lines, turns: &[Turn], place: usize, bases: u32, counted: &mut Counted)
    requires input { IsInput lines.now }
    requires turns { AreTurnsOf lines.now turns.now }
    requires place { place < length turns.now }
    requires bases { 1 ≤ bases }
    requires counted { HasCountedTo lines.now bases place counted.old }
    ensures { HasCountedTo lines.now bases (place + 1) counted.new }
{
    place_by_place();
    turns_are_few();
    comings_are_queries();
    match turns[place] {
        Turn::Begin(query) => count_query(lines, query, bases, counted),
        Turn::Cancel(_) => {}
    }
}

// A query is counted too.
fn count_query(lines: &Lines, query: BegunQuery, bases: u32, counted: &mut Counted)
    requires number { 1 ≤ query.number }
    requires line { (said : Query) × (slice_get lines.now query.line ≡ Some (line.Query said)) }
    requires bases { (1 ≤ bases) × (length counted.old.by_base.items ≡ bases) }
    requires few { (counted.old.answered ≤ 50000) × (counted.old.tops ≤ 50000) }
    requires few_there { slice_index_or counted.old.by_base.items ((query.number - 1) % bases) 0 ≤ 50000 }
    ensures answered { counted.new.answered ≡ counted.old.answered + 1 }
    ensures tops { (said : Query) → slice_get lines.now query.line ≡ Some (line.Query said) →
        counted.new.tops ≡ (if is_top said.ask then counted.old.tops + 1 else counted.old.tops) }
    ensures by_base { counted.new.by_base.items ≡ slice_set counted.old.by_base.items ((query.number - 1) % bases)
        (slice_index_or counted.old.by_base.items ((query.number - 1) % bases) 0 + 1) }
{
    counted.answered += 1;
    if ranks(lines, query.line) {
        counted.tops += 1;
    }
    counted.by_base[((query.number - 1) % bases) as usize] += 1;
}

// Whether the query of the line at a place asks for the documents that rank first.
fn ranks(lines: &Lines, place: usize) -> bool
    requires { (query : Query) × (slice_get lines.now place ≡ Some (line.Query query)) }
    ensures { (query : Query) → slice_get lines.now place ≡ Some (line.Query query) → result ≡ is_top query.ask }
{
    let Some(Line::Query(query)) = lines.get(place) else {
        unreachable!()
    };
    match query.ask {
        Ask::Top(_, _) => true,
        Ask::Find(_) | Ask::Count(_) | Ask::Present(_) => false,
    }
}
