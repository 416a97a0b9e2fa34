ghost use Rattle.std.specs.Prelude.{◌≡◌, ◌+◌, ◌<◌, ◌≤◌, ℕ, IfOk, length, drop};
ghost use Rattle.core_word.specs.Count.{Counts};
ghost use Rattle.fan_model.specs.Comings.{comings_of};
ghost use Rattle.fan_model.specs.Notes.{base_of};
ghost use Rattle.front_walk.specs.Following.{IsInput};
ghost use Rattle.query_opening.specs.Turns.{IsBegun};
ghost use Rattle.run_plan.specs.Turns.{AreTurnsOf};
ghost use Rattle.run_desks.specs.Counted.{HasMade};
ghost use Rattle.run_desks.specs.Keys.{AreKeysOf, HasKeysFor};
ghost use Rattle.run_gathering.specs.Dealt.{AreDealt};
ghost use Rattle.run_desks.specs.Tables.{AreTablesOf};
ghost use Rattle.run_desks.specs.Turns.{IsTurnAt};

use crate::keys::DeskKeys;
use crate::laws::{begun_once, begun_query_is_asked, known_turns};
use crate::opening::begin_desk;
use crate::tables::{close_tables, new_tables};
use core_word::Tally;
use fan_base::Memory;
use fan_model::laws::each_query_has_a_reply;
use fan_parts::RunName;
use run_gathering::PartTable;
use run_plan::laws::{comings_are_queries, place_by_place};
use run_plan::{BegunQuery, Turn};
use std::sync::Wait;

/// The queries of a run, all of whose parts are awaited: a table for each gathering base, and what became of the replies' cores. The tables
/// must be spent.
pub struct AwaitedQueries<'r, 'i: 'r, N: RunName> {
    pub tables: Vec<PartTable<'r, 'i, N>>,
    pub tally: Tally,
}

impl<'r, 'i: 'r, N: RunName> AwaitedQueries<'r, 'i, N> {
    /// Gives them up: the replies' cores get want of memory.
    pub fn give_up(self) {
        let AwaitedQueries { tables, tally: _ } = self;
        close_tables(tables);
    }
}

/// Begins the cores of the replies of all queries that are begun, in the order of answers, and has their parts awaited in the tables of their
/// bases. Where there is no memory for the tables, no reply is posted.
pub fn await_queries<'r, 'i: 'r, N: RunName + 'static, R: Wait>(
    rt: &R,
    turns: &[Turn],
    keys: DeskKeys<'r, 'i, N>,
) -> Result<AwaitedQueries<'r, 'i, N>, Memory>
    requires turns { AreTurnsOf N.asked.lines turns.now }
    requires input { IsInput N.asked.lines }
    requires of { AreKeysOf N.asked keys }
    requires keys { HasKeysFor (comings_of N.asked.lines) keys }
    ensures tables { IfOk result (λ awaited. AreTablesOf N.asked awaited.tables.items) }
    ensures dealt { IfOk result (λ awaited. AreDealt N.asked (length turns.now) awaited.tables.items) }
    ensures counted { IfOk result (λ awaited. HasMade N.asked 0 (length turns.now) keys.entry.tally awaited.tally) }
{
    known_turns::<N>();
    let mut keys = keys;
    let Ok(mut tables) = new_tables(keys.alloc, keys.bases, keys.shards, turns.len() as u32) else {
        let _tally = keys.end();
        return Err(Memory);
    };
    await_all(rt, turns, &mut keys, &mut tables);
    let tally = keys.end();
    Ok(AwaitedQueries { tables, tally })
}

/// All queries that are begun.
fn await_all<'r, 'i: 'r, N: RunName + 'static, R: Wait>(
    rt: &R,
    turns: &[Turn],
    keys: &mut DeskKeys<'r, 'i, N>,
    tables: &mut Vec<PartTable<'r, 'i, N>>,
)
    requires turns { AreTurnsOf N.asked.lines turns.now }
    requires input { IsInput N.asked.lines }
    requires of { AreKeysOf N.asked keys.old }
    requires keys { HasKeysFor (comings_of N.asked.lines) keys.old }
    requires tables { AreTablesOf N.asked tables.old.items }
    requires dealt { AreDealt N.asked 0 tables.old.items }
    ensures tables { AreTablesOf N.asked tables.new.items }
    ensures dealt { AreDealt N.asked (length turns.now) tables.new.items }
    ensures counted { HasMade N.asked 0 (length turns.now) keys.old.tally keys.new.tally }
{
    known_turns::<N>();
    place_by_place();
    for place in 0..turns.len() {
        await_turn(rt, turns[place], place as u32, keys, tables);
    }
}

/// One turn: its query is awaited, if it begins one.
fn await_turn<'r, 'i: 'r, N: RunName + 'static, R: Wait>(
    rt: &R,
    turn: Turn,
    place: u32,
    keys: &mut DeskKeys<'r, 'i, N>,
    tables: &mut Vec<PartTable<'r, 'i, N>>,
)
    requires turn { IsTurnAt N.asked place turn }
    requires of { AreKeysOf N.asked keys.old }
    requires keys { HasKeysFor (drop place (comings_of N.asked.lines)) keys.old }
    requires tables { AreTablesOf N.asked tables.old.items }
    requires dealt { AreDealt N.asked place tables.old.items }
    ensures of { AreKeysOf N.asked keys.new }
    ensures tables { AreTablesOf N.asked tables.new.items }
    ensures dealt { AreDealt N.asked (place + 1) tables.new.items }
    ensures counted { (start : ℕ) (first : Counts) → start ≤ place → HasMade N.asked start place first keys.old.tally →
        HasMade N.asked start (place + 1) first keys.new.tally }
    ensures keys { HasKeysFor (drop (place + 1) (comings_of N.asked.lines)) keys.new }
{
    place_by_place();
    match turn {
        Turn::Begin(query) => await_query(rt, query, place, keys, tables),
        Turn::Cancel(number) => {
            let _number = number;
        }
    }
}

/// Begins the reply's core of a query, and puts the end of its desk into the table of its base.
fn await_query<'r, 'i: 'r, N: RunName + 'static, R: Wait>(
    rt: &R,
    query: BegunQuery,
    place: u32,
    keys: &mut DeskKeys<'r, 'i, N>,
    tables: &mut Vec<PartTable<'r, 'i, N>>,
)
    requires begun { IsBegun N.asked place query.number query.line query.documents }
    requires of { AreKeysOf N.asked keys.old }
    requires keys { HasKeysFor (drop place (comings_of N.asked.lines)) keys.old }
    requires tables { AreTablesOf N.asked tables.old.items }
    requires dealt { AreDealt N.asked place tables.old.items }
    ensures of { AreKeysOf N.asked keys.new }
    ensures tables { AreTablesOf N.asked tables.new.items }
    ensures dealt { AreDealt N.asked (place + 1) tables.new.items }
    ensures counted { (start : ℕ) (first : Counts) → start ≤ place → HasMade N.asked start place first keys.old.tally →
        HasMade N.asked start (place + 1) first keys.new.tally }
    ensures keys { HasKeysFor (drop (place + 1) (comings_of N.asked.lines)) keys.new }
{
    begun_query_is_asked::<N>();
    begun_once();
    comings_are_queries();
    each_query_has_a_reply();
    place_by_place();
    let end = begin_desk(rt, keys, place, query);
    let base = base_place(end.number(), keys.bases);
    tables[base].put(end);
}

/// The place of the base on which the parts of a query are gathered.
fn base_place(number: u32, bases: u32) -> usize
    requires number { 1 ≤ number }
    requires bases { 1 ≤ bases }
    ensures within { result < bases }
    ensures base { 1 + result ≡ base_of bases number }
{
    ((number - 1) % bases) as usize
}
