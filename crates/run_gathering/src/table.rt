//! The queries whose parts a base gathers, and their desks.
ghost use Rattle.std.specs.Prelude.{◌≡◌, ◌<◌, ◌≤◌, ◌+◌, ◌/◌, None, Some, true, IfOk, length};
ghost use Rattle.std.specs.Bool.{OnFalse, OnTrue};
ghost use Rattle.std.specs.List.{All};
ghost use Rattle.run_gathering.specs.Awaited.{IsOfQuery, IsRow, all_awaited, awaited_at, awaited_in, place_of, with_at};
ghost use Rattle.run_gathering.specs.Bringing.{HasAllParts, IsBrought, IsDeskTaken, IsTaken};

use collect_ops::{Brought, Listed, OwnedDesk, Receipt};
use core_word::Tally;
use fan_base::{Memory, Refused, Try};
use fan_parts::{End, Part, PartDesk, RunName, spend_end};
use std::alloc::Global;
use std::marker::Model;
use std::mem::replace;

/// What is awaited of a query.
pub(crate) enum Awaited<'r, 'i, N: RunName> {
    /// Nothing: no query is awaited here, or all its parts have come.
    Nothing,
    /// All its parts. Its desk isn't open yet.
    All(End<'r, 'i, N>),
    /// Of the query with this number, the parts that its desk hasn't got.
    Rest(u32, PartDesk<'r, 'i, N>),
}

/// What became of a part.
pub(crate) enum PartBrought<'r, 'i, N: RunName> {
    /// It was the last: here are all parts by shard, and the desk's end.
    Complete(Listed<Try<Part<N>>>, End<'r, 'i, N>),
    /// It is kept at its desk, as the receipt shows, while more were left.
    Kept(Receipt<Try<Part<N>>, End<'r, 'i, N>>),
    /// It was the first, and there was no memory for the desk of its query, whose end this is.
    Refused(End<'r, 'i, N>),
    /// It wasn't awaited.
    Unawaited,
}

/// What is awaited of a gathering base's queries: each part once. The desk of a query is opened as its first part comes, and freed as its
/// last one does. It must be spent.
pub struct PartTable<'r, 'i, N: RunName> {
    queries: Vec<Awaited<'r, 'i, N>>,
    bases: u32,
    shards: u32,
}

impl<'r, 'i, N: RunName> Model for PartTable<'r, 'i, N> {
    ghost use Rattle.std.specs.Prelude.{◌≡◌, ◌≤◌, map};
    ghost use Rattle.std.specs.List.{All};
    ghost use Rattle.run_gathering.specs.Awaited.{IsRow, TableSeen, awaited_in};

    ghost Value = { TableSeen };

    ghost view = { λ t. record { queries = map (awaited_in t.shards) t.queries.items; bases = t.bases; shards = t.shards } };

    ghost invariant = { λ t. (1 ≤ t.bases) × (1 ≤ t.shards) × (t.shards ≤ 64) × (t.shards ≡ N.asked.shards) × All (IsRow t.shards) t.queries.items };

    ghost use Rattle.query_grammar.specs.contracts.expr.Expr as expr;
    ghost use Rattle.std.specs.Coded.{codes};

    ghost coded = { Prim.hlevel (codes, expr.the_row.coded) };
}

impl<'r, 'i: 'r, N: RunName> PartTable<'r, 'i, N> {
    /// One that awaits nothing yet, with a place for each query with a number up to the highest, of one of so many bases.
    pub fn new(
        alloc: Global,
        bases: u32,
        shards: u32,
        highest: u32,
    ) -> Result<PartTable<'r, 'i, N>, Memory>
        requires bases { 1 ≤ bases }
        requires shards { (1 ≤ shards) × (shards ≤ 64) }
        requires of { shards ≡ N.asked.shards }
        requires highest { highest ≤ 50000 }
        ensures numbers { IfOk result (λ table. (table.bases ≡ bases) × (table.shards ≡ shards)) }
        ensures nothing { IfOk result (λ table. All (λ awaited. awaited ≡ None) table.queries) }
        ensures places { IfOk result (λ table. length table.queries ≡ highest / bases + 1) }
    {
        let count = highest / bases + 1;
        let Ok(mut queries) = Vec::with_capacity(alloc, count as usize) else {
            return Err(Memory);
        };
        'making: while queries.len() < count as usize {
            queries.push_reserved(Awaited::Nothing);
        }
        Ok(PartTable {
            queries,
            bases,
            shards,
        })
    }

    /// Has all parts awaited of the query with this end, which has a place, and of which nothing is awaited.
    pub fn put(&mut self, end: End<'r, 'i, N>)
        requires place { place_of self.old end.ask.number < length self.old.queries }
        requires empty { awaited_at self.old (place_of self.old end.ask.number) ≡ None }
        ensures same { (self.new.bases ≡ self.old.bases) × (self.new.shards ≡ self.old.shards) }
        ensures put { self.new ≡ with_at (place_of self.old end.entry.ask.number) (Some (all_awaited self.old.shards end.entry)) self.old }
    {
        let number = end.number();
        self.set(number, Awaited::All(end));
    }

    /// Brings the part of this query and this shard to the query's desk.
    pub(crate) fn bring(
        &mut self,
        alloc: Global,
        number: u32,
        shard: u32,
        outcome: Try<Part<N>>,
    ) -> PartBrought<'r, 'i, N>
        ensures same { (self.new.bases ≡ self.old.bases) × (self.new.shards ≡ self.old.shards) }
        ensures brought { IsBrought number shard outcome self.old self.new result }
        ensures all { HasAllParts N.asked.shards result }
    {
        if shard >= self.shards {
            return PartBrought::Unawaited;
        }
        let desk = match self.take_desk(alloc, number) {
            Some(Ok(desk)) => desk,
            Some(Err(end)) => return PartBrought::Refused(end),
            None => return PartBrought::Unawaited,
        };
        match desk.bring(shard as usize, outcome) {
            Brought::Complete(parts, end) => PartBrought::Complete(parts, end),
            Brought::More(desk, receipt) => {
                self.set(number, Awaited::Rest(number, desk));
                PartBrought::Kept(receipt)
            }
            Brought::Back(desk, _outcome) => {
                self.set(number, Awaited::Rest(number, desk));
                PartBrought::Unawaited
            }
        }
    }

    // Takes the desk of this query. It is opened where no part has come yet; where there is no memory for that, its end comes.
    fn take_desk(
        &mut self,
        alloc: Global,
        number: u32,
    ) -> Option<Result<PartDesk<'r, 'i, N>, End<'r, 'i, N>>>
        ensures { IsDeskTaken number self.old result self.new }
    {
        match self.take(number) {
            Awaited::Nothing => None,
            Awaited::Rest(_number, desk) => Some(Ok(desk)),
            Awaited::All(end) => match OwnedDesk::new(alloc, self.shards as usize, end) {
                Ok(desk) => Some(Ok(desk)),
                Err(Refused::Memory(end)) => Some(Err(end)),
            },
        }
    }

    // Takes what is awaited of this query.
    fn take(&mut self, number: u32) -> Awaited<'r, 'i, N>
        ensures { IsTaken number self.old result self.new }
    {
        let place = self.place_of(number);
        if place >= self.queries.len() || !is_of(&self.queries[place], number) {
            return Awaited::Nothing;
        }
        replace(&mut self.queries[place], Awaited::Nothing)
    }

    // Has this awaited of this query, which has a place, and of which nothing is awaited.
    fn set(&mut self, number: u32, awaited: Awaited<'r, 'i, N>)
        requires place { place_of self.old number < length self.old.queries }
        requires empty { awaited_at self.old (place_of self.old number) ≡ None }
        requires row { IsRow self.old.shards awaited }
        ensures same { (self.new.bases ≡ self.old.bases) × (self.new.shards ≡ self.old.shards) }
        ensures set { self.new ≡ with_at (place_of self.old number) (awaited_in self.old.shards awaited.entry) self.old }
    {
        let place = self.place_of(number);
        match replace(&mut self.queries[place], awaited) {
            Awaited::Nothing => {}
            Awaited::All(_end) => unreachable!(),
            Awaited::Rest(_number, _desk) => unreachable!(),
        }
    }

    /// Spends all that is awaited: the replies' cores get want of memory.
    pub fn close(self) {
        let PartTable {
            mut queries,
            bases: _,
            shards: _,
        } = self;
        'queries: while let Some(awaited) = queries.pop() {
            match awaited {
                Awaited::Nothing => {}
                Awaited::All(end) => spend_end(end, &mut Tally::new()),
                Awaited::Rest(_number, desk) => close_desk(desk),
            }
        }
        queries.destroy_empty();
    }

    // The place of a query.
    fn place_of(&self, number: u32) -> usize
        ensures { result ≡ place_of self.now number }
    {
        (number / self.bases) as usize
    }
}

// Whether this is awaited of the query with this number.
fn is_of<N: RunName>(awaited: &Awaited<'_, '_, N>, number: u32) -> bool
    ensures holds { OnTrue result (IsOfQuery number awaited.now) }
    ensures lacks { OnFalse result (IsOfQuery number awaited.now → ⊥) }
{
    match awaited {
        Awaited::Nothing => false,
        Awaited::All(end) => end.number() == number,
        Awaited::Rest(of, _desk) => *of == number,
    }
}

// Closes a desk at which not all parts have come, and spends its end.
fn close_desk<N: RunName>(desk: PartDesk<'_, '_, N>) {
    let mut kept = desk.close();
    if let Some(end) = kept.end() {
        spend_end(end, &mut Tally::new());
    }
    'outcomes: while let Some(_outcome) = kept.next() {}
    kept.finish();
}
