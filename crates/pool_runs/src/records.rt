// The records of runs, and the places of those that are still to be made.
ghost use Rattle.std.specs.Prelude.{◌≡◌, ◌+◌, ◌^◌, ◌<◌, [], ◌∷◌, ◌++◌, length, OnOk, IfErr, IfOk, MatchOption};
ghost use Rattle.std.specs.List.{flat_map};
ghost use Rattle.pool_runs.specs.Recorded.{AreFilled};

use crate::block::Block;
use crate::record::RunRecord;
use fan_base::{ExecId, JobId, Mark, Memory};
use pool_model::Ticket;
use std::alloc::{AllocError, Global};
use std::collections::LinkedList;
use std::marker::Model;

/// The place of a record that is still to be made.
#[derive(Drop)]
pub struct Place {
    list: LinkedList<Block>,
}

impl Model for Place {
    ghost use Rattle.std.specs.Prelude.{◌≡◌, List, length};
    ghost use Rattle.pool_model.specs.Records.{Record};

    ghost Value = { List (List Record) };

    ghost view = { λ p. p.list };

    ghost invariant = { λ p. length p.list ≡ 1 };
}

impl Place {
    /// Takes the memory of the record of such a task.
    pub fn of(
        alloc: Global,
        ticket: Ticket,
        queue: u32,
        exec: ExecId,
        job: JobId,
    ) -> Result<Place, Memory> {
        let blank = RunRecord::new(ticket, queue, exec, job, Mark::Memory);
        Place::new(alloc, Block::of(blank))
    }

    fn new(alloc: Global, blank: Block) -> Result<Place, Memory>
        ensures { IfOk result (λ p. p ≡ blank ∷ []) }
    {
        let mut list = LinkedList::new(alloc);
        list.push_back(blank).map_err(AllocError::from)?;
        Ok(Place { list })
    }

    // The record in its place.
    fn fill(self, made: RunRecord) -> LinkedList<Block>
        ensures { result ≡ (made ∷ []) ∷ [] }
    {
        let Place { mut list } = self;
        if let Some(first) = list.front_mut() {
            *first = Block::of(made);
        }
        list
    }

    /// Gives the memory back.
    pub fn give_up(self) {
        let Place { list: _ } = self;
    }
}

/// A record that was made, with its place. Contracts see the list of this one record.
#[derive(Drop)]
pub struct Made {
    entry: RunRecord,
    place: Place,
}

impl Model for Made {
    ghost use Rattle.std.specs.Prelude.{List, [], ◌∷◌};
    ghost use Rattle.pool_model.specs.Records.{Record};

    ghost Value = { List Record };

    ghost view = { λ m. m.entry ∷ [] };
}

impl Made {
    pub(crate) fn new(entry: RunRecord, place: Place) -> Made
        ensures { result ≡ entry ∷ [] }
    {
        Made { entry, place }
    }

    /// The record alone. Its place is given up.
    pub(crate) fn into_record(self) -> RunRecord
        ensures { self ≡ result ∷ [] }
    {
        let Made { entry, place } = self;
        place.give_up();
        entry
    }
}

/// Records in an order. It takes no memory but that of their places, and gives up those that aren't needed: a record takes some 40 bytes where
/// adder, queue, executor and kind of mark don't change from one to the next, and else a place of its own, up to 112. Contracts see the
/// list of the records.
#[derive(Drop)]
pub struct Records {
    blocks: LinkedList<Block>,
    count: usize,
}

impl Model for Records {
    ghost use Rattle.std.specs.Prelude.{◌≡◌, List, length};
    ghost use Rattle.std.specs.List.{flat_map};
    ghost use Rattle.pool_model.specs.Records.{Record};
    ghost use Rattle.pool_runs.specs.Recorded.{AreFilled};

    ghost Value = { List Record };

    ghost view = { λ r. flat_map (λ b. b) r.blocks };

    ghost invariant = { λ r. (r.count ≡ length (flat_map (λ b. b) r.blocks)) × AreFilled r.blocks };
}

impl Records {
    /// No record.
    pub fn new(alloc: Global) -> Records
        ensures { result ≡ [] }
    {
        Records {
            blocks: LinkedList::new(alloc),
            count: 0,
        }
    }

    /// How many there are.
    pub fn len(&self) -> usize
        ensures { result ≡ length self.now }
    {
        self.count
    }

    /// Puts a record behind the others.
    pub fn push(&mut self, made: Made)
        requires { length self.old + 1 < 2 ^ 63 }
        ensures { self.new ≡ self.old ++ made }
    {
        let Made { entry, place } = made;
        self.count += 1;
        match push_last(&mut self.blocks, entry) {
            Ok(()) => place.give_up(),
            Err(entry) => append_blocks(&mut self.blocks, place.fill(entry)),
        }
    }

    /// Puts records behind others.
    pub fn append(&mut self, more: Records)
        requires { length self.old + length more < 2 ^ 63 }
        ensures { self.new ≡ self.old ++ more }
    {
        let Records { blocks, count } = more;
        self.count += count;
        append_blocks(&mut self.blocks, blocks);
    }

    /// Takes the first record. None comes exactly where none is left.
    pub fn pop(&mut self) -> Option<RunRecord>
        ensures { MatchOption result ((self.old ≡ []) × (self.new ≡ [])) (λ r. self.old ≡ r ∷ self.new) }
    {
        let record = pop_first(&mut self.blocks)?;
        self.count -= 1;
        Some(record)
    }
}

// Puts the record into the last block. It comes back where there is none, or where it has no room there.
fn push_last(blocks: &mut LinkedList<Block>, entry: RunRecord) -> Result<(), RunRecord>
    ensures ok { OnOk result (flat_map (λ b. b) blocks.new ≡ flat_map (λ b. b) blocks.old ++ entry ∷ []) }
    ensures filled { OnOk result (AreFilled blocks.old → AreFilled blocks.new) }
    ensures back { IfErr result (λ r. (r ≡ entry) × (blocks.new ≡ blocks.old)) }
{
    let Some(last) = blocks.back_mut() else {
        return Err(entry);
    };
    last.push(entry)
}

// Takes the first record out of the first block, and the block with its last.
fn pop_first(blocks: &mut LinkedList<Block>) -> Option<RunRecord>
    requires filled { AreFilled blocks.old }
    ensures popped { MatchOption result ((blocks.old ≡ []) × (blocks.new ≡ []))
        (λ r. flat_map (λ b. b) blocks.old ≡ r ∷ flat_map (λ b. b) blocks.new) }
    ensures filled { AreFilled blocks.new }
{
    let first = blocks.front_mut()?;
    let record = first.pop()?;
    if first.is_empty() {
        let _ = blocks.pop_front();
    }
    Some(record)
}

// Puts blocks behind others.
fn append_blocks(blocks: &mut LinkedList<Block>, mut more: LinkedList<Block>)
    requires { length blocks.old + length more < 2 ^ 63 }
    ensures { blocks.new ≡ blocks.old ++ more }
{
    let _ = blocks.append(&mut more);
}
