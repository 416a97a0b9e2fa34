// A block of memory with records.
ghost use Rattle.std.specs.Prelude.{◌≡◌, ◌↔◌, [], ◌∷◌, ◌++◌, IsTrue, OnOk, IfErr, MatchOption};
ghost use Rattle.pool_runs.specs.Recorded.{mark_in};

use crate::record::RunRecord;
use fan_base::{ExecId, JobId, Mark};
use pool_model::Ticket;
use std::marker::Model;

// How many records a block takes. With three, a block in a list is a chunk of 112 bytes, which is small enough for what an allocator keeps at hand.
const SIZE: usize = 3;

// What a record doesn't share with the others of its block.
#[derive(Clone, Copy)]
struct Row {
    index: u64,
    job: JobId,
    number: u64,
}

/// A record, and behind it those that came next and have the same adder, queue and executor and a mark of the same kind, so that each takes
/// 24 bytes. Contracts see the list of the records that weren't taken out.
#[derive(Drop)]
pub struct Block {
    rows: [Row; SIZE],
    adder: u32,
    queue: u32,
    exec: ExecId,
    is_done: bool,
    first: u8,
    end: u8,
}

impl Model for Block {
    ghost use Rattle.std.specs.Prelude.{◌≡◌, ◌≤◌, List, length};
    ghost use Rattle.pool_model.specs.Records.{Record};
    ghost use Rattle.pool_runs.specs.Blocks.{records_in};

    ghost Value = { List Record };

    ghost view = { records_in };

    ghost invariant = { λ b. (b.first ≤ b.end) × (b.end ≤ 3) × (length b.rows ≡ 3) };
}

impl Block {
    /// A block with this record.
    pub fn of(made: RunRecord) -> Block
        ensures { result ≡ made ∷ [] }
    {
        let Ticket { adder, index } = made.ticket();
        let (is_done, number) = mark_parts(made.mark());
        let row = Row {
            index,
            job: made.job(),
            number,
        };
        Block {
            rows: [row; SIZE],
            adder,
            queue: made.queue(),
            exec: made.exec(),
            is_done,
            first: 0,
            end: 1,
        }
    }

    /// Puts the record behind the others. It comes back where the block is full, or where it shares too little with the others.
    pub fn push(&mut self, made: RunRecord) -> Result<(), RunRecord>
        ensures ok { OnOk result (self.new ≡ self.old ++ made ∷ []) }
        ensures back { IfErr result (λ r. (r ≡ made) × (self.new ≡ self.old)) }
    {
        let Ticket { adder, index } = made.ticket();
        let (is_done, number) = mark_parts(made.mark());
        let end = self.end as usize;
        let is_alike = adder == self.adder
            && made.queue() == self.queue
            && made.exec() == self.exec
            && is_done == self.is_done;
        if end == SIZE || !is_alike {
            return Err(made);
        }
        self.rows[end] = Row {
            index,
            job: made.job(),
            number,
        };
        self.end += 1;
        Ok(())
    }

    /// Takes the first record. None comes exactly where none is left.
    pub fn pop(&mut self) -> Option<RunRecord>
        ensures { MatchOption result ((self.old ≡ []) × (self.new ≡ [])) (λ r. self.old ≡ r ∷ self.new) }
    {
        if self.first == self.end {
            return None;
        }
        let Row { index, job, number } = self.rows[self.first as usize];
        self.first += 1;
        let ticket = Ticket {
            adder: self.adder,
            index,
        };
        let mark = if self.is_done {
            Mark::Done(number)
        } else {
            Mark::Memory
        };
        Some(RunRecord::new(ticket, self.queue, self.exec, job, mark))
    }

    /// Whether no record is left.
    pub fn is_empty(&self) -> bool
        ensures { IsTrue result ↔ (self.now ≡ []) }
    {
        self.first == self.end
    }
}

// Whether the run did its work, and the number of its mark, or 0.
fn mark_parts(mark: Mark) -> (bool, u64)
    ensures { mark_in result.0 result.1 ≡ mark }
{
    match mark {
        Mark::Done(number) => (true, number),
        Mark::Memory => (false, 0),
    }
}
