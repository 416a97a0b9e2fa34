ghost use Rattle.std.specs.Prelude.{◌≡◌, ℕ, ◌+◌, ◌<◌, ◌≤◌, ◌^◌, [], ◌∷◌, ◌++◌, length, vec_capacity, IfOk};
ghost use Rattle.fan_base.specs.declared.number.ExecId.{ExecId};
ghost use Rattle.run_bases.specs.Columns.{IsColumn};
ghost use Rattle.run_bases.specs.Making.{AreOpen, IsNewBase};

use crate::rows::{Column, all_are_back};
use event_base::{BaseEnd, EventBase};
use fan_base::{ExecId, Memory};
use job_trait::Headed;
use std::alloc::Global;
use std::sync::Wait;

/// Bases that have made no round, and their posters.
pub struct Bases<J> {
    pub bases: Vec<EventBase<J>>,
    pub columns: Vec<Column<J>>,
}

/// So many bases with executors from the first on, each with so many posters. Where one of them finds no memory, the others are closed.
pub fn open_bases<J: Headed, R: Wait>(
    rt: &R,
    alloc: Global,
    first: u32,
    count: u32,
    senders: u32,
) -> Result<Bases<J>, Memory>
    requires some { 1 ≤ senders }
    requires few { senders ≤ 64 }
    requires execs { first + count < 2 ^ 32 }
    ensures { IfOk result (λ made. AreOpen J.head first count senders made) }
{
    let mut made = Bases::with_room(alloc, count)?;
    for place in 0..count {
        match open_base(alloc, ExecId(first + place), senders) {
            Ok((base, column)) => made.put(base, column),
            Err(Memory) => {
                made.give_up(rt, senders);
                return Err(Memory);
            }
        }
    }
    Ok(made)
}

impl<J: Headed> Bases<J> {
    fn with_room(alloc: Global, count: u32) -> Result<Bases<J>, Memory>
        ensures { IfOk result (λ made. (made.bases.items ≡ []) × (made.columns.items ≡ []) × (vec_capacity made.bases ≡ count)
            × (vec_capacity made.columns ≡ count)) }
    {
        let bases = Vec::with_capacity(alloc, count as usize)?;
        let Ok(columns) = Vec::with_capacity(alloc, count as usize) else {
            bases.destroy_empty();
            return Err(Memory);
        };
        Ok(Bases { bases, columns })
    }
}

impl<J: Headed> Bases<J> {
    fn put(&mut self, base: EventBase<J>, column: Column<J>)
        requires room { (length self.old.bases.items < vec_capacity self.old.bases)
            × (length self.old.columns.items < vec_capacity self.old.columns) }
        ensures items { (self.new.bases.items ≡ self.old.bases.items ++ base ∷ [])
            × (self.new.columns.items ≡ self.old.columns.items ++ column ∷ []) }
        ensures room { (vec_capacity self.new.bases ≡ vec_capacity self.old.bases) × (vec_capacity self.new.columns ≡ vec_capacity self.old.columns) }
    {
        self.bases.push_reserved(base);
        self.columns.push_reserved(column);
    }

    /// Closes bases of which no poster has put anything.
    pub fn give_up<R: Wait>(self, rt: &R, senders: u32)
        requires { (first count : ℕ) × AreOpen J.head first count senders self }
    {
        let Bases {
            mut bases,
            mut columns,
        } = self;
        'bases: while let Some(base) = bases.pop() {
            let Some(column) = columns.pop() else {
                unreachable!()
            };
            close_unused(rt, base, column, senders);
        }
        bases.destroy_empty();
        columns.destroy_empty();
    }
}

/// One base with this executor and so many posters.
pub fn open_base<J: Headed>(
    alloc: Global,
    exec: ExecId,
    senders: u32,
) -> Result<(EventBase<J>, Column<J>), Memory>
    requires some { 1 ≤ senders }
    requires few { senders ≤ 64 }
    ensures base { IfOk result (λ made. IsNewBase exec senders made.0) }
    ensures column { IfOk result (λ made. IsColumn J.head made.0.queue.queue exec senders senders senders made.1) }
{
    let ends = Vec::with_capacity(alloc, senders as usize)?;
    let (base, posters) = EventBase::new(alloc, exec, senders, 0)?;
    Ok((base, Column { posters, ends }))
}

/// Closes a base of which no poster has put anything.
pub fn close_unused<J: Headed, R: Wait>(rt: &R, base: EventBase<J>, column: Column<J>, senders: u32)
    requires { (exec : ExecId) × IsNewBase exec senders base × IsColumn J.head base.queue.queue exec senders senders senders column }
{
    let Column { posters, ends } = column;
    let mut posters = posters;
    let mut ends = ends;
    'posters: while let Some(poster) = posters.pop() {
        ends.push_reserved(poster.end(rt));
    }
    posters.destroy_empty();
    all_are_back::<J>();
    let BaseEnd { queue: _, rest } = base.close(rt, ends);
    rest.end();
}
