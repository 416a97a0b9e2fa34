// The pop of a queue under a rule, and what is noted of it.
ghost use Rattle.std.specs.Prelude.{◌≡◌, [], ◌∷◌, ◌++◌, MatchOption};
ghost use Rattle.crossbeam_queue.specs.Fifo.{Pops, Learns};
ghost use Rattle.crossbeam_queue.specs.SegTies.{IsSegPassOf};
ghost use Rattle.queue_looks.specs.Looks.{pop_noted};

use crate::trail::Trail;
use crossbeam_queue::protocol::{Lesson, Outcome, Protocol};
use crossbeam_queue::{RuledSegQueue, SegPass};
use std::snapshot::Snapshot;
use std::sync::Wait;

/// What is noted of a look: at a queue whose passes are `P`, or at something else, of which what looked is kept, a `W`.
#[derive(Drop)]
pub enum Noted<P, W> {
    /// A pop gave an item: the place that the caller calls the queue by, and the pass afterwards.
    Took(u32, Snapshot<P>),
    /// A pop found the queue empty.
    FoundEmpty(u32, Snapshot<P>),
    /// A look at something else.
    Looked(Snapshot<W>),
}

/// Pops the item in front. `None` comes only where the queue was empty at a step of this call, with what the rule tells of that.
/// Either is noted, with the place that the caller calls the queue by.
pub fn pop<T: Drop, V, P: Protocol<T, V>, M: Outcome<T, V> + Lesson<T, V>, W, R: Wait>(
    line: &RuledSegQueue<T, V, P>,
    rt: &R,
    pass: &mut SegPass<T, V>,
    place: u32,
    trail: &mut Trail<Noted<SegPass<T, V>, W>>,
) -> Option<T>
    requires pass { IsSegPassOf line.now pass.old }
    requires rule { Pops P.holds pass.old.id pass.old.me.view.client (M.then pass.old.me.view.client) × Learns P.holds pass.old.id pass.old.me.view.client (M.fact pass.old.me.view.client) }
    ensures pass { IsSegPassOf line.now pass.new }
    ensures told { MatchOption result ((pass.new.me.view.client ≡ pass.old.me.view.client) × M.fact pass.old.me.view.client []) (λ x. M.then pass.old.me.view.client x pass.new.me.view.client) }
    ensures noted { trail.new.items ≡ trail.old.items ++ pop_noted place pass.new result ∷ [] }
{
    let popped = line.pop_as::<M, R>(rt, pass);
    let after = Snapshot::of(&*pass);
    match popped {
        Some(item) => {
            let noted = Noted::Took(place, after);
            *trail = trail.and(&noted);
            Some(item)
        }
        None => {
            let noted = Noted::FoundEmpty(place, after);
            *trail = trail.and(&noted);
            None
        }
    }
}
