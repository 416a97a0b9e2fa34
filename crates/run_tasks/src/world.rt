ghost use Rattle.std.specs.Prelude.{◌≡◌, ◌≤◌, [], ◌∷◌, false, length, map, vec_capacity};
ghost use Rattle.run_tasks.specs.Worlds.{AreEndsFor, ArePostersOf, told_of};

use core_cells::{CellPass, Cells};
use core_proxy::NoProxy;
use core_word::Tally;
use fan_parts::{BasePoster, GatherJob, Part, PartCallback, RunName, RunShards};
use notify_queue::SenderEnd;
use std::marker::Model;
use std::sync::Wait;

/// The cells of the tasks' cores.
pub type TaskCells<'t, N> = Cells<'t, Part<N>, PartCallback<N>, NoProxy>;

pub type TaskCellPass<'t, N> = CellPass<'t, Part<N>, PartCallback<N>, NoProxy>;

/// What tasks run on. It must be spent by `end`.
pub struct TaskWorld<'c, 't, 'i: 't, N: RunName> {
    pub(crate) shards: RunShards<'i, N>,
    pub(crate) cells: &'c TaskCells<'t, N>,
    pub(crate) pass: TaskCellPass<'t, N>,
    pub(crate) posters: Vec<BasePoster<GatherJob<N>>>,
    pub(crate) ends: Vec<SenderEnd<GatherJob<N>>>,
    pub(crate) tally: Tally,
    pub(crate) refused: bool,
}

impl<'c, 't, 'i: 't, N: RunName> Model for TaskWorld<'c, 't, 'i, N> {
    ghost use Rattle.std.specs.Prelude.{◌≡◌, ◌≤◌, [], length, vec_capacity};
    ghost use Rattle.run_tasks.specs.Seen.{WorldSeen};
    ghost use Rattle.run_tasks.specs.Worlds.{ArePostersOf};

    ghost Value = { WorldSeen N };

    ghost view = { λ w. record { posters = w.posters.items; cells = w.cells.now; pass = w.pass; tally = w.tally; refused = w.refused } };

    ghost invariant = { λ w. ArePostersOf N.asked w.posters.items × (w.pass.cells ≡ w.cells.now) × (w.ends.items ≡ []) × (length w.posters.items ≤ vec_capacity w.ends) };

    ghost use Rattle.query_grammar.specs.contracts.expr.Expr as expr;
    ghost use Rattle.std.specs.Coded.{codes};

    ghost coded = { Prim.hlevel (codes, expr.the_row.coded) };
}

/// What is left of a world: the ends of its posters, by base, its pass, what became of cores, and whether memory was refused.
pub struct TaskEnds<'t, N: RunName> {
    pub posters: Vec<SenderEnd<GatherJob<N>>>,
    pub pass: TaskCellPass<'t, N>,
    pub tally: Tally,
    pub refused: bool,
}

impl<'c, 't, 'i: 't, N: RunName> TaskWorld<'c, 't, 'i, N> {
    /// A world over these shards, with a poster to each gathering base, by base, and a pass of these cells. `ends` is an empty list with
    /// room for the end of each poster.
    pub fn new(
        shards: RunShards<'i, N>,
        cells: &'c TaskCells<'t, N>,
        pass: TaskCellPass<'t, N>,
        posters: Vec<BasePoster<GatherJob<N>>>,
        ends: Vec<SenderEnd<GatherJob<N>>>,
    ) -> TaskWorld<'c, 't, 'i, N>
        requires cells { pass.cells ≡ cells.now }
        requires posters { ArePostersOf N.asked posters.items }
        requires ends { ends.items ≡ [] }
        requires room { length posters.items ≤ vec_capacity ends }
        ensures { result ≡ record { posters = posters.items; cells = cells.now; pass = pass.entry; tally = record { made = 0; handed = 0; forwarded = 0; freed = 0; reopened = 0 }; refused = false } }
    {
        TaskWorld {
            shards,
            cells,
            pass,
            posters,
            ends,
            tally: Tally::new(),
            refused: false,
        }
    }

    /// Ends its posters. It takes no memory.
    pub fn end<R: Wait>(self, rt: &R) -> TaskEnds<'t, N>
        ensures posters { result.posters.items ≡ map (λ p. p.sender) self.entry.posters }
        ensures on_bases { AreEndsFor (map told_of self.entry.posters) result.posters.items }
        ensures rest { (result.pass ≡ self.entry.pass) × (result.tally ≡ self.entry.tally) × (result.refused ≡ self.entry.refused) }
    {
        let TaskWorld {
            shards: _,
            cells: _,
            pass,
            posters,
            mut ends,
            tally,
            refused,
        } = self;
        let mut left = posters.into_iter();
        while let Some(poster) = left.next() {
            ends.push_reserved(poster.end(rt));
        }
        left.destroy_empty();
        TaskEnds {
            posters: ends,
            pass,
            tally,
            refused,
        }
    }
}
