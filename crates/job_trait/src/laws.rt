// Laws of jobs that ran one after another. Each body is empty: the contract is the law.
ghost use Rattle.std.specs.Prelude.{◌≡◌, List, [], ◌∷◌, ◌++◌};
ghost use Rattle.fan_base.specs.declared.number.JobId.{JobId};
ghost use Rattle.fan_base.specs.declared.number.Mark.{Mark};
ghost use Rattle.job_trait.specs.declared.job.Head.{Head};
ghost use Rattle.job_trait.specs.Marks.{IsMarkOf};
ghost use Rattle.job_trait.specs.Runs.{Ran, Leads, RunsAll, TellsBackwards, TellsAllDone};

use crate::job::Job;
use std::marker::PhantomData;

/// What a run of the job with an id does to a world. The laws are of any such meaning: that of a type of jobs is
/// [`OfJob`].
pub trait Meaning<W> {
    // The world before, the mark, the world after.
    ghost runs: { JobId → W → Mark → W → Type 0 };
}

/// The meaning of the jobs of a type. No value of it is needed.
pub struct OfJob<J> {
    _jobs: PhantomData<J>,
}

impl<W, J: Job<W>> Meaning<W> for OfJob<J> {
    ghost runs = { J.runs };
}

/// A fact about worlds.
pub trait WorldFact<W> {
    ghost holds: { W → Type 0 };
}

/// What a world was and what it is now.
pub trait WorldRelation<W> {
    ghost relates: { W → W → Type 0 };
}

/// A fact about a job's id and the mark that a run of it had.
pub trait RunFact {
    ghost holds: { JobId → Mark → Type 0 };
}

/// Where no job ran, nothing changed.
pub fn without_jobs_nothing_changes<W, M: Meaning<W>>()
    ensures empty { (w : W) → Leads M.runs w [] w }
    ensures same { (w v : W) → Leads M.runs w [] v → w ≡ v }
{}

/// One job more at the end, and the other way round: the last job of a list ran after the others.
pub fn one_job_more<W, M: Meaning<W>>()
    ensures more { (w m v : W) (list : List Ran) (id : JobId) (mark : Mark) → Leads M.runs w list m → M.runs id m mark v → Leads M.runs w (list ++ (id, mark) ∷ []) v }
    ensures last { (w v : W) (list : List Ran) (id : JobId) (mark : Mark) → Leads M.runs w (list ++ (id, mark) ∷ []) v → (m : W) × Leads M.runs w list m × M.runs id m mark v }
{}

/// The jobs of one list and then those of another, and the other way round: a list comes apart at each place.
pub fn one_list_after_another<W, M: Meaning<W>>()
    ensures append { (w m v : W) (first second : List Ran) → Leads M.runs w first m → Leads M.runs m second v → Leads M.runs w (first ++ second) v }
    ensures part { (w v : W) (first second : List Ran) → Leads M.runs w (first ++ second) v → (m : W) × Leads M.runs w first m × Leads M.runs m second v }
{}

/// All jobs of one list, and then all jobs of another.
pub fn all_jobs_of_two_lists<W, M: Meaning<W>>()
    ensures none { (w : W) → RunsAll M.runs [] w w }
    ensures one { (w v : W) (head : Head) (mark : Mark) → IsMarkOf head.number mark → M.runs head.id w mark v → RunsAll M.runs (head ∷ []) w v }
    ensures append { (w m v : W) (first second : List Head) → RunsAll M.runs first w m → RunsAll M.runs second m v → RunsAll M.runs (first ++ second) w v }
{}

/// A fact that each run keeps, the list keeps.
pub fn kept_by_each_run<W, M: Meaning<W>, F: WorldFact<W>>()
    ensures { ((id : JobId) (w : W) (mark : Mark) (v : W) → M.runs id w mark v → F.holds w → F.holds v) → (w v : W) (list : List Ran) → Leads M.runs w list v → F.holds w → F.holds v }
{}

/// A relation between what a world was and what it is, in which each run leaves it, holds of the list: say, that
/// what the world had it has still. It has to hold of a world and itself, and to go through a world between.
pub fn related_by_each_run<W, M: Meaning<W>, F: WorldRelation<W>>()
    ensures { ((w : W) → F.relates w w) → ((w m v : W) → F.relates w m → F.relates m v → F.relates w v)
        → ((id : JobId) (w : W) (mark : Mark) (v : W) → M.runs id w mark v → F.relates w v)
        → (w v : W) (list : List Ran) → Leads M.runs w list v → F.relates w v }
{}

/// From the last world back to the marks: where a run after which the fact holds began where it held too, and had a
/// mark with the other fact, then a list of runs after which it holds began where it held, and each of its marks has
/// the other fact. Say, a world notes that a run found no memory, and keeps the note: where there is none at the end,
/// no run found none.
pub fn known_back_to_front<W, M: Meaning<W>, F: WorldFact<W>, R: RunFact>()
    ensures { TellsBackwards M.runs F.holds R.holds }
{}

/// The same for the fact that a run was done: then these jobs led from world to world each done with its own number.
pub fn all_jobs_were_done<W, M: Meaning<W>, F: WorldFact<W>>()
    ensures { TellsAllDone M.runs F.holds }
{}
