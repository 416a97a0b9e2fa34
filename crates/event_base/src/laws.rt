// Laws of calls, rounds and loops. Each body is empty: the contract is the law.
ghost use Rattle.std.specs.Prelude.{◌≡◌, ℕ, ◌-◌, ◌++◌, [], false, List, drop};
ghost use Rattle.event_base.specs.declared.round.Round.{Round};
ghost use Rattle.event_base.specs.declared.round.RoundMemory.{RoundMemory};
ghost use Rattle.event_base.specs.declared.round.Why.{Why};
ghost use Rattle.event_base.specs.declared.round.Why.TheVariants.{Closed};
ghost use Rattle.event_base.specs.Calls.{IsReached};
ghost use Rattle.event_base.specs.Laws.{IsIdle, IsKeptByRuns, KeepsBase, LeadsUpTo, LeaveTheAgenda, RunsMessages, ran_in};
ghost use Rattle.event_base.specs.Looping.{IsLoop, IsCutLoop};
ghost use Rattle.event_base.specs.Rounds.{Phases, IsLoopPhase, IsWholeRound, IsCutRound, HasNotBegun};
ghost use Rattle.event_base.specs.Seen.{AgendaSeen, BaseSeen};
ghost use Rattle.event_base.specs.Turns.{Turn, Place, added_to_phase, added_behind};

use crate::job::LoopJob;
use job_trait::{Headed, WorldRelation};

/// Calls on an agenda one after another. They keep its executor and its number of ticks.
pub fn calls_in_a_row<J: Headed>()
    ensures none { (a : AgendaSeen J) → IsReached J.head a a }
    ensures join { (a b c : AgendaSeen J) → IsReached J.head a b → IsReached J.head b c → IsReached J.head a c }
    ensures keep { (a b : AgendaSeen J) → IsReached J.head a b → (b.exec ≡ a.exec) × (b.wheel.tick ≡ a.wheel.tick) }
{}

/// A relation between what the world was and what it is, in which each run leaves it, holds of rounds and of whole loops: say,
/// that what the world had it has still.
pub fn related_by_each_turn<W, J: LoopJob<W>, F: WorldRelation<W>>()
    ensures round { IsKeptByRuns J.runs F.relates
        → (ticks : ℕ) (w : W) (old : BaseSeen J) (round : Round) (did : Phases J) (v : W) (new : BaseSeen J)
        → IsWholeRound J.head J.runs ticks w old round did v new
        → F.relates w v }
    ensures cut_round { IsKeptByRuns J.runs F.relates
        → (ticks : ℕ) (w : W) (old : BaseSeen J) (fault : RoundMemory) (did : Phases J) (v : W) (new : BaseSeen J)
        → IsCutRound J.head J.runs ticks w old fault did v new
        → F.relates w v }
    ensures whole_loop { IsKeptByRuns J.runs F.relates
        → (rounds : ℕ) (why : Why) (w : W) (old : BaseSeen J) (v : W) (new : BaseSeen J)
        → IsLoop J.head J.runs rounds why w old v new
        → F.relates w v }
    ensures cut_loop { IsKeptByRuns J.runs F.relates
        → (fault : RoundMemory) (w : W) (old : BaseSeen J) (v : W) (new : BaseSeen J)
        → IsCutLoop J.head J.runs fault w old v new
        → F.relates w v }
{}

/// What is held after a loop phase: what was over its limit, and then what was scheduled in it for the next one.
pub fn held_after_a_loop_phase<W, J: LoopJob<W>>()
    ensures loops { (limit : ℕ) (p q : Place W J) (turns : List (Turn J))
        → IsLoopPhase J.head J.runs limit p turns q
        → q.1.loops ≡ drop limit (p.1.loops ++ added_to_phase turns) ++ (p.1.later ++ added_behind turns) }
    ensures later { (limit : ℕ) (p q : Place W J) (turns : List (Turn J))
        → IsLoopPhase J.head J.runs limit p turns q
        → (q.1.later ≡ []) × (q.1.in_loop ≡ false) }
{}

/// The jobs of a round, in its order, lead from the world and the agenda before it to those after it. Between two jobs the agenda
/// changes by the base's own steps alone: it makes a tick, begins or ends the loop phase, and takes the very job that runs next.
pub fn a_round_leads<W, J: LoopJob<W>>()
    ensures { (ticks : ℕ) (w : W) (old : BaseSeen J) (round : Round) (did : Phases J) (v : W) (new : BaseSeen J)
        → IsWholeRound J.head J.runs ticks w old round did v new
        → LeadsUpTo J.head J.runs (w, old.agenda) (ran_in J.head did) (v, new.agenda) }
{}

/// Rounds and loops keep the base's executor, its queue and the number of its posters, and the ticks that were made are counted.
pub fn rounds_keep_the_base<W, J: LoopJob<W>>()
    ensures round { (ticks : ℕ) (w : W) (old : BaseSeen J) (round : Round) (did : Phases J) (v : W) (new : BaseSeen J)
        → IsWholeRound J.head J.runs ticks w old round did v new
        → KeepsBase ticks old new }
    ensures cut_round { (ticks : ℕ) (w : W) (old : BaseSeen J) (fault : RoundMemory) (did : Phases J) (v : W) (new : BaseSeen J)
        → IsCutRound J.head J.runs ticks w old fault did v new
        → KeepsBase (ticks - fault.left_ticks) old new }
    ensures not_begun { (ticks : ℕ) (w : W) (old : BaseSeen J) (fault : RoundMemory) (v : W) (new : BaseSeen J)
        → HasNotBegun ticks w old fault v new
        → KeepsBase 0 old new }
    ensures whole_loop { (rounds : ℕ) (why : Why) (w : W) (old : BaseSeen J) (v : W) (new : BaseSeen J)
        → IsLoop J.head J.runs rounds why w old v new
        → KeepsBase 0 old new }
    ensures cut_loop { (fault : RoundMemory) (w : W) (old : BaseSeen J) (v : W) (new : BaseSeen J)
        → IsCutLoop J.head J.runs fault w old v new
        → KeepsBase 0 old new }
{}

/// Where no callback is held at first, the mark to end is off and each run leaves the agenda as it was, a loop runs exactly the messages
/// that it took, once each, in the queue's order, and it is never told to end.
pub fn a_loop_of_messages<W, J: LoopJob<W>>()
    ensures whole_loop { LeaveTheAgenda J.runs
        → (rounds : ℕ) (why : Why) (w : W) (old : BaseSeen J) (v : W) (new : BaseSeen J)
        → IsIdle old.agenda
        → IsLoop J.head J.runs rounds why w old v new
        → RunsMessages J.head J.runs w old v new }
    ensures closed { LeaveTheAgenda J.runs
        → (rounds : ℕ) (why : Why) (w : W) (old : BaseSeen J) (v : W) (new : BaseSeen J)
        → IsIdle old.agenda
        → IsLoop J.head J.runs rounds why w old v new
        → why ≡ Closed }
    ensures cut_loop { LeaveTheAgenda J.runs
        → (fault : RoundMemory) (w : W) (old : BaseSeen J) (v : W) (new : BaseSeen J)
        → IsIdle old.agenda
        → IsCutLoop J.head J.runs fault w old v new
        → RunsMessages J.head J.runs w old v new }
{}
