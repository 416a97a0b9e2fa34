ghost use Rattle.std.specs.Prelude.{◌≡◌, ◌+◌, ◌≤◌, ◌^◌, ◌⊎◌, IfOk, IfErr};
ghost use Rattle.event_base.specs.Rounds.{Phases, IsWholeRound, IsCutRound, HasNotBegun};
ghost use Rattle.std.specs.Bool.{OnTrue, OnFalse};
ghost use Rattle.notify_queue.specs.Ends.{HasEnded, IsDry, FoundLive};
ghost use Rattle.event_base.specs.Seen.{BaseSeen};
ghost use Rattle.event_base.specs.Looping.{HoldsNoCallback, IsLoop, IsCutLoop, IsRoundBehindLook, Looks, MayHaveMore};

use super::EventBase;
use crate::job::LoopJob;
use crate::phases::{run_before, run_loop, run_messages, run_ticks};
use crate::round::{LoopEnd, Round, RoundMemory, Why};
use std::sync::Wait;

// The most messages of one round.
const MESSAGE_LIMIT: usize = 10;

impl<J> EventBase<J> {
    /// Makes one round, with so many ticks, by which `now` comes to at most 2^63: it takes up to 10 messages, and runs the callbacks
    /// that wait for the beginning of a round, the messages, the timers tick by tick, and then up to 65,536 callbacks of the loop phase.
    ///
    /// Where the take is refused, the round has not begun: nothing ran, and nothing changed. Where a tick is, that tick and the
    /// later ones are not made and the loop phase is not run: what ran has run, and the rest is held.
    pub fn loop_once<W, R: Wait>(
        &mut self,
        rt: &R,
        ticks: u64,
        world: &mut W,
    ) -> Result<Round, RoundMemory>
    where
        J: LoopJob<W>,
        requires { self.old.agenda.wheel.tick + ticks ≤ 2 ^ 63 }
        ensures ok { IfOk result (λ round. (did : Phases J)
            × IsWholeRound J.head J.runs ticks world.old self.old round did world.new self.new) }
        ensures memory { IfErr result (λ fault. HasNotBegun ticks world.old self.old fault world.new self.new
            ⊎ ((did : Phases J) × IsCutRound J.head J.runs ticks world.old self.old fault did world.new self.new)) }
    {
        let mut round = Round {
            number: self.number,
            before: 0,
            messages: 0,
            timers: 0,
            loops: 0,
        };
        let messages = match self.queue.take_up_to(rt, MESSAGE_LIMIT) {
            Ok(messages) => messages,
            Err(_) => return Err(RoundMemory {
                round,
                left_ticks: ticks,
            }),
        };
        round.messages = messages.len() as u64;
        self.number = self.number.saturating_add(1);
        self.agenda.end_phase();
        round.before = run_before(rt, &mut self.agenda, world);
        run_messages(rt, &mut self.agenda, world, messages);
        let (timers, left_ticks) = run_ticks(rt, &mut self.agenda, world, ticks);
        round.timers = timers;
        if left_ticks > 0 {
            return Err(RoundMemory { round, left_ticks });
        }
        round.loops = run_loop(rt, &mut self.agenda, world);
        Ok(round)
    }

    /// Makes rounds without ticks, up to one after which a job's `terminate_soon` stands, which is then taken off, or else after
    /// which all posters have ended, the queue is empty and no callback is held. Timers are not waited for. It sleeps while there
    /// is nothing to run.
    ///
    /// Where the take of a round is refused, that round has not begun, and the earlier ones have run. How many these were is not
    /// said.
    pub fn loop_until_closed<W, R: Wait>(
        &mut self,
        rt: &R,
        world: &mut W,
    ) -> Result<LoopEnd, RoundMemory>
    where
        J: LoopJob<W>,
        ensures ok { IfOk result (λ end. IsLoop J.head J.runs end.rounds end.why world.old self.old world.new self.new) }
        ensures memory { IfErr result (λ fault. IsCutLoop J.head J.runs fault world.old self.old world.new self.new) }
    {
        let mut rounds: u64 = 0;
        for _ in rt.forever() {
            let (dry, empty) = match self.look_and_round(rt, world) {
                Ok(found) => found,
                Err(fault) => return Err(fault),
            };
            rounds = rounds.saturating_add(1);
            if self.agenda.take_mark() {
                return Ok(LoopEnd {
                    rounds,
                    why: Why::Terminated,
                });
            }
            let idle = self.agenda.is_idle();
            if dry && idle {
                return Ok(LoopEnd {
                    rounds,
                    why: Why::Closed,
                });
            }
            self.sleep_where(rt, idle && empty);
        }
        unreachable!()
    }

    // Looks whether the posters have ended, and then makes a round without ticks. It says whether the queue is dry, and whether it
    // was found empty while a poster lived.
    fn look_and_round<W, R: Wait>(
        &mut self,
        rt: &R,
        world: &mut W,
    ) -> Result<(bool, bool), RoundMemory>
    where
        J: LoopJob<W>,
        ensures ok { IfOk result (λ found. (did : Phases J)
            × (one : IsRoundBehindLook J.head J.runs world.old self.old did world.new self.new)
            × OnFalse found.0 (MayHaveMore self.old one.looked did)) }
        ensures dry { IfOk result (λ found. OnTrue found.0 (IsDry self.new.queue)) }
        ensures memory { IfErr result (λ fault. (looked : BaseSeen J) × Looks self.old looked
            × HasNotBegun 0 world.old looked fault world.new self.new) }
    {
        // No tick is made, so the ticks stay within their bound.
        let _made = self.agenda.now();
        let ended = self.look();
        let round = match self.loop_once(rt, 0, world) {
            Ok(round) => round,
            Err(fault) => return Err(fault),
        };
        let fewer = round.messages < MESSAGE_LIMIT as u64;
        Ok((ended && fewer, !ended && fewer))
    }

    // Looks whether every poster has ended.
    fn look(&mut self) -> bool
        ensures looks { Looks self.old self.new }
        ensures ended { OnTrue result (HasEnded self.new.queue) }
        ensures live { OnFalse result (FoundLive self.old.queue self.new.queue) }
    {
        self.queue.ended()
    }

    // Sleeps until something is posted or a poster ends, where that is wanted, which is never while a callback is held.
    fn sleep_where<R: Wait>(&mut self, rt: &R, wanted: bool)
        requires { OnTrue wanted (HoldsNoCallback self.old.agenda) }
        ensures { self.new ≡ self.old }
    {
        if wanted {
            self.queue.sleep(rt);
        }
    }
}
