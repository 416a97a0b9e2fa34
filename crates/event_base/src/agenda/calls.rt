ghost use Rattle.std.specs.Prelude.{◌≡◌, ◌<◌, ◌≤◌, ◌^◌, ◌↔◌, IsTrue, IsSome, None, Err};
ghost use Rattle.std.specs.Prelude.{IfOk, IfErr, OnOk, OnErr, option_map};
ghost use Rattle.tick_wheel.specs.declared.timer.Timer.{Timer};
ghost use Rattle.tick_wheel.specs.TimerList.{timer_at, handed_back, items_of, by_id};
ghost use Rattle.event_base.specs.Calls.{with_in_loop, with_this_iteration, with_before, with_mark, IsReached};
ghost use Rattle.event_base.specs.Calls.{with_timer, without_timer, without_timers};

use super::Agenda;
use crate::room::{push_behind, push_with_room};
use fan_base::{ExecId, JobId, Memory, Refused};
use job_trait::Headed;
use tick_wheel::{ScheduleFault, Timer};

impl<J: Headed> Agenda<J> {
    /// The base's executor, which all that is scheduled here has to have.
    pub fn exec(&self) -> ExecId
        ensures { result ≡ self.now.exec }
    {
        self.exec
    }

    /// How many ticks were made, the start counted.
    pub fn now(&self) -> u64
        ensures now { result ≡ self.now.wheel.tick }
        ensures within { result ≤ 2 ^ 63 }
    {
        self.timers.now()
    }

    /// Whether a timer of this job id is held.
    pub fn has_timer(&self, id: JobId) -> bool
        ensures { IsTrue result ↔ IsSome (timer_at id.0 self.now.wheel.timers) }
    {
        self.timers.holds(id.0)
    }

    /// Runs the job in the next loop phase to begin, which in a loop phase is that of the next round. It gives the job back, and
    /// changes nothing, where there is no memory.
    pub fn run_in_loop(&mut self, job: J) -> Result<(), Refused<J>>
        requires { (J.head job).exec ≡ self.old.exec }
        ensures ok { OnOk result (self.new ≡ with_in_loop self.old job) }
        ensures refused { IfErr result (λ back. (back ≡ Refused.Memory job) × (self.new ≡ self.old)) }
        ensures calls { IsReached J.head self.old self.new }
    {
        if self.in_loop {
            push_behind(&mut self.later, job, &mut self.loops)
        } else {
            push_with_room(&mut self.loops, job, self.later.len())
        }
    }

    /// Runs the job in the next loop phase, or at the end of the one that runs. It gives the job back, and changes nothing, where
    /// there is no memory.
    pub fn run_this_iteration(&mut self, job: J) -> Result<(), Refused<J>>
        requires { (J.head job).exec ≡ self.old.exec }
        ensures ok { OnOk result (self.new ≡ with_this_iteration self.old job) }
        ensures refused { IfErr result (λ back. (back ≡ Refused.Memory job) × (self.new ≡ self.old)) }
        ensures calls { IsReached J.head self.old self.new }
    {
        push_with_room(&mut self.loops, job, self.later.len())
    }

    /// Runs the job at the beginning of the next round to begin. It gives the job back, and changes nothing, where there is no
    /// memory.
    pub fn run_before_loop(&mut self, job: J) -> Result<(), Refused<J>>
        requires { (J.head job).exec ≡ self.old.exec }
        ensures ok { OnOk result (self.new ≡ with_before self.old job) }
        ensures refused { IfErr result (λ back. (back ≡ Refused.Memory job) × (self.new ≡ self.old)) }
        ensures calls { IsReached J.head self.old self.new }
    {
        self.before.push_back(job)?;
        Ok(())
    }

    /// Runs the job so many ticks from now, 1 to 4,294,967,295. No timer of its id may be held, which [`Agenda::has_timer`] tells. A
    /// refused call changes nothing and gives the job back: `ZeroDelay` comes exactly for 0, `DelayTooLong` exactly above 4,294,967,295,
    /// and else `Memory` may come, also once 2^64 - 1 timers were scheduled.
    pub fn schedule(&mut self, delay: u64, job: J) -> Result<(), ScheduleFault<J>>
        requires exec { (J.head job).exec ≡ self.old.exec }
        requires free { timer_at (J.head job).id.0 self.old.wheel.timers ≡ None }
        ensures ok { OnOk result (self.new ≡ with_timer self.old delay (J.head job).id.0 job) }
        ensures zero { (result ≡ Err (ScheduleFault.ZeroDelay job)) ↔ (delay ≡ 0) }
        ensures long { (result ≡ Err (ScheduleFault.DelayTooLong job)) ↔ (4294967295 < delay) }
        ensures refused { IfErr result (λ fault. (handed_back fault ≡ job) × (self.new ≡ self.old)) }
        ensures calls { IsReached J.head self.old self.new }
    {
        self.timers.schedule(delay, job.id().0, job)
    }

    /// Takes the timer of a job id out, and gives its job back. None comes exactly where no timer of this id is held. It takes no
    /// memory.
    pub fn cancel_timer(&mut self, id: JobId) -> Option<J>
        ensures job { result ≡ option_map (λ (t : Timer J). t.item) (timer_at id.0 self.old.wheel.timers) }
        ensures rest { self.new ≡ without_timer self.old id }
        ensures calls { IsReached J.head self.old self.new }
    {
        let Timer { item, .. } = self.timers.cancel(id.0)?;
        Some(item)
    }

    /// Takes all timers out, and gives their jobs, in ascending order of their ids. A refused call changes nothing.
    pub fn cancel_timers(&mut self) -> Result<Vec<J>, Memory>
        ensures jobs { IfOk result (λ jobs. jobs.items ≡ items_of (by_id self.old.wheel.timers)) }
        ensures ok { OnOk result (self.new ≡ without_timers self.old) }
        ensures refused { OnErr result (self.new ≡ self.old) }
        ensures calls { IsReached J.head self.old self.new }
    {
        self.timers.cancel_all()
    }

    /// Ends the loop after the round that runs, or the next one.
    pub fn terminate_soon(&mut self)
        ensures mark { self.new ≡ with_mark self.old }
        ensures calls { IsReached J.head self.old self.new }
    {
        self.terminating = true;
    }
}
