ghost use Rattle.std.specs.Prelude.{◌≡◌, ◌+◌, ◌<◌, ◌≤◌, ◌^◌, [], ◌∷◌, None, false, length, filter, All, IfOk, OnOk, OnErr, MatchOption, option_to_list};
ghost use Rattle.core_interrupt.specs.Seen.{HomeSeen};
ghost use Rattle.tick_wheel.specs.TimerList.{timer_at};
ghost use Rattle.event_base.specs.Calls.{without_timer};
ghost use Rattle.query_timers.specs.Firing.{AreSilentEnds, AreTimersOf, scheduled_on, with_agenda};
ghost use Rattle.query_timers.specs.Seen.{Ticks, has_number, id_of, with_delayed, with_skipped, with_waiter, without};

use crate::due::DueQuery;
use crate::interrupt::{CancelHome, Pair, pairs_of};
use crate::query::DelayedQuery;
use crate::waiters::Waiters;
use event_base::{BaseEnd, EventBase};
use fan_base::{ExecId, JobId, Memory};
use notify_queue::SenderEnd;
use std::alloc::Global;
use std::marker::Model;
use std::sync::Wait;
use tick_wheel::ScheduleFault;

/// The queries that wait for their due ticks. It must be spent by [`QueryTimers::close`].
pub struct QueryTimers<'h> {
    base: EventBase<DueQuery>,
    // The end of the base's poster, by which nothing was posted.
    ends: Vec<SenderEnd<DueQuery>>,
    waiters: Waiters<'h>,
    // Interrupts that nobody has used.
    pairs: Vec<Pair<'h>>,
}

impl<'h> Model for QueryTimers<'h> {
    ghost use Rattle.std.specs.Prelude.{length};
    ghost use Rattle.query_timers.specs.Firing.{AreSilentEnds, AreTimersOf};
    ghost use Rattle.query_timers.specs.Seen.{TimersSeen};

    ghost Value = { TimersSeen };

    ghost view = { λ t. record {
      tick = t.base.agenda.wheel.tick;
      asked = t.waiters.asked;
      waiting = t.waiters.waiting;
      fired = t.waiters.fired;
      homes = length t.pairs.items;
    } };

    ghost invariant = { λ t. AreTimersOf t.base.agenda t.waiters × AreSilentEnds t.base t.ends.items };
}

// A base with no poster left, and the end of the one that it had.
fn silent_base<R: Wait>(
    rt: &R,
    alloc: Global,
    exec: ExecId,
) -> Result<(EventBase<DueQuery>, Vec<SenderEnd<DueQuery>>), Memory>
    ensures ends { IfOk result (λ made. AreSilentEnds made.0 made.1.items) }
    ensures base { IfOk result (λ made. AreTimersOf made.0.agenda (record { asked = 0; waiting = []; fired = [] }) × (made.0.agenda.wheel.tick ≡ 0)) }
{
    let Ok(mut ends) = Vec::with_capacity(alloc, 1) else {
        return Err(Memory);
    };
    match EventBase::new(alloc, exec, 1, 0) {
        Ok((base, mut posters)) => {
            let Some(poster) = posters.pop() else {
                unreachable!()
            };
            posters.destroy_empty();
            ends.push_reserved(poster.end(rt));
            Ok((base, ends))
        }
        Err(_) => {
            ends.destroy_empty();
            Err(Memory)
        }
    }
}

// Schedules the timer of a query, and says when it is due.
fn schedule(base: &mut EventBase<DueQuery>, number: u64, delay: u32) -> Result<u64, Memory>
    requires some { 1 ≤ delay }
    requires free { timer_at number base.old.agenda.wheel.timers ≡ None }
    ensures due { IfOk result (λ due. due ≡ base.old.agenda.wheel.tick + delay) }
    ensures timer { IfOk result (λ due. base.new ≡ with_agenda base.old (scheduled_on base.old.agenda number delay)) }
    ensures refused { OnErr result (base.new ≡ base.old) }
{
    let agenda = base.agenda();
    let due = agenda.now() + u64::from(delay);
    let job = DueQuery {
        number,
        exec: agenda.exec(),
    };
    match agenda.schedule(u64::from(delay), job) {
        Ok(()) => Ok(due),
        Err(ScheduleFault::Memory(_)) => Err(Memory),
        Err(ScheduleFault::ZeroDelay(_)) => unreachable!(),
        Err(ScheduleFault::DelayTooLong(_)) => unreachable!(),
    }
}

// Takes the timer of a query out.
fn unschedule(base: &mut EventBase<DueQuery>, timer: JobId)
    ensures { base.new ≡ with_agenda base.old (without_timer base.old.agenda timer) }
{
    let _job = base.agenda().cancel_timer(timer);
}

impl<'h> QueryTimers<'h> {
    /// No query yet, and no tick made. At most as many queries wait as there are homes, whose pairs nobody has taken. The executor is that
    /// of the base.
    pub fn new<R: Wait>(
        rt: &R,
        alloc: Global,
        exec: ExecId,
        homes: &'h mut [CancelHome],
    ) -> Result<QueryTimers<'h>, Memory>
        requires { All (λ (home : HomeSeen). home.taken ≡ false) homes.old }
        ensures { IfOk result (λ timers. timers ≡ record { tick = 0; asked = 0; waiting = []; fired = []; homes = length homes.old }) }
    {
        let (base, ends) = silent_base(rt, alloc, exec)?;
        match pairs_of(alloc, homes) {
            Ok(pairs) => Ok(QueryTimers {
                base,
                ends,
                waiters: Waiters::new(alloc),
                pairs,
            }),
            Err(_) => {
                close_base(rt, base, ends);
                Err(Memory)
            }
        }
    }

    /// The next query, which doesn't wait. A refused call changes nothing.
    pub fn skip(&mut self) -> Result<(), Memory>
        ensures ok { OnOk result (self.new ≡ with_skipped self.old) }
        ensures refused { OnErr result (self.new ≡ self.old) }
    {
        self.waiters.skip()
    }

    /// The next query, which waits for so many ticks, 1 to 4,294,967,295. A refused call leaves all that wait.
    pub fn delay(&mut self, line: usize, documents: u32, delay: u32) -> Result<(), Memory>
        requires some { 1 ≤ delay }
        requires home { 0 < self.old.homes }
        ensures ok { OnOk result (self.new ≡ with_delayed self.old line documents delay) }
        ensures refused { OnErr result ((self.new.waiting ≡ self.old.waiting) × (self.new.fired ≡ self.old.fired)) }
    {
        let Some(pair) = self.pairs.pop() else {
            unreachable!()
        };
        let number = self.waiters.asked() + 1;
        match schedule(&mut self.base, number, delay) {
            Ok(due) => {
                let query = DelayedQuery {
                    number,
                    line,
                    documents,
                    due,
                };
                push(&mut self.base, &mut self.waiters, query, pair)
            }
            Err(_) => {
                pair.end();
                Err(Memory)
            }
        }
    }

    /// So many ticks, as one round of the base: the queries that are due fire, by due tick and then by number. Where there is no memory,
    /// some may have fired.
    pub fn tick<R: Wait>(&mut self, rt: &R, ticks: u32) -> Result<(), Memory>
        requires { self.old.tick + ticks ≤ 2 ^ 63 }
        ensures { OnOk result (Ticks ticks self.old self.new) }
    {
        let ticks = u64::from(ticks);
        let Ok(_round) = self.base.loop_once(rt, ticks, &mut self.waiters) else {
            return Err(Memory);
        };
        Ok(())
    }

    /// The query with this number is no longer wanted: its interrupt is raised, and the timer that the handler names is taken out. It gives
    /// the query exactly where it waits, and takes no memory.
    pub fn cancel(&mut self, number: u64) -> Option<DelayedQuery>
        ensures those { option_to_list result ≡ filter (has_number number) self.old.waiting }
        ensures rest { self.new ≡ without number self.old }
    {
        let waiter = self.waiters.take(number)?;
        let query = waiter.query();
        let timer = waiter.raise();
        unschedule(&mut self.base, timer);
        Some(query)
    }

    /// The query with this number waits no more, since its due tick never comes: its interrupt ends, and its timer is taken out. It gives the
    /// query exactly where it waits, and takes no memory.
    pub fn give_up(&mut self, number: u64) -> Option<DelayedQuery>
        ensures those { option_to_list result ≡ filter (has_number number) self.old.waiting }
        ensures rest { self.new ≡ without number self.old }
    {
        let waiter = self.waiters.take(number)?;
        let query = waiter.end();
        unschedule(&mut self.base, JobId(query.number));
        Some(query)
    }

    /// The first of the queries that have fired; its interrupt ends.
    pub fn next_fired(&mut self) -> Option<DelayedQuery>
        ensures { MatchOption result ((self.old.fired ≡ []) × (self.new ≡ self.old))
            (λ query. (self.old.fired ≡ query ∷ self.new.fired) × (self.new ≡ record self.old { fired = self.new.fired })) }
    {
        let waiter = self.waiters.next_fired()?;
        Some(waiter.end())
    }

    /// How many queries there were.
    pub fn asked(&self) -> u64
        ensures { result ≡ self.now.asked }
    {
        self.waiters.asked()
    }

    /// Ends all: interrupts, timers and the base.
    pub fn close<R: Wait>(self, rt: &R) {
        let QueryTimers {
            base,
            ends,
            waiters,
            pairs,
        } = self;
        waiters.end();
        end_pairs(pairs);
        close_base(rt, base, ends);
    }
}

// What timers are left may be let go.
fn close_base<R: Wait>(rt: &R, base: EventBase<DueQuery>, ends: Vec<SenderEnd<DueQuery>>)
    requires { AreSilentEnds base ends.items }
{
    let BaseEnd { queue: _, rest: _ } = base.close(rt, ends);
}

fn end_pairs(mut pairs: Vec<Pair<'_>>) {
    while let Some(pair) = pairs.pop() {
        pair.end();
    }
    pairs.destroy_empty();
}

// A query whose timer is scheduled waits. Where there is no memory, its timer is taken out again.
fn push<'h>(
    base: &mut EventBase<DueQuery>,
    waiters: &mut Waiters<'h>,
    query: DelayedQuery,
    pair: Pair<'h>,
) -> Result<(), Memory>
    requires { query.number ≡ waiters.old.asked + 1 }
    ensures ok { OnOk result ((base.new ≡ base.old) × (waiters.new ≡ with_waiter waiters.old query)) }
    ensures refused { OnErr result ((base.new ≡ with_agenda base.old (without_timer base.old.agenda (id_of query))) × (waiters.new ≡ waiters.old)) }
{
    match waiters.push(query, pair) {
        Ok(()) => Ok(()),
        Err(_) => {
            unschedule(base, JobId(query.number));
            Err(Memory)
        }
    }
}
