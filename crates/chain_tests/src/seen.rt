//! What came to the ends of chains, and how a fire is followed to the end of its chain.
ghost use Rattle.std.specs.Prelude.{◌≡◌, [], None, false};

use core_proxy::{NoProxy, Proxy, settle};
use core_word::{Fire, Home, Key, Landed, Left, Leftover, Tally, Unspent};
use fan_base::{ExecId, Fault, Refused, Try};
use job_steps::Cont;
use job_trait::{Executor, ManualExecutor};
use promise_api::{After, Chain, ChainJob, Future, Landing, Promise};
use std::alloc::Global;
use std::fmt::Debug;
use std::mem;
use std::process::Abort;
use std::sync::Wait;

// Compares two values. A test compares by this, since each assertion that a body makes of its own makes that body dearer to prove.
pub(crate) fn same<T: PartialEq + Debug + Copy, R: Abort>(rt: &R, found: T, expected: T) {
    assert_eq!(rt; found, expected);
}

// An outcome as a value that may be copied.
pub(crate) type Outcome = Result<u64, Fault>;

fn told(outcome: Try<u64>) -> Outcome {
    match outcome {
        Try::Value(value) => Ok(value),
        Try::Broken => Err(Fault::Broken),
        Try::Memory => Err(Fault::Memory),
        Try::Cancelled(number) => Err(Fault::Cancelled(number)),
    }
}

pub(crate) fn try_of(outcome: Outcome) -> Try<u64> {
    match outcome {
        Ok(value) => Try::Value(value),
        Err(Fault::Broken) => Try::Broken,
        Err(Fault::Memory) => Try::Memory,
        Err(Fault::Cancelled(number)) => Try::Cancelled(number),
    }
}

// The fire of a chain's end: the core's number, the outcome, the callback, and whether it may run inline.
pub(crate) type End = (u64, Outcome, u64, bool);

// Made, handed over, forwarded and freed.
pub(crate) type Counts = (u64, u64, u64, u64);

// How many fires of chains' ends came, and the last one; how many outcomes were left over, and the last one; how often there was
// no memory; and the numbers of all calls.
pub(crate) type Facts = (u64, Option<End>, u64, Option<Outcome>, u64, Counts);

// What came to the ends of chains, with what `Facts` has.
#[derive(Drop)]
pub(crate) struct Seen {
    fires: u64,
    end: Option<End>,
    left_over: u64,
    unclaimed: Option<Outcome>,
    refused: u64,
    pub(crate) tally: Tally,
}

impl Seen {
    pub(crate) fn nothing() -> Seen {
        Seen {
            fires: 0,
            end: None,
            left_over: 0,
            unclaimed: None,
            refused: 0,
            tally: Tally::new(),
        }
    }

    pub(crate) fn counts(&self) -> Counts {
        let t = &self.tally;
        (t.made(), t.handed(), t.forwarded(), t.freed())
    }

    pub(crate) fn facts(&self) -> Facts {
        (
            self.fires,
            self.end,
            self.left_over,
            self.unclaimed,
            self.refused,
            self.counts(),
        )
    }

    // Adds what another one has seen. The ends are its own, where it has seen any.
    pub(crate) fn add(&mut self, other: Seen) {
        let (fires, end, left_over, unclaimed, refused, _) = other.facts();
        self.fires = self.fires.saturating_add(fires);
        self.left_over = self.left_over.saturating_add(left_over);
        self.refused = self.refused.saturating_add(refused);
        self.end = end.or(self.end);
        self.unclaimed = unclaimed.or(self.unclaimed);
        self.counted(other.tally);
    }

    pub(crate) fn refuse(&mut self) {
        self.refused = self.refused.saturating_add(1);
    }

    pub(crate) fn counted(&mut self, tally: Tally) {
        let before = mem::replace(&mut self.tally, Tally::new());
        self.tally = before.merge(tally);
    }

    pub(crate) fn left_over(&mut self, outcome: Option<Try<u64>>) {
        if let Some(outcome) = outcome {
            self.left_over = self.left_over.saturating_add(1);
            self.unclaimed = Some(told(outcome));
        }
    }

    pub(crate) fn left<C, P: Proxy<u64, C>>(&mut self, left: Left<'_, u64, C, P>) {
        let left_over = settle(left, &mut self.tally);
        self.left_over(left_over);
    }

    // Sets the callback 7 by a future, and follows what that comes to. (This, and the next two, for any proxy: a call is dear to
    // prove where the proxy is another core's consumer.)
    pub(crate) fn set_callback<R: Wait, P: Proxy<u64, u64>>(
        &mut self,
        rt: &R,
        alloc: Global,
        future: Future<'_, u64, u64, P>,
    ) {
        let after = future.on(7, &mut self.tally);
        self.after(rt, alloc, after);
    }

    // The same with the allowance to run inline.
    pub(crate) fn set_callback_inline<R: Wait, P: Proxy<u64, u64>>(
        &mut self,
        rt: &R,
        alloc: Global,
        future: Future<'_, u64, u64, P>,
    ) {
        let after = future.on_inline(7, &mut self.tally);
        self.after(rt, alloc, after);
    }

    // Keeps a promise by a proxy, and follows what that comes to.
    pub(crate) fn set_proxy<R: Wait, P: Proxy<u64, u64>>(
        &mut self,
        rt: &R,
        alloc: Global,
        to: Promise<'_, u64, u64, P>,
        proxy: P,
    ) {
        let after = to.proxy(proxy, &mut self.tally);
        self.after(rt, alloc, after);
    }

    // Follows what an act came to.
    pub(crate) fn after<R: Wait, C: Followed, P: Proxy<u64, C>>(
        &mut self,
        rt: &R,
        alloc: Global,
        after: After<'_, u64, C, P>,
    ) {
        let After { landed, left } = after;
        self.left(left);
        self.landed(rt, alloc, landed);
    }

    pub(crate) fn landed<R: Wait, C: Followed>(
        &mut self,
        rt: &R,
        alloc: Global,
        landed: Landed<u64, C>,
    ) {
        match landed {
            Landed::Waiting => {}
            Landed::Fire(fire) => C::follow(fire, rt, alloc, self),
        }
    }
}

// A promise, as long as it wasn't kept.
pub(crate) type Open<'h, C> = Option<Promise<'h, u64, C, NoProxy>>;

// Keeps a promise, if that wasn't done before.
pub(crate) fn kept<R: Wait, C: Followed>(
    rt: &R,
    alloc: Global,
    to: &mut Open<'_, C>,
    value: u64,
    seen: &mut Seen,
)
    ensures { to.new ≡ None }
{
    if let Some(to) = to.take() {
        let after = to.fulfil(Try::Value(value));
        seen.after(rt, alloc, after);
    }
}

// A callback whose fire can be followed to the end of its chain.
pub(crate) trait Followed {
    // Runs what fired, each link on an executor of its own, up to the end.
    fn follow<R: Wait>(fire: Fire<u64, Self>, rt: &R, alloc: Global, seen: &mut Seen);

    // Gives the callback up.
    fn end(self, t: &mut Tally);
}

impl Followed for u64 {
    fn follow<R: Wait>(fire: Fire<u64, u64>, _rt: &R, _alloc: Global, seen: &mut Seen) {
        let may_inline = fire.may_inline();
        let (no, outcome, callback) = fire.unpack(&mut seen.tally);
        seen.fires = seen.fires.saturating_add(1);
        seen.end = Some((no, told(outcome), callback, may_inline));
    }

    fn end(self, t: &mut Tally) {
        let _ = &*t;
    }
}

impl<'d, K, D, Q> Followed for Chain<'d, K, u64, D, Q>
where
    K: Cont<u64, Out = u64, Later = Q> + Drop,
    Q: Proxy<u64, D>,
    D: Followed,
{
    fn follow<R: Wait>(
        fire: Fire<u64, Chain<'d, K, u64, D, Q>>,
        rt: &R,
        alloc: Global,
        seen: &mut Seen,
    ) {
        run_link(rt, alloc, fire, seen);
    }

    fn end(self, t: &mut Tally) {
        let After { landed, left } = self.abandon();
        settle(left, t);
        match landed {
            Landed::Waiting => {}
            Landed::Fire(fire) => {
                let (_, _, callback) = fire.unpack(t);
                callback.end(t);
            }
        }
    }
}

// Runs a link on an executor of its own, and follows what fires then. It does by hand what `dispatch` does, of which the checker
// doesn't cover a call where both the executor's jobs and the continuation are type parameters.
fn run_link<'d, K, D, Q, R: Wait>(
    rt: &R,
    alloc: Global,
    fire: Fire<u64, Chain<'d, K, u64, D, Q>>,
    seen: &mut Seen,
)
where
    K: Cont<u64, Out = u64, Later = Q> + Drop,
    Q: Proxy<u64, D>,
    D: Followed,
{
    let mut executor = ManualExecutor::new(alloc, fire.callback().exec());
    let (no, outcome, chain) = fire.unpack(&mut seen.tally);
    let added = executor.add(rt, ChainJob { no, outcome, chain });
    drained(rt, alloc, added, executor, seen);
}

// What adding a job answered.
type Added<'d, K, D, Q> = Result<(), Refused<ChainJob<'d, u64, K, u64, D, Q>>>;

// Runs what an executor has, after a job was added or refused, and follows what fires then.
pub(crate) fn drained<'d, K, D, Q, R: Wait>(
    rt: &R,
    alloc: Global,
    added: Added<'d, K, D, Q>,
    mut executor: ManualExecutor<ChainJob<'d, u64, K, u64, D, Q>>,
    seen: &mut Seen,
)
where
    K: Cont<u64, Out = u64, Later = Q> + Drop,
    Q: Proxy<u64, D>,
    D: Followed,
{
    let mut world = World::empty();
    executor.drain(rt, &mut world);
    executor.close();
    after_adding(rt, alloc, added, world, seen);
}

// Follows what an executor's world got, after a job was added or refused. One that was refused is given up.
pub(crate) fn after_adding<'d, K, D, Q, R: Wait>(
    rt: &R,
    alloc: Global,
    added: Added<'d, K, D, Q>,
    world: World<D>,
    seen: &mut Seen,
)
where
    K: Cont<u64, Out = u64, Later = Q> + Drop,
    Q: Proxy<u64, D>,
    D: Followed,
{
    match added {
        Ok(()) => {}
        Err(Refused::Memory(job)) => {
            let ChainJob {
                no: _,
                outcome: _,
                chain,
            } = job;
            seen.refuse();
            chain.end(&mut seen.tally);
        }
    }
    world.follow(rt, alloc, seen);
}

// Where a link's job lands: the fire of the next core, and what else the run has shown.
pub(crate) struct World<D> {
    fire: Option<Fire<u64, D>>,
    seen: Seen,
}

impl<D: Followed> World<D> {
    pub(crate) fn empty() -> World<D> {
        World {
            fire: None,
            seen: Seen::nothing(),
        }
    }

    pub(crate) fn follow<R: Wait>(self, rt: &R, alloc: Global, seen: &mut Seen) {
        let World { fire, seen: ran } = self;
        seen.add(ran);
        match fire {
            None => {}
            Some(fire) => D::follow(fire, rt, alloc, seen),
        }
    }
}

impl<D: Followed> Landing<u64, D> for World<D> {
    ghost lands = { λ _ _ _. Unit {0} };

    ghost unclaims = { λ _ _ _. Unit {0} };

    ghost counts = { λ _ _ _. Unit {0} };

    // A chain's job fires once. What fired before, if anything, is given up.
    fn landed(&mut self, fire: Fire<u64, D>)
        ensures { Unit {0} }
    {
        match self.fire.replace(fire) {
            None => {}
            Some(before) => {
                let (_, _, callback) = before.unpack(&mut self.seen.tally);
                callback.end(&mut self.seen.tally);
            }
        }
    }

    fn unclaimed(&mut self, outcome: Try<u64>)
        ensures { Unit {0} }
    {
        self.seen.left_over(Some(outcome));
    }

    fn counted(&mut self, tally: Tally) {
        self.seen.counted(tally);
    }
}

// The key of a home that is new.
pub(crate) fn key_of<'h, C, P>(home: &'h mut Home<u64, C, P>) -> Key<'h, u64, C, P>
    requires { home.now.taken ≡ false }
{
    let Some(key) = home.key() else {
        unreachable!()
    };
    key
}

// Gives a home's memory back. A callback or a proxy that waits in it is given up.
pub(crate) fn closed<C: Followed, P: Proxy<u64, C>>(home: Home<u64, C, P>, t: &mut Tally) {
    let Unspent {
        outcome: _,
        callback,
        proxy,
        end: _,
    } = home.close();
    match callback {
        None => {}
        Some(callback) => callback.end(t),
    }
    match proxy {
        None => {}
        Some(proxy) => {
            P::after_leaving(Leftover::Proxy(proxy), t);
        }
    }
}

// A core's memory, whose callback is a number.
pub(crate) type Plain = Home<u64, u64, NoProxy>;
