// Who sleeps, and how one is woken for one task. That a worker wakes is not proved: contracts say which worker each waker is for,
// and types that who added a task or began an end calls the wakers.
ghost use Rattle.std.specs.Prelude.{◌≡◌, ◌<◌, ◌≤◌, ◌^◌, [], OnOk};
ghost use Rattle.prio_pool.specs.Sleeping.{parkers_of, wakers_of, bits_from};

use crossbeam_utils::sync::{Parker, Unparker};
use fan_base::Memory;
use std::alloc::{AllocError, Global};
use std::collections::LinkedList;
use std::marker::Model;
use std::sync::Wait;
use std::sync::atomic::{AtomicU64, Ordering};
use std::thread;
use task_queue::Watch;

/// How often a worker that finds no task looks again before it sleeps.
const LOOKS: u32 = 6;

/// What a worker sleeps on, with the worker's bit.
#[derive(Drop)]
pub struct OwnParker {
    pub bit: u64,
    parker: Parker,
}

/// What wakes a worker, with the worker's bit.
#[derive(Drop)]
pub struct OwnWaker {
    pub bit: u64,
    waker: Unparker,
}

/// Lists the parkers of so many workers, and what wakes each, both in order.
pub fn list_parkers(
    alloc: Global,
    count: u32,
    parkers: &mut LinkedList<OwnParker>,
    wakers: &mut Vec<OwnWaker>,
) -> Result<(), Memory>
    requires few { count ≤ 64 }
    requires none { (parkers.old ≡ []) × (wakers.old.items ≡ []) }
    ensures parkers { OnOk result (parkers_of parkers.new ≡ bits_from 0 count) }
    ensures wakers { OnOk result (wakers_of wakers.new.items ≡ bits_from 0 count) }
{
    for number in 0..count {
        let bit = bit_of(number);
        let parker = Parker::new(alloc)?;
        let waker = parker.unparker().clone()?;
        wakers
            .push(OwnWaker { bit, waker })
            .map_err(AllocError::from)?;
        parkers
            .push_back(OwnParker { bit, parker })
            .map_err(AllocError::from)?;
    }
    Ok(())
}

/// That a task was added, for which a worker is to be woken. It can't be let go: only [`Sleepers::wake_one`] takes it.
pub struct Call {
    _added: (),
}

impl Call {
    /// For one task.
    pub fn new() -> Call {
        Call { _added: () }
    }
}

/// The seat that set the mark of the end, of which all workers were told. Only [`Sleepers::wake_all`] makes one.
#[derive(Drop)]
pub struct Told {
    watch: Watch,
}

impl Model for Told {
    ghost use Rattle.task_queue.specs.Marks.{WatchSeen};

    ghost Value = { WatchSeen };

    ghost view = { λ t. t.watch };
}

impl Told {
    /// The seat.
    pub fn watch(self) -> Watch
        ensures { result ≡ self }
    {
        let Told { watch } = self;
        watch
    }
}

/// A bit for each worker that sleeps or is about to, and what wakes each. A worker sets its bit, looks once more, and sleeps
/// only where it again finds nothing. So either whoever added a task sees the bit, or that look sees the task. It can't be let go:
/// [`Sleepers::end`] takes it, where its pool ends.
pub struct Sleepers {
    asleep: AtomicU64,
    pub wakers: Vec<OwnWaker>,
}

impl Sleepers {
    /// Nobody sleeps.
    pub fn new(wakers: Vec<OwnWaker>) -> Sleepers
        ensures { result.wakers ≡ wakers }
    {
        Sleepers {
            asleep: AtomicU64::new(0),
            wakers,
        }
    }

    /// Its pool ends: all workers have left.
    pub fn end(self) {
        let Sleepers {
            asleep: _,
            wakers: _,
        } = self;
    }

    /// Wakes one worker that sleeps, where there is one, for a task.
    pub fn wake_one(&self, call: Call) {
        let Call { _added: () } = call;
        let asleep = self.asleep.load(Ordering::SeqCst);
        if asleep == 0 {
            return;
        }
        for waker in &self.wakers {
            if asleep & waker.bit != 0 && self.take(waker.bit) {
                waker.waker.unpark();
                return;
            }
        }
    }

    /// Wakes all workers, since an end has begun.
    pub fn wake_all(&self, begun: Watch) -> Told
        ensures { result ≡ begun }
    {
        for waker in &self.wakers {
            waker.waker.unpark();
        }
        Told { watch: begun }
    }

    // Clears a bit, and says whether it was set.
    fn take(&self, bit: u64) -> bool {
        self.asleep.fetch_and(!bit, Ordering::SeqCst) & bit != 0
    }

    // Sets a bit.
    fn put(&self, bit: u64) {
        let _ = self.asleep.fetch_or(bit, Ordering::SeqCst);
    }
}

// The bit of the worker with this number.
fn bit_of(number: u32) -> u64
    requires { number < 64 }
    ensures { result ≡ 2 ^ number }
{
    1 << number
}

/// How far a worker is on its way to sleep. It can't be let go: [`Rest::leave`] takes it, where the worker or helper leaves.
pub struct Rest {
    looks: u32,
    // The bit that it has set, or 0.
    noted: u64,
}

/// That a worker which found a task is awake, and has woken another where it was called for another task. Only [`Rest::end`]
/// makes one.
#[derive(Drop)]
pub struct Awake {
    _woken: (),
}

impl Rest {
    /// A worker that is awake.
    pub fn new() -> Rest {
        Rest { looks: 0, noted: 0 }
    }

    /// It looks no more.
    pub fn leave(self) {
        let Rest { looks: _, noted: _ } = self;
    }

    /// It found a task. Where it was woken for another meanwhile, it wakes the next for that one.
    pub fn end(&mut self, sleepers: &Sleepers) -> Awake {
        self.looks = 0;
        if self.noted != 0 {
            if !sleepers.take(self.noted) {
                sleepers.wake_one(Call::new());
            }
            self.noted = 0;
        }
        Awake { _woken: () }
    }

    /// It found none: it looks again a few times, then notes that it is about to sleep and looks once more, then sleeps.
    pub fn go_on<R: Wait>(&mut self, rt: &R, sleepers: &Sleepers, parker: &OwnParker) {
        if self.noted != 0 {
            parker.parker.park(rt);
            self.noted = 0;
            self.looks = 0;
            let _ = sleepers.take(parker.bit);
        } else if self.looks < LOOKS {
            self.looks += 1;
            thread::yield_now();
        } else {
            self.noted = parker.bit;
            sleepers.put(parker.bit);
        }
    }
}
