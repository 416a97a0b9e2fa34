use crate::number::JobId;
use std::hint;
use std::sync::atomic::{AtomicBool, Ordering};

/// What a worker calls round each task. Nothing that a gate does changes an answer.
pub trait Gate: Sync {
    /// The job is about to run.
    fn before(&self, job: JobId);

    /// The job has run.
    fn after(&self, job: JobId);
}

/// A gate that does nothing.
#[derive(Clone, Copy, Debug, Default)]
pub struct OpenGate;

impl OpenGate {
    /// The gate; it has no state.
    pub fn new() -> OpenGate {
        OpenGate
    }
}

impl Gate for OpenGate {
    fn before(&self, _job: JobId) {}

    fn after(&self, _job: JobId) {}
}

/// A gate at which two jobs wait for each other, so that a test can see that they ran at the same time. The wait ends after a
/// number of looks.
#[derive(Drop)]
pub struct HoldGate {
    one: Waiter,
    other: Waiter,
    turns: u64,
}

/// One of the two jobs of a gate that holds.
#[derive(Drop)]
struct Waiter {
    job: JobId,
    has_begun: AtomicBool,
    has_met: AtomicBool,
}

impl Waiter {
    fn new(job: JobId) -> Waiter {
        Waiter {
            job,
            has_begun: AtomicBool::new(false),
            has_met: AtomicBool::new(false),
        }
    }

    /// Notes that its job has begun, and looks whether the other has.
    fn meet(&self, other: &Waiter, turns: u64) {
        self.has_begun.store(true, Ordering::SeqCst);
        if is_set_within(&other.has_begun, turns) {
            self.has_met.store(true, Ordering::SeqCst);
        }
    }
}

impl HoldGate {
    /// A gate for these two jobs. Each looks for the other `turns` times at most.
    pub fn new(one: JobId, other: JobId, turns: u64) -> HoldGate {
        HoldGate {
            one: Waiter::new(one),
            other: Waiter::new(other),
            turns,
        }
    }

    /// Whether both jobs have found that the other had begun.
    pub fn met(&self) -> bool {
        self.one.has_met.load(Ordering::SeqCst) && self.other.has_met.load(Ordering::SeqCst)
    }
}

impl Gate for HoldGate {
    /// Where this is one of the two jobs: notes that it has begun, and looks for the other. It lets go in either case.
    fn before(&self, job: JobId) {
        if job == self.one.job {
            self.one.meet(&self.other, self.turns);
        } else if job == self.other.job {
            self.other.meet(&self.one, self.turns);
        }
    }

    fn after(&self, _job: JobId) {}
}

/// A gate that sees whether a sink gets bytes while two jobs wait: none while the early one does, and a whole line while the
/// late one does.
#[derive(Drop)]
pub struct LineGate {
    early: JobId,
    late: JobId,
    turns: u64,
    has_byte: AtomicBool,
    has_line: AtomicBool,
    early_saw_none: AtomicBool,
    late_saw_line: AtomicBool,
}

impl LineGate {
    /// A gate for these two jobs. The early one looks `turns / 1000` times, the late one `turns` times at most.
    pub fn new(early: JobId, late: JobId, turns: u64) -> LineGate {
        LineGate {
            early,
            late,
            turns,
            has_byte: AtomicBool::new(false),
            has_line: AtomicBool::new(false),
            early_saw_none: AtomicBool::new(false),
            late_saw_line: AtomicBool::new(false),
        }
    }

    /// Whether the early job found no byte at any look, and the late one found a line feed.
    pub fn met(&self) -> bool {
        self.early_saw_none.load(Ordering::SeqCst) && self.late_saw_line.load(Ordering::SeqCst)
    }

    /// The sink has taken these bytes.
    pub(crate) fn took(&self, bytes: &[u8]) {
        if !bytes.is_empty() {
            self.has_byte.store(true, Ordering::SeqCst);
        }
        if bytes.contains(&b'\n') {
            self.has_line.store(true, Ordering::SeqCst);
        }
    }
}

impl Gate for LineGate {
    /// The early job looks whether the sink has got a byte, the late one until it has got a line feed. Both let go in either
    /// case.
    fn before(&self, job: JobId) {
        if job == self.early {
            let saw_none = !is_set_within(&self.has_byte, self.turns / 1000);
            self.early_saw_none.store(saw_none, Ordering::SeqCst);
        } else if job == self.late {
            let saw_line = is_set_within(&self.has_line, self.turns);
            self.late_saw_line.store(saw_line, Ordering::SeqCst);
        }
    }

    fn after(&self, _job: JobId) {}
}

/// Looks at a flag up to `turns` times, until it is set. Whether it was found set.
fn is_set_within(flag: &AtomicBool, turns: u64) -> bool {
    for _ in 0..turns {
        if flag.load(Ordering::SeqCst) {
            return true;
        }
        hint::spin_loop();
    }
    false
}
