//! How the receiver sleeps, and how it is woken. No clause speaks of it.
ghost use Rattle.std.specs.Prelude.{◌≡◌, ◌≤◌, length};

use super::Channel;
use crate::marks::word_of;
use crossbeam_utils::Backoff;
use crossbeam_utils::sync::Parker;
use std::sync::Wait;
use std::sync::atomic::Ordering::SeqCst;

// How often the receiver looks at the words before it sleeps: the first looks spin between, the last ones yield the processor.
const LOOKS_AWAKE: u32 = 10;

impl<M> Channel<M> {
    /// Wakes the receiver where it sleeps or is about to.
    ///
    /// A sender calls it after the store of its word, and the receiver looks at the words after it has set the flag. So either
    /// this call finds the flag, or that look finds the word.
    pub(crate) fn wake(&self) {
        if self.asleep.load(SeqCst) && self.asleep.swap(false, SeqCst) {
            self.unparker.unpark();
        }
    }

    /// Sleeps until it is woken, and not where a word shows more puts than the sender's count, or the mark in turn is set.
    ///
    /// It looks a few times first, further and further apart: most messages come within the time that a sleep and a wake would take,
    /// and a sender that finds the receiver awake doesn't call the kernel.
    pub(crate) fn sleep<R: Wait>(&self, rt: &R, parker: &Parker, counts: &[u64], turn: u32)
        requires { length counts.now ≡ self.now.marks.shared.table_id.slots }
    {
        let backoff = Backoff::new();
        for _ in 0..LOOKS_AWAKE {
            if !self.shows_nothing(counts, turn) {
                return;
            }
            backoff.snooze();
        }
        self.asleep.store(true, SeqCst);
        if self.shows_nothing(counts, turn) {
            parker.park(rt);
        }
        self.asleep.store(false, SeqCst);
    }

    fn shows_nothing(&self, counts: &[u64], turn: u32) -> bool
        requires { length counts.now ≡ self.now.marks.shared.table_id.slots }
    {
        for sender in 0..counts.len() as u32 {
            let word = self.marks.shared.peek(word_of(sender));
            if word / 2 > counts[sender as usize] || sender == turn && word % 2 == 1 {
                return false;
            }
        }
        true
    }
}
