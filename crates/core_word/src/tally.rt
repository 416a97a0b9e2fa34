//! How many cores were made, handed over, forwarded and freed, and how many homes were reopened.
ghost use Rattle.std.specs.Prelude.{◌≡◌};
ghost use Rattle.core_word.specs.Count.{added, raised};

use std::marker::Model;

/// Numbers from 0 to 2^64 - 1 that only the calls of this crate raise, each by one. A number that stands at the last
/// of `u64` stays there.
#[derive(Drop)]
pub struct Tally {
    made: u64,
    handed: u64,
    forwarded: u64,
    freed: u64,
    reopened: u64,
}

impl Model for Tally {
    ghost use Rattle.core_word.specs.Count.{Counts};

    ghost Value = { Counts };

    ghost view = { λ t. record { made = t.made; handed = t.handed; forwarded = t.forwarded; freed = t.freed; reopened = t.reopened } };
}

impl Tally {
    /// A tally with all numbers 0.
    pub fn new() -> Tally
        ensures { result ≡ record { made = 0; handed = 0; forwarded = 0; freed = 0; reopened = 0 } }
    {
        Tally {
            made: 0,
            handed: 0,
            forwarded: 0,
            freed: 0,
            reopened: 0,
        }
    }

    /// The two tallies added up, number by number.
    pub fn merge(self, other: Tally) -> Tally
        ensures { result ≡ record { made = added self.made other.made; handed = added self.handed other.handed; forwarded = added self.forwarded other.forwarded; freed = added self.freed other.freed; reopened = added self.reopened other.reopened } }
    {
        Tally {
            made: self.made.saturating_add(other.made),
            handed: self.handed.saturating_add(other.handed),
            forwarded: self.forwarded.saturating_add(other.forwarded),
            freed: self.freed.saturating_add(other.freed),
            reopened: self.reopened.saturating_add(other.reopened),
        }
    }

    /// How many cores were begun.
    pub fn made(&self) -> u64
        ensures { result ≡ self.now.made }
    {
        self.made
    }

    /// How many results were handed to their callbacks.
    pub fn handed(&self) -> u64
        ensures { result ≡ self.now.handed }
    {
        self.handed
    }

    /// How many callbacks were passed on to another core.
    pub fn forwarded(&self) -> u64
        ensures { result ≡ self.now.forwarded }
    {
        self.forwarded
    }

    /// How many cores were freed.
    pub fn freed(&self) -> u64
        ensures { result ≡ self.now.freed }
    {
        self.freed
    }

    /// How many homes were made ready for another use.
    pub fn reopened(&self) -> u64
        ensures { result ≡ self.now.reopened }
    {
        self.reopened
    }

    pub(crate) fn count_made(&mut self)
        ensures { self.new ≡ record self.old { made = raised self.old.made } }
    {
        self.made = self.made.saturating_add(1);
    }

    pub(crate) fn count_handed(&mut self)
        ensures { self.new ≡ record self.old { handed = raised self.old.handed } }
    {
        self.handed = self.handed.saturating_add(1);
    }

    pub(crate) fn count_forwarded(&mut self)
        ensures { self.new ≡ record self.old { forwarded = raised self.old.forwarded } }
    {
        self.forwarded = self.forwarded.saturating_add(1);
    }

    pub(crate) fn count_freed(&mut self)
        ensures { self.new ≡ record self.old { freed = raised self.old.freed } }
    {
        self.freed = self.freed.saturating_add(1);
    }

    // A home that is reopened is that of a freed core.
    pub(crate) fn count_reopened(&mut self)
        ensures { self.new ≡ record self.old { freed = raised self.old.freed; reopened = raised self.old.reopened } }
    {
        self.freed = self.freed.saturating_add(1);
        self.reopened = self.reopened.saturating_add(1);
    }
}
