//! The senders' words and slots, and the rule over them.
ghost use Rattle.std.specs.Prelude.{◌≡◌, ◌≤◌};
ghost use Rattle.notify_queue.specs.Marks as marks;

use crate::delivery::{Line, Pass};
use atomic_table::{Play, Seat, Split, Table, TableRule};
use std::alloc::Global;
use std::collections::LinkedList;

/// What a seat of the table is for.
pub(crate) enum Role {
    /// It reads the words.
    Reads,
    /// It is a sender's.
    Sends,
    /// It is a sender's, which has its slot.
    Fills,
    /// It is a sender's that has set its mark.
    Ended,
}

/// What the receiver found at a sender's word: how many puts it showed, and whether the mark of its end was set.
pub(crate) struct Look {
    pub sender: u32,
    pub puts: u64,
    pub ended: bool,
}

/// What a seat knows. No value of it is made.
///
/// Seat 0 is the receiver's: it knows how many senders were made, how many marks it has found set, and all its looks. The
/// seat of a sender knows how many puts its word shows, and which looks the receiver had made at its own last step.
pub(crate) struct Marking<M> {
    pub role: Role,
    pub number: u32,
    pub made: u32,
    pub read: u32,
    pub puts: u64,
    pub looks: LinkedList<Look>,
    pub queue: Line<M>,
}

pub(crate) type MarkSeat<M> = Seat<Option<Pass<M>>, Marking<M>>;

pub(crate) type Marks<M> = Table<Option<Pass<M>>, Marking<M>, Line<M>, MarkRule, Global>;

/// The place of a sender's word. The words between keep the senders' words in cache lines of their own.
pub(crate) fn word_of(sender: u32) -> usize
    requires { sender ≤ 64 }
    ensures { result ≡ marks.place sender }
{
    8 * sender as usize
}

pub(crate) struct MarkRule;

impl<M> TableRule<Option<Pass<M>>, Marking<M>, Line<M>> for MarkRule {
    ghost use Rattle.std.specs.Prelude.{[]};
    ghost use Rattle.notify_queue.specs.Marks.{Marked, reading};

    ghost holds = { Marked };

    ghost first = { λ queue. reading queue 0 0 [] };
}

/// A seat for the next sender.
pub(crate) struct AnotherMark;

impl<M> Split<Marking<M>> for AnotherMark {
    ghost use Rattle.std.specs.Prelude.{◌+◌};
    ghost use Rattle.notify_queue.specs.Marks.{reading, marks_sending};

    ghost left = { λ v. reading v.queue (v.made + 1) v.read v.looks };

    ghost right = { λ v. marks_sending v.queue v.made 0 v.looks };
}

/// A sender's word shows one put more.
pub(crate) struct ShowPut;

impl<M> Play<Option<Pass<M>>, Marking<M>> for ShowPut {
    ghost use Rattle.std.specs.Prelude.{◌+◌};
    ghost use Rattle.notify_queue.specs.Marks.{HasShown};

    ghost then = { λ step me word after. HasShown me.0.queue me.0.number (me.0.puts + 1) after };
}

/// A sender takes its slot.
pub(crate) struct TakeSlot;

impl<M> Play<Option<Pass<M>>, Marking<M>> for TakeSlot {
    ghost use Rattle.notify_queue.specs.Marks.{Filling};

    ghost then = { Filling };
}

/// A sender gives its slot back and sets its mark.
pub(crate) struct SetMark;

impl<M> Play<Option<Pass<M>>, Marking<M>> for SetMark {
    ghost use Rattle.notify_queue.specs.Marks.{HasMarked};

    ghost then = { λ step me word after. HasMarked me.0.queue me.0.number me.0.puts after };
}

/// The receiver looks at a sender's word.
pub(crate) struct LookAt;

impl<M> Play<Option<Pass<M>>, Marking<M>> for LookAt {
    ghost use Rattle.notify_queue.specs.Marks.{Looked};

    ghost then = { Looked };
}

/// The receiver reads the next mark, and takes the slot where it is set.
pub(crate) struct ReadMark;

impl<M> Play<Option<Pass<M>>, Marking<M>> for ReadMark {
    ghost use Rattle.notify_queue.specs.Marks.{HasRead};

    ghost then = { HasRead };
}
