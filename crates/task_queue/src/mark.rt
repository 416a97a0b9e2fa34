// The end mark of a pool: one word, 0 while no end has begun, 1 where a join has, 2 where a stop has.
ghost use Rattle.std.specs.Prelude.{◌≡◌, ◌≢◌, ◌+◌, ◌-◌, ◌<◌, ◌≤◌, [], ◌∷◌, ◌++◌, Some, None, IfOk};
ghost use Rattle.task_queue.specs.Looks.{mark_seen};
ghost use Rattle.task_queue.specs.Marks.{ending_of};

use crate::looks::Looks;
use atomic_table::{Join, Play, Seat, Split, Table, TableRule};
use fan_base::Memory;
use keep_alive::{Joined, KeepAlive};
use pool_model::Ending;
use std::alloc::{AllocError, Global};
use std::marker::Model;
use std::snapshot::Snapshot;

/// What a seat at the mark knows. No value of it is made.
pub struct MarkView {
    /// How many of the adders' parts it has. While no end has begun these are all somewhere.
    pub parts: u32,
    /// The mark that it found or set: 0 for none.
    pub found: u32,
    /// What a seat that was put to it had found.
    pub theirs: u32,
    /// How often it looked.
    pub looks: u64,
}

pub struct MarkRule;

impl TableRule<u32, MarkView, u32> for MarkRule {
    ghost use Rattle.task_queue.specs.Marks.{MarkHolds, marking};

    ghost holds = { MarkHolds };

    ghost first = { λ adders. marking adders 0 0 0 };
}

/// A seat gives one part to a new seat.
struct OnePart;

impl Split<MarkView> for OnePart {
    ghost use Rattle.std.specs.Prelude.{◌-◌};
    ghost use Rattle.task_queue.specs.Marks.{marking};

    ghost left = { λ v. marking (v.parts - 1) v.found v.theirs v.looks };

    ghost right = { λ v. marking 1 0 0 0 };
}

/// A seat makes one that has no part.
struct NoPart;

impl Split<MarkView> for NoPart {
    ghost use Rattle.task_queue.specs.Marks.{marking};

    ghost left = { λ v. v };

    ghost right = { λ v. marking 0 0 0 0 };
}

/// Two seats are put together.
struct Meet;

impl Join<MarkView> for Meet {
    ghost use Rattle.std.specs.Prelude.{◌+◌};
    ghost use Rattle.task_queue.specs.Marks.{marking};

    ghost both = { λ v w. marking (v.parts + w.parts) v.found w.found v.looks };

    ghost spent = { marking 0 0 0 0 };
}

/// A look at the mark.
struct LooksAt;

impl Play<u32, MarkView> for LooksAt {
    ghost use Rattle.task_queue.specs.Marks.{looks};

    ghost then = { looks };
}

/// A look at the mark by a seat that found it, and to which another was put.
struct Agrees;

impl Play<u32, MarkView> for Agrees {
    ghost use Rattle.task_queue.specs.Marks.{agrees};

    ghost then = { agrees };
}

/// The mark is set.
struct Sets;

impl Play<u32, MarkView> for Sets {
    ghost use Rattle.task_queue.specs.Marks.{sets};

    ghost then = { sets };
}

/// The end mark of a pool, as all may look at it. It is set by [`KeptMark::begin`] alone. Contracts see which mark it is, and how
/// many adders the pool has.
#[derive(Drop)]
pub struct EndMark {
    table: Table<u32, MarkView, u32, MarkRule, Global>,
}

impl Model for EndMark {
    ghost use Rattle.std.specs.Prelude.{◌≡◌};
    ghost use Rattle.task_queue.specs.Marks.{MarkSeen};

    ghost Value = { MarkSeen };

    ghost view = { λ m. record { mark = m.table.shared.table_id; adders = m.table.shared.key } };

    ghost invariant = { λ m. m.table.shared.table_id.words ≡ 1 };
}

/// So many of the adders' parts of a mark: while there is one, no end has begun. Contracts see which mark it is of, and how
/// many parts these are.
#[derive(Drop)]
pub struct OpenSeat {
    seat: Seat<u32, MarkView>,
}

impl Model for OpenSeat {
    ghost use Rattle.std.specs.Prelude.{◌≡◌, []};
    ghost use Rattle.task_queue.specs.Marks.{OpenSeen, marking};

    ghost Value = { OpenSeen };

    ghost view = { λ o. record { mark = o.seat.table_id; parts = o.seat.me.0.parts } };

    ghost invariant = { λ o. o.seat.me ≡ (marking o.seat.me.0.parts 0 0 0, []) };
}

/// The right to look at a mark. Contracts see which mark it is of, how often it looked, and which end it found begun at its
/// last look. What was found once stays.
#[derive(Drop)]
pub struct Watch {
    seat: Seat<u32, MarkView>,
}

impl Model for Watch {
    ghost use Rattle.task_queue.specs.Marks.{WatchSeen, watch_of, IsWatch};

    ghost Value = { WatchSeen };

    ghost view = { λ w. watch_of w.seat.table_id w.seat.me.0 };

    ghost invariant = { λ w. IsWatch w.seat.me };
}

// The word that says an end.
fn word(ending: Ending) -> u64
    ensures set { (0 < result) × (result ≤ 2) }
    ensures says { ending_of result ≡ Some ending }
{
    match ending {
        Ending::Joins => 1,
        Ending::Stops => 2,
    }
}

// The end that a word says.
fn ending(word: u64) -> Option<Ending>
    ensures { result ≡ ending_of word }
{
    match word {
        0 => None,
        1 => Some(Ending::Joins),
        _ => Some(Ending::Stops),
    }
}

impl EndMark {
    /// A mark that isn't set, and all parts of so many adders.
    pub fn new(alloc: Global, adders: u32) -> Result<(EndMark, OpenSeat), Memory>
        ensures { IfOk result (λ r. (r.0.adders ≡ adders) × (r.1 ≡ record { mark = r.0.mark; parts = adders })) }
    {
        let (table, seat) = Table::of_words(alloc, &[0], &adders)?;
        Ok((EndMark { table }, OpenSeat { seat }))
    }

    /// One of the parts.
    pub fn one_part(&self, adders: &mut OpenSeat) -> OpenSeat
        requires mark { adders.old.mark ≡ self.now.mark }
        requires left { 0 < adders.old.parts }
        ensures rest { adders.new ≡ record adders.old { parts = adders.old.parts - 1 } }
        ensures one { result ≡ record { mark = self.now.mark; parts = 1 } }
    {
        OpenSeat {
            seat: self.table.shared.split_seat::<OnePart>(&mut adders.seat),
        }
    }

    /// Parts are put together.
    pub fn put_parts(&self, adders: &mut OpenSeat, more: OpenSeat)
        requires mark { (adders.old.mark ≡ self.now.mark) × (more.mark ≡ self.now.mark) }
        ensures { adders.new ≡ record adders.old { parts = adders.old.parts + more.parts } }
    {
        let OpenSeat { seat } = more;
        self.table.shared.join_seat::<Meet>(&mut adders.seat, seat);
    }

    /// The right to look at the mark.
    pub fn watch(&self, adders: &mut OpenSeat) -> Watch
        requires mark { adders.old.mark ≡ self.now.mark }
        ensures same { adders.new ≡ adders.old }
        ensures watch { result ≡ record { mark = self.now.mark; looks = 0; found = None } }
    {
        Watch {
            seat: self.table.shared.split_seat::<NoPart>(&mut adders.seat),
        }
    }

    /// Which end has begun. What a look found stays. The look is noted.
    pub fn look<J>(&self, watch: &mut Watch, looks: &mut Looks<J>) -> Option<Ending>
        requires mark { watch.old.mark ≡ self.now.mark }
        ensures found { watch.new ≡ record watch.old { looks = watch.old.looks + 1; found = result } }
        ensures stays { watch.old.found ≢ None → result ≡ watch.old.found }
        ensures noted { looks.new ≡ looks.old ++ mark_seen self.now.mark result ∷ [] }
    {
        let found = self.load(watch);
        looks.note(Snapshot::of(&*watch));
        found
    }

    // The look itself.
    fn load(&self, watch: &mut Watch) -> Option<Ending>
        requires mark { watch.old.mark ≡ self.now.mark }
        ensures found { watch.new ≡ record watch.old { looks = watch.old.looks + 1; found = result } }
        ensures stays { watch.old.found ≢ None → result ≡ watch.old.found }
    {
        ending(self.table.shared.load::<LooksAt>(&mut watch.seat, 0))
    }

    // Sets the mark. It needs the parts of all adders, and spends them.
    fn set(&self, adders: OpenSeat, ending: Ending) -> Watch
        requires mark { adders.mark ≡ self.now.mark }
        requires all { adders.parts ≡ self.now.adders }
        requires some { 0 < adders.parts }
        ensures { result ≡ record { mark = self.now.mark; looks = 0; found = Some ending } }
    {
        let OpenSeat { mut seat } = adders;
        self.table.shared.store::<Sets>(&mut seat, 0, word(ending));
        Watch { seat }
    }

    /// The same mark, which can be set once these keep-alives are joined.
    pub fn kept_by(self, keep: &KeepAlive) -> KeptMark
        ensures { result ≡ record { mark = self.mark; adders = self.adders; count = keep.now.count } }
    {
        KeptMark {
            mark: self,
            keep: Snapshot::of(keep),
        }
    }

    /// Two that found an end found the same. It spends the second.
    pub fn agree(&self, watch: &mut Watch, other: Watch)
        requires mark { (watch.old.mark ≡ self.now.mark) × (other.mark ≡ self.now.mark) }
        requires found { watch.old.found ≢ None }
        ensures same { watch.new ≡ watch.old }
        ensures agree { other.found ≢ None → other.found ≡ watch.old.found }
    {
        let Watch { seat } = other;
        self.table.shared.join_seat::<Meet>(&mut watch.seat, seat);
        self.table.shared.load::<Agrees>(&mut watch.seat, 0);
    }

    /// The law of the mark: whoever has found an end meets no adder's part any more. So no call of this can be made.
    pub fn no_part_is_left(&self, watch: Watch, adders: OpenSeat)
        requires mark { (watch.mark ≡ self.now.mark) × (adders.mark ≡ self.now.mark) }
        requires found { watch.found ≢ None }
        requires part { 0 < adders.parts }
        ensures { ⊥ }
    {
        let Watch { mut seat } = watch;
        let OpenSeat { seat: other } = adders;
        self.table.shared.join_seat::<Meet>(&mut seat, other);
        self.table.shared.load::<Agrees>(&mut seat, 0);
    }
}

/// The end mark of a pool with the count of its keep-alives. Contracts see which mark it is, how many adders the pool has, and
/// which count it is.
#[derive(Drop)]
pub struct KeptMark {
    mark: EndMark,
    keep: Snapshot<KeepAlive>,
}

impl Model for KeptMark {
    ghost use Rattle.task_queue.specs.Marks.{KeptSeen};

    ghost Value = { KeptSeen };

    ghost view = { λ k. record { mark = k.mark.mark; adders = k.mark.adders; count = k.keep.value.count } };
}

impl KeptMark {
    /// The mark, to look at.
    pub fn mark(&self) -> &EndMark
        ensures { result.now ≡ record { mark = self.now.mark; adders = self.now.adders } }
    {
        &self.mark
    }

    /// Begins an end. It needs the parts of all adders, and spends them, and it needs to see that the owner of the keep-alives
    /// was joined. So no end begins while one of these is held.
    pub fn begin(&self, joined: &Joined, adders: OpenSeat, ending: Ending) -> Watch
        requires joined { joined.now.count ≡ self.now.count }
        requires mark { adders.mark ≡ self.now.mark }
        requires all { adders.parts ≡ self.now.adders }
        requires some { 0 < adders.parts }
        ensures { result ≡ record { mark = self.now.mark; looks = 0; found = Some ending } }
    {
        let _ = joined;
        self.mark.set(adders, ending)
    }
}
