//! The slot of the next tick fires: what stands in it leaves, in order of scheduling.
ghost use Rattle.std.specs.Prelude.{◌≡◌, ℕ, ◌+◌, ◌<◌, ◌≤◌, ◌^◌, ◌%◌, [], ◌∷◌, ◌++◌, length, OnOk, OnErr, vec_len, vec_capacity};
ghost use Rattle.tick_wheel.specs.Firing.{IsFiring, IsPartOf, Fires};
ghost use Rattle.tick_wheel.specs.Kept.{timers_of};
ghost use Rattle.tick_wheel.specs.Table.{AreApart, AreAhead, AreSettled};
ghost use Rattle.tick_wheel.specs.TimerList.{due_at, due_later};
ghost use Rattle.tick_wheel.specs.Handouts.{handouts_of};

use crate::book::{Book, Steps};
use crate::handout::Handout;
use fan_base::Memory;
use std::alloc::Global;
use std::sync::ledger::Ledger;

// The next of what is due leaves.
fn fire_first<T, X: Handout<T>, L: Ledger>(
    book: &mut Book<T>,
    keys: &[(u64, u64)],
    place: usize,
    now: u64,
    fired: &mut Vec<X>,
    steps: &mut Steps<L>,
)
    requires now { now < 2 ^ 63 }
    requires within { place < length keys.now }
    requires firing { IsFiring ((now + 1) % 256) keys.now place book.old }
    requires apart { AreApart book.old }
    requires ahead { AreAhead now book.old }
    requires settled { AreSettled (now + 1) book.old }
    requires spare { vec_len fired.old < vec_capacity fired.old }
    ensures firing { IsFiring ((now + 1) % 256) keys.now (place + 1) book.new }
    ensures apart { AreApart book.new }
    ensures ahead { AreAhead now book.new }
    ensures settled { AreSettled (now + 1) book.new }
    ensures part { IsPartOf book.new book.old }
    ensures fired { fired.old.items ++ handouts_of X.handout (due_at (now + 1) (timers_of book.old))
        ≡ fired.new.items ++ handouts_of X.handout (due_at (now + 1) (timers_of book.new)) }
    ensures rest { due_later (now + 1) (timers_of book.new) ≡ due_later (now + 1) (timers_of book.old) }
    ensures len { vec_len fired.new ≤ vec_len fired.old + 1 }
    ensures capacity { vec_capacity fired.old ≤ vec_capacity fired.new }
    ensures steps { steps.new + vec_len fired.old ≡ steps.old + vec_len fired.new }
{
    let (_, id) = keys[place];
    let slot = ((now + 1) % 256) as usize;
    let Some(timed) = book.take(slot, id, steps) else {
        return
    };
    fired.push_reserved(X::of(id, timed.item));
}

// What is due at the next tick leaves, in order of scheduling; there is room for it.
fn fire<T, X: Handout<T>, L: Ledger>(
    book: &mut Book<T>,
    keys: &[(u64, u64)],
    now: u64,
    fired: &mut Vec<X>,
    steps: &mut Steps<L>,
)
    requires now { now < 2 ^ 63 }
    requires firing { IsFiring ((now + 1) % 256) keys.now 0 book.old }
    requires apart { AreApart book.old }
    requires ahead { AreAhead now book.old }
    requires settled { AreSettled (now + 1) book.old }
    requires empty { vec_len fired.old ≡ 0 }
    requires spare { length keys.now ≤ vec_capacity fired.old }
    ensures apart { AreApart book.new }
    ensures ahead { AreAhead (now + 1) book.new }
    ensures part { IsPartOf book.new book.old }
    ensures fired { fired.new.items ≡ handouts_of X.handout (due_at (now + 1) (timers_of book.old)) }
    ensures rest { timers_of book.new ≡ due_later (now + 1) (timers_of book.old) }
    ensures steps { steps.new ≡ steps.old + vec_len fired.new }
{
    for place in 0..keys.len() {
        fire_first(book, keys, place, now, fired, steps);
    }
}

// What these keys name leaves, in their order. Where there is no memory for the list, nothing has changed.
fn fire_keys<T, X: Handout<T>, L: Ledger>(
    book: &mut Book<T>,
    keys: &[(u64, u64)],
    now: u64,
    fired: &mut Vec<X>,
    steps: &mut Steps<L>,
) -> Result<(), Memory>
    requires now { now < 2 ^ 63 }
    requires firing { IsFiring ((now + 1) % 256) keys.now 0 book.old }
    requires apart { AreApart book.old }
    requires ahead { AreAhead now book.old }
    requires settled { AreSettled (now + 1) book.old }
    requires empty { vec_len fired.old ≡ 0 }
    ensures ok { OnOk result (Fires X.handout now book.old book.new steps.old steps.new fired.new.items) }
    ensures refused { OnErr result (book.new ≡ book.old) }
    ensures still { OnErr result (steps.new ≡ steps.old) }
    ensures none { OnErr result (vec_len fired.new ≡ 0) }
{
    fired.reserve(keys.len())?;
    fire(book, keys, now, fired, steps);
    Ok(())
}

// The only timer of the slot leaves; there is room for it.
fn fire_only<T, X: Handout<T>, L: Ledger>(
    book: &mut Book<T>,
    key: (u64, u64),
    now: u64,
    fired: &mut Vec<X>,
    steps: &mut Steps<L>,
)
    requires now { now < 2 ^ 63 }
    requires firing { IsFiring ((now + 1) % 256) (key ∷ []) 0 book.old }
    requires apart { AreApart book.old }
    requires ahead { AreAhead now book.old }
    requires settled { AreSettled (now + 1) book.old }
    requires empty { vec_len fired.old ≡ 0 }
    requires spare { 0 < vec_capacity fired.old }
    ensures apart { AreApart book.new }
    ensures ahead { AreAhead (now + 1) book.new }
    ensures part { IsPartOf book.new book.old }
    ensures fired { fired.new.items ≡ handouts_of X.handout (due_at (now + 1) (timers_of book.old)) }
    ensures rest { timers_of book.new ≡ due_later (now + 1) (timers_of book.old) }
    ensures steps { steps.new ≡ steps.old + vec_len fired.new }
{
    fire_first(book, &[key], 0, now, fired, steps);
}

// The only timer of the slot leaves. Where there is no memory for the list, nothing has changed.
fn fire_one<T, X: Handout<T>, L: Ledger>(
    book: &mut Book<T>,
    key: (u64, u64),
    now: u64,
    fired: &mut Vec<X>,
    steps: &mut Steps<L>,
) -> Result<(), Memory>
    requires now { now < 2 ^ 63 }
    requires firing { IsFiring ((now + 1) % 256) (key ∷ []) 0 book.old }
    requires apart { AreApart book.old }
    requires ahead { AreAhead now book.old }
    requires settled { AreSettled (now + 1) book.old }
    requires empty { vec_len fired.old ≡ 0 }
    ensures ok { OnOk result (Fires X.handout now book.old book.new steps.old steps.new fired.new.items) }
    ensures refused { OnErr result (book.new ≡ book.old) }
    ensures still { OnErr result (steps.new ≡ steps.old) }
    ensures none { OnErr result (vec_len fired.new ≡ 0) }
{
    fired.reserve(1)?;
    fire_only(book, key, now, fired, steps);
    Ok(())
}

// The timers of the next tick's slot leave, where there are several. Their ids are touched before, so that the processor fetches what the table has
// of them side by side. Where there is no memory, nothing has changed.
fn fire_several<T, X: Handout<T>, L: Ledger>(
    alloc: Global,
    book: &mut Book<T>,
    now: u64,
    fired: &mut Vec<X>,
    steps: &mut Steps<L>,
) -> Result<(), Memory>
    requires now { now < 2 ^ 63 }
    requires apart { AreApart book.old }
    requires ahead { AreAhead now book.old }
    requires settled { AreSettled (now + 1) book.old }
    requires empty { vec_len fired.old ≡ 0 }
    ensures ok { OnOk result (Fires X.handout now book.old book.new steps.old steps.new fired.new.items) }
    ensures refused { OnErr result (book.new ≡ book.old) }
    ensures still { OnErr result (steps.new ≡ steps.old) }
    ensures none { OnErr result (vec_len fired.new ≡ 0) }
{
    let slot = ((now + 1) % 256) as usize;
    book.touch_slot(slot);
    let keys = book.gather(alloc, slot)?;
    fire_keys(book, &keys, now, fired, steps)
}

// The slot of the next tick fires. Most slots have no timer, and one whose list has a single id needs no list of keys. Where there is no memory,
// nothing has changed.
pub(crate) fn fire_slot<T, X: Handout<T>, L: Ledger>(
    alloc: Global,
    book: &mut Book<T>,
    now: u64,
    fired: &mut Vec<X>,
    steps: &mut Steps<L>,
) -> Result<(), Memory>
    requires now { now < 2 ^ 63 }
    requires apart { AreApart book.old }
    requires ahead { AreAhead now book.old }
    requires settled { AreSettled (now + 1) book.old }
    requires empty { vec_len fired.old ≡ 0 }
    ensures ok { OnOk result (Fires X.handout now book.old book.new steps.old steps.new fired.new.items) }
    ensures refused { OnErr result (book.new ≡ book.old) }
    ensures still { OnErr result (steps.new ≡ steps.old) }
    ensures none { OnErr result (vec_len fired.new ≡ 0) }
{
    let slot = ((now + 1) % 256) as usize;
    if book.is_left(slot) {
        return Ok(());
    }
    let Some(key) = book.only(slot) else {
        return fire_several(alloc, book, now, fired, steps);
    };
    fire_one(book, key, now, fired, steps)
}
