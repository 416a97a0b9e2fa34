//! Entries of a coarser wheel are placed anew as their slot's turn comes.
ghost use Rattle.std.specs.Prelude.{◌≡◌, ℕ, ◌+◌, ◌<◌, ◌≤◌, ◌^◌, ◌%◌, true, false, IfOk, OnOk};
ghost use Rattle.tick_wheel.specs.Place.{IsWheel, turning_slot};
ghost use Rattle.tick_wheel.specs.Kept.{timers_of};
ghost use Rattle.tick_wheel.specs.Steps.{count_turning, turning_bound};
ghost use Rattle.tick_wheel.specs.Table.{AreApart, AreAhead, AreSettled, IsLeft, Rearranges, CountsWhatLeaves, in_slot};

use crate::book::{Book, Steps};
use fan_base::Memory;
use std::sync::ledger::Ledger;

// Places an entry of the slot that turns anew, and gives false where none is left there. Where the other slot can't take it, nothing
// has changed.
fn place_last<T, L: Ledger>(
    book: &mut Book<T>,
    first: usize,
    width: u64,
    now: u64,
    steps: &mut Steps<L>,
) -> Result<bool, Memory>
    requires wheel { IsWheel first width }
    requires now { now < 2 ^ 63 }
    requires apart { AreApart book.old }
    requires ahead { AreAhead now book.old }
    requires turns { (now + 1) % width ≡ 0 }
    ensures apart { AreApart book.new }
    ensures ahead { AreAhead now book.new }
    ensures same { Rearranges first book.old book.new }
    ensures left { IfOk result (λ more. more ≡ false → IsLeft (turning_slot first width (now + 1)) book.new) }
    ensures one { IfOk result (λ more. more ≡ true
        → in_slot (turning_slot first width (now + 1)) book.new + 1 ≡ in_slot (turning_slot first width (now + 1)) book.old) }
    ensures kept { IfOk result (λ more. more ≡ false → book.new ≡ book.old) }
    ensures rises { steps.old ≤ steps.new }
    ensures steps { CountsWhatLeaves steps.old steps.new book.old book.new (turning_slot first width (now + 1)) }
{
    let tick = now + 1;
    let from = first + (tick / width % 256) as usize;
    let more = book.place_one(from, tick, steps)?;
    if more {
        return Ok(true);
    }
    Ok(false)
}

// Places the entries of a wheel's slot anew, where the slot's turn comes with the next tick. Their ids are touched before, so that the
// processor fetches what the table has of them side by side, and not one by one.
fn cascade<T, L: Ledger>(
    book: &mut Book<T>,
    first: usize,
    width: u64,
    now: u64,
    steps: &mut Steps<L>,
) -> Result<(), Memory>
    requires wheel { IsWheel first width }
    requires now { now < 2 ^ 63 }
    requires apart { AreApart book.old }
    requires ahead { AreAhead now book.old }
    ensures apart { AreApart book.new }
    ensures ahead { AreAhead now book.new }
    ensures same { Rearranges first book.old book.new }
    ensures left { OnOk result ((now + 1) % width ≡ 0 → IsLeft (turning_slot first width (now + 1)) book.new) }
    ensures rises { steps.old ≤ steps.new }
    ensures steps { steps.new ≤ steps.old + count_turning width (now + 1) (timers_of book.old) }
{
    let tick = now + 1;
    if tick % width != 0 {
        return Ok(());
    }
    book.touch_slot(first + (tick / width % 256) as usize);
    let mut more = true;
    while more {
        more = place_last(book, first, width, now, steps)?;
    }
    Ok(())
}

// Places anew what the next tick turns, the coarsest wheel first. Where it finds no memory on the way, the timers are the same. Most
// ticks turn no slot, and end here with one test.
pub(crate) fn settle<T, L: Ledger>(
    book: &mut Book<T>,
    now: u64,
    steps: &mut Steps<L>,
) -> Result<(), Memory>
    requires now { now < 2 ^ 63 }
    requires apart { AreApart book.old }
    requires ahead { AreAhead now book.old }
    ensures apart { AreApart book.new }
    ensures ahead { AreAhead now book.new }
    ensures same { Rearranges 1024 book.old book.new }
    ensures settled { OnOk result (AreSettled (now + 1) book.new) }
    ensures rises { steps.old ≤ steps.new }
    ensures steps { steps.new ≤ steps.old + turning_bound (now + 1) (timers_of book.old) }
{
    let tick = now + 1;
    if tick % 256 != 0 {
        return Ok(());
    }
    cascade(book, 768, 16777216, now, steps)?;
    cascade(book, 512, 65536, now, steps)?;
    cascade(book, 256, 256, now, steps)
}
