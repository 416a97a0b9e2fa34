//! All timers leave, in order of their ids.
ghost use Rattle.std.specs.Prelude.{◌≡◌, ℕ, ◌+◌, ◌<◌, ◌≤◌, [], ◌++◌, length, IfOk, vec_len, vec_capacity};
ghost use Rattle.std.specs.List.Sorted.{IsPermutation, IsNonDecreasing};
ghost use Rattle.std.specs.Map.{keys_of};
ghost use Rattle.tick_wheel.specs.Handouts.{handouts_of};
ghost use Rattle.tick_wheel.specs.Kept.{timers_of};
ghost use Rattle.tick_wheel.specs.Sweep.{IsListed};
ghost use Rattle.tick_wheel.specs.Table.{AreApart};
ghost use Rattle.tick_wheel.specs.TimerList.{by_id};

use crate::book::Book;
use crate::handout::Handout;
use std::alloc::{AllocError, Global};

// The ids that are held, ascending.
pub(crate) fn list_ids<T>(alloc: Global, book: &Book<T>) -> Result<Vec<u64>, AllocError>
    ensures same { IfOk result (λ ids. IsPermutation (keys_of book.now) ids.items) }
    ensures rises { IfOk result (λ ids. IsNonDecreasing ids.items) }
{
    let mut ids = book.ids(alloc)?;
    ids.sort_unstable();
    Ok(ids)
}

// Takes the timer of the least id out.
fn take_least<T, X: Handout<T>>(book: &mut Book<T>, ids: &[u64], place: usize, given: &mut Vec<X>)
    requires apart { AreApart book.old }
    requires listed { IsListed ids.now place book.old }
    requires within { place < length ids.now }
    requires spare { vec_len given.old < vec_capacity given.old }
    ensures apart { AreApart book.new }
    ensures listed { IsListed ids.now (place + 1) book.new }
    ensures given { given.old.items ++ handouts_of X.handout (by_id (timers_of book.old))
        ≡ given.new.items ++ handouts_of X.handout (by_id (timers_of book.new)) }
    ensures len { vec_len given.new ≡ vec_len given.old + 1 }
    ensures capacity { vec_capacity given.new ≡ vec_capacity given.old }
{
    let id = ids[place];
    let Some(timed) = book.remove(id) else {
        unreachable!()
    };
    given.push_reserved(X::of(id, timed.item));
}

// Takes all timers out, in order of their ids; there is room for what is handed out of them.
pub(crate) fn take_all<T, X: Handout<T>>(book: &mut Book<T>, ids: &[u64], given: &mut Vec<X>)
    requires apart { AreApart book.old }
    requires same { IsPermutation (keys_of book.old) ids.now }
    requires rises { IsNonDecreasing ids.now }
    requires empty { vec_len given.old ≡ 0 }
    requires spare { length ids.now ≤ vec_capacity given.old }
    ensures gone { book.new ≡ [] }
    ensures given { given.new.items ≡ handouts_of X.handout (by_id (timers_of book.old)) }
{
    for place in 0..ids.len() {
        take_least(book, ids, place, given);
    }
}
