//! The atomic steps of a home's table, and the plain access to the slot that a seat has.
ghost use Rattle.std.specs.Prelude.{◌≡◌, [], ◌∷◌, None, Some, IfNone, IfSome};
ghost use Rattle.semi_defer.specs.declared.view.Adding.{Adding};
ghost use Rattle.semi_defer.specs.declared.view.Choosing.{Choosing};
ghost use Rattle.atomic_table.specs.Table.{rest};
ghost use Rattle.semi_defer.specs.Steps.{IsHome, Sits, adder_at, holder_at, slot_with, late_at};

use crate::rule::{Adds, Chooses, DeferSeat, DeferTable, GivesBack, TakesSlot};
use crate::state::{Chosen, EMPTY, HAS_FUNCTION, chosen_at, word};

const WORD: usize = 0;

const SLOT: usize = 0;

// Puts a job into the slot, which the seat has, empty.
fn put<J>(table: &DeferTable<J>, seat: &mut DeferSeat<J>, job: J)
    requires { (seat.old.table_id ≡ table.now.table_id) × (seat.old.me.1 ≡ (0, None) ∷ rest seat.old.me.1) }
    ensures { Sits table.now.table_id seat.new (seat.old.me.0, (0, Some job) ∷ rest seat.old.me.1) }
{
    let old = table.exchange(seat, SLOT, Some(job));
    let None = old else { unreachable!() };
}

// Takes the job out of the slot, which the seat has.
fn take_out<J>(table: &DeferTable<J>, seat: &mut DeferSeat<J>) -> J
    requires { (seat.old.table_id ≡ table.now.table_id) × ((job : J) × (seat.old.me.1 ≡ (0, Some job) ∷ rest seat.old.me.1)) }
    ensures had { seat.old.me.1 ≡ (0, Some result) ∷ rest seat.old.me.1 }
    ensures sits { Sits table.now.table_id seat.new (seat.old.me.0, (0, None) ∷ rest seat.old.me.1) }
{
    let item = table.exchange(seat, SLOT, None);
    let Some(job) = item else { unreachable!() };
    job
}

/// Takes the slot, which is empty, for an adder that is about to add.
pub(crate) fn take_slot<J>(table: &DeferTable<J>, seat: &mut DeferSeat<J>)
    requires home { IsHome table.now.table_id }
    requires ready { Sits table.now.table_id seat.old (adder_at Adding.Ready []) }
    ensures { Sits table.now.table_id seat.new (adder_at Adding.Holding (slot_with None)) }
{
    table.load::<TakesSlot>(seat, WORD);
}

/// Adds the job, and says what was chosen before, if anything was. Then the job is still in the slot.
pub(crate) fn add_first<J>(table: &DeferTable<J>, seat: &mut DeferSeat<J>, job: J) -> Option<Chosen>
    requires home { IsHome table.now.table_id }
    requires holding { Sits table.now.table_id seat.old (adder_at Adding.Holding (slot_with None)) }
    ensures kept { IfNone result (Sits table.now.table_id seat.new (adder_at (Adding.Kept job) [])) }
    ensures late { IfSome result (λ what. Sits table.now.table_id seat.new (late_at job what)) }
{
    put(table, seat, job);
    let found = table.compare_exchange::<Adds>(seat, WORD, EMPTY, HAS_FUNCTION);
    if found == EMPTY {
        return None;
    }
    Some(chosen_at(found))
}

/// Takes the job back of an adder that came late, and gives the slot back.
pub(crate) fn take_back<J>(table: &DeferTable<J>, seat: &mut DeferSeat<J>) -> J
    requires home { IsHome table.now.table_id }
    requires late { (job : J) × (what : Chosen) × Sits table.now.table_id seat.old (late_at job what) }
    ensures { (job : J) (what : Chosen) → seat.old.me ≡ late_at job what → (result ≡ job) × Sits table.now.table_id seat.new (adder_at (Adding.Late job what) []) }
{
    let job = take_out(table, seat);
    table.load::<GivesBack>(seat, WORD);
    job
}

/// Chooses, and takes the job that was kept, if one was.
pub(crate) fn choose<J>(table: &DeferTable<J>, seat: &mut DeferSeat<J>, chosen: Chosen) -> Option<J>
    requires home { IsHome table.now.table_id }
    requires ready { Sits table.now.table_id seat.old (holder_at Choosing.Ready []) }
    ensures { Sits table.now.table_id seat.new (holder_at (Choosing.Chose chosen result) []) }
{
    let found = table.swap::<Chooses>(seat, WORD, word(chosen));
    if found != HAS_FUNCTION {
        return None;
    }
    let job = take_out(table, seat);
    table.load::<GivesBack>(seat, WORD);
    Some(job)
}
