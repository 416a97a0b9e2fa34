//! A collect of all: two outcomes arrive, and the last arrival has both.
ghost use Rattle.std.specs.Prelude.{◌≡◌, [], ◌∷◌, Some, IfOk, IfSome};

use collect_ops::{AllDesk, Arrival, Arrived, Listed};
use fan_base::{Memory, Try};
use std::alloc::Global;

/// All outcomes of a desk by index, and what the desk's completion hands out.
pub type Both = (Listed<Try<u64>>, u64);

// The outcome of index 1 arrives, and then that of index 0. `None`: the second one wasn't the last, which no clause rules out.
fn arrive_both<'d>(
    zero: Arrival<'d, AllDesk<u64, u64>>,
    one: Arrival<'d, AllDesk<u64, u64>>,
    outcomes: (Try<u64>, Try<u64>),
) -> Option<Both>
    requires desk { (zero.desk ≡ one.desk) × (zero.desk.size ≡ 2) }
    requires indexes { (zero.index ≡ 0) × (one.index ≡ 1) }
    ensures { IfSome result (λ both. (both.0 ≡ outcomes.0 ∷ outcomes.1 ∷ []) × (zero.entry.desk.end ≡ Some both.1)) }
{
    let early = one.arrive(outcomes.1);
    let late = zero.arrive(outcomes.0);
    match (early, late) {
        (Arrived::More(receipt), Arrived::Complete(list, end, mut done)) => {
            done.lists(receipt);
            Some((list, end))
        }
        _ => None,
    }
}

/// Two outcomes are gathered at a desk, the one of index 1 first, and come out by index.
pub fn gather_two(
    alloc: Global,
    outcomes: (Try<u64>, Try<u64>),
    end: u64,
) -> Result<Option<Both>, Memory>
    ensures { IfOk result (λ got. IfSome got (λ both. (both.0 ≡ outcomes.0 ∷ outcomes.1 ∷ []) × (both.1 ≡ end))) }
{
    let Ok(mut desk) = AllDesk::new(alloc, 2, end) else {
        return Err(Memory);
    };
    let Ok(mut arrivals) = desk.arrivals() else {
        unreachable!()
    };
    let (zero, one) = (arrivals.next(), arrivals.next());
    let Some(zero) = zero else { unreachable!() };
    let Some(one) = one else { unreachable!() };
    Ok(arrive_both(zero, one, outcomes))
}
