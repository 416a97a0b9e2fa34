// Laws of a pool's passes and of its end. Their bodies do nothing that is seen: the contract is the law.
ghost use Rattle.std.specs.Prelude.{◌≡◌, ◌≢◌, ℕ, [], None, All};
ghost use Rattle.pool_model.specs.Passes.{AreNumbered, adds_of};
ghost use Rattle.pool_model.specs.Seen.{PoolId};
ghost use Rattle.prio_pool.specs.Made.{new_passes, new_workers, new_ends};

use crate::passes::{PoolPass, WorkerEnd};
use crate::pool::Pool;
use crate::takers::Takers;
use job_trait::Headed;

/// A worker that found an end begun meets no adder's pass of its pool any more: only [`Pool::begin_join`] and
/// [`Pool::begin_stop`] set the mark, and they spend all of these. So no call of this can be made.
pub fn no_adder_is_left<J: Headed>(pool: &Pool<J>, end: WorkerEnd<J>, pass: PoolPass<J>)
    requires end { end.pool ≡ pool.now.id }
    requires found { end.found ≢ None }
    requires pass { pass.pool ≡ pool.now.id }
    ensures { ⊥ }
{
    let WorkerEnd { takers, records: _ } = end;
    let Takers {
        takers: _,
        looks: _,
        watch,
        number: _,
        passes: _,
    } = takers;
    let PoolPass { adders: _, seat } = pass;
    pool.mark.mark().no_part_is_left(watch, seat);
}

/// The passes of a new pool are of this pool, and those of its adders have added nothing and are numbered 0, 1, 2, and so on.
pub fn new_passes_are_unused()
    ensures passes { (pool : PoolId) (first n : ℕ) → All (λ p. (p.pool ≡ pool) × (adds_of p ≡ [])) (new_passes pool first n) }
    ensures numbered { (pool : PoolId) (adders : ℕ) → AreNumbered pool adders (new_passes pool 0 adders) }
    ensures workers { (pool : PoolId) (first n : ℕ) → All (λ w. w.pool ≡ pool) (new_workers pool first n) }
    ensures helpers { (pool : PoolId) (first n : ℕ) → All (λ e. e.pool ≡ pool) (new_ends pool first n) }
{}
