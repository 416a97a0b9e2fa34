ghost use Rattle.std.specs.Prelude.{List};

use std::sync::Wait;

/// The front of a pool: what adds to it beside its workers, and ends it behind them. P is the pool, and S a slot of a worker.
pub trait PoolFront<P, S> {
    ghost use Rattle.std.specs.Prelude.{List};

    // What it has to be before the workers work, and what it has become beside them.
    ghost ready: { Self → P → Type 0 };

    ghost begun: { Self → P → Self → Type 0 };

    // What it has to be behind the workers, and what it has become then.
    ghost can_end: { Self → P → List S → Type 0 };

    ghost ended: { Self → P → List S → Self → Type 0 };

    /// Adds to the pool beside the workers, and begins the pool's end. It may not wait for them.
    fn begin<R: Wait>(&mut self, rt: &R, pool: &P)
        requires { ready self.old pool.now }
        ensures { begun self.old pool.now self.new };

    /// Ends the pool behind the workers.
    fn end<R: Wait>(&mut self, rt: &R, pool: P, workers: Vec<S>)
        requires { can_end self.old pool workers.items }
        ensures { ended self.old pool workers.items self.new };
}
