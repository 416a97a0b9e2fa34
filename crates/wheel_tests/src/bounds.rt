//! The bounds on the steps of a tick, of worked rows of calls.
ghost use Rattle.std.specs.Prelude.{◌≡◌, ℕ, List};
ghost use Rattle.std.specs.List.{All};
ghost use Rattle.tick_wheel.specs.declared.timer.Timer.{Timer};
ghost use Rattle.tick_wheel.specs.Steps.{tick_bound};
ghost use Rattle.wheel_tests.specs.Rows.{one_due_behind, two_due};

/// What the clause `steps` of a wheel's tick comes to: 4 steps where two timers are due at tick 256, which is the next, as each may be placed anew
/// before it fires; and 1 where one is due at tick 1, which is the next, and all others at tick 100,000. This function does nothing: its clauses
/// are the bounds.
pub fn worked_bounds()
    ensures two { tick_bound two_due ≡ 4 }
    ensures one { (far : List (Timer ℕ)) → All (λ (t : Timer ℕ). t.due ≡ 100000) far → tick_bound (one_due_behind far) ≡ 1 }
{}
