// Laws of what the calls of a hook leave, all together. Each body but for laws of its own is empty: the contract is the law.
ghost use Rattle.std.specs.Prelude.{◌≡◌, ℕ, List, ◌++◌, Option, length};
ghost use Rattle.std.specs.List.{flat_map};
ghost use Rattle.query_model.specs.Order.{Asked};
ghost use Rattle.fan_model.specs.Answered.{answered_in, early_of, late_of};
ghost use Rattle.fan_model.specs.Comings.{Coming, comings_of};
ghost use Rattle.front_walk.specs.Coming.{Came, IsCut};
ghost use Rattle.front_walk.specs.Keeping.{IsKeptByTurns, KeepsEarly, KeepsLate};

use crate::at_turn::AtTurn;
use fan_model::laws::comings_in_order;

/// A list that a hook keeps, and what a query gives to it. The hook counts those that were answered.
pub trait KeptList<H, X> {
    ghost answered: { H → ℕ };

    ghost kept: { H → List X };

    ghost gives: { Asked → List X };
}

/// What a hook was and what it is now.
pub trait HookRelation<H> {
    ghost relates: { H → H → Type 0 };
}

/// Where each early query gives something to a list and no other does, the list has in the end what all early queries give, in the order of
/// answers, and all that are answered were counted. So it is with the late ones.
pub fn given_in_order<X, H: AtTurn, K: KeptList<H, X>>()
    ensures early { (stop_at : Option ℕ) → KeepsEarly H.does K.answered K.kept K.gives stop_at → (w v : H) → K.answered w ≡ 0
        → Came H.does 0 w (comings_of H.lines) v →
        (K.kept v ≡ K.kept w ++ flat_map K.gives (early_of stop_at (answered_in H.lines))) × (K.answered v ≡ length (answered_in H.lines)) }
    ensures late { (stop_at : Option ℕ) → KeepsLate H.does K.answered K.kept K.gives stop_at → (w v : H) → K.answered w ≡ 0
        → Came H.does 0 w (comings_of H.lines) v →
        (K.kept v ≡ K.kept w ++ flat_map K.gives (late_of stop_at (answered_in H.lines))) × (K.answered v ≡ length (answered_in H.lines)) }
{
    comings_in_order();
}

/// A relation between what a hook was and what it is, in which each call leaves it, holds of a whole walk and of one that was cut.
pub fn related_by_each_turn<H: AtTurn, F: HookRelation<H>>()
    ensures came { IsKeptByTurns H.does F.relates → (place : ℕ) (w v : H) (comings : List Coming) → Came H.does place w comings v → F.relates w v }
    ensures cut { IsKeptByTurns H.does F.relates → (place : ℕ) (w v : H) (comings : List Coming) → IsCut H.does place w comings v → F.relates w v }
{}
