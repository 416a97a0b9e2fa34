//! What every lawful order of the acts of a core's two halves comes to.
ghost use Rattle.std.specs.Prelude.{◌≡◌, ◌⊎◌, ◌↔◌, ℕ, List, take, Some};
ghost use Rattle.core_state.specs.declared.table.State.{State};
ghost use Rattle.core_state.specs.declared.schedule.CoreAct.{CoreAct};
ghost use Rattle.core_state.specs.declared.schedule.Request.{Request};
ghost use Rattle.core_state.specs.declared.schedule.Offer.TheVariants as offered;
ghost use Rattle.core_state.specs.declared.schedule.Demand.TheVariants as demanded;
ghost use Rattle.core_state.specs.Schedule.{IsLawful, fold_of, state_of, offer_in, demand_in};
ghost use Rattle.core_state.specs.Laws.{result_of, proxy_of, callback_of, IsFinal, FindsEachState, StaysFinal, Stands, IsHandedOver, IsForwarded, HandsOverOnce, ForwardsOnce, FreesOnce, LastFindsOne, LeavesOffer, ComesOnce, FindsOther, IsAccounted};

/// The law of the core's table, for every lawful schedule: any merge of a prefix of a producer's
/// acts with a prefix of a consumer's. A prefix of a lawful schedule is lawful too, so the law holds
/// at every moment of it.
pub fn schedule_law<R, K, C>()
    // The fold of the table over the exchanges never meets None, and gives the state that the schedule stands for.
    ensures folds { (acts : List (CoreAct R K C)) → IsLawful acts → fold_of acts ≡ Some (state_of acts) }
    ensures prefixes { (acts : List (CoreAct R K C)) (n : ℕ) → IsLawful acts → IsLawful (take n acts) }

    // What stands in the schedule is what the state is computed from.
    ensures results { (acts : List (CoreAct R K C)) (r : R) → IsLawful acts → Stands acts (result_of r) ↔ (offer_in acts ≡ offered.Result r) }
    ensures proxies { (acts : List (CoreAct R K C)) (k : K) → IsLawful acts → Stands acts (proxy_of k) ↔ (offer_in acts ≡ offered.Proxy k) }
    ensures callbacks { (acts : List (CoreAct R K C)) (c : Request C) → IsLawful acts → Stands acts (callback_of c) ↔ (demand_in acts ≡ demanded.Callback c) }

    // Each exchange finds the state of the acts before it. Done and Empty alone have no row, and neither is ever left again.
    ensures finds { (acts : List (CoreAct R K C)) → IsLawful acts → FindsEachState acts }
    ensures ends { (state : State) → IsFinal state ↔ ((state ≡ State.Done) ⊎ (state ≡ State.Empty)) }
    ensures stays { (acts : List (CoreAct R K C)) → IsLawful acts → StaysFinal acts }

    // A result and a callback are handed over by one of the two halves, the later one, and once. It may run inline where
    // it was set with the allowance and the result stands later. A proxy's callback is forwarded so, with its allowance.
    ensures handed { (acts : List (CoreAct R K C)) → IsLawful acts → HandsOverOnce acts }
    ensures forwarded { (acts : List (CoreAct R K C)) → IsLawful acts → ForwardsOnce acts }
    ensures done { (acts : List (CoreAct R K C)) → IsLawful acts → (state_of acts ≡ State.Done) ↔ IsHandedOver acts }
    ensures emptied { (acts : List (CoreAct R K C)) → IsLawful acts → (state_of acts ≡ State.Empty) ↔ IsForwarded acts }
    ensures once { (acts : List (CoreAct R K C)) → IsLawful acts → ComesOnce acts }

    // The state that an exchange finds tells whether it makes the hand-over or the forwarding.
    ensures makers { (acts : List (CoreAct R K C)) → IsLawful acts → FindsOther acts }

    // One leave frees the core, the later one, which is the one that finds one half attached. The other finds two.
    ensures freed { (acts : List (CoreAct R K C)) → IsLawful acts → FreesOnce acts }
    ensures last { (acts : List (CoreAct R K C)) → IsLawful acts → LastFindsOne acts }

    // What is left of a freed core is what the producer set, exactly where the consumer set nothing.
    ensures leftover { (acts : List (CoreAct R K C)) → IsLawful acts → LeavesOffer acts }
    ensures accounted { (acts : List (CoreAct R K C)) → IsLawful acts → IsAccounted acts }
{}
