//! A half that asks or gives up, and what either comes to. Both functions are generic in the half and in the proxy, of which
//! nothing but their own calls says what they did. So no body of these can make up what a half met, its leave, or a walk.
ghost use Rattle.std.specs.Prelude.{◌≡◌, Bool, true};
ghost use Rattle.core_word.specs.Answers.{IfLast};
ghost use Rattle.core_word.specs.declared.consumer.Met.{Met};
ghost use Rattle.core_word.specs.declared.left.Left.{Left};
ghost use Rattle.core_word.specs.declared.left.Leftover.{Leftover};
ghost use Rattle.core_proxy.specs.Asking.{GaveBy, GaveUpBy};
ghost use Rattle.core_proxy.specs.Settling.{is_last};
ghost use Rattle.core_proxy.specs.Walk.{freed_at};

use crate::proxy::{Proxy, settle};
use core_word::{Landed, Left, Leftover, Met, Tally};
use fan_base::Try;

/// A half that sets a callback or gives up, and leaves.
pub(crate) trait Asker<'h, T, C, P> {
    // The half, the callback, whether it may run inline, what it met, what its leave answered.
    ghost asks: { Self → C → Bool → Met T C P → Left T C P → Type 0 };

    // The half, and what its leave answered.
    ghost stops: { Self → Left T C P → Type 0 };

    /// Sets the callback, with or without the allowance to run inline, and leaves.
    fn ask(self, callback: C, inline: bool) -> (Met<T, C, P>, Left<'h, T, C, P>)
        ensures asked { asks self callback inline result.0 result.1 }
        ensures leftover { IfLast result.1 (λ leftover husk. leftover ≡ Leftover.Nothing) };

    /// Gives up, and leaves.
    fn stop(self) -> Left<'h, T, C, P>
        ensures { stops self result };
}

/// Asks, leaves, frees the core where that leave was the last one, and goes on from what was met.
pub(crate) fn give_by<'h, T: 'h, C: 'h, P: Proxy<T, C> + 'h, S: Asker<'h, T, C, P>>(
    asker: S,
    callback: C,
    inline: bool,
    t: &mut Tally,
) -> Landed<T, C>
    ensures { GaveBy S.asks P.gives asker callback inline result t.old t.new }
{
    let (met, left) = asker.ask(callback, inline);
    spend(left, t);
    P::after_meeting(met, t)
}

/// Gives up, leaves, and settles what that leave answered.
pub(crate) fn give_up_by<'h, T: 'h, C: 'h, P: Proxy<T, C> + 'h, S: Asker<'h, T, C, P>>(
    asker: S,
    t: &mut Tally,
) -> Option<Try<T>>
    ensures { GaveUpBy S.stops P.gives_up asker result t.old t.new }
{
    settle(asker.stop(), t)
}

// Spends the answer of the leave of a half that has asked: the core is freed where that leave was the last one.
// Nothing is left over.
fn spend<T, C, P>(left: Left<'_, T, C, P>, t: &mut Tally)
    requires { IfLast left (λ leftover husk. leftover ≡ Leftover.Nothing) }
    ensures { t.new ≡ freed_at (is_last left.entry) t.old }
{
    match left {
        Left::First(_) => {}
        Left::Last(leftover, husk) => {
            husk.end(t);
            let Leftover::Nothing = leftover else {
                unreachable!()
            };
        }
    }
}
