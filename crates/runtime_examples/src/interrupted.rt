//! An interrupt: a handler is set, and an object is raised.
ghost use Rattle.std.specs.Prelude.{◌≡◌, IfOk};

use core_interrupt::{Heard, InterruptHome, armed_agrees, raise_where_armed};
use fan_base::Memory;
use std::alloc::Global;

/// A handler is set, and then an object is raised. Where one thread holds both sides, as here, the raise always has that handler
/// and this object, and its caller runs the one on the other.
pub fn interrupt(alloc: Global, handler: u64, object: u64) -> Result<(u64, u64), Memory>
    ensures { IfOk result (λ call. call ≡ (handler, object)) }
{
    let mut home = InterruptHome::new(alloc)?;
    let Some((hearer, raiser)) = home.pair() else {
        unreachable!()
    };
    let (heard, armed) = hearer.set_handler(handler);
    match heard {
        Heard::Kept => Ok(raise_where_armed(armed, raiser, object)),
        Heard::Call(_, _) => {
            armed_agrees(armed, raiser);
            unreachable!()
        }
    }
}
