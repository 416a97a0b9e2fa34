ghost use Rattle.std.specs.Prelude.{◌≡◌};

use std::alloc::{AllocError, AllocFailed};

/// A call found no memory.
#[derive(Clone, Copy, Debug, PartialEq, Eq)]
pub struct Memory;

/// A read or a write failed.
#[derive(Clone, Copy, Debug, PartialEq, Eq)]
pub struct Failed;

/// A call took nothing, and hands back what was given to it.
#[derive(Debug, PartialEq, Eq, Drop)]
pub enum Refused<X> {
    Memory(X),
}

impl From<AllocError> for Memory {
    fn from(_error: AllocError) -> Memory {
        Memory
    }
}

impl<X> From<AllocFailed<X>> for Refused<X> {
    ghost use Rattle.fan_base.specs.declared.refusal.Refused.TheVariants.{Memory as GivenBack};

    ghost from_gives = { λ failed refused. refused ≡ GivenBack failed.value };

    fn from(failed: AllocFailed<X>) -> Refused<X> {
        Refused::Memory(failed.value)
    }
}
