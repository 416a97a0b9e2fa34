//! A value in a box, which comes back where there is no memory for the box.
ghost use Rattle.std.specs.Prelude.{◌≡◌, IfOk, IfErr};

use fan_base::Refused;
use std::alloc::{AllocFailed, Global};
use std::marker::Model;

/// A value in a box. Contracts see the value.
#[derive(Drop)]
pub struct Boxed<T> {
    inner: Box<T>,
}

impl<T> Model for Boxed<T> {
    ghost Value = { T };

    ghost view = { λ boxed. boxed.inner.value };
}

impl<T> Boxed<T> {
    /// Takes the value, or gives it back where there is no memory for the box.
    pub(crate) fn new(alloc: Global, value: T) -> Result<Boxed<T>, Refused<T>>
        ensures ok { IfOk result (λ boxed. boxed ≡ value) }
        ensures refused { IfErr result (λ back. back ≡ Refused.Memory value) }
    {
        match Box::new(alloc, value) {
            Ok(inner) => Ok(Boxed { inner }),
            Err(AllocFailed { value }) => Err(Refused::Memory(value)),
        }
    }

    /// Gives the value and frees the box.
    pub(crate) fn open(self) -> T
        ensures { result ≡ self }
    {
        let Boxed { inner } = self;
        Box::into_inner(inner)
    }
}
