ghost use Rattle.std.specs.Prelude.{◌≡◌};
ghost use Rattle.fan_base.specs.Outcome.{fault_of};

/// What a promise is fulfilled with: a value, or why there is none.
#[derive(Debug, PartialEq, Eq, Drop)]
pub enum Try<T> {
    Value(T),
    /// The promise was given up.
    Broken,
    /// Want of memory where the value was to be made.
    Memory,
    /// Cancelled by its consumer, with a number of the consumer's choice.
    Cancelled(u64),
}

/// Why a [`Try`] has no value.
#[derive(Clone, Copy, Debug, PartialEq, Eq)]
pub enum Fault {
    /// The promise was given up.
    Broken,
    /// Want of memory where the value was to be made.
    Memory,
    /// Cancelled by its consumer, with the consumer's number.
    Cancelled(u64),
}

impl<T> Try<T> {
    /// Why there is no value: None exactly for a value.
    pub fn fault(&self) -> Option<Fault>
        ensures { result ≡ fault_of self.now }
    {
        match self {
            Try::Value(_) => None,
            Try::Broken => Some(Fault::Broken),
            Try::Memory => Some(Fault::Memory),
            Try::Cancelled(number) => Some(Fault::Cancelled(*number)),
        }
    }
}
