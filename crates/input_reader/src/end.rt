ghost use Rattle.std.specs.Prelude.{◌≡◌};

use fan_base::Memory;
use query_model::BadInput;
use std::alloc::AllocError;

/// Why the lines of a source weren't read.
#[derive(Clone, Copy, Debug, PartialEq, Eq)]
pub enum ReadEnd {
    /// Want of memory. The source may have more.
    Memory,
    /// A read failed.
    Fault,
    /// The source has more bytes than an input may have.
    TooLarge,
    /// All was read, and this is the first line that is refused.
    Bad(BadInput),
}

impl From<AllocError> for ReadEnd {
    ghost use Rattle.input_reader.specs.declared.end.ReadEnd.TheVariants as end;

    ghost from_gives = { λ _ e. e ≡ end.Memory };

    fn from(_error: AllocError) -> ReadEnd {
        ReadEnd::Memory
    }
}

impl From<Memory> for ReadEnd {
    ghost use Rattle.input_reader.specs.declared.end.ReadEnd.TheVariants as end;

    ghost from_gives = { λ _ e. e ≡ end.Memory };

    fn from(_memory: Memory) -> ReadEnd {
        ReadEnd::Memory
    }
}
