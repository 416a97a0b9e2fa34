ghost use Rattle.std.specs.Prelude.{◌≡◌};

use fan_base::Refused;
use query_model::{BadKind, Limit};
use std::alloc::{AllocError, AllocFailed};

/// Why a piece gives no line.
#[derive(Clone, Copy, Debug, PartialEq, Eq)]
pub enum LineFault {
    Bad(BadKind),
    /// Want of memory.
    Memory,
}

impl From<BadKind> for LineFault {
    ghost use Rattle.query_text.specs.declared.fault.LineFault.TheVariants as fault;

    ghost from_gives = { λ kind e. e ≡ fault.Bad kind };

    fn from(kind: BadKind) -> LineFault {
        LineFault::Bad(kind)
    }
}

impl From<AllocError> for LineFault {
    ghost use Rattle.query_text.specs.declared.fault.LineFault.TheVariants as fault;

    ghost from_gives = { λ _ e. e ≡ fault.Memory };

    fn from(_error: AllocError) -> LineFault {
        LineFault::Memory
    }
}

impl<X: Drop> From<AllocFailed<X>> for LineFault {
    ghost use Rattle.query_text.specs.declared.fault.LineFault.TheVariants as fault;

    ghost from_gives = { λ _ e. e ≡ fault.Memory };

    fn from(_failed: AllocFailed<X>) -> LineFault {
        LineFault::Memory
    }
}

impl<X: Drop> From<Refused<X>> for LineFault {
    ghost use Rattle.query_text.specs.declared.fault.LineFault.TheVariants as fault;

    ghost from_gives = { λ _ e. e ≡ fault.Memory };

    fn from(_refused: Refused<X>) -> LineFault {
        LineFault::Memory
    }
}

pub const BAD_BYTE: LineFault = LineFault::Bad(BadKind::BadByte);

pub const UNKNOWN_COMMAND: LineFault = LineFault::Bad(BadKind::UnknownCommand);

pub const BAD_NUMBER: LineFault = LineFault::Bad(BadKind::BadNumber);

pub const BAD_WORD: LineFault = LineFault::Bad(BadKind::BadWord);

pub const MISSING_FIELD: LineFault = LineFault::Bad(BadKind::MissingField);

pub const EXTRA_FIELD: LineFault = LineFault::Bad(BadKind::ExtraField);

pub const TOO_MANY_WORDS: LineFault = LineFault::Bad(BadKind::Limit(Limit::Words));
