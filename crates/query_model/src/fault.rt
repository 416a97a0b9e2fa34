ghost use Rattle.std.specs.Prelude.{◌≡◌};

use fan_base::{Memory, Refused};
use query_grammar::ExprFault;
use std::alloc::AllocFailed;

/// What there is too much of.
#[derive(Clone, Copy, Debug, PartialEq, Eq)]
pub enum Limit {
    /// The words of a document, or of a `top`.
    Words,
    Documents,
    Queries,
    /// The queries times the shards.
    Tasks,
    /// The ticks of all lines.
    Ticks,
    /// The depth of an expression.
    Depth,
    /// The tokens of an expression.
    Tokens,
}

/// What is wrong with a line.
#[derive(Clone, Copy, Debug, PartialEq, Eq)]
pub enum BadKind {
    /// A byte outside of printable ASCII.
    BadByte,
    UnknownCommand,
    /// A field that isn't a number, or one out of its range.
    BadNumber,
    /// What isn't 1 to 32 letters and digits.
    BadWord,
    /// An earlier document has the id.
    DuplicateDoc,
    /// An expression that is empty, unclosed, or has an unexpected token.
    BadExpr(ExprFault),
    MissingField,
    /// A field behind the last one of its line.
    ExtraField,
    Limit(Limit),
}

/// The first refusal of an input.
#[derive(Clone, Copy, Debug, PartialEq, Eq)]
pub struct BadInput {
    /// The number of the line, from 1.
    pub line: u64,
    pub kind: BadKind,
}

/// Why an input wasn't read.
#[derive(Clone, Copy, Debug, PartialEq, Eq)]
pub enum InputFault {
    Bad(BadInput),
    /// Want of memory.
    Memory,
}

impl From<Memory> for InputFault {
    ghost use Rattle.query_model.specs.declared.fault.InputFault.TheVariants as fault;

    ghost from_gives = { λ _ e. e ≡ fault.Memory };

    fn from(_memory: Memory) -> InputFault {
        InputFault::Memory
    }
}

impl<X: Drop> From<Refused<X>> for InputFault {
    ghost use Rattle.query_model.specs.declared.fault.InputFault.TheVariants as fault;

    ghost from_gives = { λ _ e. e ≡ fault.Memory };

    fn from(_refused: Refused<X>) -> InputFault {
        InputFault::Memory
    }
}

impl<X: Drop> From<AllocFailed<X>> for InputFault {
    ghost use Rattle.query_model.specs.declared.fault.InputFault.TheVariants as fault;

    ghost from_gives = { λ _ e. e ≡ fault.Memory };

    fn from(_failed: AllocFailed<X>) -> InputFault {
        InputFault::Memory
    }
}
