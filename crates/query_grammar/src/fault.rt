use std::alloc::AllocError;

/// Why tokens weren't read as an expression.
#[derive(Clone, Copy, Debug, PartialEq, Eq)]
pub enum ExprFault {
    /// There are no tokens.
    Empty,
    /// There are more than 1,024 tokens.
    TooLong,
    /// At the `Left` or `Bang` with this place, from 0, the depth would become 65.
    TooDeep(usize),
    /// No expression could continue with the token at this place, from 0.
    Unexpected(usize),
    /// The tokens end where more is needed.
    Unclosed,
    /// Want of memory.
    Memory,
}

impl From<AllocError> for ExprFault {
    ghost use Rattle.std.specs.Prelude.{◌≡◌};
    ghost use Rattle.query_grammar.specs.declared.fault.ExprFault.TheVariants as fault;

    ghost from_gives = { λ _ e. e ≡ fault.Memory };

    fn from(_error: AllocError) -> ExprFault {
        ExprFault::Memory
    }
}
