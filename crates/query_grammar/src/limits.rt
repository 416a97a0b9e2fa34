//! How large an expression may be.

/// The tokens of an expression.
pub const MOST_TOKENS: usize = 1_024;

/// The depth at a token: the brackets that are unclosed there and the negations whose fact isn't complete there.
pub const MOST_DEPTH: usize = 64;
