//! What an act comes to.

use core_word::{Landed, Left};

/// What an act of a promise or of a future comes to: a fire or that the callback waits, and what the leave of that half
/// answered. Both must be spent.
pub struct After<'h, T, C, P> {
    pub landed: Landed<T, C>,
    pub left: Left<'h, T, C, P>,
}
