//! How much an input may have, and how much a reply lists.

/// The words of a document, or of a `top`.
pub const MOST_WORDS: usize = 1_000;

/// The documents of an input.
pub const MOST_DOCUMENTS: usize = 200_000;

/// The queries of an input.
pub const MOST_QUERIES: usize = 50_000;

/// The queries of an input times the shards.
pub const MOST_TASKS: u64 = 262_144;

/// The ticks of all lines of an input, and so of one.
pub const MOST_TICKS: u32 = 10_000_000;

/// The ticks that a query waits.
pub const MOST_DELAY: u32 = 4_294_967_295;

/// The documents that `top` lists.
pub const MOST_RANKED: u32 = 100;

/// The ids that a reply to `find` lists.
pub const MOST_LISTED: usize = 100;
