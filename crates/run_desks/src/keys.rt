ghost use Rattle.std.specs.Prelude.{◌≡◌};

use core_word::Tally;
use fan_parts::{InnerKey, ReplyKey, RunName};
use query_model::Lines;
use std::alloc::Global;

/// What the queries of a run are begun with. It must be spent by `end`.
pub struct DeskKeys<'r, 'i: 'r, N: RunName> {
    /// A key for the reply's core of each query that is still to be begun.
    pub replies: Vec<ReplyKey<'r, 'i, N>>,
    /// A key for the inner core of each `top` among them.
    pub inners: Vec<InnerKey<'i, N>>,
    /// The lines of the input.
    pub lines: &'i Lines,
    /// How many shards there are.
    pub shards: u32,
    /// How many gathering bases there are.
    pub bases: u32,
    pub alloc: Global,
    /// What became of the replies' cores.
    pub tally: Tally,
}

impl<'r, 'i: 'r, N: RunName + 'static> DeskKeys<'r, 'i, N> {
    /// Lets keys go that are left, and gives the tally.
    pub fn end(self) -> Tally
        ensures { result ≡ self.entry.tally }
    {
        let DeskKeys {
            replies,
            inners: _,
            lines: _,
            shards: _,
            bases: _,
            alloc: _,
            tally,
        } = self;
        let_go_keys(replies);
        tally
    }
}

/// Lets go of keys, one by one. Their homes are not used.
pub fn let_go_keys<'r, 'i: 'r, N: RunName + 'static>(mut keys: Vec<ReplyKey<'r, 'i, N>>) {
    'keys: while let Some(_key) = keys.pop() {}
    keys.destroy_empty();
}
