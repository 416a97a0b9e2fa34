// What a round and a loop answer.

/// How many jobs ran in each phase of a round.
#[derive(Clone, Copy, Debug, PartialEq, Eq)]
pub struct Round {
    /// 0 for the base's first round, and one greater for each later one, up to the last of its type.
    pub number: u64,
    /// Callbacks of `run_before_loop`.
    pub before: u64,
    /// Messages of the queue.
    pub messages: u64,
    /// Timers, up to the last of its type.
    pub timers: u64,
    /// Callbacks of the loop phase.
    pub loops: u64,
}

/// A round that found no memory. What ran has run, and all else is held.
#[derive(Clone, Copy, Debug, PartialEq, Eq)]
pub struct RoundMemory {
    /// What ran. A round that has not begun has the number of the base's next round.
    pub round: Round,
    /// How many of the ticks that were handed in were not made.
    pub left_ticks: u64,
}

/// Why a loop ended.
#[derive(Clone, Copy, Debug, PartialEq, Eq)]
pub enum Why {
    /// All posters have ended, the queue is empty, and no callback is held.
    Closed,
    /// A job called `terminate_soon`.
    Terminated,
}

/// The end of a loop.
#[derive(Clone, Copy, Debug, PartialEq, Eq)]
pub struct LoopEnd {
    /// How many rounds it made, up to the last of its type.
    pub rounds: u64,
    pub why: Why,
}
