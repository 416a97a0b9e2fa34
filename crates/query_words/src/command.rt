/// What the words of a command line ask for.
#[derive(Clone, Copy, Debug, PartialEq, Eq)]
pub enum Command {
    /// `run`: answers the input that is read.
    Run(Settings),
    /// `gen`: answers an input that is made up, and writes a summary.
    Generate(Generation, Settings),
}

/// What the options set.
#[derive(Clone, Copy, Debug, PartialEq, Eq)]
pub struct Settings {
    /// How many workers the pool has: 1 to 32, and 4 where the option isn't given.
    pub workers: u32,
    /// How many event bases gather replies: 1 to 8, and 2 where the option isn't given.
    pub bases: u32,
    /// Into how many shards the documents are parted: 1 to 64, and 4 where the option isn't given.
    pub shards: u32,
    /// After how many answered queries the pool is stopped, 0 to 4,294,967,295, where the option is given.
    pub stop_at: Option<u64>,
}

/// The numbers of `gen`: which input is made up.
#[derive(Clone, Copy, Debug, PartialEq, Eq)]
pub struct Generation {
    /// Where the draws begin.
    pub seed: u64,
    /// How many documents: 0 to 20,000.
    pub docs: u32,
    /// How many queries: 0 to 4,096.
    pub queries: u32,
}
