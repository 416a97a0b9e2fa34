ghost use Rattle.std.specs.Prelude.{◌≡◌};
ghost use Rattle.query_words.specs.Options.{least_of, most_of};
ghost use Rattle.query_words.specs.Steps.{name_of};

/// An option of the command line.
#[derive(Clone, Copy, Debug, PartialEq, Eq)]
pub enum OptionName {
    /// `--workers`
    Workers,
    /// `--bases`
    Bases,
    /// `--shards`
    Shards,
    /// `--stop-at`
    StopAt,
}

impl OptionName {
    /// The option whose name is this text.
    pub(crate) fn from_text(text: &[u8]) -> Option<OptionName>
        ensures { result ≡ name_of text.now }
    {
        if text == b"--workers".as_slice() {
            Some(OptionName::Workers)
        } else if text == b"--bases".as_slice() {
            Some(OptionName::Bases)
        } else if text == b"--shards".as_slice() {
            Some(OptionName::Shards)
        } else if text == b"--stop-at".as_slice() {
            Some(OptionName::StopAt)
        } else {
            None
        }
    }

    /// The least value that the option takes.
    pub(crate) fn least(self) -> u64
        ensures { result ≡ least_of self }
    {
        match self {
            OptionName::Workers | OptionName::Bases | OptionName::Shards => 1,
            OptionName::StopAt => 0,
        }
    }

    /// The greatest value that the option takes.
    pub(crate) fn most(self) -> u64
        ensures { result ≡ most_of self }
    {
        match self {
            OptionName::Workers => 32,
            OptionName::Bases => 8,
            OptionName::Shards => 64,
            OptionName::StopAt => 4_294_967_295,
        }
    }
}
