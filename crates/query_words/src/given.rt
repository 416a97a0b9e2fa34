ghost use Rattle.std.specs.Prelude.{◌≡◌, ◌≤◌, is_some};
ghost use Rattle.query_words.specs.Options.{most_of};
ghost use Rattle.query_words.specs.Steps.{give, nothing_given, settings_of, value_at, with_value};

use crate::command::Settings;
use crate::name::OptionName;
use crate::number::number_in;

/// The values that were given to options.
#[derive(Clone, Copy, Debug, PartialEq, Eq)]
pub(crate) struct Given {
    workers: Option<u32>,
    bases: Option<u32>,
    shards: Option<u32>,
    stop_at: Option<u64>,
}

impl Given {
    pub(crate) fn nothing() -> Given
        ensures { result ≡ nothing_given }
    {
        Given {
            workers: None,
            bases: None,
            shards: None,
            stop_at: None,
        }
    }

    /// With the value that a word gives to an option; None where the option has one, or the word is no number in its range.
    pub(crate) fn give(self, name: OptionName, word: &[u8]) -> Option<Given>
        ensures { result ≡ give name word.now self }
    {
        if self.has(name) {
            return None;
        }
        let value = number_in(word, name.least(), name.most())?;
        Some(self.with_value(name, value))
    }

    /// Whether the option has a value.
    fn has(self, name: OptionName) -> bool
        ensures { result ≡ is_some (value_at name self) }
    {
        match name {
            OptionName::Workers => self.workers.is_some(),
            OptionName::Bases => self.bases.is_some(),
            OptionName::Shards => self.shards.is_some(),
            OptionName::StopAt => self.stop_at.is_some(),
        }
    }

    fn with_value(self, name: OptionName, value: u64) -> Given
        requires { value ≤ most_of name }
        ensures { result ≡ with_value name value self }
    {
        match name {
            OptionName::Workers => Given {
                workers: Some(value as u32),
                ..self
            },
            OptionName::Bases => Given {
                bases: Some(value as u32),
                ..self
            },
            OptionName::Shards => Given {
                shards: Some(value as u32),
                ..self
            },
            OptionName::StopAt => Given {
                stop_at: Some(value),
                ..self
            },
        }
    }

    /// The settings, with the default of each option that has no value.
    pub(crate) fn settings(self) -> Settings
        ensures { result ≡ settings_of self }
    {
        Settings {
            workers: self.workers.unwrap_or(4),
            bases: self.bases.unwrap_or(2),
            shards: self.shards.unwrap_or(4),
            stop_at: self.stop_at,
        }
    }
}
