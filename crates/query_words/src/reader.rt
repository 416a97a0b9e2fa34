ghost use Rattle.std.specs.Prelude.{◌≡◌, ◌<◌, IfSome, IfNone, length, position, map, string_bytes};
ghost use Rattle.query_words.specs.Grammar.{IsCommand, IsOutside};
ghost use Rattle.query_words.specs.Steps.{command_at_end, command_from, command_of, count_on, is_equals, reader_of, started, step, with_item, with_number, with_option, with_plain};

use crate::command::{Command, Generation};
use crate::given::Given;
use crate::name::OptionName;
use crate::number::number_in;

/// What the next word is.
#[derive(Clone, Copy, Debug, PartialEq, Eq)]
enum Place {
    /// It begins an option, or it is a number or `--`.
    Between,
    /// It is the value of this option.
    Before(OptionName),
    /// It stands behind `--`, so it is a number.
    Behind,
}

/// Which command it is, and the numbers that it has so far.
#[derive(Clone, Copy, Debug, PartialEq, Eq)]
enum Progress {
    /// `run`, which has no numbers.
    Run,
    /// `gen` without a number yet.
    Generate,
    Seed(u64),
    Docs(u64, u32),
    Queries(Generation),
}

/// What the words so far say.
#[derive(Clone, Copy, Debug, PartialEq, Eq)]
struct Reader {
    place: Place,
    given: Given,
    progress: Progress,
}

/// The command that these words are, which stand behind the program's name.
pub fn read_command(words: &[String]) -> Option<Command>
    ensures some { IfSome result (λ command. IsCommand (map string_bytes words.now) command) }
    ensures none { IfNone result (IsOutside (map string_bytes words.now)) }
{
    command_of(words)
}

fn command_of(words: &[String]) -> Option<Command>
    ensures { result ≡ command_of (map string_bytes words.now) }
{
    match words {
        [first, rest @ ..] => {
            let progress = started(first.as_bytes())?;
            command_from(Reader::new(progress), rest)
        }
        _ => None,
    }
}

/// Which command begins with this word.
fn started(first: &[u8]) -> Option<Progress>
    ensures { result ≡ started first.now }
{
    if first == b"run".as_slice() {
        Some(Progress::Run)
    } else if first == b"gen".as_slice() {
        Some(Progress::Generate)
    } else {
        None
    }
}

/// The place of the first `=`.
fn equals_in(word: &[u8]) -> Option<usize>
    ensures first { result ≡ position is_equals word.now }
    ensures within { IfSome result (λ end. end < length word.now) }
{
    word.iter().position(|b| *b == b'=')
}

fn command_from(start: Reader, words: &[String]) -> Option<Command>
    ensures { result ≡ command_from start (map string_bytes words.now) }
{
    let mut reader = start;
    for word in words {
        reader = reader.step(word.as_bytes())?;
    }
    reader.command()
}

impl Reader {
    fn new(progress: Progress) -> Reader
        ensures { result ≡ reader_of progress }
    {
        Reader {
            place: Place::Between,
            given: Given::nothing(),
            progress,
        }
    }

    /// With one more word; None where it can't stand there.
    fn step(self, word: &[u8]) -> Option<Reader>
        ensures { result ≡ step self word.now }
    {
        match self.place {
            Place::Between => self.with_item(word),
            Place::Before(name) => self.with_option(name, word),
            Place::Behind => self.with_number(word),
        }
    }

    /// The word between two items: `--`, the name of an option, a name with its value, or a number.
    fn with_item(self, word: &[u8]) -> Option<Reader>
        ensures { result ≡ with_item word.now self }
    {
        if word == b"--".as_slice() {
            return Some(Reader {
                place: Place::Behind,
                ..self
            });
        }
        match OptionName::from_text(word) {
            Some(name) => Some(Reader {
                place: Place::Before(name),
                ..self
            }),
            None => self.with_plain(word),
        }
    }

    /// A name with its value, or a number.
    fn with_plain(self, word: &[u8]) -> Option<Reader>
        ensures { result ≡ with_plain word.now self }
    {
        match equals_in(word) {
            Some(end) => {
                let name = OptionName::from_text(&word[..end])?;
                self.with_option(name, &word[end + 1..])
            }
            None => self.with_number(word),
        }
    }

    fn with_option(self, name: OptionName, word: &[u8]) -> Option<Reader>
        ensures { result ≡ with_option (Some name) word.now self }
    {
        let given = self.given.give(name, word)?;
        Some(Reader {
            place: Place::Between,
            given,
            ..self
        })
    }

    fn with_number(self, word: &[u8]) -> Option<Reader>
        ensures { result ≡ with_number word.now self }
    {
        let progress = self.progress.count_on(word)?;
        Some(Reader { progress, ..self })
    }

    /// The command, where no further words come.
    fn command(self) -> Option<Command>
        ensures { result ≡ command_at_end self }
    {
        let settings = self.given.settings();
        match (self.place, self.progress) {
            (Place::Before(_), _) => None,
            (_, Progress::Run) => Some(Command::Run(settings)),
            (_, Progress::Queries(generation)) => Some(Command::Generate(generation, settings)),
            _ => None,
        }
    }
}

impl Progress {
    /// With one more number; None where the command has all of its numbers, or the word is none in the range.
    fn count_on(self, word: &[u8]) -> Option<Progress>
        ensures { result ≡ count_on self word.now }
    {
        match self {
            Progress::Run | Progress::Queries(_) => None,
            Progress::Generate => Some(Progress::Seed(number_in(word, 0, u64::MAX)?)),
            Progress::Seed(seed) => Some(Progress::Docs(seed, number_in(word, 0, 20_000)? as u32)),
            Progress::Docs(seed, docs) => Some(Progress::Queries(Generation {
                seed,
                docs,
                queries: number_in(word, 0, 4_096)? as u32,
            })),
        }
    }
}
