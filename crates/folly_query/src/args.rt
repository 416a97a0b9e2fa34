ghost use Rattle.std.specs.Prelude.{◌≡◌, ◌∷◌, ◌++◌, [], IfNone, IfSome, OnOk, OnErr};
ghost use Rattle.query_words.specs.Grammar.{IsCommand, IsOutside};

use fan_base::Memory;
use query_words::{Command, read_command};
use std::alloc::Global;
use std::marker::Model;

/// The words of a command line, without the program's name.
#[derive(Drop)]
pub struct Args {
    words: Vec<String>,
}

impl Model for Args {
    ghost use Rattle.std.specs.Prelude.{ℕ, List, map, string_bytes};

    ghost Value = { List (List ℕ) };

    ghost view = { λ a. map string_bytes a.words.items };
}

impl Args {
    /// No words.
    pub fn new(alloc: Global) -> Args
        ensures { result ≡ [] }
    {
        Args {
            words: Vec::new(alloc),
        }
    }

    /// Puts a word behind the others. Where there is no memory the words stay as they were.
    pub fn push(&mut self, word: &str) -> Result<(), Memory>
        ensures ok { OnOk result (self.new ≡ self.old ++ word.now ∷ []) }
        ensures err { OnErr result (self.new ≡ self.old) }
    {
        let word = match String::from_str(*self.words.allocator(), word) {
            Ok(word) => word,
            Err(_) => return Err(Memory),
        };
        match self.words.push(word) {
            Ok(()) => Ok(()),
            Err(_) => Err(Memory),
        }
    }

    /// The command that the words are, where they are one.
    pub fn command(&self) -> Option<Command>
        ensures some { IfSome result (λ command. IsCommand self.now command) }
        ensures none { IfNone result (IsOutside self.now) }
    {
        read_command(self.words.as_slice())
    }
}
