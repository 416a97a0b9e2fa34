//! What follows from the grammar. These functions do nothing: their clauses are laws.
ghost use Rattle.std.specs.Prelude.{◌≡◌, List, true};
ghost use Rattle.std.specs.List.{list_all};
ghost use Rattle.query_words.specs.declared.command.Command.{Command};
ghost use Rattle.query_words.specs.Grammar.{Bytes, IsCommand};
ghost use Rattle.query_words.specs.Laws.{IsInRange, is_ascii_word};

/// Words are at most one command.
pub fn words_are_at_most_one_command()
    ensures { (words : List Bytes) (a b : Command) → IsCommand words a → IsCommand words b → a ≡ b }
{}

/// The settings and the numbers of a command are within their ranges.
pub fn commands_are_in_range()
    ensures { (words : List Bytes) (read : Command) → IsCommand words read → IsInRange read }
{}

/// Each word of a command is one or more bytes of ASCII: words that are empty or no UTF-8 are in no command.
pub fn words_of_commands_are_ascii()
    ensures { (words : List Bytes) (read : Command) → IsCommand words read → list_all is_ascii_word words ≡ true }
{}
