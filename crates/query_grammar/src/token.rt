use fan_base::Word;

/// One token of an expression's text.
#[derive(Clone, Copy, Debug, PartialEq, Eq)]
pub enum Token {
    Word(Word),
    /// `|`, which parts what `Either` joins.
    Bar,
    /// `!`, which stands before the fact that it negates.
    Bang,
    /// `(`
    Left,
    /// `)`
    Right,
}
