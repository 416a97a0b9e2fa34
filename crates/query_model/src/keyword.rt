/// The fields that a line of the input begins with, or that stand before what a query asks.
#[derive(Clone, Copy, Debug, PartialEq, Eq)]
pub enum Keyword {
    /// `doc`
    Doc,
    /// `tick`
    Tick,
    /// `cancel`
    Cancel,
    /// `after`
    After,
    /// `lo`
    Lo,
    /// `mid`
    Mid,
    /// `hi`
    Hi,
    /// `find`
    Find,
    /// `count`
    Count,
    /// `exists`
    Exists,
    /// `top`
    Top,
}

/// What is asked of an expression.
#[derive(Clone, Copy, Debug, PartialEq, Eq)]
pub enum ExprAsk {
    /// Which documents hold.
    Find,
    /// How many do.
    Count,
    /// Whether one does.
    Present,
}
