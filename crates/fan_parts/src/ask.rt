ghost use Rattle.std.specs.Prelude.{◌≡◌};
ghost use Rattle.fan_parts.specs.Facts.{IsAskOf};

use crate::run_name::RunName;
use query_model::Ask;
use std::marker::{Model, PhantomData};

/// A query of the run's input: its number, what it asks, and how many documents stand before its line.
#[derive(Drop)]
pub struct NumberedAsk<'i, N: RunName> {
    number: u32,
    ask: &'i Ask,
    before: u32,
    of: PhantomData<N>,
}

impl<'i, N: RunName> Model for NumberedAsk<'i, N> {
    ghost use Rattle.fan_parts.specs.Facts.{IsAskOf};
    ghost use Rattle.fan_parts.specs.Seen.{AskSeen};

    ghost Value = { AskSeen };

    ghost view = { λ q. record { number = q.number; asks = q.ask.now; before = q.before } };

    ghost invariant = { λ q. IsAskOf N.asked q.number q.ask.now q.before };

    ghost use Rattle.query_grammar.specs.contracts.expr.Expr as expr;
    ghost use Rattle.std.specs.Coded.{codes};

    ghost coded = { Prim.hlevel (codes, expr.the_row.coded) };
}

impl<'i, N: RunName> NumberedAsk<'i, N> {
    /// The query with this number.
    pub fn new(number: u32, ask: &'i Ask, before: u32) -> NumberedAsk<'i, N>
        requires { IsAskOf N.asked number ask.now before }
        ensures { result ≡ record { number = number; asks = ask.now; before = before } }
    {
        NumberedAsk {
            number,
            ask,
            before,
            of: PhantomData,
        }
    }

    /// The same once more.
    pub fn again(&self) -> NumberedAsk<'i, N>
        ensures { result ≡ self.now }
    {
        NumberedAsk {
            number: self.number,
            ask: self.ask,
            before: self.before,
            of: PhantomData,
        }
    }

    /// Its number, 1 to 50,000.
    pub fn number(&self) -> u32
        ensures number { result ≡ self.now.number }
        ensures is_ask { IsAskOf N.asked self.now.number self.now.asks self.now.before }
    {
        self.number
    }

    /// What it asks.
    pub fn ask(&self) -> &'i Ask
        ensures { result.now ≡ self.now.asks }
    {
        self.ask
    }

    /// How many documents stand before its line.
    pub fn before(&self) -> u32
        ensures { result ≡ self.now.before }
    {
        self.before
    }
}
