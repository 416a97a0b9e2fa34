//! A list of outcomes by index.
ghost use Rattle.std.specs.Prelude.{◌≡◌, ◌++◌, ◌↔◌, [], length, reverse, option_to_list, IsNone};

use std::marker::Model;

/// Outcomes by index. Contracts see it as the list of those that weren't taken yet, the lowest index first.
#[derive(Drop)]
pub struct Listed<X> {
    // the highest index first
    outcomes: Vec<X>,
}

impl<X> Model for Listed<X> {
    ghost use Rattle.std.specs.Prelude.{List, reverse};

    ghost Value = { List X };

    ghost view = { λ l. reverse l.outcomes.items };
}

impl<X> Listed<X> {
    pub(crate) fn of_reversed(outcomes: Vec<X>) -> Listed<X>
        ensures { result ≡ reverse outcomes.items }
    {
        Listed { outcomes }
    }

    /// How many outcomes it has.
    pub fn len(&self) -> usize
        ensures { result ≡ length self.now }
    {
        self.outcomes.len()
    }

    /// Takes out the outcome of the lowest index. None exactly where nothing is left.
    pub fn pop(&mut self) -> Option<X>
        ensures rest { self.old ≡ option_to_list result ++ self.new }
        ensures none { IsNone result ↔ (self.old ≡ []) }
    {
        self.outcomes.pop()
    }

    /// Lets an empty list go, also where its outcomes must be spent.
    pub fn end(self)
        requires { self ≡ [] }
    {
        let Listed { outcomes } = self;
        outcomes.destroy_empty();
    }
}
