//! What is left of a wheel: its timers one by one, by due tick and order of scheduling, without memory.
ghost use Rattle.std.specs.Prelude.{◌≡◌};
ghost use Rattle.std.specs.List.Sorted.{IsPermutation, IsNonDecreasingBy};
ghost use Rattle.tick_wheel.specs.Kept.{timers_of};
ghost use Rattle.tick_wheel.specs.Resting.{key_of, Fit};
ghost use Rattle.tick_wheel.specs.Table.{AreApart};
ghost use Rattle.tick_wheel.specs.TimerList.{by_due};

use crate::book::Book;
use crate::timed::Timed;
use crate::timer::Timer;
use id_table::{Cell, destroy_cells};
use std::marker::Model;

/// The timers that a wheel held when it ended. Contracts see their list, the first one first.
#[derive(Debug, Drop)]
pub struct TimersRest<T> {
    cells: Vec<Option<Cell<(u64, Timed<T>)>>>,
    left: usize,
}

impl<T> Model for TimersRest<T> {
    ghost use Rattle.std.specs.Prelude.{List};
    ghost use Rattle.tick_wheel.specs.declared.timer.Timer.{Timer};

    ghost Value = { List (Timer T) };

    ghost use Rattle.tick_wheel.specs.Resting.{IsResting, rest_seen};

    ghost view = { λ rest. rest_seen rest.cells.items };

    ghost invariant = { λ rest. IsResting rest.left rest.cells.items };
}

// A number that orders cells: empty ones come first, then what is due last.
fn key<T>(cell: &Option<Cell<(u64, Timed<T>)>>) -> u128
    ensures { result ≡ key_of cell.now }
{
    match cell {
        Some(entry) => {
            let (_, timed) = &entry.value;
            u128::MAX - (timed.due as u128 * 18446744073709551616 + timed.order as u128)
        }
        None => 0,
    }
}

// Brings the cells into order, in place.
fn order<T>(cells: &mut [Option<Cell<(u64, Timed<T>)>>])
    ensures same { IsPermutation cells.old cells.new }
    ensures rises { IsNonDecreasingBy key_of cells.new }
{
    cells.sort_unstable_by_key(|cell| key(cell));
}

// The rest of a wheel with these entries.
pub(crate) fn rest_of<T>(book: Book<T>) -> TimersRest<T>
    requires apart { AreApart book }
    requires fits { Fit book }
    ensures { result ≡ by_due (timers_of book) }
{
    let left = book.len();
    let mut cells = book.into_cells();
    order(&mut cells);
    TimersRest { cells, left }
}

impl<T> TimersRest<T> {
    ghost use Rattle.std.specs.Prelude.{◌≡◌, [], ◌∷◌, length, MatchOption};

    /// How many timers are left.
    pub fn len(&self) -> usize
        ensures { result ≡ length self.now }
    {
        self.left
    }

    /// The timer that is due next, and was scheduled first among those: None comes exactly where none is left. It takes no
    /// memory.
    pub fn pop(&mut self) -> Option<Timer<T>>
        ensures first { MatchOption result ((self.old ≡ []) × (self.new ≡ [])) (λ timer. self.old ≡ timer ∷ self.new) }
    {
        let cell = self.cells.pop()?;
        let Cell { id, value } = cell?;
        let (_, timed) = value;
        let Timed { due, item, .. } = timed;
        self.left -= 1;
        Some(Timer { due, id, item })
    }

    /// Lets the rest go where nothing is left, also where its items may not be dropped.
    pub fn destroy_empty(self)
        requires { self ≡ [] }
    {
        let TimersRest { cells, .. } = self;
        destroy_cells(cells);
    }
}
