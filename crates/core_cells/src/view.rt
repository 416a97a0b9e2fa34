//! What a pass of the free queue knows. No value of these types is made.
use atomic_table::Seat;
use std::collections::LinkedList;
use std::marker::Model;

/// A key, as a pass lists it: of which home, and for which use.
pub struct ListedKey {
    home: Seat<(), ()>,
    use_number: u64,
}

impl Model for ListedKey {
    ghost use Rattle.core_word.specs.Seen.{SeenKey};

    ghost Value = { SeenKey };

    ghost view = { λ k. record { home = k.home.table_id; use_number = k.use_number } };
}

/// What a pass of the free queue knows.
pub struct View {
    /// How many passes it has made, itself among them. Only the opening pass makes any.
    pub made: u64,
    /// For how many passes it stands: 1, and more once it has taken others in. One that was taken in stands for none.
    pub held: u64,
    /// How many passes there are to be, beside the opening one.
    pub passes: u64,
    /// The first keys of all homes.
    pub homes: LinkedList<ListedKey>,
    /// The keys that it took out of the free queue, oldest first.
    pub took: LinkedList<ListedKey>,
    /// The keys that it put into it, oldest first.
    pub put: LinkedList<ListedKey>,
}
