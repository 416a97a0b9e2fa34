//! What a timer hands out as it leaves.

// What is handed out of a timer that carries a T.
pub(crate) trait Handout<T>: Sized {
    ghost use Rattle.std.specs.Prelude.{◌≡◌, ℕ};

    // what is handed out of the timer of an id that carries an item
    ghost handout: { ℕ → T → Self };

    // The handout of a timer.
    fn of(id: u64, item: T) -> Self
        ensures { result ≡ handout id item };
}

// Of any timer: what it carries.
impl<T> Handout<T> for T {
    ghost handout = { λ id item. item };

    fn of(_id: u64, item: T) -> T {
        item
    }
}

// Of a timer that carries nothing: its id.
impl Handout<()> for u64 {
    ghost handout = { λ id item. id };

    fn of(id: u64, _item: ()) -> u64 {
        id
    }
}
