// A list that only contracts read. Its two calls are proved by hand, since no value is kept at run time.
ghost use Rattle.std.specs.Prelude.{◌≡◌, List, [], ◌∷◌, ◌++◌};
ghost use Rattle.std.specs.Borrow.{ftrue};

use std::marker::{Model, PhantomData};

/// What happened, oldest first. It has no bytes, and contracts see the list. Only its two calls say what stands in it, so a type
/// that keeps one private says by it what was done.
#[derive(Drop)]
pub struct Trail<A> {
    of: PhantomData<A>,
    pub ghost items: { List A },
}

impl<A> Model for Trail<A> {
    ghost also_owns = { λ _. ftrue };
}

unsafe impl<A> Send for Trail<A> {}

impl<A> Trail<A> {
    /// Nothing has happened.
    pub fn new() -> Trail<A>
        ensures { result.items ≡ [] }
    {
        Trail { of: PhantomData }
    }

    /// One thing more has happened.
    pub fn and(&self, last: &A) -> Trail<A>
        ensures { result.items ≡ self.now.items ++ last.now ∷ [] }
    {
        let _ = last;
        Trail { of: PhantomData }
    }
}
