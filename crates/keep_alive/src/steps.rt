// How a view is cut in two, and what each kind of step tells. No value of these types is made.
use crate::view::View;
use atomic_table::{Join, Play, Split};

/// The first view is cut into the owner's and the first token's, and a token being copied into itself and its copy.
pub struct Parts;

impl Split<View> for Parts {
    ghost use Rattle.keep_alive.specs.Steps.{kept_part, given_part};

    ghost left = { kept_part };

    ghost right = { given_part };
}

/// A look that sets aside the room of a copy.
pub struct Offers;

impl Play<u32, View> for Offers {
    ghost use Rattle.keep_alive.specs.Steps.{offers};

    ghost then = { offers };
}

/// The add of a copy.
pub struct Copies;

impl Play<u32, View> for Copies {
    ghost use Rattle.keep_alive.specs.Steps.{copies};

    ghost then = { copies };
}

/// The subtract of a release.
pub struct Releases;

impl Play<u32, View> for Releases {
    ghost use Rattle.keep_alive.specs.Steps.{releases};

    ghost then = { releases };
}

/// The subtract of the owner.
pub struct Leaves;

impl Play<u32, View> for Leaves {
    ghost use Rattle.keep_alive.specs.Steps.{leaves};

    ghost then = { leaves };
}

/// The owner's read.
pub struct Watches;

impl Play<u32, View> for Watches {
    ghost use Rattle.keep_alive.specs.Steps.{watches};

    ghost then = { watches };
}

/// Two seats that exclude each other are put together. It never comes to that.
pub struct Meets;

impl Join<View> for Meets {
    ghost use Rattle.keep_alive.specs.declared.view.View.TheVariants.{Clash, Spent};

    ghost both = { λ _ _. Clash };

    ghost spent = { Spent };
}

/// A look that can't be.
pub struct Never;

impl Play<u32, View> for Never {
    ghost then = { λ _ _ _ _. ⊥ };
}
