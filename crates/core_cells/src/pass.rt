//! What a thread needs to take free cells and to give cells back.
use crate::rule::FreePass;
use std::marker::Model;

/// A pass of cells. It knows which keys it took out of their free queue and which it put into it. One that is dropped
/// leaves its cells without a `close`.
pub struct CellPass<'h, T, C, P> {
    pub(crate) pass: FreePass<'h, T, C, P>,
}

impl<'h, T, C, P> Model for CellPass<'h, T, C, P> {
    ghost use Rattle.std.specs.Prelude.{◌≡◌, length};
    ghost use Rattle.core_cells.specs.Seen.{SeenPass, IsIdlePass, known};

    ghost Value = { SeenPass };

    ghost view = { λ p. record { cells = record { id = p.pass.table_id; size = length (known p.pass).homes }; homes = (known p.pass).homes; passes = (known p.pass).passes; took = (known p.pass).took; put = (known p.pass).put } };

    ghost invariant = { λ p. IsIdlePass p.pass × ((known p.pass).made ≡ 0) × ((known p.pass).held ≡ 1) };
}

impl<'h, T, C, P> CellPass<'h, T, C, P> {
    ghost use Rattle.std.specs.Prelude.{◌≡◌, []};
    ghost use Rattle.crossbeam_queue.specs.Passes.{view};

    // The pass of the free queue.
    pub(crate) fn into_pass(self) -> FreePass<'h, T, C, P>
        ensures idle { (result.me.1 ≡ []) × (result.table_id ≡ self.entry.cells.id) }
        ensures view { view result ≡ record { made = 0; held = 1; passes = self.entry.passes; homes = self.entry.homes; took = self.entry.took; put = self.entry.put } }
    {
        let Self { pass } = self;
        pass
    }
}

impl<'h, T, C, P> Drop for CellPass<'h, T, C, P> {
    fn drop(self) {
        let Self { pass: _ } = self;
    }
}
