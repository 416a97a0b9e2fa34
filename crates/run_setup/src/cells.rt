use core_cells::{CellPass, Cells};
use core_proxy::NoProxy;
use fan_parts::{Part, PartCallback};

/// The cells of the tasks' cores.
pub type TaskCells<'t, N> = Cells<'t, Part<N>, PartCallback<N>, NoProxy>;

/// A pass of them.
pub type TaskCellPass<'t, N> = CellPass<'t, Part<N>, PartCallback<N>, NoProxy>;
