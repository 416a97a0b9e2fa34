//! A cell of the table.

/// An id and what it leads to.
#[derive(Debug, Drop)]
pub struct Cell<V> {
    pub value: V,
    pub id: u64,
}
