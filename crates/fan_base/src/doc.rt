use crate::list::Words;

/// A document: its number, and its words in the order of the text, repeats kept.
#[derive(Debug, Drop)]
pub struct Doc {
    pub id: u32,
    pub words: Words,
}
