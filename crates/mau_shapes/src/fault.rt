//! Why words are no strategy.

/// Why words are the text of no shape.
#[derive(Clone, Copy, Debug, PartialEq, Eq)]
pub enum ShapeFault {
    /// The word at this place is the first with which no strategy goes on, or the last of a text that ends too early.
    Unexpected(usize),
    /// Memory was wanted and not found.
    NoMemory,
}
