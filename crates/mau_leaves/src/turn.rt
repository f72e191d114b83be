//! What one turn of a search does.

/// What comes of a turn.
#[derive(Drop)]
pub enum Turn {
    /// One more was found.
    Found,
    /// Something that gives nothing was passed over.
    Passed,
    /// There are no more.
    Over,
}
