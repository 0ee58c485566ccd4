//! Which items are written.

/// The items that are written, or those behind the one that is.
#[derive(Clone, Copy)]
pub(crate) struct Span {
    /// The position of the first, or of the one before them.
    pub position: usize,
    /// How many there are.
    pub count: usize,
    /// How many turns there are for them: as many as there are items at least.
    pub turns: usize,
}
