//! Edits of formats (ANSI X3.9-1978, section 13.5).

/// What a format has for a transfer next. Widths, columns and numbers of columns are counts of characters; places are bytes of the
/// format's text.
#[derive(Clone, Copy, Debug, PartialEq, Eq)]
pub enum Edit {
    /// Iw and Iw.m, which take an item.
    Int {
        width: usize,
        least: Option<usize>,
    },
    /// Lw, which takes an item.
    Logical {
        width: usize,
    },
    /// A and Aw, which take an item.
    Text {
        width: Option<usize>,
    },
    /// A text, from a place up to another; in apostrophes, an inner one of which is doubled, or as nH.
    Literal {
        from: usize,
        to: usize,
        doubled: bool,
    },
    /// Tn.
    Column(usize),
    /// TLn.
    Left(usize),
    /// TRn and nX.
    Right(usize),
    /// A slash, and the end of the format where an item is left.
    NextRecord,
    /// SP, or S and SS.
    ShowPlus(bool),
    /// BZ, or BN.
    ZeroBlanks(bool),
    /// No item is wanted, and the walk stands at an edit that takes one, at a colon or at the end.
    Done,
    /// An item is wanted at the end of the format, and no edit takes one where the format goes on.
    NoDescriptor,
}
