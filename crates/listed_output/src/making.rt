//! The record in the making (ANSI X3.9-1978, 13.6.2).

ghost use Rattle.std.specs.Prelude.{◌≡◌, [], ◌∷◌, take};
ghost use Rattle.edit_rules.specs.Writer.{done_by};

use edit_rules::ListWriter;

/// The columns of a record.
pub const COLUMNS: usize = 80;

/// The record in the making of an output, which is the front of a line. It holds all of the last value that was put.
#[derive(Clone, Copy)]
pub struct RecordInMaking {
    /// Where the record in the making ends.
    pub writer: ListWriter,
    /// The line whose front it is.
    pub line: [u8; COLUMNS],
    ghost whole: { done_by writer ≡ 0 },
    ghost blank: { take 1 line ≡ 32 ∷ [] },
}
