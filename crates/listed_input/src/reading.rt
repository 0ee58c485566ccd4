//! The record that is being read (ANSI X3.9-1978, 13.6.1).

ghost use Rattle.std.specs.Prelude.{◌≤◌, length};
ghost use Rattle.listed_input.specs.Fetching.{constant_of};

use edit_rules::ListReader;

/// The bytes that a record may have.
pub const LONGEST: usize = 1024;

/// The record that is being read, which is the front of a line, and the place in it.
#[derive(Clone, Copy)]
pub struct RecordInReading {
    /// The place in it.
    pub reader: ListReader,
    /// The line whose front it is.
    pub line: [u8; LONGEST],
    /// How many bytes it has.
    pub used: usize,
    ghost within: { used ≤ length line },
    ghost short: { used ≤ 1024 },
    ghost placed: { reader.place ≤ used },
    ghost begun: { constant_of reader.doing ≤ used },
}
