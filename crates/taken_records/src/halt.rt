//! Why an input goes no further.

use edit_rules::TakeError;

/// Why an input goes no further.
#[derive(Clone, Copy, Debug, PartialEq, Eq)]
pub enum Halt {
    /// A position past column 1,025: error number 5.
    PastColumns,
    /// A text in the format: error number 10.
    TextInFormat,
    /// A field that has no value of its descriptor: the error's number.
    BadField(TakeError),
    /// A descriptor for another type than the item's.
    OtherType,
}
