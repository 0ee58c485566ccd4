//! Why an output goes no further.

/// Why an output goes no further.
#[derive(Clone, Copy, Debug, PartialEq, Eq)]
pub enum Halt {
    /// A position or a text past the last column of the record: error number 5.
    PastColumns,
    /// The internal file has no further record: number -1.
    EndOfRecords,
    /// A descriptor for another type than the value's.
    OtherType,
}
