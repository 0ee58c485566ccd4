//! What names stand for (C89, 3.1.2).

use run_bytes::AccessType;

/// What a name stands for.
#[derive(Clone, Copy, Debug, PartialEq, Eq)]
pub enum NamedThing {
    /// A number.
    Constant(i32),
    /// A variable or a parameter, at the start of its object.
    Variable {
        /// The number of the object.
        object: usize,
        /// By what type it is read or stored.
        access: AccessType,
    },
    /// An array, whose value points to its start.
    Array {
        /// The number of the object.
        object: usize,
        /// By what type its elements are read or stored.
        access: AccessType,
    },
    /// A function, by its number.
    Routine(usize),
    /// Nothing.
    Missing,
}
