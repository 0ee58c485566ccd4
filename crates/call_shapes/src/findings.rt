//! Calls that disagree with the procedures that they call.

use f_tree::Text;

/// How the shape of a call differs from that of what it calls.
#[derive(Clone, Copy, Debug, PartialEq, Eq)]
pub enum Reason {
    /// CALL of a function.
    AsSubroutine,
    /// A reference to a function where there is a subroutine.
    AsFunction,
    /// A function of another type.
    ResultType,
    /// So many actual arguments for so many dummy arguments.
    Count { actual: usize, dummy: usize },
    /// The first argument that differs, counted from 1.
    Argument(usize),
}

/// A call that disagrees: the number of the file in which it stands, from 0, the number of the initial card of its statement, from 1, the name
/// that it calls, in lower case, and how it differs.
#[derive(Drop)]
pub struct Finding {
    pub file: usize,
    pub card: u32,
    pub name: Text,
    pub reason: Reason,
}
