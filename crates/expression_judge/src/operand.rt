//! What an expression is judged to be.

use f_tree::{Basic, Kind};

/// What an expression is, whatever its operands are.
#[derive(Clone, Copy, Debug, PartialEq, Eq)]
pub enum Operand {
    /// A value.
    Value,
    /// A variable, an element or a substring.
    Place,
    /// A whole array, and whether its size is known. Section 5.1.2.
    Array(bool),
    /// An external procedure or a dummy procedure by its name alone.
    ProcedureName,
    /// A statement function or an intrinsic function by its name alone.
    FunctionName,
    /// Where an alternate return goes. Section 15.9.3.5.
    Exit(u32),
    /// No operand at all: the row that it breaks says why.
    Nothing,
}

/// An expression by what it is, with its type and with the least of the rows that it and its parts break.
#[derive(Clone, Copy, Debug, PartialEq, Eq)]
pub struct Found {
    pub what: Operand,
    pub basic: Basic,
    pub fault: Option<Kind>,
}
