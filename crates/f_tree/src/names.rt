//! What a name of a program unit is, and the options of a translation.
#![tactic(auto)]

/// The type of a name or of an expression. Section 4.1 of the standard, ANSI X3.9-1978.
#[derive(Clone, Copy, Debug, PartialEq, Eq)]
pub enum Basic {
    /// INTEGER
    Integer,
    /// LOGICAL
    Logical,
    /// CHARACTER
    Character,
    /// No type: a subroutine, a block or a label.
    Untyped,
}

/// The length of a name, in characters. Section 8.4.2.
#[derive(Clone, Copy, Debug, PartialEq, Eq)]
pub enum Length {
    /// A constant.
    Fixed(u32),
    /// `*(*)`
    Star,
    /// The name is not of type CHARACTER.
    NotText,
}

/// What a name stands for. Section 18.
#[derive(Clone, Copy, Debug, PartialEq, Eq)]
pub enum Class {
    /// A name of a PARAMETER statement.
    Constant,
    /// A variable or an array with storage of its own, in common or not.
    Stored,
    /// A dummy variable or array.
    Dummy,
    /// The result of the function.
    Result,
    /// An external procedure.
    Procedure,
    /// A dummy procedure.
    DummyProcedure,
    /// A statement function.
    StatementFunction,
    /// An intrinsic function.
    Intrinsic,
    /// The program unit itself.
    Unit,
}

/// The options of a translation.
#[derive(Clone, Copy, Debug, PartialEq, Eq)]
pub struct Options {
    /// `-u`: no name has a type by its first letter.
    pub undeclared: bool,
    /// `-onetrip`: the range of a DO statement is run at least once.
    pub onetrip: bool,
    /// `-72`: text past column 72 is refused.
    pub long_cards: bool,
    /// `-C`: subscripts and substrings are checked in a run.
    pub checks: bool,
}
