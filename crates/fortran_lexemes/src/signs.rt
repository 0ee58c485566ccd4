//! Signs that are no operators. Section 3.1 of the standard, ANSI X3.9-1978.
#![tactic(auto)]

/// A sign that is no operator.
#[derive(Clone, Copy, Debug, PartialEq, Eq)]
pub enum Sign {
    /// `(`
    Open,
    /// `)`
    Close,
    /// `,`
    Comma,
    /// `=`
    Equals,
    /// `:`
    Colon,
    /// `.` that begins no operator and no logical constant
    Point,
}
