//! Where a cut of a text into pieces has come to. Keywords are not reserved, so a place says which words may stand there. Sections 2.2 and
//! 3 of the standard, ANSI X3.9-1978.
#![tactic(auto)]

use crate::kinds::StmtKind;

/// A word that may stand at a place inside a statement.
#[derive(Clone, Copy, Debug, PartialEq, Eq)]
pub enum Expected {
    /// THEN alone, behind the condition of ELSE IF. Section 11.7.
    Then,
    /// THEN alone, or the word of a statement, behind the condition of IF. Sections 11.5 and 11.6.
    ThenOrStatement,
    /// The word of a type, in IMPLICIT. Section 8.5.
    Type,
    /// FUNCTION, behind a type. Section 15.5.1.
    Function,
}

/// Which words may stand at a place.
#[derive(Clone, Copy, Debug, PartialEq, Eq)]
pub enum Mode {
    /// The word of a statement of this kind.
    Begins(StmtKind),
    /// None.
    Plain,
    /// A label, and TO behind it. Section 10.3.
    Label,
    /// TO.
    To,
    /// WHILE, behind DO and a label that may be left out. MIL-STD-1753.
    While,
    /// A condition in parentheses, and behind it this word.
    Condition(Expected),
    /// This word, outside parentheses.
    Awaits(Expected),
    /// This word, where so many characters are left: behind the parentheses in which the place stands.
    Within(Expected, usize),
    /// The text of a FORMAT statement. Section 13.
    Format,
    /// What stands in a FORMAT statement whose text is no format.
    FormatParts,
}
