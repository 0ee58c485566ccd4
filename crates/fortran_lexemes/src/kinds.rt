//! The kinds of statements. Sections 7 to 16 of the standard, ANSI X3.9-1978.
#![tactic(auto)]

/// Which statement a text is: one variant for each keyword that begins a statement, and the statements that begin with none.
#[derive(Clone, Copy, Debug, PartialEq, Eq)]
pub enum StmtKind {
    /// An assignment or the definition of a statement function. Sections 10.1 to 10.4 and 15.4.
    Assignment,
    /// DO. Section 11.10.
    Do,
    /// DO WHILE. MIL-STD-1753.
    DoWhile,
    /// ASSIGN. Section 10.3.
    Assign,
    /// BACKSPACE. Section 12.10.4.
    Backspace,
    /// BLOCK DATA. Section 16.
    BlockData,
    /// CALL. Section 15.6.
    Call,
    /// CHARACTER. Section 8.4.2.
    Character,
    /// CLOSE. Section 12.10.2.
    Close,
    /// COMMON. Section 8.3.
    Common,
    /// COMPLEX. Section 8.4.1.
    Complex,
    /// CONTINUE. Section 11.11.
    Continue,
    /// DATA. Section 9.
    Init,
    /// DIMENSION. Section 8.1.
    Dimension,
    /// DOUBLE PRECISION. Section 8.4.1.
    DoublePrecision,
    /// ELSE. Section 11.8.
    Else,
    /// ELSE IF. Section 11.7.
    ElseIf,
    /// END. Section 11.14.
    End,
    /// END DO. MIL-STD-1753.
    EndDo,
    /// ENDFILE. Section 12.10.4.
    EndFile,
    /// END IF. Section 11.9.
    EndIf,
    /// ENTRY. Section 15.7.
    Entry,
    /// EQUIVALENCE. Section 8.2.
    Equivalence,
    /// EXTERNAL. Section 8.7.
    External,
    /// FORMAT. Section 13.
    Format,
    /// FUNCTION, with or without a type before it. Section 15.5.1.
    Function,
    /// GO TO in its three forms. Sections 11.1 to 11.3.
    Goto,
    /// IF in its three forms. Sections 11.4 to 11.6.
    If,
    /// IMPLICIT. Section 8.5.
    Implicit,
    /// INCLUDE. MIL-STD-1753.
    Include,
    /// INQUIRE. Section 12.10.3.
    Inquire,
    /// INTEGER. Section 8.4.1.
    Integer,
    /// INTRINSIC. Section 8.8.
    Intrinsic,
    /// LOGICAL. Section 8.4.1.
    Logical,
    /// NAMELIST, which is no statement of the standard.
    Namelist,
    /// OPEN. Section 12.10.1.
    OpenUnit,
    /// PARAMETER. Section 8.6.
    Parameter,
    /// PAUSE. Section 11.13.
    Pause,
    /// PRINT. Section 12.8.
    Print,
    /// PROGRAM. Section 14.1.
    Program,
    /// READ. Section 12.8.
    Read,
    /// REAL. Section 8.4.1.
    Real,
    /// RETURN. Section 15.8.
    Return,
    /// REWIND. Section 12.10.4.
    Rewind,
    /// SAVE. Section 8.9.
    Save,
    /// STOP. Section 11.12.
    Stop,
    /// SUBROUTINE. Section 15.6.1.
    Subroutine,
    /// WRITE. Section 12.8.
    Write,
}
