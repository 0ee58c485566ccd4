//! The words of statements. Section 3.3.

ghost use Rattle.std.specs.Prelude.{◌≡◌, length};
ghost use Rattle.fortran_lexemes.specs.KindsOfStatements.{word_of};

use fortran_lexemes::StmtKind;

/// The word of a statement; an assignment has none.
#[tactic(auto, unfolding(fortran_lexemes::specs::KindsOfStatements::word_of))]
pub(crate) fn word_of(kind: StmtKind) -> &'static [u8]
    ensures { result.now ≡ word_of kind }
{
    match kind {
        StmtKind::Assignment => b"",
        StmtKind::Do => b"do",
        StmtKind::DoWhile => b"do",
        StmtKind::Assign => b"assign",
        StmtKind::Backspace => b"backspace",
        StmtKind::BlockData => b"blockdata",
        StmtKind::Call => b"call",
        StmtKind::Character => b"character",
        StmtKind::Close => b"close",
        StmtKind::Common => b"common",
        StmtKind::Complex => b"complex",
        StmtKind::Continue => b"continue",
        StmtKind::Init => b"data",
        StmtKind::Dimension => b"dimension",
        StmtKind::DoublePrecision => b"doubleprecision",
        StmtKind::Else => b"else",
        StmtKind::ElseIf => b"elseif",
        StmtKind::End => b"end",
        StmtKind::EndDo => b"enddo",
        StmtKind::EndFile => b"endfile",
        StmtKind::EndIf => b"endif",
        StmtKind::Entry => b"entry",
        StmtKind::Equivalence => b"equivalence",
        StmtKind::External => b"external",
        StmtKind::Format => b"format",
        StmtKind::Function => b"function",
        StmtKind::Goto => b"goto",
        StmtKind::If => b"if",
        StmtKind::Implicit => b"implicit",
        StmtKind::Include => b"include",
        StmtKind::Inquire => b"inquire",
        StmtKind::Integer => b"integer",
        StmtKind::Intrinsic => b"intrinsic",
        StmtKind::Logical => b"logical",
        StmtKind::Namelist => b"namelist",
        StmtKind::OpenUnit => b"open",
        StmtKind::Parameter => b"parameter",
        StmtKind::Pause => b"pause",
        StmtKind::Print => b"print",
        StmtKind::Program => b"program",
        StmtKind::Read => b"read",
        StmtKind::Real => b"real",
        StmtKind::Return => b"return",
        StmtKind::Rewind => b"rewind",
        StmtKind::Save => b"save",
        StmtKind::Stop => b"stop",
        StmtKind::Subroutine => b"subroutine",
        StmtKind::Write => b"write",
    }
}
