//! The tree of a statement. Sections 3.3 and 7 to 16 of the standard, ANSI X3.9-1978.

ghost use Rattle.std.specs.Prelude.{◌≡◌, Some, true, is_some};
ghost use Rattle.fortran_text.specs.CharactersOfText.{characters};
ghost use Rattle.fortran_lexemes.specs.KindsOfStatements.{kind_of_statement};
ghost use Rattle.fortran_grammar.specs.UnitsOfFile.{may_stand};
ghost use Rattle.stmt_lex.specs.TokensOfTexts.{IsTokenList};
ghost use Rattle.statement_reader.specs.ReadStatements.{IsBody, IsTree, refused_at};

use f_tree::{Body, Fail, Kind, Refusal, Stmt};
use fortran_lexemes::StmtKind;
use fortran_text::Statement;
use std::alloc::Global;
use stmt_lex::{LexFail, TokenList, classify, tokens};
use stmt_parse::{Failure, parse_statement};

/// The length of the text of one card, in columns.
const ONE_CARD: usize = 66;

/// The tree of a statement. `first` says that it begins a unit in a file that is not included.
///
/// # Errors
///
/// The first of the rows F10 to F17 that the statement breaks, at its file and card, or want of memory.
pub fn read_statement(alloc: Global, first: bool, source: &Statement) -> Result<Stmt, Fail>
    ensures { IsTree first source.now result }
{
    match classify(first, source.label.is_some(), source.text.as_slice()) {
        Some(kind) => tree_of_kind(alloc, first, kind, source),
        None => Err(refused(source, Kind::UnknownStatement)),
    }
}

/// A row of a statement, where it stands.
fn refused(source: &Statement, kind: Kind) -> Fail
    ensures { result ≡ refused_at source.now kind }
{
    Fail::Refused(Refusal {
        file: source.file,
        card: source.card,
        kind,
    })
}

/// The tree of a statement of a kind.
fn tree_of_kind(
    alloc: Global,
    first: bool,
    kind: StmtKind,
    source: &Statement,
) -> Result<Stmt, Fail>
    requires { kind_of_statement first (is_some source.now.label) source.now.text ≡ Some kind }
    ensures { IsTree first source.now result }
{
    match body_of_kind(alloc, kind, source) {
        Ok(body) => Ok(Stmt {
            label: source.label,
            file: source.file,
            card: source.card,
            body,
        }),
        Err(LexFail::Refused(row)) => Err(refused(source, row)),
        Err(LexFail::NoMemory) => Err(Fail::NoMemory),
    }
}

/// What a statement of a kind says, or its row.
fn body_of_kind(alloc: Global, kind: StmtKind, source: &Statement) -> Result<Body, LexFail>
    ensures { IsBody kind source.now result }
{
    match tokens(alloc, kind, source.label.is_some(), source.text.as_slice()) {
        Ok(list) => body_of_tokens(alloc, kind, source, &list),
        Err(fail) => Err(fail),
    }
}

/// What the tokens of a statement say, where the statement may stand there.
fn body_of_tokens(
    alloc: Global,
    kind: StmtKind,
    source: &Statement,
    list: &TokenList,
) -> Result<Body, LexFail>
    requires { IsTokenList kind (characters (is_some source.now.label) source.now.text) list.now }
    ensures { IsBody kind source.now result }
{
    if may_stand(kind, source) {
        body_that_stands(alloc, kind, source, list)
    } else {
        Err(LexFail::Refused(Kind::SyntaxError))
    }
}

/// What the tokens of a statement say, which may stand there.
fn body_that_stands(
    alloc: Global,
    kind: StmtKind,
    source: &Statement,
    list: &TokenList,
) -> Result<Body, LexFail>
    requires tokens { IsTokenList kind (characters (is_some source.now.label) source.now.text) list.now }
    requires stands { may_stand kind source.now ≡ true }
    ensures { IsBody kind source.now result }
{
    match parse_statement(alloc, list.text(), list.tokens()) {
        Ok(body) => Ok(body),
        Err(Failure::Syntax) => Err(LexFail::Refused(Kind::SyntaxError)),
        Err(Failure::NoMemory) => Err(LexFail::NoMemory),
    }
}

/// Whether a statement of a kind may stand so: INCLUDE has no label and stands on one card.
#[tactic(auto, unfolding(fortran_grammar::specs::UnitsOfFile::may_stand))]
fn may_stand(kind: StmtKind, source: &Statement) -> bool
    ensures { result ≡ may_stand kind source.now }
{
    match kind {
        StmtKind::Include => source.label.is_none() && source.text.len() == ONE_CARD,
        _ => true,
    }
}
