//! The name that a piece asks for, by its first statement. Sections 14 to 16.

ghost use Rattle.std.specs.Prelude.{◌≡◌, [], ◌∷◌, ◌++◌, codes, None, IfOk};
ghost use Rattle.fortran_text.specs.FirstFault.{too_long};
ghost use Rattle.split_pieces.specs.WantedNames.{nameless, by_run, by_block_run, by_kind, wanted_by, wanted_of};

use crate::texts::{behind, behind_function, is_name, marks_of, run_of};
use cards::read_unjudged;
use f_tree::Fail;
use fortran_lexemes::StmtKind;
use fortran_text::Statement;
use plain_data::Items;
use split_pieces::{Wanted, WantedName};
use std::alloc::{AllocError, Global};
use stmt_lex::classify;

/// What a piece asks for that has no name of its own.
fn nameless(alloc: Global, wanted: Wanted) -> WantedName
    ensures { result ≡ nameless wanted }
{
    WantedName {
        wanted,
        name: Items::new(alloc),
    }
}

/// The name of the file of a unit with a name.
fn file_name(alloc: Global, run: &[u8]) -> Result<Items<u8>, AllocError>
    ensures { IfOk result (λ name. name ≡ run.now ++ codes ".f") }
{
    let mut name = Items::from_slice(alloc, run)?;
    name.push(b'.')?;
    name.push(b'f')?;
    Ok(name)
}

/// What a piece asks for whose unit has the name that a run should be.
#[tactic(auto, unfolding(split_pieces::specs::WantedNames::by_run))]
fn by_run(alloc: Global, run: &[u8]) -> Result<WantedName, AllocError>
    ensures { IfOk result (λ found. found ≡ by_run run.now) }
{
    if !is_name(run) {
        return Ok(nameless(alloc, Wanted::Unknown));
    }
    Ok(WantedName {
        wanted: Wanted::Named,
        name: file_name(alloc, run)?,
    })
}

/// What a piece asks for whose unit is BLOCK DATA, by the run that should be its name. Section 16.1.
#[tactic(auto, unfolding(split_pieces::specs::WantedNames::by_block_run, fortran_lexemes::specs::KindsOfStatements::is_empty))]
fn by_block_run(alloc: Global, run: &[u8]) -> Result<WantedName, AllocError>
    ensures { IfOk result (λ found. found ≡ by_block_run run.now) }
{
    match run {
        [] => Ok(nameless(alloc, Wanted::BlockData)),
        [_, ..] => by_run(alloc, run),
    }
}

/// What a piece asks for, by the kind of its first statement and the text of that, without blanks and in lower case.
#[tactic(auto, unfolding(split_pieces::specs::WantedNames::by_kind, split_pieces::specs::WantedNames::behind_word, fortran_lexemes::specs::KindsOfStatements::word_of))]
fn by_kind(alloc: Global, kind: Option<StmtKind>, text: &[u8]) -> Result<WantedName, AllocError>
    ensures { IfOk result (λ found. found ≡ by_kind kind text.now) }
{
    match kind {
        None => Ok(nameless(alloc, Wanted::Unknown)),
        Some(StmtKind::Program) => by_run(alloc, run_of(behind(text, b"program".len()))),
        Some(StmtKind::Subroutine) => by_run(alloc, run_of(behind(text, b"subroutine".len()))),
        Some(StmtKind::Function) => by_run(alloc, run_of(behind_function(text))),
        Some(StmtKind::BlockData) => {
            by_block_run(alloc, run_of(behind(text, b"blockdata".len())))
        }
        Some(_) => Ok(nameless(alloc, Wanted::Main)),
    }
}

/// What a piece asks for that begins with a statement.
#[tactic(auto, unfolding(split_pieces::specs::WantedNames::wanted_by))]
fn wanted_by_first(alloc: Global, first: &Statement) -> Result<WantedName, AllocError>
    ensures { IfOk result (λ found. found ≡ wanted_by (first.now ∷ [])) }
{
    let text = first.text.as_slice();
    let kind = classify(true, first.label.is_some(), text);
    let marks = marks_of(alloc, text)?;
    by_kind(alloc, kind, marks.as_slice())
}

/// What a piece with these statements asks for.
fn wanted_by(alloc: Global, statements: &[Statement]) -> Result<WantedName, AllocError>
    ensures { IfOk result (λ found. found ≡ wanted_by statements.now) }
{
    match statements {
        [first, ..] => wanted_by_first(alloc, first),
        [] => Ok(nameless(alloc, Wanted::Unknown)),
    }
}

/// What a piece asks for, by its text, which is not too long to be read.
pub(crate) fn wanted_of(alloc: Global, piece: &[u8]) -> Result<WantedName, AllocError>
    requires { too_long piece.now ≡ None }
    ensures { IfOk result (λ found. found ≡ wanted_of piece.now) }
{
    match read_unjudged(alloc, piece, 0) {
        Ok(cards) => wanted_by(alloc, cards.statements()),
        Err(Fail::NoMemory) => Err(AllocError),
        Err(Fail::Refused(_)) => unreachable!(),
    }
}
