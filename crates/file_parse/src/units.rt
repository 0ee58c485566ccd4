//! Program units: the statements up to each END. Sections 2.4 and 3.5.

ghost use Rattle.std.specs.Prelude.{◌≡◌, ◌<◌, ◌≤◌, ◌∷◌, ◌++◌, [], length, IfOk};
ghost use Rattle.fortran_grammar.specs.UnitsOfFile.{heading_of, headed, unit_of};
ghost use Rattle.file_parse.specs.ReadSoFar.{IsUnit, unit_length};

use crate::statements::read_statements;
use cards::is_end;
use f_tree::{Body, Fail, Stmt, Unit, UnitKind};
use fortran_text::Statement;
use plain_data::Items;
use std::alloc::{AllocError, Global};

/// How many statements the first unit has: those up to and with END, or all.
#[tactic(auto, using(crate::proofs::UnitLemmas::unit_some))]
pub(crate) fn unit_length(sources: &[Statement]) -> usize
    ensures value { result ≡ unit_length sources.now }
    ensures within { result ≤ length sources.now }
    ensures some { 0 < length sources.now → 0 < result }
{
    for (place, source) in sources.iter().enumerate() {
        if is_end(source.text.as_slice()) {
            return place + 1;
        }
    }
    sources.len()
}

/// The unit of its statements.
pub(crate) fn read_unit(alloc: Global, sources: &[Statement]) -> Result<Unit, Fail>
    requires { 0 < length sources.now }
    ensures { IsUnit sources.now result }
{
    match read_statements(alloc, true, sources) {
        Ok(trees) => Ok(unit_of(alloc, trees)?),
        Err(fail) => Err(fail),
    }
}

/// The unit of the trees of its statements.
#[tactic(auto, using(crate::proofs::UnitLemmas::unit_is))]
pub(crate) fn unit_of(alloc: Global, trees: Items<Stmt>) -> Result<Unit, AllocError>
    requires { 0 < length trees }
    ensures { IfOk result (λ unit. unit_of trees ≡ unit ∷ []) }
{
    let mut behind = trees;
    let first = behind.remove(0);
    headed(alloc, first, behind)
}

/// The unit of a statement and those behind it: a PROGRAM, SUBROUTINE, FUNCTION or BLOCK DATA statement that begins it says what it is.
#[tactic(auto, using(crate::proofs::UnitLemmas::no_heading), unfolding(fortran_grammar::specs::UnitsOfFile::heading_of, fortran_grammar::specs::UnitsOfFile::headed, f_tree::specs::Folds::layer_of))]
fn headed(alloc: Global, first: Stmt, behind: Items<Stmt>) -> Result<Unit, AllocError>
    ensures { IfOk result (λ unit. unit ≡ headed (heading_of first.body) first behind) }
{
    let Stmt {
        label,
        file,
        card,
        body,
    } = first;
    match body {
        Body::Header(kind, name, dummies) => Ok(Unit {
            file,
            card,
            kind,
            name,
            dummies,
            statements: behind,
        }),
        body => unheaded(
            alloc,
            Stmt {
                label,
                file,
                card,
                body,
            },
            behind,
        ),
    }
}

/// A main program without a PROGRAM statement: a statement and those behind it. Section 14.
#[tactic(auto, unfolding(fortran_grammar::specs::UnitsOfFile::headed))]
fn unheaded(alloc: Global, first: Stmt, behind: Items<Stmt>) -> Result<Unit, AllocError>
    ensures { IfOk result (λ unit. unit ≡ headed None first behind) }
{
    let (file, card) = (first.file, first.card);
    Ok(Unit {
        file,
        card,
        kind: UnitKind::Main,
        name: None,
        dummies: Items::new(alloc),
        statements: before(alloc, first, behind)?,
    })
}

/// A statement before others.
fn before(alloc: Global, first: Stmt, behind: Items<Stmt>) -> Result<Items<Stmt>, AllocError>
    ensures { IfOk result (λ statements. statements ≡ first ∷ behind) }
{
    let mut statements = Items::new(alloc);
    statements.push(first)?;
    statements.append(behind)?;
    Ok(statements)
}
