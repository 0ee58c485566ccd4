//! The statements of included files in their places. MIL-STD-1753: INCLUDE.

ghost use Rattle.std.specs.Prelude.{◌≡◌, ◌++◌, [], ◌∷◌, option_map, map, if◌then◌else◌, reverse, IfOk};
ghost use Rattle.fortran_grammar.specs.UnitsOfFile.{unit_of};
ghost use Rattle.fortran_grammar.specs.IncludedFiles.{included_by, is_headed, statements_for, with_parts, unit_with_parts, part_named, units_with_parts, file_with_parts};
ghost use Rattle.file_parse.specs.Splices.{cards_named, IsUnder, IsExactly, IsInPlace};

use crate::mentions::included_by;
use crate::statements::read_statements;
use crate::units::unit_of;
use cards::Cards;
use f_tree::{Body, Fail, File, Stmt, Unit, UnitKind};
use plain_data::Items;
use std::alloc::{AllocError, Global};
use std::collections::HashMap;

/// The cards of included files, by their names.
pub type Places<'a> = HashMap<&'a [u8], &'a Cards>;

/// A file with the statements of included files in the places of INCLUDE, where each included file that it mentions is among those given and
/// has no row of refusals. A unit without a heading takes one from the statement that begins it then. An included file is read once more for
/// each mention.
///
/// # Errors
///
/// Want of memory.
pub fn splice(alloc: Global, file: File, places: &Places) -> Result<File, Fail>
    ensures { IsUnder (cards_named places.now) (λ parts. file_with_parts parts file) result }
{
    match units_with_parts(alloc, file.units, places) {
        Ok(units) => Ok(File { units }),
        Err(fail) => Err(fail),
    }
}

/// Files with the statements of included files in the places of INCLUDE.
///
/// # Errors
///
/// Want of memory.
pub fn splice_files(alloc: Global, files: Items<File>, places: &Places) -> Result<Items<File>, Fail>
    ensures { IsUnder (cards_named places.now) (λ parts. map (file_with_parts parts) files) result }
{
    let mut waiting = reversed(alloc, files)?;
    let mut done = Items::new(alloc);
    while let Some(file) = waiting.pop() {
        match splice(alloc, file, places) {
            Ok(file) => done.push(file)?,
            Err(fail) => return Err(fail),
        }
    }
    Ok(done)
}

/// Units with the included statements in their places.
fn units_with_parts(alloc: Global, units: Items<Unit>, places: &Places) -> Result<Items<Unit>, Fail>
    ensures { IsUnder (cards_named places.now) (λ parts. units_with_parts parts units) result }
{
    let mut waiting = reversed(alloc, units)?;
    let mut done = Items::new(alloc);
    while let Some(unit) = waiting.pop() {
        match with_unit(alloc, done, unit, places) {
            Ok(more) => done = more,
            Err(fail) => return Err(fail),
        }
    }
    Ok(done)
}

/// Units, and one with the included statements in their places.
#[tactic(auto, unfolding(fortran_grammar::specs::IncludedFiles::unit_with_parts))]
fn with_unit(
    alloc: Global,
    done: Items<Unit>,
    unit: Unit,
    places: &Places,
) -> Result<Items<Unit>, Fail>
    ensures { IsUnder (cards_named places.now) (λ parts. done ++ unit_with_parts parts unit) result }
{
    let headed = is_headed(&unit);
    match spliced(alloc, unit, places) {
        Ok(unit) => placed(alloc, done, headed, unit),
        Err(fail) => Err(fail),
    }
}

/// A unit as it is headed, with the included statements in their places.
fn spliced(alloc: Global, unit: Unit, places: &Places) -> Result<Unit, Fail>
    ensures { IsUnder (cards_named places.now) (λ parts. record unit { statements = with_parts parts unit.statements }) result }
{
    let Unit {
        file,
        card,
        kind,
        name,
        dummies,
        statements,
    } = unit;
    match with_parts(alloc, statements, places) {
        Ok(statements) => Ok(Unit {
            file,
            card,
            kind,
            name,
            dummies,
            statements,
        }),
        Err(fail) => Err(fail),
    }
}

/// Units, and one with a heading, or that which its statements make.
fn placed(alloc: Global, done: Items<Unit>, headed: bool, unit: Unit) -> Result<Items<Unit>, Fail>
    ensures { IsExactly (done ++ (if headed then unit ∷ [] else unit_of unit.statements)) result }
{
    if headed {
        pushed(done, unit)
    } else {
        with_unit_of(alloc, done, statements_of(unit))
    }
}

/// The statements of a unit.
fn statements_of(unit: Unit) -> Items<Stmt>
    ensures { result ≡ unit.statements }
{
    let Unit { statements, .. } = unit;
    statements
}

/// Units, and that of statements, if there are any.
#[tactic(auto, using(crate::proofs::SpliceLemmas::no_unit))]
fn with_unit_of(
    alloc: Global,
    done: Items<Unit>,
    statements: Items<Stmt>,
) -> Result<Items<Unit>, Fail>
    ensures { IsExactly (done ++ unit_of statements) result }
{
    if statements.is_empty() {
        return Ok(done);
    }
    let unit = unit_of(alloc, statements)?;
    pushed(done, unit)
}

/// Units, and one more.
fn pushed<T: Drop>(done: Items<T>, next: T) -> Result<Items<T>, Fail>
    ensures { IsExactly (done ++ next ∷ []) result }
{
    let mut done = done;
    done.push(next)?;
    Ok(done)
}

/// Whether a unit has a heading: without one it is a main program without a name.
#[tactic(auto, unfolding(fortran_grammar::specs::IncludedFiles::is_headed))]
fn is_headed(unit: &Unit) -> bool
    ensures { result ≡ is_headed unit.now }
{
    match unit.kind {
        UnitKind::Main => unit.name.is_some(),
        _ => true,
    }
}

/// Statements with those of the included files in their places.
fn with_parts(alloc: Global, statements: Items<Stmt>, places: &Places) -> Result<Items<Stmt>, Fail>
    ensures { IsUnder (cards_named places.now) (λ parts. with_parts parts statements) result }
{
    let mut waiting = reversed(alloc, statements)?;
    let mut done = Items::new(alloc);
    while let Some(statement) = waiting.pop() {
        match with_statement(alloc, done, statement, places) {
            Ok(more) => done = more,
            Err(fail) => return Err(fail),
        }
    }
    Ok(done)
}

/// Statements, and one or what stands for it.
#[tactic(auto, using(crate::proofs::SpliceLemmas::in_place), unfolding(fortran_grammar::specs::IncludedFiles::statements_for))]
fn with_statement(
    alloc: Global,
    done: Items<Stmt>,
    statement: Stmt,
    places: &Places,
) -> Result<Items<Stmt>, Fail>
    ensures { IsUnder (cards_named places.now) (λ parts. done ++ statements_for parts statement (included_by statement.body)) result }
{
    let part = part_for(alloc, &statement.body, places);
    in_place(done, statement, part)
}

/// What stands for a statement, if it includes a file.
fn part_for(alloc: Global, body: &Body, places: &Places) -> Result<Option<Items<Stmt>>, Fail>
    ensures { IsUnder (cards_named places.now) (λ parts. option_map (λ name. part_named name parts) (included_by body.now)) result }
{
    match included_by(body) {
        Some(name) => match part_named(alloc, name, places) {
            Ok(part) => Ok(Some(part)),
            Err(fail) => Err(fail),
        },
        None => Ok(None),
    }
}

/// Items, and one or what stands in its place.
fn in_place<T: Drop>(
    done: Items<T>,
    own: T,
    part: Result<Option<Items<T>>, Fail>,
) -> Result<Items<T>, Fail>
    ensures { IsInPlace done own part result }
{
    match part {
        Ok(Some(part)) => appended(done, part),
        Ok(None) => pushed(done, own),
        Err(fail) => Err(fail),
    }
}

/// Items, and others.
fn appended<T: Drop>(done: Items<T>, more: Items<T>) -> Result<Items<T>, Fail>
    ensures { IsExactly (done ++ more) result }
{
    let mut done = done;
    done.append(more)?;
    Ok(done)
}

/// The statements of the included file with a name.
fn part_named(alloc: Global, name: &[u8], places: &Places) -> Result<Items<Stmt>, Fail>
    ensures { IsUnder (cards_named places.now) (λ parts. part_named name.now parts) result }
{
    match places.get(name) {
        Some(cards) => read_statements(alloc, false, cards.statements()),
        None => Ok(Items::new(alloc)),
    }
}

/// Items from the last to the first.
fn reversed<T: Drop>(alloc: Global, items: Items<T>) -> Result<Items<T>, AllocError>
    ensures { IfOk result (λ turned. turned ≡ reverse items) }
{
    let mut waiting = items;
    let mut turned = Items::new(alloc);
    while let Some(item) = waiting.pop() {
        turned.push(item)?;
    }
    Ok(turned)
}
