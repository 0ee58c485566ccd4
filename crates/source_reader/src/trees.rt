//! The trees of files and of included files.

ghost use Rattle.std.specs.Prelude.{◌≡◌, length, map, IfOk};
ghost use Rattle.source_reader.specs.Trees.{AreFileTrees, ArePartTrees, IsAfter, IsUnless, IsSpliced};
ghost use Rattle.file_parse.specs.FirstRefusals.{IsFirstAmong};
ghost use Rattle.source_acceptance.specs.declaration_rows.GlobalRows.{all_units};
ghost use Rattle.source_acceptance.specs.Acceptance.{deep_rows_of};

use crate::counts::by_name;
use cards::Cards;
use f_tree::{Fail, File, FileSet, Refusal, Text, Unit};
use file_parse::{first_deep, first_of, parse_file, parse_part, splice_files};
use plain_data::Items;
use std::alloc::{AllocError, Global};

/// The trees of files, or the first row of their statements.
pub(crate) fn parse_files(alloc: Global, files: &[Cards]) -> Result<Items<File>, Fail>
    ensures { AreFileTrees files.now result }
{
    let mut trees = Items::new(alloc);
    for cards in files {
        match parse_file(alloc, cards) {
            Ok(tree) => trees.push(tree)?,
            Err(fail) => return Err(fail),
        }
    }
    Ok(trees)
}

/// Whether included files with these names have trees, or the first row of their statements.
pub(crate) fn check_parts(alloc: Global, names: &[Text], parts: &[Cards]) -> Result<(), Fail>
    requires { length names.now ≡ length parts.now }
    ensures { ArePartTrees names.now parts.now result }
{
    for (place, cards) in parts.iter().enumerate() {
        match parse_part(alloc, names[place].as_slice(), cards) {
            Ok(_) => {}
            Err(fail) => return Err(fail),
        }
    }
    Ok(())
}

/// A value, where a check that comes behind it finds nothing.
pub(crate) fn after<T: Drop>(value: T, check: Result<(), Fail>) -> Result<T, Fail>
    ensures { IsAfter value check result }
{
    match check {
        Ok(()) => Ok(value),
        Err(fail) => Err(fail),
    }
}

/// A value, unless it is refused.
pub(crate) fn unless<T: Drop>(refused: Option<Refusal>, value: T) -> Result<T, Fail>
    ensures { IsUnless refused value result }
{
    match refused {
        Some(refusal) => Err(Fail::Refused(refusal)),
        None => Ok(value),
    }
}

/// References to cards, in their order.
fn references<'a>(alloc: Global, cards: &'a [Cards]) -> Result<Vec<&'a Cards>, AllocError>
    ensures { IfOk result (λ list. map (λ c. c.now) list.items ≡ cards.now) }
{
    let mut list = Vec::new(alloc);
    for one in cards {
        list.push(one)?;
    }
    Ok(list)
}

/// Trees with the statements of included files in their places.
pub(crate) fn spliced(
    alloc: Global,
    names: &[Text],
    parts: &[Cards],
    trees: Items<File>,
) -> Result<FileSet, Fail>
    requires { length names.now ≡ length parts.now }
    ensures { IsSpliced names.now parts.now trees result }
{
    let list = references(alloc, parts)?;
    let places = by_name(alloc, names, list.as_slice())?;
    match splice_files(alloc, trees, &places) {
        Ok(files) => Ok(FileSet { files }),
        Err(fail) => Err(fail),
    }
}

/// F17 of blocks in units: the first by its file and its card.
fn deep_in_units(alloc: Global, units: &[Unit]) -> Result<Option<Refusal>, AllocError>
    ensures { IfOk result (IsFirstAmong (deep_rows_of units.now)) }
{
    let mut found = None;
    for unit in units {
        found = first_of(found, first_deep(alloc, unit)?);
    }
    Ok(found)
}

/// F17 of blocks in files: the first by its file and its card.
pub(crate) fn deep_in_files(alloc: Global, files: &[File]) -> Result<Option<Refusal>, AllocError>
    ensures { IfOk result (IsFirstAmong (deep_rows_of (all_units files.now))) }
{
    let mut found = None;
    for file in files {
        found = first_of(found, deep_in_units(alloc, file.units.as_slice())?);
    }
    Ok(found)
}
