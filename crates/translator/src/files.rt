//! The files of a set.

ghost use Rattle.std.specs.HashMap.{get_by};
ghost use Rattle.std.specs.Prelude.{◌≡◌, IfOk, Some, bytes_eq};
ghost use Rattle.declaration_rows.specs.GlobalRows.{all_units};
ghost use Rattle.refusal_order.specs.Earliest.{earliest};
ghost use Rattle.translator.specs.LoweredFiles as spec;
ghost use Rattle.translator.specs.TranslatedFiles.{AreTranslations};

use crate::functions::{constants_of, functions_of, procedures_of};
use crate::procedures::procedure_names;
use crate::rows::without_units;
use crate::unit::{PlainUnit, plain_units, unless_refused};
use c_tree::file::CFile;
use f_tree::{Fail, File, Options, Refusal};
use indexmap::IndexMap;
use plain_data::Items;
use refusal_order::{earlier_of, is_before};
use std::alloc::{AllocError, Global};
use unit_writer::{Procedure, write_file};

/// The C file of the units of a FORTRAN file, which are lowered, given the procedures of the set.
fn file_of<'a>(
    alloc: Global,
    units: &[PlainUnit<'a>],
    procedures: &IndexMap<&'a [u8], Procedure>,
) -> Result<CFile, Fail>
    requires { spec.EachIsKnown units.now }
    ensures { spec.IsWrittenFile units.now (λ x. get_by (λ k. bytes_eq x k.now) procedures.now) result }
{
    let constants = constants_of(alloc, units)?;
    let passed = constants.as_slice();
    let functions = functions_of(alloc, units, procedures, passed)?;
    Ok(write_file(alloc, passed, functions)?)
}

/// Writes the C file of the units of a FORTRAN file; the first of the rows of those that have no function.
#[tactic(auto, unfolding(crate::specs::LoweredFiles::AddsFile))]
fn add_file<'a>(
    alloc: Global,
    units: &[PlainUnit<'a>],
    procedures: &IndexMap<&'a [u8], Procedure>,
    found: &mut Items<CFile>,
) -> Result<Option<Refusal>, AllocError>
    requires { spec.EachIsKnown units.now }
    ensures { IfOk result (spec.AddsFile units.now (λ x. get_by (λ k. bytes_eq x k.now) procedures.now) found.old found.new) }
{
    match file_of(alloc, units, procedures) {
        Ok(file) => {
            found.push(file)?;
            Ok(None)
        }
        Err(Fail::Refused(refusal)) => Ok(Some(refusal)),
        Err(Fail::NoMemory) => Err(AllocError),
    }
}

/// The C files of the units of a set, which are lowered, given its procedures.
fn files_of<'a>(
    alloc: Global,
    files: &[File],
    units: &[PlainUnit<'a>],
    procedures: &IndexMap<&'a [u8], Procedure>,
) -> Result<Items<CFile>, Fail>
    requires known { spec.EachIsKnown units.now }
    requires given { spec.units_given units.now ≡ all_units files.now }
    ensures { spec.AreFilesOf files.now units.now (λ x. get_by (λ k. bytes_eq x k.now) procedures.now) result }
{
    let mut found = Items::new(alloc);
    let mut refusal = None;
    let mut left = units.len();
    for file in files {
        let rest = &units[units.len() - left..];
        let own = &rest[..file.units.len()];
        let row = add_file(alloc, own, procedures, &mut found)?;
        refusal = earlier_of(refusal, row);
        left -= file.units.len();
    }
    unless_refused(found, refusal)
}

/// The C files of the units of a set, which are lowered.
fn written(alloc: Global, files: &[File], units: &[PlainUnit]) -> Result<Items<CFile>, Fail>
    requires known { spec.EachIsKnown units.now }
    requires given { spec.units_given units.now ≡ all_units files.now }
    ensures { spec.AreWrittenFiles files.now units.now result }
{
    let procedures = procedures_of(alloc, units)?;
    files_of(alloc, files, units, &procedures)
}

/// The C files of the units of a set, or the first of their rows.
fn translated(alloc: Global, options: Options, files: &[File]) -> Result<Items<CFile>, Fail>
    ensures { spec.AreTranslatedUnits options files.now result }
{
    let procedures = procedure_names(alloc, files)?;
    let plain = plain_units(alloc, options, &procedures, files)?;
    written(alloc, files, plain.as_slice())
}

/// The earlier of two refusals, of which the first may not be there; of two at one place the first.
#[tactic(auto, unfolding(refusal_order::specs::Earliest::earliest, declaration_rows::specs::Verdicts::earlier))]
fn earlier(refusal: Option<Refusal>, other: Refusal) -> Refusal
    ensures { Some result ≡ earliest refusal (Some other) }
{
    match refusal {
        Some(refusal) if !is_before(other, refusal) => refusal,
        _ => other,
    }
}

/// The C files of the files of a set, one for each, in their order.
///
/// # Errors
///
/// The first of the rows F99: of a unit at its first statement of a form that is not translated, or where the unit begins, and of a file without units at
/// its first card; or want of memory.
pub fn translate_files(
    alloc: Global,
    options: Options,
    files: &[File],
) -> Result<Items<CFile>, Fail>
    ensures { AreTranslations options files.now result }
{
    let refusal = without_units(files);
    match translated(alloc, options, files) {
        Ok(made) => unless_refused(made, refusal),
        Err(Fail::Refused(row)) => Err(Fail::Refused(earlier(refusal, row))),
        Err(Fail::NoMemory) => Err(Fail::NoMemory),
    }
}
