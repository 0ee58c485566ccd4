//! The units of a set, lowered.

ghost use Rattle.std.specs.Prelude.{◌≡◌, IfOk};
ghost use Rattle.f_tree.specs.declared.refusals.Refusal.{Refusal as Row};
ghost use Rattle.name_table.specs.Named.{IsNameSet, names_in};
ghost use Rattle.name_classes.specs.KnownSigns.{AreSigns};
ghost use Rattle.name_facts.specs.GivenFacts.{AreNameFacts};
ghost use Rattle.translator.specs.UnitFiles.{IsNamed, IsUnitIf};
ghost use Rattle.translator.specs.LoweredFiles.{AddsUnit, AddsUnits, AreUnitsOf};

use crate::heading::heading;
use crate::rows::form_row;
use crate::texts::text_of;
use decl_table::name_facts;
use declared_types::unit_shapes;
use f_tree::{Fail, File, Options, Refusal, Unit};
use lowered_text::LoweredText;
use name_classes::{Signs, unit_signs};
use name_facts::NameFacts;
use name_places::all_names;
use name_table::NameSet;
use refusal_order::earlier_of;
use std::alloc::{AllocError, Global};
use unit_contents::{Contents, contents_of};
use unit_writer::Heading;

/// A unit that is translated, with what its function is written from.
#[derive(Drop)]
pub(crate) struct PlainUnit<'a> {
    pub unit: &'a Unit,
    /// What its names are.
    pub table: NameFacts<'a>,
    /// The names in their order.
    pub names: Vec<&'a [u8]>,
    pub heading: Heading<'a>,
    /// Its lowered text behind what it keeps of its dummy arrays.
    pub text: LoweredText,
    pub contents: Contents,
}

/// The names of a unit in their order, and its heading.
#[derive(Drop)]
pub(crate) struct NamedUnit<'a> {
    pub names: Vec<&'a [u8]>,
    pub heading: Heading<'a>,
}

/// The names and the heading of a unit, from what its statements tell of its names.
fn named_by<'a>(
    alloc: Global,
    unit: &'a Unit,
    signs: &Signs<'a>,
    table: &NameFacts,
) -> Result<NamedUnit<'a>, AllocError>
    requires signs { AreSigns unit.now signs.now }
    requires table { AreNameFacts unit.now table.now }
    ensures { IfOk result (λ named. IsNamed unit.now named) }
{
    let names = all_names(alloc, &signs.arrays, unit)?;
    let shapes = unit_shapes(alloc, unit)?;
    let heading = heading(alloc, unit, signs, &shapes, table)?;
    Ok(NamedUnit { names, heading })
}

/// The names and the heading of a unit.
fn named<'a>(alloc: Global, unit: &'a Unit, table: &NameFacts) -> Result<NamedUnit<'a>, AllocError>
    requires { AreNameFacts unit.now table.now }
    ensures { IfOk result (λ named. IsNamed unit.now named) }
{
    let signs = unit_signs(alloc, unit)?;
    named_by(alloc, unit, &signs, table)
}

/// A unit lowered, given the names of the procedures of the set; none where it has a form that is not translated.
fn plain_unit<'a>(
    alloc: Global,
    options: Options,
    procedures: &NameSet,
    unit: &'a Unit,
) -> Result<Option<PlainUnit<'a>>, AllocError>
    requires { IsNameSet procedures.now }
    ensures { IfOk result (IsUnitIf options (names_in procedures.now) unit.now) }
{
    let table = name_facts(alloc, unit)?;
    let NamedUnit { names, heading } = named(alloc, unit, &table)?;
    let first = heading.bounds.len();
    let found = text_of(
        alloc,
        options,
        procedures,
        unit,
        &table,
        names.as_slice(),
        first,
    )?;
    let Some(text) = found else {
        return Ok(None);
    };
    let contents = contents_of(alloc, &table, &text)?;
    Ok(Some(PlainUnit {
        unit,
        table,
        names,
        heading,
        text,
        contents,
    }))
}

/// A value, unless there is a refusal.
pub(crate) fn unless_refused<T: Drop>(value: T, refusal: Option<Refusal>) -> Result<T, Fail>
    ensures kept { refusal ≡ None → result ≡ Ok value }
    ensures refused { (row : Row) → refusal ≡ Some row → result ≡ Err (Fail.Refused row) }
{
    match refusal {
        Some(refusal) => Err(Fail::Refused(refusal)),
        None => Ok(value),
    }
}

/// Lowers a unit; its row where it has a form that is not translated.
fn add_unit<'a>(
    alloc: Global,
    options: Options,
    procedures: &NameSet,
    unit: &'a Unit,
    found: &mut Vec<PlainUnit<'a>>,
) -> Result<Option<Refusal>, AllocError>
    requires { IsNameSet procedures.now }
    ensures { IfOk result (AddsUnit options (names_in procedures.now) unit.now found.old.items found.new.items) }
{
    match plain_unit(alloc, options, procedures, unit)? {
        Some(plain) => {
            found.push(plain)?;
            Ok(None)
        }
        None => Ok(Some(form_row(unit))),
    }
}

/// Lowers the units of a file; the first of the rows of those that have a form that is not translated.
fn add_units<'a>(
    alloc: Global,
    options: Options,
    procedures: &NameSet,
    units: &'a [Unit],
    found: &mut Vec<PlainUnit<'a>>,
) -> Result<Option<Refusal>, AllocError>
    requires { IsNameSet procedures.now }
    ensures { IfOk result (AddsUnits options (names_in procedures.now) units.now found.old.items found.new.items) }
{
    let mut refusal = None;
    for unit in units {
        let row = add_unit(alloc, options, procedures, unit, found)?;
        refusal = earlier_of(refusal, row);
    }
    Ok(refusal)
}

/// The units of the files of a set, lowered, given the names of its procedures.
///
/// # Errors
///
/// The first of the rows of the units that have a form that is not translated; or want of memory.
#[tactic(auto, unfolding(crate::specs::LoweredFiles::AreUnitsOf))]
pub(crate) fn plain_units<'a>(
    alloc: Global,
    options: Options,
    procedures: &NameSet,
    files: &'a [File],
) -> Result<Vec<PlainUnit<'a>>, Fail>
    requires { IsNameSet procedures.now }
    ensures { AreUnitsOf options (names_in procedures.now) files.now result }
{
    let mut found = Vec::new(alloc);
    let mut refusal = None;
    for file in files {
        let first = add_units(
            alloc,
            options,
            procedures,
            file.units.as_slice(),
            &mut found,
        )?;
        refusal = earlier_of(refusal, first);
    }
    unless_refused(found, refusal)
}
