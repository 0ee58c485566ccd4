//! The lowered text of a unit that is translated. Sections 3.5, 10 to 12 and 15.

ghost use Rattle.std.specs.Prelude.{◌≡◌, IfOk, map, length};
ghost use Rattle.declaration_rows.specs.NameRows.{all_names};
ghost use Rattle.name_facts.specs.GivenFacts.{AreNameFacts};
ghost use Rattle.name_table.specs.Named.{IsNameSet, names_in};
ghost use Rattle.translator.specs.UnitFiles.{IsFittingIf, IsLoweredIf, IsTextIf, IsWholeIf, kept_among};

use crate::fitting::text_fits;
use crate::tests::is_plain;
use expression_lowering::LowerError;
use f_tree::{Options, Unit};
use lowered_text::LoweredText;
use name_facts::NameFacts;
use name_table::NameSet;
use std::alloc::{AllocError, Global};
use text_behind::behind;
use unit_lowering::lower_unit;

/// The lowered text of a unit; none where a statement is not lowered.
#[tactic(auto, unfolding(crate::specs::UnitFiles::IsLoweredIf))]
fn lowered(
    alloc: Global,
    once: bool,
    table: &NameFacts,
    unit: &Unit,
) -> Result<Option<LoweredText>, AllocError>
    ensures { IfOk result (IsLoweredIf table.now once unit.now.statements) }
{
    match lower_unit(alloc, once, table, unit) {
        Ok(text) => Ok(Some(text)),
        Err(LowerError::NotLowered) => Ok(None),
        Err(LowerError::NoMemory) => Err(AllocError),
    }
}

/// A lowered text, if it fits into memory.
#[tactic(auto, unfolding(crate::specs::UnitFiles::IsFittingIf))]
fn fitting(text: LoweredText) -> Option<LoweredText>
    ensures { IsFittingIf text result }
{
    if text_fits(&text) { Some(text) } else { None }
}

/// A lowered text behind so many steps, if that fits into memory.
fn whole(alloc: Global, text: LoweredText, first: usize) -> Result<Option<LoweredText>, AllocError>
    ensures { IfOk result (IsWholeIf first text) }
{
    let whole = behind(alloc, text, first)?;
    Ok(fitting(whole))
}

/// The lowered text of a unit behind so many bounds as it keeps of its dummy arrays, given what its names are, the names in their order, and the names of
/// the procedures of the set; none where the unit is not translated.
pub(crate) fn text_of(
    alloc: Global,
    options: Options,
    procedures: &NameSet,
    unit: &Unit,
    table: &NameFacts,
    names: &[&[u8]],
    first: usize,
) -> Result<Option<LoweredText>, AllocError>
    requires procedures { IsNameSet procedures.now }
    requires table { AreNameFacts unit.now table.now }
    requires names { map (λ name. name.now) names.now ≡ all_names unit.now }
    requires first { first ≡ length (kept_among unit.now unit.now.dummies) }
    ensures { IfOk result (IsTextIf options (names_in procedures.now) unit.now) }
{
    if !is_plain(alloc, procedures, unit, table, names)? {
        return Ok(None);
    }
    match lowered(alloc, options.onetrip, table, unit)? {
        Some(text) => whole(alloc, text, first),
        None => Ok(None),
    }
}
