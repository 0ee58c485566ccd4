//! The rows of a set.

ghost use Rattle.std.specs.Prelude.{◌≡◌, IfOk};
ghost use Rattle.name_facts.specs.declaration_rows.SetRows.{files_rows, units_rows};
ghost use Rattle.name_facts.specs.declaration_rows.Verdicts.{first_of};

use crate::unit::unit_fault;
use f_tree::{File, Options, Refusal, Unit};
use refusal_order::earlier_of;
use std::alloc::{AllocError, Global};

/// The first of the rows of declarations that some units break.
fn units_fault(
    alloc: Global,
    options: Options,
    units: &[Unit],
) -> Result<Option<Refusal>, AllocError>
    ensures { IfOk result (λ found. found ≡ first_of (units_rows options units.now)) }
{
    let mut first = None;
    for unit in units {
        let found = unit_fault(alloc, options, unit)?;
        first = earlier_of(first, found);
    }
    Ok(first)
}

/// The first of the rows of declarations that some files break.
///
/// # Errors
///
/// Want of memory.
pub fn set_fault(
    alloc: Global,
    options: Options,
    files: &[File],
) -> Result<Option<Refusal>, AllocError>
    ensures { IfOk result (λ found. found ≡ first_of (files_rows options files.now)) }
{
    let mut first = None;
    for file in files {
        let found = units_fault(alloc, options, file.units.as_slice())?;
        first = earlier_of(first, found);
    }
    Ok(first)
}
