//! The first refusal of a unit by DO ranges that cross.
#![tactic(auto)]

ghost use Rattle.std.specs.Prelude.{◌≡◌, ◌++◌, OnOk, IfOk};
ghost use Rattle.f_tree.specs.declared.names.Options.{Options};
ghost use Rattle.f_tree.specs.Lines.{unit_read};
ghost use Rattle.found_rows.specs.declaration_rows.Verdicts.{first_of};
ghost use Rattle.found_rows.specs.declaration_rows.UnitRows.{ranges_from, crossing_rows};

use crate::crossing::add_range_rows;
use crate::ends::loop_ends;
use f_tree::{Refusal, Unit};
use found_rows::first_of;
use std::alloc::{AllocError, Global};

/// Adds the rows of the statements of a unit at which a DO range ends that crosses another. An error where memory ran out.
pub fn add_crossing_rows(
    alloc: Global,
    found: &mut Vec<Refusal>,
    unit: &Unit,
) -> Result<(), AllocError>
    ensures { OnOk result ((options : Options) → found.new.items
        ≡ found.old.items ++ crossing_rows (ranges_from (unit_read options unit.now) 0 unit.now.statements) 0 unit.now.statements) }
{
    let statements = unit.statements.as_slice();
    let ends = loop_ends(alloc, statements)?;
    add_range_rows(alloc, found, ends.as_slice(), statements)
}

/// The first refusal of a unit by DO ranges that cross. An error where memory ran out.
pub fn crossing_fault(alloc: Global, unit: &Unit) -> Result<Option<Refusal>, AllocError>
    ensures { IfOk result (λ found. (options : Options) → found
        ≡ first_of (crossing_rows (ranges_from (unit_read options unit.now) 0 unit.now.statements) 0 unit.now.statements)) }
{
    let mut found = Vec::new(alloc);
    add_crossing_rows(alloc, &mut found, unit)?;
    Ok(first_of(found.as_slice()))
}
