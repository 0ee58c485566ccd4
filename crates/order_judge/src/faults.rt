//! The first refusal of a unit by the structure of its statements.
#![tactic(auto)]

ghost use Rattle.std.specs.Prelude.{◌≡◌, ◌++◌, [], OnOk, IfOk};
ghost use Rattle.declaration_rows.specs.Verdicts.{first_of};
ghost use Rattle.declaration_rows.specs.UnitRows.{labels_rows, nest_rows, end_rows, ends_by_end};

use crate::ends::add_end_row;
use crate::labels::add_label_rows;
use crate::nest::add_nest_rows;
use f_tree::{Refusal, Unit};
use found_rows::first_of;
use std::alloc::{AllocError, Global};

/// Adds the rows of labels that stand twice, of the nest of IF blocks and of the last statement.
fn add_structure_rows(
    alloc: Global,
    found: &mut Vec<Refusal>,
    unit: &Unit,
) -> Result<(), AllocError>
    ensures { OnOk result (found.new.items
        ≡ found.old.items
        ++ (labels_rows [] unit.now.statements ++ (nest_rows [] unit.now.statements ++ end_rows unit.now (ends_by_end unit.now.statements)))) }
{
    add_label_rows(alloc, found, unit.statements.as_slice())?;
    add_nest_rows(alloc, found, unit.statements.as_slice())?;
    add_end_row(found, unit)
}

/// The first refusal of a unit by labels that stand twice, by the nest of its IF blocks and by its last statement. An error where memory ran
/// out.
pub fn structure_fault(alloc: Global, unit: &Unit) -> Result<Option<Refusal>, AllocError>
    ensures { IfOk result (λ found. found
        ≡ first_of (labels_rows [] unit.now.statements ++ (nest_rows [] unit.now.statements ++ end_rows unit.now (ends_by_end unit.now.statements)))) }
{
    let mut found = Vec::new(alloc);
    add_structure_rows(alloc, &mut found, unit)?;
    Ok(first_of(found.as_slice()))
}
