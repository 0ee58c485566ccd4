//! The first refusal of a unit by its references (F42, F43). Sections 15.5.2, 15.6.2 and 15.9.3.
#![tactic(auto)]

ghost use Rattle.std.specs.Prelude.{◌≡◌, ◌++◌, OnOk, IfOk};
ghost use Rattle.declaration_rows.specs.NameRows.{all_names, known_in};
ghost use Rattle.declaration_rows.specs.ReferenceRows.{shapes_rows, passed_rows, dummy_procedure_rows, unit_reference_rows};
ghost use Rattle.declaration_rows.specs.Verdicts.{first_of};
ghost use Rattle.declared_types.specs.TypeTables.{AreTypes};
ghost use Rattle.expression_judge.specs.SeenNames.{AreSeen};
ghost use Rattle.name_classes.specs.KnownSigns.{AreSigns};
ghost use Rattle.reference_judge.specs.FirstShapes.{no_references};

use crate::functions::{add_dummy_rows, add_passed_rows};
use crate::shapes::add_shape_rows;
use crate::statements::unit_references;
use declared_types::Types;
use expression_judge::Names;
use f_tree::{Refusal, Unit};
use found_rows::first_of;
use name_classes::Signs;
use name_places::{all_names, name_places};
use std::alloc::{AllocError, Global};

/// Adds the rows of references that differ in their arguments.
fn add_shapes<'a>(
    alloc: Global,
    found: &mut Vec<Refusal>,
    unit: &'a Unit,
    signs: &Signs,
    types: &Types,
    names: &mut Names<'a>,
) -> Result<(), AllocError>
    requires signs { AreSigns unit.now signs.now }
    requires types { AreTypes unit.now types.now }
    requires names { AreSeen (known_in unit.now) names.old }
    ensures rows { OnOk result (found.new.items ≡ found.old.items ++ shapes_rows unit.now no_references unit.now.statements) }
    ensures names { OnOk result (AreSeen (known_in unit.now) names.new) }
{
    let references = unit_references(alloc, unit, &signs.arrays, types, names)?;
    add_shape_rows(alloc, found, references.as_slice())
}

/// Adds the rows of functions of type CHARACTER that are passed.
fn add_passed(
    alloc: Global,
    found: &mut Vec<Refusal>,
    unit: &Unit,
    signs: &Signs,
    names: &Names,
) -> Result<(), AllocError>
    requires signs { AreSigns unit.now signs.now }
    requires names { AreSeen (known_in unit.now) names.now }
    ensures { OnOk result (found.new.items ≡ found.old.items ++ passed_rows unit.now unit.now.statements) }
{
    add_passed_rows(alloc, found, signs, names, unit.statements.as_slice())
}

/// Adds the rows of dummy procedures that are functions of type CHARACTER.
fn add_dummies(
    alloc: Global,
    found: &mut Vec<Refusal>,
    unit: &Unit,
    signs: &Signs,
    names: &Names,
) -> Result<(), AllocError>
    requires signs { AreSigns unit.now signs.now }
    requires names { AreSeen (known_in unit.now) names.now }
    ensures { OnOk result (found.new.items ≡ found.old.items ++ dummy_procedure_rows unit.now (all_names unit.now)) }
{
    let places = name_places(alloc, &signs.arrays, unit)?;
    let listed = all_names(alloc, &signs.arrays, unit)?;
    add_dummy_rows(found, unit, signs, names, &places, listed.as_slice())
}

/// The first refusal of a unit by its references: by references of one procedure that differ in their arguments (F43), and by functions of type
/// CHARACTER that are dummy procedures or are passed (F42), given what its statements tell of its names, their types, and what is known of
/// them. What is known stays as it is. An error where memory ran out. Sections 15.5.2, 15.6.2 and 15.9.3.
#[tactic(auto, unfolding(declaration_rows::specs::ReferenceRows::unit_reference_rows))]
pub fn reference_fault<'a>(
    alloc: Global,
    unit: &'a Unit,
    signs: &Signs,
    types: &Types,
    names: &mut Names<'a>,
) -> Result<Option<Refusal>, AllocError>
    requires signs { AreSigns unit.now signs.now }
    requires types { AreTypes unit.now types.now }
    requires names { AreSeen (known_in unit.now) names.old }
    ensures fault { IfOk result (λ found. found ≡ first_of (unit_reference_rows unit.now)) }
    ensures names { IfOk result (λ found. AreSeen (known_in unit.now) names.new) }
{
    let mut found = Vec::new(alloc);
    add_shapes(alloc, &mut found, unit, signs, types, names)?;
    add_passed(alloc, &mut found, unit, signs, names)?;
    add_dummies(alloc, &mut found, unit, signs, names)?;
    Ok(first_of(found.as_slice()))
}
