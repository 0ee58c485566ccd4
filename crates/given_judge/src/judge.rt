//! The first refusal of a unit by what its statements give to its names (F22). Section 18.2.
#![tactic(auto)]

ghost use Rattle.std.specs.Prelude.{◌≡◌, IfOk};
ghost use Rattle.declaration_rows.specs.GivenRows.{unit_given_rows};
ghost use Rattle.declaration_rows.specs.NameRows.{known_in};
ghost use Rattle.declaration_rows.specs.Verdicts.{first_of};
ghost use Rattle.expression_judge.specs.SeenNames.{AreSeen};

use crate::block_rows::add_block_rows;
use crate::given_rows::add_given_rows;
use expression_judge::Names;
use f_tree::{Refusal, Unit};
use found_rows::first_of;
use name_uses::array_set;
use std::alloc::{AllocError, Global};

/// The first refusal of a unit by what its statements give to its names and excludes each other (F22), given what is known of the names. An error
/// where memory ran out. Sections 8.1 to 8.9, 9.1, 15.4, 15.7, 15.9.2 and 18.2.
pub fn given_fault(alloc: Global, unit: &Unit, names: &Names) -> Result<Option<Refusal>, AllocError>
    requires { AreSeen (known_in unit.now) names.now }
    ensures { IfOk result (λ found. found ≡ first_of (unit_given_rows unit.now)) }
{
    let arrays = array_set(alloc, unit)?;
    let mut found = Vec::new(alloc);
    add_given_rows(alloc, &mut found, unit, &arrays)?;
    add_block_rows(alloc, &mut found, unit, &arrays, names)?;
    Ok(first_of(found.as_slice()))
}
