//! Whether a unit is one that is translated. Sections 2.4, 3.5, 11.10, 15 and 18.

ghost use Rattle.std.specs.Prelude.{◌≡◌, IfOk, map};
ghost use Rattle.declaration_rows.specs.NameRows.{all_names};
ghost use Rattle.name_facts.specs.GivenFacts.{AreNameFacts};
ghost use Rattle.name_table.specs.Named.{IsNameSet, names_in};
ghost use Rattle.translator.specs.UnitFiles.{IsPlainIf};

use crate::procedures::procedures_are_defined;
use crate::spelling::is_spelled_heading;
use declared_types::unit_shapes;
use direct_lines::are_lines_direct;
use f_tree::Unit;
use loop_entries::do_loops_fit;
use name_facts::NameFacts;
use name_table::NameSet;
use plain_names::is_spellable;
use plain_procedures::has_plain_parts;
use std::alloc::{AllocError, Global};

/// Whether a unit is a plain one whose names can be spelled, and whose procedures are those of the set.
pub(crate) fn is_plain(
    alloc: Global,
    procedures: &NameSet,
    unit: &Unit,
    table: &NameFacts,
    names: &[&[u8]],
) -> Result<bool, AllocError>
    requires procedures { IsNameSet procedures.now }
    requires table { AreNameFacts unit.now table.now }
    requires names { map (λ name. name.now) names.now ≡ all_names unit.now }
    ensures { IfOk result (IsPlainIf (names_in procedures.now) unit.now) }
{
    let shapes = unit_shapes(alloc, unit)?;
    if !has_plain_parts(unit, &shapes, table, names) {
        return Ok(false);
    }
    if !is_spellable(unit, table, names) {
        return Ok(false);
    }
    if !is_spelled_heading(unit) {
        return Ok(false);
    }
    if !procedures_are_defined(procedures, unit, table, names) {
        return Ok(false);
    }
    if !are_lines_direct(unit, table) {
        return Ok(false);
    }
    do_loops_fit(alloc, unit, table)
}
