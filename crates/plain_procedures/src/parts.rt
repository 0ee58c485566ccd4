//! The parts of a unit, its statements aside.

ghost use Rattle.std.specs.Prelude.{◌≡◌, ◌&&◌, map};
ghost use Rattle.std.specs.List.{list_all};
ghost use Rattle.f_tree.specs.Lines.{unit_kind};
ghost use Rattle.name_facts.specs.declaration_rows.NameRows.{all_names, shape_in};
ghost use Rattle.name_facts.specs.GivenFacts.{AreNameFacts, fact_in};
ghost use Rattle.unit_forms.specs.plain_forms.PlainUnits.{has_own_storage};
ghost use Rattle.unit_forms.specs.PlainProcedures.{may_run, heading_fits, has_no_entries, has_plain_heading, each_name_is_plain};
ghost use Rattle.declared_types.specs.TypeTables.{AreShapes};
ghost use Rattle.plain_procedures.specs.ToldNames.{plain_in};
ghost use Rattle.plain_procedures.specs.ToldProcedures as spec;

use crate::heading::{has_no_entries, has_plain_heading, heading_fits, is_function, may_run};
use crate::name::is_plain_name;
use declared_types::{Shapes, shape};
use f_tree::Unit;
use name_facts::NameFacts;
use plain_names::has_own_storage;

/// Whether a name of a unit is plain, by what the table tells of it.
fn is_plain_in(unit: &Unit, shapes: &Shapes, table: &NameFacts, function: bool, name: &[u8]) -> bool
    requires { AreShapes unit.now shapes.now }
    ensures { result ≡ spec.is_plain table.now function name.now (shape_in unit.now name.now) (fact_in table.now name.now) }
{
    is_plain_name(table, function, name, shape(unit, shapes, name))
}

/// Whether each of names is plain, by what the table tells of it.
fn are_plain(
    unit: &Unit,
    shapes: &Shapes,
    table: &NameFacts,
    function: bool,
    names: &[&[u8]],
) -> bool
    requires { AreShapes unit.now shapes.now }
    ensures { result ≡ list_all (plain_in unit.now table.now function) names.now }
{
    for name in names {
        if !is_plain_in(unit, shapes, table, function, name) {
            return false;
        }
    }
    true
}

/// Whether each name of a unit is plain: a number of its own, a dummy argument, the result of a function, or what takes no storage.
fn has_plain_names(unit: &Unit, shapes: &Shapes, table: &NameFacts, names: &[&[u8]]) -> bool
    requires shapes { AreShapes unit.now shapes.now }
    requires table { AreNameFacts unit.now table.now }
    requires names { map (λ name. name.now) names.now ≡ all_names unit.now }
    ensures { result ≡ each_name_is_plain unit.now }
{
    are_plain(unit, shapes, table, is_function(unit), names)
}

/// Whether a unit is a main program, a subroutine or a function with one entry, storage of its own, a plain heading and plain names. The names are
/// all of the unit, the table tells what they are, and the shapes what their dimensions are.
pub fn has_plain_parts(unit: &Unit, shapes: &Shapes, table: &NameFacts, names: &[&[u8]]) -> bool
    requires shapes { AreShapes unit.now shapes.now }
    requires table { AreNameFacts unit.now table.now }
    requires names { map (λ name. name.now) names.now ≡ all_names unit.now }
    ensures { result ≡ (may_run (unit_kind unit.now) && (heading_fits (unit_kind unit.now) unit.now.dummies
        && (has_no_entries unit.now && (has_own_storage unit.now && (has_plain_heading unit.now && each_name_is_plain unit.now))))) }
{
    may_run(unit)
        && heading_fits(unit)
        && has_no_entries(unit)
        && has_own_storage(unit)
        && has_plain_heading(unit, table)
        && has_plain_names(unit, shapes, table, names)
}
