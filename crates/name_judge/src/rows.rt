//! The rows of one name, each at its statement.
#![tactic(auto)]

ghost use Rattle.std.specs.Prelude.{◌≡◌, ◌++◌, OnOk, option_map};
ghost use Rattle.f_tree.specs.Uses.{is_among};
ghost use Rattle.f_tree.specs.Attributes.{own_names, all_dummies};
ghost use Rattle.declaration_rows.specs.NameRows as rows;
ghost use Rattle.declaration_rows.specs.NameRows.{given_names, at_first, at_both, mentions, declares, fixes, makes, first_statements, shape_in};
ghost use Rattle.name_classes.specs.KnownSigns.{AreSigns};
ghost use Rattle.name_facts.specs.GivenFacts.{IsNameFact, AreNameFacts};
ghost use Rattle.name_places.specs.FirstPlaces.{ArePlaces};
ghost use Rattle.declared_types.specs.TypeTables.{AreTypes};
ghost use Rattle.name_judge.specs.FactRows.{AreTables};

use crate::bounds::are_dummy_bounds;
use crate::kinds::{
    add_bound_rows, add_conflict_rows, add_constant_row, add_element_row, add_type_row,
};
use crate::tables::Tables;
use declared_types::{Types, shape, typed_name};
use f_tree::{Kind, LengthSpec, Refusal, Unit, UnitKind};
use name_classes::Signs;
use name_facts::{NameFact, NameFacts};
use name_places::{NamePlaces, conflict_place, declaration_place, mention_place, parameter_place};
use std::alloc::AllocError;

/// Whether a name is that of the unit or of one of its entries, or one of their dummy arguments.
fn is_in_head(unit: &Unit, signs: &Signs, name: &[u8]) -> bool
    requires { AreSigns unit.now signs.now }
    ensures { result ≡ is_among name.now (own_names unit.now ++ all_dummies unit.now) }
{
    signs.entries.own_names.has(name) || signs.entries.dummies.has(name)
}

/// Adds the rows of the type of a name.
pub(crate) fn add_mention_rows(
    found: &mut Vec<Refusal>,
    unit: &Unit,
    signs: &Signs,
    places: &NamePlaces,
    name: &[u8],
    fact: &NameFact,
) -> Result<(), AllocError>
    requires signs { AreSigns unit.now signs.now }
    requires places { ArePlaces unit.now places.now }
    requires fact { IsNameFact (given_names unit.now name.now) fact.now }
    ensures { OnOk result (found.new.items ≡ found.old.items
        ++ at_first unit.now (mentions unit.now name.now) (first_statements unit.now name.now)
        (rows.type_rows (given_names unit.now name.now) ++ rows.function_rows (rows.is_referenced unit.now name.now) (given_names unit.now name.now))) }
{
    let place = mention_place(unit, places, is_in_head(unit, signs, name), name);
    add_type_row(found, place, signs.used.with_list.has(name), fact)
}

/// Whether a unit is a function.
#[tactic(auto, unfolding(declaration_rows::specs::NameRows::is_function))]
fn is_function(unit: &Unit) -> bool
    ensures { result ≡ rows.is_function unit.now }
{
    match &unit.kind {
        UnitKind::Function(_) => true,
        UnitKind::Main | UnitKind::Subroutine | UnitKind::BlockData => false,
    }
}

/// Adds the rows of a name that has dimensions and is something that has none.
pub(crate) fn add_conflicts(
    found: &mut Vec<Refusal>,
    unit: &Unit,
    places: &NamePlaces,
    name: &[u8],
    fact: &NameFact,
) -> Result<(), AllocError>
    requires places { ArePlaces unit.now places.now }
    requires fact { IsNameFact (given_names unit.now name.now) fact.now }
    ensures { OnOk result (found.new.items ≡ found.old.items
        ++ at_both unit.now (makes unit.now name.now (given_names unit.now name.now)) (declares name.now) unit.now.statements
        (rows.conflict_rows unit.now (given_names unit.now name.now))) }
{
    let place = conflict_place(unit, places, fact.class, name);
    add_conflict_rows(found, place, is_function(unit), fact)
}

/// Whether a length is `*(*)`. Section 8.4.2.
#[tactic(auto, unfolding(declaration_rows::specs::NameRows::is_star))]
fn is_star(length: Option<&LengthSpec>) -> bool
    ensures { result ≡ rows.is_star (option_map (λ one. one.now) length.entry) }
{
    match length {
        Some(LengthSpec::Star) => true,
        Some(LengthSpec::Value(_)) | None => false,
    }
}

/// The row of a stored name without a constant length.
fn unmeasured(unit: &Unit, types: &Types, name: &[u8]) -> Kind
    requires { AreTypes unit.now types.now }
    ensures { result ≡ rows.unmeasured unit.now name.now }
{
    if is_star(typed_name(unit, types, name).length) {
        return Kind::UseOfAssumedLength;
    }
    Kind::BoundNotConstant
}

/// Adds the rows of the length and the bounds of a name.
pub(crate) fn add_bounds(
    found: &mut Vec<Refusal>,
    unit: &Unit,
    facts: &NameFacts,
    tables: &Tables,
    name: &[u8],
    fact: &NameFact,
) -> Result<(), AllocError>
    requires facts { AreNameFacts unit.now facts.now }
    requires tables { AreTables unit.now tables.now }
    requires fact { IsNameFact (given_names unit.now name.now) fact.now }
    ensures { OnOk result (found.new.items ≡ found.old.items
        ++ at_first unit.now (declares name.now) unit.now.statements
        (rows.bound_rows (given_names unit.now) (shape_in unit.now name.now) (rows.unmeasured unit.now name.now) (given_names unit.now name.now))) }
{
    let place = declaration_place(unit, &tables.places, name);
    let row = unmeasured(unit, &tables.types, name);
    let are_bounds = are_dummy_bounds(facts, shape(unit, &tables.shapes, name));
    add_bound_rows(found, place, row, are_bounds, fact)
}

/// Adds the row of a name whose dimensions have no element.
pub(crate) fn add_elements(
    found: &mut Vec<Refusal>,
    unit: &Unit,
    places: &NamePlaces,
    name: &[u8],
    fact: &NameFact,
) -> Result<(), AllocError>
    requires places { ArePlaces unit.now places.now }
    requires fact { IsNameFact (given_names unit.now name.now) fact.now }
    ensures { OnOk result (found.new.items ≡ found.old.items
        ++ at_first unit.now (declares name.now) unit.now.statements (rows.element_rows (given_names unit.now name.now))) }
{
    let place = declaration_place(unit, places, name);
    add_element_row(found, place, fact)
}

/// Adds the row of a constant that has no value of its type.
pub(crate) fn add_constant(
    found: &mut Vec<Refusal>,
    unit: &Unit,
    places: &NamePlaces,
    name: &[u8],
    fact: &NameFact,
) -> Result<(), AllocError>
    requires places { ArePlaces unit.now places.now }
    requires fact { IsNameFact (given_names unit.now name.now) fact.now }
    ensures { OnOk result (found.new.items ≡ found.old.items
        ++ at_first unit.now (fixes name.now) unit.now.statements (rows.constant_rows (given_names unit.now name.now))) }
{
    let place = parameter_place(unit, places, name);
    add_constant_row(found, place, fact)
}
