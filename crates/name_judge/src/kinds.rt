//! The rows of one name, by what it is.
#![tactic(auto)]

ghost use Rattle.std.specs.Prelude.{◌≡◌, ◌++◌, OnOk};
ghost use Rattle.declaration_rows.specs.StatementRows.{is_typed};
ghost use Rattle.name_places.specs.FirstPlaces.{rows_at};
ghost use Rattle.name_judge.specs.FactRows as spec;

use f_tree::{Basic, Class, Kind, Refusal};
use name_facts::{Bound, ConstantValue, NameFact, all_closed};
use name_places::{Place, add_at};
use std::alloc::AllocError;

/// Whether a type has values.
#[tactic(auto, unfolding(declaration_rows::specs::StatementRows::is_typed))]
fn is_typed(basic: Basic) -> bool
    ensures { result ≡ is_typed basic }
{
    match basic {
        Basic::Integer | Basic::Logical | Basic::Character => true,
        Basic::Untyped => false,
    }
}

/// Whether a name of a class has a type; a procedure has one where it is referenced as a function.
#[tactic(auto, unfolding(crate::specs::FactRows::class_has_type))]
fn has_type(is_referenced: bool, class: Class) -> bool
    ensures { result ≡ spec.class_has_type is_referenced class }
{
    match class {
        Class::Stored | Class::Dummy | Class::Result | Class::StatementFunction => true,
        Class::Procedure | Class::DummyProcedure => is_referenced,
        Class::Constant | Class::Unit | Class::Intrinsic => false,
    }
}

/// Adds the row of a name that has to have a type that has values. Section 4.1.
#[tactic(auto, unfolding(crate::specs::FactRows::type_kinds))]
pub(crate) fn add_type_row(
    found: &mut Vec<Refusal>,
    place: Place,
    is_referenced: bool,
    fact: &NameFact,
) -> Result<(), AllocError>
    ensures { OnOk result (found.new.items ≡ found.old.items ++ rows_at place (spec.type_kinds is_referenced fact.now)) }
{
    let holds = !has_type(is_referenced, fact.class) || is_typed(fact.basic);
    add_at(found, place, holds, Kind::NameHasTypeReal)
}

/// Adds the rows of a result, which is no array, and which only a function has. Section 15.5.1.
fn add_result_rows(
    found: &mut Vec<Refusal>,
    place: Place,
    is_function: bool,
    fact: &NameFact,
) -> Result<(), AllocError>
    ensures { OnOk result (found.new.items ≡ found.old.items ++ rows_at place (spec.result_kinds is_function fact.now)) }
{
    add_at(found, place, fact.rank == 0, Kind::ConflictingAttributes)?;
    add_at(
        found,
        place,
        fact.bounds.len() == 0,
        Kind::ConflictingAttributes,
    )?;
    add_at(found, place, is_function, Kind::ConflictingAttributes)
}

/// Adds the rows of a name that has no dimensions. Section 18.
#[tactic(auto, unfolding(crate::specs::FactRows::conflict_by))]
pub(crate) fn add_conflict_rows(
    found: &mut Vec<Refusal>,
    place: Place,
    is_function: bool,
    fact: &NameFact,
) -> Result<(), AllocError>
    ensures { OnOk result (found.new.items ≡ found.old.items ++ rows_at place (spec.conflict_by fact.now.class is_function fact.now)) }
{
    match fact.class {
        Class::Constant | Class::DummyProcedure => {
            add_at(found, place, fact.rank == 0, Kind::ConflictingAttributes)
        }
        Class::Result => add_result_rows(found, place, is_function, fact),
        Class::Stored | Class::Dummy | Class::Procedure => Ok(()),
        Class::StatementFunction | Class::Intrinsic | Class::Unit => Ok(()),
    }
}

/// Adds the rows of what is stored: it has a length and constant bounds. Sections 5.1 and 8.4.2.
fn add_stored_rows(
    found: &mut Vec<Refusal>,
    place: Place,
    row: Kind,
    fact: &NameFact,
) -> Result<(), AllocError>
    ensures { OnOk result (found.new.items ≡ found.old.items ++ rows_at place (spec.stored_kinds row fact.now)) }
{
    add_at(found, place, fact.width.is_some(), row)?;
    let are_constant = fact.bounds.len() == fact.rank;
    add_at(found, place, are_constant, Kind::BoundNotConstant)?;
    let are_closed = all_closed(fact.bounds.as_slice());
    add_at(found, place, are_closed, Kind::BoundNotConstant)
}

/// Adds the rows of lengths and bounds. Sections 5.1 and 8.4.2.
#[tactic(auto, unfolding(crate::specs::FactRows::bound_by))]
pub(crate) fn add_bound_rows(
    found: &mut Vec<Refusal>,
    place: Place,
    row: Kind,
    are_bounds: bool,
    fact: &NameFact,
) -> Result<(), AllocError>
    ensures { OnOk result (found.new.items ≡ found.old.items ++ rows_at place (spec.bound_by fact.now.class row are_bounds fact.now)) }
{
    match fact.class {
        Class::Stored => add_stored_rows(found, place, row, fact),
        Class::Dummy => add_at(found, place, are_bounds, Kind::BoundNotConstant),
        Class::Constant | Class::Result | Class::Procedure | Class::DummyProcedure => Ok(()),
        Class::StatementFunction | Class::Intrinsic | Class::Unit => Ok(()),
    }
}

/// Whether a dimension has an element: its upper bound is not below its lower one. An upper bound `*` is assumed at the call.
#[tactic(auto, unfolding(crate::specs::FactRows::reaches, declaration_rows::specs::NameRows::reaches))]
fn reaches(bound: &Bound) -> bool
    ensures { result ≡ spec.reaches bound.now }
{
    match bound.upper {
        Some(upper) => bound.lower <= upper,
        None => true,
    }
}

/// Whether dimensions have elements. Section 5.1.1.1.
#[tactic(auto, unfolding(crate::specs::FactRows::have_elements))]
fn have_elements(bounds: &[Bound]) -> bool
    ensures { result ≡ spec.have_elements bounds.now }
{
    for bound in bounds {
        if !reaches(bound) {
            return false;
        }
    }
    true
}

/// Adds the row of an array without elements.
#[tactic(auto, unfolding(crate::specs::FactRows::element_kinds))]
pub(crate) fn add_element_row(
    found: &mut Vec<Refusal>,
    place: Place,
    fact: &NameFact,
) -> Result<(), AllocError>
    ensures { OnOk result (found.new.items ≡ found.old.items ++ rows_at place (spec.element_kinds fact.now)) }
{
    let holds = have_elements(fact.bounds.as_slice());
    add_at(found, place, holds, Kind::ArrayOfNoElement)
}

/// Whether a constant has a value of its type.
#[tactic(auto, unfolding(crate::specs::FactRows::has_value))]
fn has_value(basic: Basic, constant: &Option<ConstantValue>) -> bool
    ensures { result ≡ spec.has_value basic constant.now }
{
    match (basic, constant) {
        (Basic::Integer, Some(ConstantValue::Integer(_))) => true,
        (Basic::Logical, Some(ConstantValue::Logical(_))) => true,
        (Basic::Character, Some(ConstantValue::Text(_))) => true,
        _ => false,
    }
}

/// Adds the row of a constant without a value of its type. Section 8.6.
#[tactic(auto, unfolding(crate::specs::FactRows::constant_by))]
pub(crate) fn add_constant_row(
    found: &mut Vec<Refusal>,
    place: Place,
    fact: &NameFact,
) -> Result<(), AllocError>
    ensures { OnOk result (found.new.items ≡ found.old.items ++ rows_at place (spec.constant_by fact.now.class fact.now)) }
{
    match fact.class {
        Class::Constant => {
            let holds = has_value(fact.basic, &fact.constant);
            add_at(found, place, holds, Kind::BadParameterValue)
        }
        Class::Stored | Class::Dummy | Class::Result | Class::Procedure => Ok(()),
        Class::DummyProcedure | Class::StatementFunction => Ok(()),
        Class::Intrinsic | Class::Unit => Ok(()),
    }
}
