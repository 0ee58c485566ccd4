//! What a unit keeps of its dummy arrays with adjustable bounds when it begins. Sections 5.1.1, 5.1.2 and 5.5.1.

ghost use Rattle.std.specs.Prelude.{◌≡◌, ◌++◌, ◌∷◌, [], IfOk, OnOk, map, option_map};
ghost use Rattle.f_tree.specs.Attributes.{dimension_read};
ghost use Rattle.declaration_rows.specs.NameRows.{given_names};
ghost use Rattle.declared_types.specs.TypeTables.{AreShapes};
ghost use Rattle.expression_lowering.specs.TableNames.{attribute_in};
ghost use Rattle.lowered_tree.specs.Shapes.{pure_of};
ghost use Rattle.name_facts.specs.GivenFacts.{AreNameFacts, fact_in};
ghost use Rattle.bound_values.specs.BoundValues as value;
ghost use Rattle.unit_translation.specs.UnitBounds.{dimension_kept, dimensions_kept, array_kept};
ghost use Rattle.unit_writer.specs.ToldUnits.{bound_told, bound_kind_told};
ghost use Rattle.translator.specs.UnitFiles.{kept_among, kept_if};

use bound_values::{is_adjustable, lower_value, size_value};
use declared_types::{Shapes, shape};
use f_tree::{Dimension, DummyArgument, Unit};
use lowered_tree::Pure;
use name_facts::NameFacts;
use std::alloc::{AllocError, Global};
use unit_writer::{BoundKind, KeptBound};

/// Puts a bound behind those that are kept, where it has a value.
#[tactic(auto, unfolding(crate::specs::UnitFiles::kept_if))]
fn add_bound<'a>(
    name: &'a [u8],
    place: usize,
    kind: BoundKind,
    value: Option<Pure>,
    found: &mut Vec<KeptBound<'a>>,
) -> Result<(), AllocError>
    ensures { OnOk result (map bound_told found.new.items ≡ map bound_told found.old.items ++ kept_if name.now place (bound_kind_told kind) (option_map pure_of value)) }
{
    if let Some(value) = value {
        found.push(KeptBound {
            dummy: name,
            place,
            kind,
            value,
        })?;
    }
    Ok(())
}

/// Puts the bounds of a dimension behind those that are kept: the lower one, and the size where it has an upper one.
fn add_dimension<'a>(
    alloc: Global,
    table: &NameFacts,
    name: &'a [u8],
    place: usize,
    dimension: &Dimension,
    found: &mut Vec<KeptBound<'a>>,
) -> Result<(), AllocError>
    ensures { OnOk result (map bound_told found.new.items ≡ map bound_told found.old.items ++ dimension_kept name.now place (dimension_read (attribute_in table.now) dimension.now)) }
{
    let lower = lower_value(alloc, table, &dimension.lower)?;
    add_bound(name, place, BoundKind::Lower, lower, found)?;
    let size = size_value(alloc, table, dimension)?;
    add_bound(name, place, BoundKind::Size, size, found)
}

/// Puts the bounds of all dimensions of an array behind those that are kept.
fn add_dimensions<'a>(
    alloc: Global,
    table: &NameFacts,
    name: &'a [u8],
    dimensions: &[Dimension],
    found: &mut Vec<KeptBound<'a>>,
) -> Result<(), AllocError>
    ensures { OnOk result (map bound_told found.new.items ≡ map bound_told found.old.items ++ dimensions_kept name.now 0 (value.dimensions_told table.now dimensions.now)) }
{
    for place in 0..dimensions.len() {
        add_dimension(alloc, table, name, place, &dimensions[place], found)?;
    }
    Ok(())
}

/// Whether a name is that of an array with a dimension that is not constant.
#[tactic(auto, unfolding(name_facts::specs::GivenFacts::fact_or, name_facts::specs::GivenFacts::no_fact, bound_values::specs::BoundValues::is_adjustable))]
fn is_adjustable_array(table: &NameFacts, name: &[u8]) -> bool
    ensures { result ≡ value.is_adjustable (fact_in table.now name.now) }
{
    match table.get(name) {
        Some(fact) => is_adjustable(fact),
        None => false,
    }
}

/// Puts the bounds of a dummy behind those that are kept, if it is an array with a dimension that is not constant.
fn add_array<'a>(
    alloc: Global,
    unit: &Unit,
    shapes: &Shapes,
    table: &NameFacts,
    name: &'a [u8],
    found: &mut Vec<KeptBound<'a>>,
) -> Result<(), AllocError>
    requires shapes { AreShapes unit.now shapes.now }
    requires table { AreNameFacts unit.now table.now }
    ensures { OnOk result (map bound_told found.new.items ≡ map bound_told found.old.items ++ array_kept name.now (given_names unit.now name.now)) }
{
    if is_adjustable_array(table, name) {
        add_dimensions(alloc, table, name, shape(unit, shapes, name), found)
    } else {
        Ok(())
    }
}

/// Puts the bounds of a dummy argument behind those that are kept.
fn add_dummy<'a>(
    alloc: Global,
    unit: &Unit,
    shapes: &Shapes,
    table: &NameFacts,
    dummy: &'a DummyArgument,
    found: &mut Vec<KeptBound<'a>>,
) -> Result<(), AllocError>
    requires shapes { AreShapes unit.now shapes.now }
    requires table { AreNameFacts unit.now table.now }
    ensures { OnOk result (map bound_told found.new.items ≡ map bound_told found.old.items ++ kept_among unit.now (dummy.now ∷ [])) }
{
    match dummy {
        DummyArgument::Named(name) => add_array(alloc, unit, shapes, table, name.as_slice(), found),
        DummyArgument::AlternateReturn => Ok(()),
    }
}

/// What is kept of the arrays among the dummy arguments of a unit, in their order.
pub(crate) fn bounds_kept<'a>(
    alloc: Global,
    unit: &Unit,
    shapes: &Shapes,
    table: &NameFacts,
    dummies: &'a [DummyArgument],
) -> Result<Vec<KeptBound<'a>>, AllocError>
    requires shapes { AreShapes unit.now shapes.now }
    requires table { AreNameFacts unit.now table.now }
    ensures { IfOk result (λ found. map bound_told found.items ≡ kept_among unit.now dummies.now) }
{
    let mut found = Vec::new(alloc);
    for dummy in dummies {
        add_dummy(alloc, unit, shapes, table, dummy, &mut found)?;
    }
    Ok(found)
}
