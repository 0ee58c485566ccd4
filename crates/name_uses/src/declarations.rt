//! The names of specification statements. Section 8.
#![tactic(auto)]

ghost use Rattle.std.specs.Prelude.{◌≡◌, ◌++◌, OnOk};
ghost use Rattle.f_tree.specs.Uses as written;
ghost use Rattle.f_tree.specs.Uses.{used, uses_of, all_of, if_any, uses_of_upper, uses_of_dimension, uses_of_length, uses_of_declarator, uses_of_array, uses_of_type, uses_of_saved, uses_of_dummy};
ghost use Rattle.f_tree.specs.declared.statements.CommonGroup as common;
ghost use Rattle.f_tree.specs.declared.statements.EquivalenceGroup as equivalence;
ghost use Rattle.f_tree.specs.declared.statements.ConstantDefinition as constant;
ghost use Rattle.name_uses.specs.UsesSeen.{used_in, manner_in};

use crate::expressions::{add_list_uses, add_optional, add_uses_of};
use crate::uses::{Manner, Use, add_use};
use f_tree::{
    ArrayDeclarator, CommonGroup, ConstantDefinition, Declarator, Dimension, DummyArgument,
    EquivalenceGroup, LengthSpec, SavedItem, Text, TypeSpec, UpperBound,
};
use std::alloc::AllocError;

/// Adds the names of an upper bound.
#[tactic(auto, unfolding(f_tree::specs::Uses::uses_of_upper))]
fn add_upper<'a>(uses: &mut Vec<Use<'a>>, upper: &'a UpperBound) -> Result<(), AllocError>
    ensures { OnOk result (used_in uses.new.items ≡ used_in uses.old.items ++ uses_of_upper upper.now) }
{
    match upper {
        UpperBound::Value(e) => add_uses_of(uses, e),
        UpperBound::Star => Ok(()),
    }
}

/// Adds the names of a dimension.
#[tactic(auto, unfolding(f_tree::specs::Uses::uses_of_dimension))]
fn add_dimension<'a>(uses: &mut Vec<Use<'a>>, dimension: &'a Dimension) -> Result<(), AllocError>
    ensures { OnOk result (used_in uses.new.items ≡ used_in uses.old.items ++ uses_of_dimension dimension.now) }
{
    add_optional(uses, &dimension.lower)?;
    add_upper(uses, &dimension.upper)
}

/// Adds the names of dimensions.
fn add_dimensions<'a>(
    uses: &mut Vec<Use<'a>>,
    dimensions: &'a [Dimension],
) -> Result<(), AllocError>
    ensures { OnOk result (used_in uses.new.items ≡ used_in uses.old.items ++ all_of uses_of_dimension dimensions.now) }
{
    for dimension in dimensions {
        add_dimension(uses, dimension)?;
    }
    Ok(())
}

/// Adds the names of a length, if it is written.
#[tactic(auto, unfolding(f_tree::specs::Uses::uses_of_length, f_tree::specs::Uses::if_any))]
fn add_length<'a>(uses: &mut Vec<Use<'a>>, length: &'a Option<LengthSpec>) -> Result<(), AllocError>
    ensures { OnOk result (used_in uses.new.items ≡ used_in uses.old.items ++ if_any uses_of_length length.now) }
{
    match length {
        Some(LengthSpec::Value(e)) => add_uses_of(uses, e),
        Some(LengthSpec::Star) | None => Ok(()),
    }
}

/// Adds a name of a type statement with those of its dimensions and its length.
#[tactic(auto, unfolding(f_tree::specs::Uses::uses_of_declarator, crate::specs::UsesSeen::manner_in))]
fn add_declarator<'a>(uses: &mut Vec<Use<'a>>, declarator: &'a Declarator) -> Result<(), AllocError>
    ensures { OnOk result (used_in uses.new.items ≡ used_in uses.old.items ++ uses_of_declarator declarator.now) }
{
    add_use(uses, declarator.name.as_slice(), Manner::Declared)?;
    add_dimensions(uses, declarator.dimensions.as_slice())?;
    add_length(uses, &declarator.length)
}

/// Adds the names of a type statement behind the type.
fn add_declarators<'a>(
    uses: &mut Vec<Use<'a>>,
    declarators: &'a [Declarator],
) -> Result<(), AllocError>
    ensures { OnOk result (used_in uses.new.items ≡ used_in uses.old.items ++ all_of uses_of_declarator declarators.now) }
{
    for declarator in declarators {
        add_declarator(uses, declarator)?;
    }
    Ok(())
}

/// Adds the names of a type statement.
#[tactic(auto, unfolding(f_tree::specs::Uses::uses_of_type))]
pub(crate) fn add_typed<'a>(
    uses: &mut Vec<Use<'a>>,
    spec: &'a TypeSpec,
    declarators: &'a [Declarator],
) -> Result<(), AllocError>
    ensures { OnOk result (used_in uses.new.items ≡ used_in uses.old.items ++ (uses_of_type spec.now ++ all_of uses_of_declarator declarators.now)) }
{
    add_length(uses, &spec.length)?;
    add_declarators(uses, declarators)
}

/// Adds a name of a COMMON or DIMENSION statement with those of its dimensions.
#[tactic(auto, unfolding(f_tree::specs::Uses::uses_of_array, crate::specs::UsesSeen::manner_in))]
fn add_array<'a>(uses: &mut Vec<Use<'a>>, array: &'a ArrayDeclarator) -> Result<(), AllocError>
    ensures { OnOk result (used_in uses.new.items ≡ used_in uses.old.items ++ uses_of_array array.now) }
{
    add_use(uses, array.name.as_slice(), Manner::Declared)?;
    add_dimensions(uses, array.dimensions.as_slice())
}

/// Adds the names of a DIMENSION statement.
pub(crate) fn add_arrays<'a>(
    uses: &mut Vec<Use<'a>>,
    arrays: &'a [ArrayDeclarator],
) -> Result<(), AllocError>
    ensures { OnOk result (used_in uses.new.items ≡ used_in uses.old.items ++ all_of uses_of_array arrays.now) }
{
    for array in arrays {
        add_array(uses, array)?;
    }
    Ok(())
}

/// Adds the names of a COMMON statement.
pub(crate) fn add_commons<'a>(
    uses: &mut Vec<Use<'a>>,
    groups: &'a [CommonGroup],
) -> Result<(), AllocError>
    ensures { OnOk result (used_in uses.new.items ≡ used_in uses.old.items ++ all_of (λ (g : common.CommonGroup). all_of uses_of_array g.items) groups.now) }
{
    for group in groups {
        add_arrays(uses, group.items.as_slice())?;
    }
    Ok(())
}

/// Adds the names of an EQUIVALENCE statement.
pub(crate) fn add_equivalences<'a>(
    uses: &mut Vec<Use<'a>>,
    groups: &'a [EquivalenceGroup],
) -> Result<(), AllocError>
    ensures { OnOk result (used_in uses.new.items ≡ used_in uses.old.items ++ all_of (λ (g : equivalence.EquivalenceGroup). all_of uses_of g.places) groups.now) }
{
    for group in groups {
        add_list_uses(uses, group.places.as_slice())?;
    }
    Ok(())
}

/// Adds the name of a constant and those of its value.
#[tactic(auto, unfolding(crate::specs::UsesSeen::manner_in))]
fn add_constant<'a>(
    uses: &mut Vec<Use<'a>>,
    constant: &'a ConstantDefinition,
) -> Result<(), AllocError>
    ensures { OnOk result (used_in uses.new.items ≡ used_in uses.old.items ++ (used constant.now.name written.Declared ++ uses_of constant.now.value)) }
{
    add_use(uses, constant.name.as_slice(), Manner::Declared)?;
    add_uses_of(uses, &constant.value)
}

/// Adds the names of a PARAMETER statement.
pub(crate) fn add_constants<'a>(
    uses: &mut Vec<Use<'a>>,
    constants: &'a [ConstantDefinition],
) -> Result<(), AllocError>
    ensures { OnOk result (used_in uses.new.items
        ≡ used_in uses.old.items ++ all_of (λ (d : constant.ConstantDefinition). used d.name written.Declared ++ uses_of d.value) constants.now) }
{
    for constant in constants {
        add_constant(uses, constant)?;
    }
    Ok(())
}

/// Adds the names of an EXTERNAL or INTRINSIC statement.
#[tactic(auto, unfolding(crate::specs::UsesSeen::manner_in))]
pub(crate) fn add_names<'a>(uses: &mut Vec<Use<'a>>, names: &'a [Text]) -> Result<(), AllocError>
    ensures { OnOk result (used_in uses.new.items ≡ used_in uses.old.items ++ all_of (λ x. used x written.Declared) names.now) }
{
    for name in names {
        add_use(uses, name.as_slice(), Manner::Declared)?;
    }
    Ok(())
}

/// Adds the name of an item of a SAVE statement that is no common block.
#[tactic(auto, unfolding(f_tree::specs::Uses::uses_of_saved, crate::specs::UsesSeen::manner_in))]
fn add_saved<'a>(uses: &mut Vec<Use<'a>>, item: &'a SavedItem) -> Result<(), AllocError>
    ensures { OnOk result (used_in uses.new.items ≡ used_in uses.old.items ++ uses_of_saved item.now) }
{
    match item {
        SavedItem::Named(name) => add_use(uses, name.as_slice(), Manner::Declared),
        SavedItem::Block(_) => Ok(()),
    }
}

/// Adds the names of a SAVE statement.
pub(crate) fn add_saved_items<'a>(
    uses: &mut Vec<Use<'a>>,
    items: &'a [SavedItem],
) -> Result<(), AllocError>
    ensures { OnOk result (used_in uses.new.items ≡ used_in uses.old.items ++ all_of uses_of_saved items.now) }
{
    for item in items {
        add_saved(uses, item)?;
    }
    Ok(())
}

/// Adds a dummy argument, if it has a name.
#[tactic(auto, unfolding(f_tree::specs::Uses::uses_of_dummy, crate::specs::UsesSeen::manner_in))]
fn add_dummy<'a>(uses: &mut Vec<Use<'a>>, dummy: &'a DummyArgument) -> Result<(), AllocError>
    ensures { OnOk result (used_in uses.new.items ≡ used_in uses.old.items ++ uses_of_dummy dummy.now) }
{
    match dummy {
        DummyArgument::Named(name) => add_use(uses, name.as_slice(), Manner::Declared),
        DummyArgument::AlternateReturn => Ok(()),
    }
}

/// Adds the dummy arguments that have names.
fn add_dummies<'a>(uses: &mut Vec<Use<'a>>, dummies: &'a [DummyArgument]) -> Result<(), AllocError>
    ensures { OnOk result (used_in uses.new.items ≡ used_in uses.old.items ++ all_of uses_of_dummy dummies.now) }
{
    for dummy in dummies {
        add_dummy(uses, dummy)?;
    }
    Ok(())
}

/// Adds the names of an ENTRY statement.
#[tactic(auto, unfolding(crate::specs::UsesSeen::manner_in))]
pub(crate) fn add_entry<'a>(
    uses: &mut Vec<Use<'a>>,
    name: &'a [u8],
    dummies: &'a [DummyArgument],
) -> Result<(), AllocError>
    ensures { OnOk result (used_in uses.new.items ≡ used_in uses.old.items ++ (used name.now written.Declared ++ all_of uses_of_dummy dummies.now)) }
{
    add_use(uses, name, Manner::Declared)?;
    add_dummies(uses, dummies)
}
