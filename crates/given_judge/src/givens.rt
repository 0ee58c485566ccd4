//! Names with what statements give to them. Sections 8 and 9.
#![tactic(auto)]

ghost use Rattle.std.specs.Prelude.{◌≡◌, ◌++◌, ◌∷◌, [], OnOk, map};
ghost use Rattle.f_tree.specs.Attributes.{option_list, named_dummies};
ghost use Rattle.f_tree.specs.declared.statements.ConstantDefinition as constant;
ghost use Rattle.f_tree.specs.declared.statements.Declarator as declarator;
ghost use Rattle.f_tree.specs.declared.statements.ArrayDeclarator as array;
ghost use Rattle.f_tree.specs.Attributes.{shape_of_array, members_of};
ghost use Rattle.declaration_rows.specs.GivenRows as rows;
ghost use Rattle.declaration_rows.specs.GivenRows.{given, shaped_names, saved_names};
ghost use Rattle.given_judge.specs.GiftsSeen.{gift_in, givens_in, shape_of, dimensions_given};

use crate::gifts::Gift;
use f_tree::{
    ArrayDeclarator, CommonGroup, ConstantDefinition, Declarator, Dimension, DummyArgument,
    SavedItem, Text,
};
use std::alloc::AllocError;

/// A name with what a statement gives to it.
#[derive(Clone, Copy)]
pub(crate) struct GivenName<'a> {
    pub name: &'a [u8],
    pub gift: Gift,
}

/// Adds what is given to a name.
#[tactic(auto, unfolding(declaration_rows::specs::GivenRows::given, crate::specs::GiftsSeen::given_of))]
pub(crate) fn add_given<'a>(
    givens: &mut Vec<GivenName<'a>>,
    gift: Gift,
    name: &'a [u8],
) -> Result<(), AllocError>
    ensures { OnOk result (givens_in givens.new.items ≡ givens_in givens.old.items ++ given (gift_in gift) name.now ∷ []) }
{
    givens.push(GivenName { name, gift })?;
    Ok(())
}

/// Adds what is given to a name that may be there.
#[tactic(auto, unfolding(f_tree::specs::Attributes::option_list))]
pub(crate) fn add_optional<'a>(
    givens: &mut Vec<GivenName<'a>>,
    gift: Gift,
    name: &'a Option<Text>,
) -> Result<(), AllocError>
    ensures { OnOk result (givens_in givens.new.items ≡ givens_in givens.old.items ++ map (given (gift_in gift)) (option_list name.now)) }
{
    match name {
        Some(name) => add_given(givens, gift, name.as_slice()),
        None => Ok(()),
    }
}

/// Adds what is given to each of some names.
pub(crate) fn add_texts<'a>(
    givens: &mut Vec<GivenName<'a>>,
    gift: Gift,
    names: &'a [Text],
) -> Result<(), AllocError>
    ensures { OnOk result (givens_in givens.new.items ≡ givens_in givens.old.items ++ map (given (gift_in gift)) names.now) }
{
    for name in names {
        add_given(givens, gift, name.as_slice())?;
    }
    Ok(())
}

/// Adds a dummy argument.
#[tactic(auto, unfolding(f_tree::specs::Attributes::named_dummies, crate::specs::GiftsSeen::gift_in))]
fn add_dummy<'a>(
    givens: &mut Vec<GivenName<'a>>,
    dummy: &'a DummyArgument,
) -> Result<(), AllocError>
    ensures { OnOk result (givens_in givens.new.items ≡ givens_in givens.old.items ++ map (given rows.DummyOf) (named_dummies (dummy.now ∷ []))) }
{
    match dummy {
        DummyArgument::Named(name) => add_given(givens, Gift::DummyOf, name.as_slice()),
        DummyArgument::AlternateReturn => Ok(()),
    }
}

/// Adds dummy arguments. Section 15.9.2.
pub(crate) fn add_dummies<'a>(
    givens: &mut Vec<GivenName<'a>>,
    dummies: &'a [DummyArgument],
) -> Result<(), AllocError>
    ensures { OnOk result (givens_in givens.new.items ≡ givens_in givens.old.items ++ map (given rows.DummyOf) (named_dummies dummies.now)) }
{
    for dummy in dummies {
        add_dummy(givens, dummy)?;
    }
    Ok(())
}

/// Adds that names of a type statement have types. Section 8.4.
pub(crate) fn add_typed<'a>(
    givens: &mut Vec<GivenName<'a>>,
    items: &'a [Declarator],
) -> Result<(), AllocError>
    ensures { OnOk result (givens_in givens.new.items ≡ givens_in givens.old.items ++ map (λ (d : declarator.Declarator). given rows.TypeOf d.name) items.now) }
{
    for item in items {
        add_given(givens, Gift::TypeOf, item.name.as_slice())?;
    }
    Ok(())
}

/// Adds that a name has dimensions, where it has some.
#[tactic(auto, unfolding(crate::specs::GiftsSeen::dimensions_given, crate::specs::GiftsSeen::gift_in))]
fn add_shaped<'a>(
    givens: &mut Vec<GivenName<'a>>,
    name: &'a [u8],
    dimensions: &[Dimension],
) -> Result<(), AllocError>
    ensures { OnOk result (givens_in givens.new.items ≡ givens_in givens.old.items ++ dimensions_given name.now dimensions.now) }
{
    match dimensions {
        [] => Ok(()),
        [_, ..] => add_given(givens, Gift::DimensionsOf, name),
    }
}

/// Adds which names of a type statement have dimensions. Section 5.1.
pub(crate) fn add_shaped_typed<'a>(
    givens: &mut Vec<GivenName<'a>>,
    items: &'a [Declarator],
) -> Result<(), AllocError>
    ensures { OnOk result (givens_in givens.new.items ≡ givens_in givens.old.items ++ map (given rows.DimensionsOf) (shaped_names (map shape_of items.now))) }
{
    for item in items {
        add_shaped(givens, item.name.as_slice(), item.dimensions.as_slice())?;
    }
    Ok(())
}

/// Adds which names of a DIMENSION statement or a common block have dimensions. Sections 8.1 and 8.3.
pub(crate) fn add_shaped_arrays<'a>(
    givens: &mut Vec<GivenName<'a>>,
    items: &'a [ArrayDeclarator],
) -> Result<(), AllocError>
    ensures { OnOk result (givens_in givens.new.items ≡ givens_in givens.old.items ++ map (given rows.DimensionsOf) (shaped_names (map shape_of_array items.now))) }
{
    for item in items {
        add_shaped(givens, item.name.as_slice(), item.dimensions.as_slice())?;
    }
    Ok(())
}

/// Adds which names of a COMMON statement have dimensions. Section 8.3.
pub(crate) fn add_shaped_groups<'a>(
    givens: &mut Vec<GivenName<'a>>,
    groups: &'a [CommonGroup],
) -> Result<(), AllocError>
    ensures { OnOk result (givens_in givens.new.items
        ≡ givens_in givens.old.items ++ map (given rows.DimensionsOf) (shaped_names (map shape_of_array (members_of groups.now)))) }
{
    for group in groups {
        add_shaped_arrays(givens, group.items.as_slice())?;
    }
    Ok(())
}

/// Adds the names of a common block. Section 8.3.
fn add_members<'a>(
    givens: &mut Vec<GivenName<'a>>,
    items: &'a [ArrayDeclarator],
) -> Result<(), AllocError>
    ensures { OnOk result (givens_in givens.new.items ≡ givens_in givens.old.items ++ map (λ (d : array.ArrayDeclarator). given rows.InCommon d.name) items.now) }
{
    for item in items {
        add_given(givens, Gift::InCommon, item.name.as_slice())?;
    }
    Ok(())
}

/// Adds the names of the common blocks of a COMMON statement. Section 8.3.
pub(crate) fn add_groups<'a>(
    givens: &mut Vec<GivenName<'a>>,
    groups: &'a [CommonGroup],
) -> Result<(), AllocError>
    ensures { OnOk result (givens_in givens.new.items
        ≡ givens_in givens.old.items ++ map (λ (d : array.ArrayDeclarator). given rows.InCommon d.name) (members_of groups.now)) }
{
    for group in groups {
        add_members(givens, group.items.as_slice())?;
    }
    Ok(())
}

/// Adds the constants of a PARAMETER statement. Section 8.6.
pub(crate) fn add_constants<'a>(
    givens: &mut Vec<GivenName<'a>>,
    items: &'a [ConstantDefinition],
) -> Result<(), AllocError>
    ensures { OnOk result (givens_in givens.new.items
        ≡ givens_in givens.old.items ++ map (λ (d : constant.ConstantDefinition). given rows.ConstantOf d.name) items.now) }
{
    for item in items {
        add_given(givens, Gift::ConstantOf, item.name.as_slice())?;
    }
    Ok(())
}

/// Adds an item of a SAVE statement, where it is a variable or an array.
#[tactic(auto, unfolding(declaration_rows::specs::GivenRows::saved_names, crate::specs::GiftsSeen::gift_in))]
fn add_saved_item<'a>(
    givens: &mut Vec<GivenName<'a>>,
    item: &'a SavedItem,
) -> Result<(), AllocError>
    ensures { OnOk result (givens_in givens.new.items ≡ givens_in givens.old.items ++ map (given rows.SavedOf) (saved_names (item.now ∷ []))) }
{
    match item {
        SavedItem::Named(name) => add_given(givens, Gift::SavedOf, name.as_slice()),
        SavedItem::Block(_) => Ok(()),
    }
}

/// Adds the variables and arrays of a SAVE statement. Section 8.9.
pub(crate) fn add_saved<'a>(
    givens: &mut Vec<GivenName<'a>>,
    items: &'a [SavedItem],
) -> Result<(), AllocError>
    ensures { OnOk result (givens_in givens.new.items ≡ givens_in givens.old.items ++ map (given rows.SavedOf) (saved_names items.now)) }
{
    for item in items {
        add_saved_item(givens, item)?;
    }
    Ok(())
}
