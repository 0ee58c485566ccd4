//! What each statement gives to names. Sections 8, 9, 15.4 and 15.7.
#![tactic(auto)]

ghost use Rattle.std.specs.Prelude.{◌≡◌, ◌++◌, ◌∷◌, [], OnOk, map};
ghost use Rattle.f_tree.specs.Uses.{heading_of};
ghost use Rattle.f_tree.specs.Attributes.{shape_of_array, members_of, named_dummies, arrays_of};
ghost use Rattle.f_tree.specs.declared.statements.Declarator as declarator;
ghost use Rattle.f_tree.specs.declared.statements.ArrayDeclarator as array;
ghost use Rattle.declaration_rows.specs.GivenRows as rows;
ghost use Rattle.declaration_rows.specs.GivenRows.{given, givens_of, heading_givens, own_gift, shaped_names};
ghost use Rattle.name_table.specs.Named.{names_in, IsNameSet};
ghost use Rattle.given_judge.specs.GiftsSeen.{gift_in, givens_in, shape_of, definition_given, heading_type};

use crate::gifts::Gift;
use crate::givens::{
    GivenName, add_constants, add_dummies, add_given, add_groups, add_optional, add_saved,
    add_shaped_arrays, add_shaped_groups, add_shaped_typed, add_texts, add_typed,
};
use crate::owners::{add_data, add_equivalences};
use f_tree::{Basic, Body, CommonGroup, Declarator, DummyArgument, Expr, Unit, UnitKind};
use name_table::NameSet;
use name_uses::assignments::{applied_name, defines_function};
use std::alloc::AllocError;

/// What the name of a unit or of one of its entries is given.
#[tactic(auto, unfolding(declaration_rows::specs::GivenRows::own_gift, crate::specs::GiftsSeen::gift_in))]
fn own_gift(kind: &UnitKind) -> Gift
    ensures { gift_in result ≡ own_gift kind.now }
{
    match kind {
        UnitKind::Function(_) => Gift::ResultOf,
        UnitKind::Main | UnitKind::Subroutine | UnitKind::BlockData => Gift::UnitOf,
    }
}

/// Adds what a type statement gives: types and dimensions.
fn add_declared<'a>(
    givens: &mut Vec<GivenName<'a>>,
    items: &'a [Declarator],
) -> Result<(), AllocError>
    ensures { OnOk result (givens_in givens.new.items
        ≡ givens_in givens.old.items ++ (map (λ (d : declarator.Declarator). given rows.TypeOf d.name) items.now
        ++ map (given rows.DimensionsOf) (shaped_names (map shape_of items.now)))) }
{
    add_typed(givens, items)?;
    add_shaped_typed(givens, items)
}

/// Adds what a COMMON statement gives: dimensions, and places in common blocks.
fn add_commons<'a>(
    givens: &mut Vec<GivenName<'a>>,
    groups: &'a [CommonGroup],
) -> Result<(), AllocError>
    ensures { OnOk result (givens_in givens.new.items
        ≡ givens_in givens.old.items ++ (map (given rows.DimensionsOf) (shaped_names (map shape_of_array (members_of groups.now)))
        ++ map (λ (d : array.ArrayDeclarator). given rows.InCommon d.name) (members_of groups.now))) }
{
    add_shaped_groups(givens, groups)?;
    add_groups(givens, groups)
}

/// Adds the name of an ENTRY statement and its dummy arguments.
fn add_entry<'a>(
    givens: &mut Vec<GivenName<'a>>,
    unit: &Unit,
    name: &'a [u8],
    dummies: &'a [DummyArgument],
) -> Result<(), AllocError>
    ensures { OnOk result (givens_in givens.new.items
        ≡ givens_in givens.old.items ++ (given (own_gift unit.now.kind) name.now ∷ [] ++ map (given rows.DummyOf) (named_dummies dummies.now))) }
{
    add_given(givens, own_gift(&unit.kind), name)?;
    add_dummies(givens, dummies)
}

/// Adds the statement function that an assignment defines, if it defines one.
#[tactic(auto, unfolding(crate::specs::GiftsSeen::gift_in))]
fn add_definition<'a>(
    givens: &mut Vec<GivenName<'a>>,
    arrays: &NameSet,
    target: &'a Expr,
) -> Result<(), AllocError>
    requires { IsNameSet arrays.now }
    ensures { OnOk result (givens_in givens.new.items ≡ givens_in givens.old.items ++ definition_given (names_in arrays.now) (heading_of target.now)) }
{
    if !defines_function(arrays, target) {
        return Ok(());
    }
    match applied_name(target) {
        Some(name) => add_given(givens, Gift::DefinitionOf, name),
        None => Ok(()),
    }
}

/// Adds what a statement gives to names.
pub(crate) fn add_statement_givens<'a>(
    givens: &mut Vec<GivenName<'a>>,
    unit: &Unit,
    arrays: &NameSet,
    body: &'a Body,
) -> Result<(), AllocError>
    requires set { IsNameSet arrays.now }
    requires arrays { names_in arrays.now ≡ arrays_of unit.now }
    ensures { OnOk result (givens_in givens.new.items ≡ givens_in givens.old.items ++ givens_of unit.now body.now) }
{
    match body {
        Body::Declare(_, items) => add_declared(givens, items.as_slice()),
        Body::Dimension(items) => add_shaped_arrays(givens, items.as_slice()),
        Body::Common(groups) => add_commons(givens, groups.as_slice()),
        Body::Equivalence(groups) => add_equivalences(givens, groups.as_slice()),
        Body::Parameter(items) => add_constants(givens, items.as_slice()),
        Body::External(names) => add_texts(givens, Gift::ExternalOf, names.as_slice()),
        Body::Intrinsic(names) => add_texts(givens, Gift::IntrinsicOf, names.as_slice()),
        Body::Save(items) => add_saved(givens, items.as_slice()),
        Body::Init(groups) => add_data(givens, groups.as_slice()),
        Body::Entry(name, dummies) => add_entry(givens, unit, name.as_slice(), dummies.as_slice()),
        Body::Assign(target, _) => add_definition(givens, arrays, target),
        _ => Ok(()),
    }
}

/// Whether the first statement of a unit gives a type to its name. Section 15.5.1.
#[tactic(auto, unfolding(declaration_rows::specs::GivenRows::heading_types, declaration_rows::specs::GivenRows::is_typed))]
fn heading_types(kind: &UnitKind) -> bool
    ensures { result ≡ rows.heading_types kind.now }
{
    match kind {
        UnitKind::Function(spec) => match spec.basic {
            Basic::Integer | Basic::Logical | Basic::Character => true,
            Basic::Untyped => false,
        },
        UnitKind::Main | UnitKind::Subroutine | UnitKind::BlockData => false,
    }
}

/// Adds the type that the first statement of a unit gives to its name, if it gives one.
#[tactic(auto, unfolding(crate::specs::GiftsSeen::heading_type, crate::specs::GiftsSeen::gift_in))]
fn add_heading_type<'a>(givens: &mut Vec<GivenName<'a>>, unit: &'a Unit) -> Result<(), AllocError>
    ensures { OnOk result (givens_in givens.new.items ≡ givens_in givens.old.items ++ heading_type unit.now) }
{
    if heading_types(&unit.kind) {
        return add_optional(givens, Gift::TypeOf, &unit.name);
    }
    Ok(())
}

/// Adds what the first statement of a unit gives to names, where it heads the unit.
pub(crate) fn add_heading_givens<'a>(
    givens: &mut Vec<GivenName<'a>>,
    unit: &'a Unit,
) -> Result<(), AllocError>
    ensures { OnOk result (givens_in givens.new.items ≡ givens_in givens.old.items ++ heading_givens unit.now) }
{
    add_optional(givens, own_gift(&unit.kind), &unit.name)?;
    add_heading_type(givens, unit)?;
    add_dummies(givens, unit.dummies.as_slice())
}
