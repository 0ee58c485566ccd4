//! The names of the arrays of a unit. Section 5.1.
#![tactic(auto)]

ghost use Rattle.std.specs.Prelude.{◌≡◌, ◌++◌, ◌∷◌, [], OnOk, IfOk, map};
ghost use Rattle.f_tree.specs.Attributes.{from_all, shaped_in, shape_of_array, members_of, array_names, arrays_of};
ghost use Rattle.f_tree.specs.declared.statements.Declarator as declarator;
ghost use Rattle.name_table.specs.Named.{names_in, IsNameSet};
ghost use Rattle.name_uses.specs.UsesSeen.{Adds, shape_of};

use f_tree::{ArrayDeclarator, Body, CommonGroup, Declarator, Dimension, Stmt, Unit};
use name_table::NameSet;
use std::alloc::{AllocError, Global};

/// Adds a name where it has dimensions.
fn add_shaped<'a>(
    arrays: &mut NameSet<'a>,
    name: &'a [u8],
    dimensions: &[Dimension],
) -> Result<(), AllocError>
    requires { IsNameSet arrays.old }
    ensures { OnOk result (Adds arrays.old arrays.new (array_names (record { name = name.now; dimensions = dimensions.now } ∷ []))) }
{
    match dimensions {
        [] => Ok(()),
        [_, ..] => arrays.add(name),
    }
}

/// Adds the names of a type statement that have dimensions.
fn add_declarators<'a>(arrays: &mut NameSet<'a>, items: &'a [Declarator]) -> Result<(), AllocError>
    requires { IsNameSet arrays.old }
    ensures { OnOk result (Adds arrays.old arrays.new (array_names (map shape_of items.now))) }
{
    for item in items {
        add_shaped(arrays, item.name.as_slice(), item.dimensions.as_slice())?;
    }
    Ok(())
}

/// Adds the names of a DIMENSION statement or of a common block that have dimensions.
fn add_members<'a>(arrays: &mut NameSet<'a>, items: &'a [ArrayDeclarator]) -> Result<(), AllocError>
    requires { IsNameSet arrays.old }
    ensures { OnOk result (Adds arrays.old arrays.new (array_names (map shape_of_array items.now))) }
{
    for item in items {
        add_shaped(arrays, item.name.as_slice(), item.dimensions.as_slice())?;
    }
    Ok(())
}

/// Adds the names of a COMMON statement that have dimensions.
fn add_groups<'a>(arrays: &mut NameSet<'a>, groups: &'a [CommonGroup]) -> Result<(), AllocError>
    requires { IsNameSet arrays.old }
    ensures { OnOk result (Adds arrays.old arrays.new (array_names (map shape_of_array (members_of groups.now)))) }
{
    for group in groups {
        add_members(arrays, group.items.as_slice())?;
    }
    Ok(())
}

/// Adds the names of a statement that have dimensions.
fn add_statement_arrays<'a>(arrays: &mut NameSet<'a>, body: &'a Body) -> Result<(), AllocError>
    requires { IsNameSet arrays.old }
    ensures { OnOk result (Adds arrays.old arrays.new (array_names (shaped_in body.now))) }
{
    match body {
        Body::Declare(_, items) => add_declarators(arrays, items.as_slice()),
        Body::Dimension(items) => add_members(arrays, items.as_slice()),
        Body::Common(groups) => add_groups(arrays, groups.as_slice()),
        _ => Ok(()),
    }
}

/// The names of statements that have dimensions, in their order.
fn arrays_among<'a>(alloc: Global, statements: &'a [Stmt]) -> Result<NameSet<'a>, AllocError>
    ensures names { IfOk result (λ arrays. names_in arrays ≡ array_names (from_all shaped_in statements.now)) }
    ensures is_set { IfOk result (λ arrays. IsNameSet arrays) }
{
    let mut arrays = NameSet::new(alloc);
    for statement in statements {
        add_statement_arrays(&mut arrays, &statement.body)?;
    }
    Ok(arrays)
}

/// The names of the arrays of a unit.
#[tactic(auto, unfolding(f_tree::specs::Attributes::arrays_of))]
pub fn array_set<'a>(alloc: Global, unit: &'a Unit) -> Result<NameSet<'a>, AllocError>
    ensures names { IfOk result (λ arrays. names_in arrays ≡ arrays_of unit.now) }
    ensures is_set { IfOk result (λ arrays. IsNameSet arrays) }
{
    arrays_among(alloc, unit.statements.as_slice())
}
