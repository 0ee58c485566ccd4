//! The names that statements state something of. Sections 8.4 to 8.8, 15.4 and 15.7.
#![tactic(auto)]

ghost use Rattle.std.specs.Prelude.{◌≡◌, OnOk, map, option_copied};
ghost use Rattle.f_tree.specs.Attributes.{external_in, intrinsic_in, entry_names_in, entry_dummies_in, assigned_with_list_in, named_dummies, option_list};
ghost use Rattle.f_tree.specs.declared.statements.ConstantDefinition as constant;
ghost use Rattle.f_tree.specs.declared.statements.Declarator as declarator;
ghost use Rattle.name_table.specs.Named.{IsNameSet};
ghost use Rattle.name_uses.specs.UsesSeen.{Adds};
ghost use Rattle.name_classes.specs.StatedNames.{constant_names, typed_names, dummy_name};

use f_tree::{Body, ConstantDefinition, Declarator, DummyArgument, Text};
use name_table::NameSet;
use name_uses::assignments::applied_name;
use std::alloc::AllocError;

/// Adds names.
fn add_texts<'a>(names: &mut NameSet<'a>, items: &'a [Text]) -> Result<(), AllocError>
    requires { IsNameSet names.old }
    ensures { OnOk result (Adds names.old names.new items.now) }
{
    for item in items {
        names.add(item.as_slice())?;
    }
    Ok(())
}

/// Adds the names of constants.
fn add_constants<'a>(
    names: &mut NameSet<'a>,
    items: &'a [ConstantDefinition],
) -> Result<(), AllocError>
    requires { IsNameSet names.old }
    ensures { OnOk result (Adds names.old names.new (map (λ (d : constant.ConstantDefinition). d.name) items.now)) }
{
    for item in items {
        names.add(item.name.as_slice())?;
    }
    Ok(())
}

/// Adds the names of a type statement.
fn add_declarators<'a>(names: &mut NameSet<'a>, items: &'a [Declarator]) -> Result<(), AllocError>
    requires { IsNameSet names.old }
    ensures { OnOk result (Adds names.old names.new (map (λ (d : declarator.Declarator). d.name) items.now)) }
{
    for item in items {
        names.add(item.name.as_slice())?;
    }
    Ok(())
}

/// Adds the name of a dummy argument.
fn add_dummy<'a>(names: &mut NameSet<'a>, dummy: &'a DummyArgument) -> Result<(), AllocError>
    requires { IsNameSet names.old }
    ensures { OnOk result (Adds names.old names.new (dummy_name dummy.now)) }
{
    match dummy {
        DummyArgument::Named(name) => names.add(name.as_slice()),
        DummyArgument::AlternateReturn => Ok(()),
    }
}

/// Adds the names of dummy arguments.
pub(crate) fn add_dummies<'a>(
    names: &mut NameSet<'a>,
    dummies: &'a [DummyArgument],
) -> Result<(), AllocError>
    requires { IsNameSet names.old }
    ensures { OnOk result (Adds names.old names.new (named_dummies dummies.now)) }
{
    for dummy in dummies {
        add_dummy(names, dummy)?;
    }
    Ok(())
}

/// Adds a name that may be there.
pub(crate) fn add_option<'a>(
    names: &mut NameSet<'a>,
    name: Option<&'a [u8]>,
) -> Result<(), AllocError>
    requires { IsNameSet names.old }
    ensures { OnOk result (Adds names.old names.new (option_list (option_copied name.entry))) }
{
    match name {
        Some(name) => names.add(name),
        None => Ok(()),
    }
}

/// Adds the names of the constants that a statement defines. Section 8.6.
pub(crate) fn add_constants_in<'a>(
    names: &mut NameSet<'a>,
    body: &'a Body,
) -> Result<(), AllocError>
    requires { IsNameSet names.old }
    ensures { OnOk result (Adds names.old names.new (constant_names body.now)) }
{
    match body {
        Body::Parameter(items) => add_constants(names, items.as_slice()),
        _ => Ok(()),
    }
}

/// Adds the names that a type statement types. Section 8.4.
pub(crate) fn add_typed_in<'a>(names: &mut NameSet<'a>, body: &'a Body) -> Result<(), AllocError>
    requires { IsNameSet names.old }
    ensures { OnOk result (Adds names.old names.new (typed_names body.now)) }
{
    match body {
        Body::Declare(_, items) => add_declarators(names, items.as_slice()),
        _ => Ok(()),
    }
}

/// Adds the names of the external procedures that a statement declares. Section 8.7.
pub(crate) fn add_externals_in<'a>(
    names: &mut NameSet<'a>,
    body: &'a Body,
) -> Result<(), AllocError>
    requires { IsNameSet names.old }
    ensures { OnOk result (Adds names.old names.new (external_in body.now)) }
{
    match body {
        Body::External(items) => add_texts(names, items.as_slice()),
        _ => Ok(()),
    }
}

/// Adds the names of the intrinsic functions that a statement declares. Section 8.8.
pub(crate) fn add_intrinsics_in<'a>(
    names: &mut NameSet<'a>,
    body: &'a Body,
) -> Result<(), AllocError>
    requires { IsNameSet names.old }
    ensures { OnOk result (Adds names.old names.new (intrinsic_in body.now)) }
{
    match body {
        Body::Intrinsic(items) => add_texts(names, items.as_slice()),
        _ => Ok(()),
    }
}

/// Adds the name of an ENTRY. Section 15.7.
pub(crate) fn add_entry_in<'a>(names: &mut NameSet<'a>, body: &'a Body) -> Result<(), AllocError>
    requires { IsNameSet names.old }
    ensures { OnOk result (Adds names.old names.new (entry_names_in body.now)) }
{
    match body {
        Body::Entry(name, _) => names.add(name.as_slice()),
        _ => Ok(()),
    }
}

/// Adds the names of the dummy arguments of an ENTRY. Section 15.7.
pub(crate) fn add_entry_dummies_in<'a>(
    names: &mut NameSet<'a>,
    body: &'a Body,
) -> Result<(), AllocError>
    requires { IsNameSet names.old }
    ensures { OnOk result (Adds names.old names.new (entry_dummies_in body.now)) }
{
    match body {
        Body::Entry(_, dummies) => add_dummies(names, dummies.as_slice()),
        _ => Ok(()),
    }
}

/// Adds the name to whose elements or function an assignment assigns. Sections 10 and 15.4.
pub(crate) fn add_assigned_in<'a>(names: &mut NameSet<'a>, body: &'a Body) -> Result<(), AllocError>
    requires { IsNameSet names.old }
    ensures { OnOk result (Adds names.old names.new (assigned_with_list_in body.now)) }
{
    match body {
        Body::Assign(target, _) => add_option(names, applied_name(target)),
        _ => Ok(()),
    }
}
