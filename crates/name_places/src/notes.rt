//! Names are noted where they stand first. Sections 5.1, 8.1, 8.3, 8.4, 8.6 and 8.7.
#![tactic(auto)]

ghost use Rattle.std.specs.Prelude.{◌∷◌, [], OnOk, map};
ghost use Rattle.f_tree.specs.Attributes.{members_of, external_in};
ghost use Rattle.f_tree.specs.declared.statements.ArrayDeclarator as array;
ghost use Rattle.f_tree.specs.declared.statements.ConstantDefinition as constant;
ghost use Rattle.f_tree.specs.declared.statements.Declarator as declarator;
ghost use Rattle.name_uses.specs.UsesSeen.{use_of, used_in};
ghost use Rattle.name_places.specs.FirstPlaces as spec;

use f_tree::{ArrayDeclarator, Body, CommonGroup, ConstantDefinition, Declarator, Text};
use name_table::NameTable;
use name_uses::{Manner, Use};
use std::alloc::AllocError;

/// Notes where a name stands, unless it has stood before.
fn note<'a>(places: &mut NameTable<'a, usize>, at: usize, name: &'a [u8]) -> Result<(), AllocError>
    ensures { OnOk result (spec.Notes at places.old places.new (name.now ∷ [])) }
{
    match places.get(name) {
        Some(_) => Ok(()),
        None => places.put(name, at),
    }
}

/// Notes the names that a statement uses.
pub(crate) fn note_uses<'a>(
    places: &mut NameTable<'a, usize>,
    at: usize,
    uses: &[Use<'a>],
) -> Result<(), AllocError>
    ensures { OnOk result (spec.Notes at places.old places.new (spec.use_names (used_in uses.now))) }
{
    for one in uses {
        note(places, at, one.name)?;
    }
    Ok(())
}

/// Notes a name that stands in a CALL.
fn note_call<'a>(
    places: &mut NameTable<'a, usize>,
    at: usize,
    one: Use<'a>,
) -> Result<(), AllocError>
    ensures { OnOk result (spec.Notes at places.old places.new (spec.called_names (use_of one.entry ∷ []))) }
{
    match one.manner {
        Manner::Called => note(places, at, one.name),
        Manner::Alone | Manner::WithList | Manner::Declared => Ok(()),
    }
}

/// Notes the names that a statement calls.
pub(crate) fn note_calls<'a>(
    places: &mut NameTable<'a, usize>,
    at: usize,
    uses: &[Use<'a>],
) -> Result<(), AllocError>
    ensures { OnOk result (spec.Notes at places.old places.new (spec.called_names (used_in uses.now))) }
{
    for one in uses {
        note_call(places, at, *one)?;
    }
    Ok(())
}

/// Notes the names of a list.
fn note_texts<'a>(
    places: &mut NameTable<'a, usize>,
    at: usize,
    items: &'a [Text],
) -> Result<(), AllocError>
    ensures { OnOk result (spec.Notes at places.old places.new items.now) }
{
    for item in items {
        note(places, at, item.as_slice())?;
    }
    Ok(())
}

/// Notes the names of a type statement.
fn note_declarators<'a>(
    places: &mut NameTable<'a, usize>,
    at: usize,
    items: &'a [Declarator],
) -> Result<(), AllocError>
    ensures { OnOk result (spec.Notes at places.old places.new (map (λ (d : declarator.Declarator). d.name) items.now)) }
{
    for item in items {
        note(places, at, item.name.as_slice())?;
    }
    Ok(())
}

/// Notes the names of a DIMENSION statement or of a common block.
fn note_members<'a>(
    places: &mut NameTable<'a, usize>,
    at: usize,
    items: &'a [ArrayDeclarator],
) -> Result<(), AllocError>
    ensures { OnOk result (spec.Notes at places.old places.new (map (λ (d : array.ArrayDeclarator). d.name) items.now)) }
{
    for item in items {
        note(places, at, item.name.as_slice())?;
    }
    Ok(())
}

/// Notes the names of a COMMON statement.
fn note_groups<'a>(
    places: &mut NameTable<'a, usize>,
    at: usize,
    groups: &'a [CommonGroup],
) -> Result<(), AllocError>
    ensures { OnOk result (spec.Notes at places.old places.new (map (λ (d : array.ArrayDeclarator). d.name) (members_of groups.now))) }
{
    for group in groups {
        note_members(places, at, group.items.as_slice())?;
    }
    Ok(())
}

/// Notes the names of a PARAMETER statement.
fn note_constants<'a>(
    places: &mut NameTable<'a, usize>,
    at: usize,
    items: &'a [ConstantDefinition],
) -> Result<(), AllocError>
    ensures { OnOk result (spec.Notes at places.old places.new (map (λ (d : constant.ConstantDefinition). d.name) items.now)) }
{
    for item in items {
        note(places, at, item.name.as_slice())?;
    }
    Ok(())
}

/// Notes the names that a statement may give dimensions.
pub(crate) fn note_declared_in<'a>(
    places: &mut NameTable<'a, usize>,
    at: usize,
    body: &'a Body,
) -> Result<(), AllocError>
    ensures { OnOk result (spec.Notes at places.old places.new (spec.declared_in body.now)) }
{
    match body {
        Body::Declare(_, items) => note_declarators(places, at, items.as_slice()),
        Body::Dimension(items) => note_members(places, at, items.as_slice()),
        Body::Common(groups) => note_groups(places, at, groups.as_slice()),
        _ => Ok(()),
    }
}

/// Notes the names of constants.
pub(crate) fn note_fixed_in<'a>(
    places: &mut NameTable<'a, usize>,
    at: usize,
    body: &'a Body,
) -> Result<(), AllocError>
    ensures { OnOk result (spec.Notes at places.old places.new (spec.fixed_in body.now)) }
{
    match body {
        Body::Parameter(items) => note_constants(places, at, items.as_slice()),
        _ => Ok(()),
    }
}

/// Notes the names of external procedures.
pub(crate) fn note_externals_in<'a>(
    places: &mut NameTable<'a, usize>,
    at: usize,
    body: &'a Body,
) -> Result<(), AllocError>
    ensures { OnOk result (spec.Notes at places.old places.new (external_in body.now)) }
{
    match body {
        Body::External(items) => note_texts(places, at, items.as_slice()),
        _ => Ok(()),
    }
}
