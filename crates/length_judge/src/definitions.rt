//! The definitions of statement functions: their dummy arguments have the types of their names, and none has length `(*)`. Section 15.4.
#![tactic(auto)]

ghost use Rattle.std.specs.Prelude.{◌≡◌, IfOk, option_map};
ghost use Rattle.f_tree.specs.Attributes.{typed_name};
ghost use Rattle.std.specs.List.{list_any};
ghost use Rattle.decl_table.specs.UnitFacts.{AreDeclarations};
ghost use Rattle.declaration_rows.specs.NameRows as rows;
ghost use Rattle.declaration_rows.specs.NameRows.{own_attributes};
ghost use Rattle.declared_types.specs.TypeTables.{AreTypes};
ghost use Rattle.name_table.specs.Named.{names_in, texts, IsNameSet};
ghost use Rattle.length_judge.specs.KnownNames as spec;

use crate::names::{NameLength, fact_length, is_character};
use decl_table::{Declarations, own_fact};
use declared_types::{Types, typed_name};
use f_tree::{Basic, Body, Expr, LengthSpec, Unit};
use name_table::{NameSet, NameTable};
use name_uses::assignments::{argument_names, defines_function};
use std::alloc::{AllocError, Global};

/// The dummy arguments of the statement function that an assignment defines, if it defines one.
#[tactic(auto, unfolding(crate::specs::KnownNames::target_dummies))]
fn assigned_dummies<'a>(
    alloc: Global,
    arrays: &NameSet,
    target: &'a Expr,
) -> Result<Vec<&'a [u8]>, AllocError>
    requires { IsNameSet arrays.now }
    ensures { IfOk result (λ names. texts names.items ≡ spec.target_dummies (names_in arrays.now) target.now) }
{
    if defines_function(arrays, target) {
        argument_names(alloc, target)
    } else {
        Ok(Vec::new(alloc))
    }
}

/// The dummy arguments of the statement function that a statement defines, if it defines one. An error where memory ran out.
pub(crate) fn definition_dummies<'a>(
    alloc: Global,
    arrays: &NameSet,
    body: &'a Body,
) -> Result<Vec<&'a [u8]>, AllocError>
    requires { IsNameSet arrays.now }
    ensures { IfOk result (λ names. texts names.items ≡ spec.dummies_in (names_in arrays.now) body.now) }
{
    match body {
        Body::Assign(target, _) => assigned_dummies(alloc, arrays, target),
        _ => Ok(Vec::new(alloc)),
    }
}

/// What lengths ask of a name that is one of its own.
fn own_length(
    alloc: Global,
    unit: &Unit,
    declared: &Declarations,
    name: &[u8],
) -> Result<NameLength, AllocError>
    requires { AreDeclarations unit.now declared.now }
    ensures { IfOk result (λ length. length ≡ spec.length_of (own_attributes unit.now name.now)) }
{
    let fact = own_fact(alloc, unit, declared, name)?;
    Ok(fact_length(&fact))
}

/// Dummy arguments of the definition of a statement function with their lengths. An error where memory ran out.
pub(crate) fn dummy_lengths<'a>(
    alloc: Global,
    unit: &Unit,
    declared: &Declarations,
    dummies: &[&'a [u8]],
) -> Result<NameTable<'a, NameLength>, AllocError>
    requires { AreDeclarations unit.now declared.now }
    ensures { IfOk result (λ table. spec.AreOwn unit.now (texts dummies.now) table) }
{
    let mut table = NameTable::new(alloc);
    for dummy in dummies {
        let length = own_length(alloc, unit, declared, dummy)?;
        table.put(dummy, length)?;
    }
    Ok(table)
}

/// Whether a length is `(*)`. Section 8.4.2.
#[tactic(auto, unfolding(declaration_rows::specs::NameRows::is_star))]
fn is_star(length: Option<&LengthSpec>) -> bool
    ensures { result ≡ rows.is_star (option_map (λ one. one.now) length.entry) }
{
    match length {
        Some(LengthSpec::Star) => true,
        Some(LengthSpec::Value(_)) => false,
        None => false,
    }
}

/// Whether the type of a name has length `(*)`.
pub(crate) fn has_star_length(unit: &Unit, types: &Types, name: &[u8]) -> bool
    requires { AreTypes unit.now types.now }
    ensures { result ≡ rows.is_star (typed_name unit.now name.now).length }
{
    is_star(typed_name(unit, types, name).length)
}

/// The type that a name has, were it a name of the unit.
fn own_basic(unit: &Unit, types: &Types, name: &[u8]) -> Basic
    requires { AreTypes unit.now types.now }
    ensures { result ≡ (own_attributes unit.now name.now).basic }
{
    typed_name(unit, types, name).basic
}

/// Whether a dummy argument of the definition of a statement function has length `(*)`.
#[tactic(auto, unfolding(crate::specs::KnownNames::is_star_dummy))]
fn is_star_dummy(unit: &Unit, types: &Types, name: &[u8]) -> bool
    requires { AreTypes unit.now types.now }
    ensures { result ≡ spec.is_star_dummy unit.now name.now }
{
    is_character(own_basic(unit, types, name)) && has_star_length(unit, types, name)
}

/// Whether one of some dummy arguments has length `(*)`.
pub(crate) fn any_star_dummy(unit: &Unit, types: &Types, dummies: &[&[u8]]) -> bool
    requires { AreTypes unit.now types.now }
    ensures { result ≡ list_any (spec.is_star_dummy unit.now) (texts dummies.now) }
{
    for dummy in dummies {
        if is_star_dummy(unit, types, dummy) {
            return true;
        }
    }
    false
}
