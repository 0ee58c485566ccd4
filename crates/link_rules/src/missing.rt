//! Functions that are mentioned and not defined (C89, 3.7).

ghost use Rattle.std.specs.Prelude.{◌≡◌, ℕ, List, Some, option_map, IfOk, OnOk};
ghost use Rattle.c_tree.specs.Linking as tree;
ghost use Rattle.expression_linker.specs.Mentions.{has};
ghost use Rattle.first_names.specs.FirstNames.{first_of};
ghost use Rattle.link_rules.specs.Mentioned.{in_field, in_fields};
ghost use Rattle.link_rules.specs.Missing.{extern_name, list_fields, lacking, misses_from, none_before};

use crate::names::is_one;
use body_mentions::mentions_one;
use c_tree::declaration::{CField, CLocal};
use c_tree::file::{CFile, CFunction};
use c_tree::statement::CStmt;
use first_names::FirstNames;
use std::alloc::{AllocError, Global};

/// Whether a field of a list names one of some functions.
#[tactic(auto, using(crate::proofs::FieldEquations::field_equations))]
fn in_field(names: &FirstNames<'_, ()>, field: &CField) -> bool
    ensures { result ≡ in_field names.now field.now }
{
    match field {
        CField::Name(name) => is_one(names, name.as_slice()),
        CField::Number(_) => false,
        CField::Str(_) => false,
    }
}

/// Whether one of some fields does.
#[tactic(auto, using(crate::proofs::FieldEquations::fields_equations, std::proofs::lemmas::Grind::common_steps))]
fn in_fields(names: &FirstNames<'_, ()>, fields: &[CField]) -> bool
    ensures { result ≡ in_fields names.now fields.now }
{
    for field in fields {
        if in_field(names, field) {
            return true;
        }
    }
    false
}

/// The function that a declaration names.
fn extern_name(local: &CLocal) -> Option<&[u8]>
    ensures { option_map (λ name. name.now) result ≡ extern_name local.now }
{
    match local {
        CLocal::Extern(_, name, _) => Some(name.as_slice()),
        _ => None,
    }
}

/// The fields of the list that a declaration makes.
fn list_fields(local: &CLocal) -> &[CField]
    ensures { result.now ≡ list_fields local.now }
{
    match local {
        CLocal::StaticList(_, _, fields) => fields.as_slice(),
        _ => &[],
    }
}

/// Adds a name to those that are lacking, unless it has a number.
fn add_name<'a>(
    names: &mut FirstNames<'a, ()>,
    numbers: &FirstNames<'_, usize>,
    name: &'a [u8],
) -> Result<(), AllocError>
    ensures { OnOk result ((q : List ℕ) → has names.new q ≡ lacking (first_of numbers.now) (Some name.now) q (has names.old q)) }
{
    match numbers.get(name) {
        Some(_) => Ok(()),
        None => {
            names.give(name, ())?;
            Ok(())
        }
    }
}

/// Adds the function that a declaration names to those that are lacking, unless it has a number.
fn add_declared<'a>(
    names: &mut FirstNames<'a, ()>,
    numbers: &FirstNames<'_, usize>,
    local: &'a CLocal,
) -> Result<(), AllocError>
    ensures { OnOk result ((q : List ℕ) → has names.new q ≡ lacking (first_of numbers.now) (extern_name local.now) q (has names.old q)) }
{
    match extern_name(local) {
        Some(name) => add_name(names, numbers, name),
        None => Ok(()),
    }
}

/// Whether a function of these declarations and this body mentions one that it declares and that has no number: in the fields of its lists, by those that are
/// declared before each, and in its body.
fn walk_misses(
    alloc: Global,
    numbers: &FirstNames<'_, usize>,
    locals: &[CLocal],
    body: &[CStmt],
) -> Result<bool, AllocError>
    ensures { IfOk result (λ missing. missing ≡ misses_from (first_of numbers.now) none_before locals.now body.now) }
{
    let mut lacking = FirstNames::new(alloc);
    for local in locals {
        if in_fields(&lacking, list_fields(local)) {
            return Ok(true);
        }
        add_declared(&mut lacking, numbers, local)?;
    }
    Ok(mentions_one(&lacking, body))
}

/// Whether a function mentions one that it declares and that has no number.
#[tactic(auto, using(crate::proofs::MissingLaws::whole_laws))]
fn misses(
    alloc: Global,
    numbers: &FirstNames<'_, usize>,
    function: &CFunction,
) -> Result<bool, AllocError>
    ensures { IfOk result (λ missing. missing ≡ tree.misses (first_of numbers.now) function.now) }
{
    let missing = walk_misses(
        alloc,
        numbers,
        function.locals.as_slice(),
        function.body.as_slice(),
    )?;
    Ok(missing)
}

/// Whether one of some functions does.
fn some_misses(
    alloc: Global,
    numbers: &FirstNames<'_, usize>,
    functions: &[CFunction],
) -> Result<bool, AllocError>
    ensures { IfOk result (λ missing. missing ≡ tree.any_of (tree.misses (first_of numbers.now)) functions.now) }
{
    for function in functions {
        if misses(alloc, numbers, function)? {
            return Ok(true);
        }
    }
    Ok(false)
}

/// Whether a function of one of some files does.
pub(crate) fn some_missing(
    alloc: Global,
    numbers: &FirstNames<'_, usize>,
    files: &[CFile],
) -> Result<bool, AllocError>
    ensures { IfOk result (λ missing. missing ≡ tree.any_of (tree.misses (first_of numbers.now)) (tree.all_functions files.now)) }
{
    for file in files {
        if some_misses(alloc, numbers, file.functions.as_slice())? {
            return Ok(true);
        }
    }
    Ok(false)
}
