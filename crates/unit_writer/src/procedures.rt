//! The procedures that a function calls or passes: their declarations, and what is known of them where steps are written. Sections 8.7, 15.5, 15.6
//! and 15.9; C89, 3.5.4.3.

ghost use Rattle.std.specs.HashMap.{get_by};
ghost use Rattle.std.specs.List.{flat_map, list_any};
ghost use Rattle.std.specs.Prelude.{◌≡◌, ◌++◌, ℕ, IfOk, List, OnOk, map, is_some, bytes_eq};
ghost use Rattle.c_tree.specs.declared.types.ArgumentType.TheVariants as argument;
ghost use Rattle.unit_translation.specs.unit_file.UnitFile.{extern_for};
ghost use Rattle.name_facts.specs.GivenFacts.{fact_in};
ghost use Rattle.unit_writer.specs.ToldUnits.{callees_told};
ghost use Rattle.unit_writer.specs.Told as told;

use crate::heading::Procedure;
use c_names::{external_name, variable_name};
use c_tree::declaration::CLocal;
use c_tree::expression::Text;
use c_tree::types::{ArgumentType, ParameterType};
use f_tree::Class;
use indexmap::IndexMap;
use item_emitter::Routine;
use name_facts::NameFacts;
use named_items::Callee;
use plain_data::Items;
use std::alloc::{AllocError, Global};

/// The types of the arguments for parameters.
fn arguments(alloc: Global, parameters: &[ParameterType]) -> Result<Vec<ArgumentType>, AllocError>
    ensures { IfOk result (λ found. found.items ≡ map argument.Parameter parameters.now) }
{
    parameters
        .iter()
        .map(|parameter| ArgumentType::Parameter(*parameter))
        .collect(alloc)
}

/// Declares a procedure, where the set defines it.
#[tactic(auto, unfolding(crate::specs::ToldUnits::callees_by))]
fn add_procedure(
    alloc: Global,
    locals: &mut Vec<CLocal>,
    procedures: &IndexMap<&[u8], Procedure>,
    name: &[u8],
) -> Result<(), AllocError>
    ensures { OnOk result (locals.new.items ≡ locals.old.items ++ map extern_for (callees_told (λ x. get_by (λ k. bytes_eq x k.now) procedures.now) name.now)) }
{
    let Some(procedure) = procedures.get(name) else {
        return Ok(());
    };
    let written = external_name(alloc, name)?;
    let arguments = arguments(alloc, &procedure.parameters)?;
    let arguments = Items::from_vec(arguments);
    locals.push(CLocal::Extern(procedure.result, written, arguments))?;
    Ok(())
}

/// Declares the procedures of some names, those that the set defines.
pub(crate) fn add_procedures(
    alloc: Global,
    locals: &mut Vec<CLocal>,
    procedures: &IndexMap<&[u8], Procedure>,
    names: &[Text],
) -> Result<(), AllocError>
    ensures { OnOk result (locals.new.items ≡ locals.old.items ++ map extern_for (flat_map (callees_told (λ x. get_by (λ k. bytes_eq x k.now) procedures.now)) names.now)) }
{
    for name in names {
        add_procedure(alloc, locals, procedures, name.as_slice())?;
    }
    Ok(())
}

/// A procedure that is called by its own name, where the set defines it.
#[tactic(auto, unfolding(crate::specs::Told::routine_if))]
fn named(
    alloc: Global,
    is_defined: bool,
    is_passed: bool,
    name: &[u8],
) -> Result<Option<Routine>, AllocError>
    ensures { IfOk result (λ found. found ≡ told.routine_if is_defined is_passed name.now) }
{
    if !is_defined {
        return Ok(None);
    }
    let callee = Callee {
        through: false,
        name: external_name(alloc, name)?,
    };
    Ok(Some(Routine { callee, is_passed }))
}

/// A dummy procedure, which is called through its parameter.
fn dummy(alloc: Global, name: &[u8]) -> Result<Routine, AllocError>
    ensures { IfOk result (λ found. found ≡ told.dummy_routine name.now) }
{
    let callee = Callee {
        through: true,
        name: variable_name(alloc, name)?,
    };
    Ok(Routine {
        callee,
        is_passed: true,
    })
}

/// What is known of a name of a class where a procedure is called or passed, given whether the set defines the procedure of this name.
#[tactic(auto, unfolding(crate::specs::Told::routine_by))]
fn routine(
    alloc: Global,
    class: Class,
    is_defined: bool,
    name: &[u8],
) -> Result<Option<Routine>, AllocError>
    ensures { IfOk result (λ found. found ≡ told.routine_by class is_defined name.now) }
{
    match class {
        Class::DummyProcedure => Ok(Some(dummy(alloc, name)?)),
        Class::Procedure => named(alloc, is_defined, true, name),
        Class::Result | Class::Unit => named(alloc, is_defined, false, name),
        Class::Constant | Class::Stored | Class::Dummy => Ok(None),
        Class::StatementFunction | Class::Intrinsic => Ok(None),
    }
}

/// Notes what is known of a name, if anything is.
#[tactic(auto, unfolding(crate::specs::Told::put_over))]
fn put_routine<'a>(
    routines: &mut IndexMap<&'a [u8], Routine>,
    name: &'a [u8],
    found: Option<Routine>,
) -> Result<(), AllocError>
    ensures { OnOk result ((x : List ℕ)
        → get_by (λ k. bytes_eq x k.now) routines.new ≡ told.put_over (bytes_eq name.now x) found (get_by (λ k. bytes_eq x k.now) routines.old)) }
{
    let Some(routine) = found else {
        return Ok(());
    };
    match routines.insert(name, routine) {
        Ok(_) => Ok(()),
        Err(_) => Err(AllocError),
    }
}

/// Notes what is known of some names.
fn add_routines<'a>(
    alloc: Global,
    routines: &mut IndexMap<&'a [u8], Routine>,
    table: &NameFacts,
    procedures: &IndexMap<&'a [u8], Procedure>,
    names: &[&'a [u8]],
) -> Result<(), AllocError>
    ensures { OnOk result ((x : List ℕ)
        → get_by (λ k. bytes_eq x k.now) routines.new ≡ told.put_over (list_any (bytes_eq x) (map (λ name. name.now) names.now))
        (told.routine_told table.now (λ y. get_by (λ k. bytes_eq y k.now) procedures.now) x) (get_by (λ k. bytes_eq x k.now) routines.old)) }
{
    for name in names {
        let is_defined = procedures.contains_key(*name);
        let found = routine(alloc, table.class(name), is_defined, name)?;
        put_routine(routines, name, found)?;
    }
    Ok(())
}

/// What is known of the names by which procedures are called or passed: those of the unit, and those of the procedures of the set.
pub(crate) fn routines<'a>(
    alloc: Global,
    table: &NameFacts,
    names: &[&'a [u8]],
    procedures: &IndexMap<&'a [u8], Procedure>,
) -> Result<IndexMap<&'a [u8], Routine>, AllocError>
    ensures { IfOk result (λ found. (x : List ℕ)
        → get_by (λ k. bytes_eq x k.now) found ≡ told.routine_among table.now (map (λ name. name.now) names.now) (λ y. get_by (λ k. bytes_eq y k.now) procedures.now) x) }
{
    let mut found = IndexMap::new(alloc);
    add_routines(alloc, &mut found, table, procedures, names)?;
    add_routines(
        alloc,
        &mut found,
        table,
        procedures,
        procedures.keys().as_slice(),
    )?;
    Ok(found)
}
