//! The statement functions of a unit with the labels that their values may be. Section 15.4. Each is valued over those before it.

ghost use Rattle.std.specs.Prelude.{◌≡◌, ◌&&◌, ℕ, Bool, OnOk, IfOk};
ghost use Rattle.std.specs.List.{list_all};
ghost use Rattle.f_tree.specs.declared.statements.Body.TheVariants as body;
ghost use Rattle.f_tree.specs.declared.units.Unit as written_unit;
ghost use Rattle.f_tree.specs.Attributes.{arrays_of, definitions_in};
ghost use Rattle.name_facts.specs.GivenFacts.{AreNameFacts, fact_in};
ghost use Rattle.name_table.specs.Named.{names_in, texts, IsNameSet};
ghost use Rattle.loop_entries.specs.PassedLabels as spec;
ghost use Rattle.loop_entries.specs.PassedLabels.{told_by, AreFunctionLabels, NotesFunctions, NotesFunction, IsStatementOf, all_expansions};

use crate::labels::{FunctionLabels, Scope, add_labels};
use f_tree::{Basic, Body, Expr, Unit};
use name_facts::NameFacts;
use name_table::NameSet;
use name_uses::array_set;
use name_uses::assignments::{applied_name, argument_names, defines_function};
use std::alloc::{AllocError, Global};

/// Whether the value of a function is fitted to the length of its name: where it is of type CHARACTER with a constant length.
#[tactic(auto, unfolding(crate::specs::PassedLabels::is_fitted))]
fn is_fitted(table: &NameFacts, name: &[u8]) -> bool
    ensures { result ≡ spec.is_fitted (fact_in table.now name.now).basic (fact_in table.now name.now).width }
{
    match (table.basic(name), table.width(name)) {
        (Basic::Character, Some(_)) => true,
        _ => false,
    }
}

/// Adds a label that is not there yet.
fn add_once(labels: &mut Vec<u32>, label: u32) -> Result<(), AllocError>
    ensures { OnOk result ((known : ℕ → Bool) → list_all known labels.new.items ≡ (list_all known labels.old.items && known label)) }
{
    if labels.contains(&label) {
        return Ok(());
    }
    labels.push(label)?;
    Ok(())
}

/// Labels, each of them once.
fn each_once(alloc: Global, labels: &[u32]) -> Result<Vec<u32>, AllocError>
    ensures { IfOk result (λ once. (known : ℕ → Bool) → list_all known once.items ≡ list_all known labels.now) }
{
    let mut once = Vec::new(alloc);
    for label in labels {
        add_once(&mut once, *label)?;
    }
    Ok(once)
}

/// The labels that the value of a statement function may be, given its expression.
#[tactic(auto, unfolding(crate::specs::PassedLabels::value_labels))]
fn value_labels(
    alloc: Global,
    scope: &Scope,
    name: &[u8],
    value: &Expr,
) -> Result<Vec<u32>, AllocError>
    ensures { IfOk result (λ labels. (known : ℕ → Bool) → list_all known labels.items ≡ list_all known (spec.value_labels (told_by scope.now) name.now value.now)) }
{
    let mut labels = Vec::new(alloc);
    if is_fitted(scope.table, name) {
        return Ok(labels);
    }
    add_labels(scope, &mut labels, value)?;
    each_once(alloc, labels.as_slice())
}

/// Notes the labels of a statement function unless one of its name is noted already.
fn note_function<'a>(
    alloc: Global,
    table: &NameFacts,
    functions: &mut FunctionLabels<'a>,
    name: &'a [u8],
    dummies: &[&[u8]],
    value: &Expr,
) -> Result<(), AllocError>
    ensures { OnOk result (NotesFunction table.now functions.old functions.new name.now (texts dummies.now) value.now) }
{
    if functions.get(name).is_some() {
        return Ok(());
    }
    let scope = Scope {
        table,
        functions,
        dummies,
    };
    let labels = value_labels(alloc, &scope, name, value)?;
    functions.put(name, labels)
}

/// Notes the statement function that an assignment defines, if it defines one.
fn note_definition<'a>(
    alloc: Global,
    table: &NameFacts,
    functions: &mut FunctionLabels<'a>,
    arrays: &NameSet,
    target: &'a Expr,
    value: &Expr,
) -> Result<(), AllocError>
    requires { IsNameSet arrays.now }
    ensures { OnOk result ((u : written_unit.Unit) → AreNameFacts u table.now → names_in arrays.now ≡ arrays_of u → IsStatementOf u (body.Assign target.now value.now)
        → NotesFunctions u functions.old functions.new (definitions_in (arrays_of u) (body.Assign target.now value.now))) }
{
    if !defines_function(arrays, target) {
        return Ok(());
    }
    match applied_name(target) {
        Some(name) => {
            let dummies = argument_names(alloc, target)?;
            note_function(alloc, table, functions, name, dummies.as_slice(), value)
        }
        None => Ok(()),
    }
}

/// Notes the statement function that a statement defines, if it defines one.
fn note_statement<'a>(
    alloc: Global,
    table: &NameFacts,
    functions: &mut FunctionLabels<'a>,
    arrays: &NameSet,
    body: &'a Body,
) -> Result<(), AllocError>
    requires { IsNameSet arrays.now }
    ensures { OnOk result ((u : written_unit.Unit) → AreNameFacts u table.now → names_in arrays.now ≡ arrays_of u → IsStatementOf u body.now
        → NotesFunctions u functions.old functions.new (definitions_in (arrays_of u) body.now)) }
{
    match body {
        Body::Assign(target, value) => {
            note_definition(alloc, table, functions, arrays, target, value)
        }
        _ => Ok(()),
    }
}

/// The labels of the statement functions of a unit. The table tells what the names of the unit are. An error where memory ran out.
pub(crate) fn function_labels<'a>(
    alloc: Global,
    table: &NameFacts,
    unit: &'a Unit,
) -> Result<FunctionLabels<'a>, AllocError>
    requires { AreNameFacts unit.now table.now }
    ensures { IfOk result (λ functions. AreFunctionLabels unit.now (all_expansions unit.now) functions) }
{
    let arrays = array_set(alloc, unit)?;
    let mut functions = FunctionLabels::new(alloc);
    for statement in unit.statements.as_slice() {
        note_statement(alloc, table, &mut functions, &arrays, &statement.body)?;
    }
    Ok(functions)
}
