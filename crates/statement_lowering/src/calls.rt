//! CALL. Section 15.6.

ghost use Rattle.std.specs.Prelude.{◌≡◌, ◌++◌, ◌∷◌, true, length, map, IfOk, OnOk};
ghost use Rattle.f_tree.specs.Terms as term;
ghost use Rattle.f_tree.specs.Lines as lines;
ghost use Rattle.f_tree.specs.Lines.{Naming};
ghost use Rattle.lowered_tree.specs.l_core.Steps as act;
ghost use Rattle.lowering.specs.Expressions as low;
ghost use Rattle.lowering.specs.Statements as code;
ghost use Rattle.lowered_tree.specs.Shapes.{pures_of, steps_of};
ghost use Rattle.expression_lowering.specs.Purposes.{purpose_of};
ghost use Rattle.expression_lowering.specs.TableNames.{AreFactsOf, is_lowered_value};
ghost use Rattle.statement_lowering.specs.TransferForms as form;
ghost use Rattle.statement_lowering.specs.LoweredTransfers as spec;
ghost use Rattle.statement_lowering.specs.StatementOutcomes.{IsOutcome, IsLoweredForm};

use crate::appending::push_step;
use crate::around::Around;
use crate::controls::place_for;
use crate::passed_labels::add_labels_passed;
use expression_lowering::{LowerError, Purpose, has_reference, is_lowered};
use f_tree::Expr;
use lowered_tree::{Callee, Pure, Step, Text, Wanted};
use name_facts::NameFacts;
use plain_data::Items;
use std::alloc::{AllocError, Global};

/// Whether all arguments of a CALL are lowered.
#[tactic(auto, unfolding(crate::specs::LoweredTransfers::call_lowers, expression_lowering::specs::TableNames::all_lower))]
fn call_lowers(table: &NameFacts, es: &[Expr]) -> bool
    ensures { result ≡ spec.call_lowers table.now es.now }
{
    for e in es {
        if !is_lowered(table, e) {
            return false;
        }
    }
    true
}

/// Whether any argument has a reference to a function.
fn any_refers(table: &NameFacts, es: &[Expr]) -> bool
    requires { spec.call_lowers table.now es.now ≡ true }
    ensures { (names : Naming) → AreFactsOf names table.now → result ≡ term.any_refers (term.terms (lines.arguments_of names es.now)) }
{
    for e in es {
        if has_reference(table, e) {
            return true;
        }
    }
    false
}

/// What an argument is for, given whether one behind it has a reference to a function.
#[tactic(auto, unfolding(lowering::specs::Expressions::ahead))]
fn ahead(refers: bool) -> Purpose
    ensures { purpose_of result ≡ low.ahead low.ForCall refers }
{
    if refers {
        Purpose::ForLater
    } else {
        Purpose::ForCall
    }
}

/// Appends the steps of the arguments of a CALL.
fn lower_arguments(
    alloc: Global,
    table: &NameFacts,
    first: usize,
    es: &[Expr],
    steps: &mut Vec<Step>,
) -> Result<Items<Pure>, AllocError>
    requires { spec.call_lowers table.now es.now ≡ true }
    ensures { IfOk result (spec.AreLoweredTerms table.now (form.arguments_in es.now) low.ForCall first steps.old.items steps.new.items) }
{
    let mut values = Items::new(alloc);
    let mut free = first;
    for (at, e) in es.iter().enumerate() {
        let wanted = ahead(any_refers(table, &es[at + 1..]));
        let one = place_for(alloc, table, wanted, free, e, steps)?;
        values.push(one.value)?;
        free = one.free;
    }
    Ok(values)
}

/// Appends the ways to the labels of the alternate returns.
fn push_ways(labels: &[u32], steps: &mut Vec<Step>) -> Result<(), AllocError>
    ensures { OnOk result (steps_of steps.new.items ≡ steps_of steps.old.items ++ map act.Way labels.now) }
{
    for label in labels {
        push_step(steps, Step::Way(*label))?;
    }
    Ok(())
}

/// Appends the step by which the number of a return picks one of the labels, and a way to each of them behind it.
fn push_branch(labels: &[u32], holder: usize, steps: &mut Vec<Step>) -> Result<(), AllocError>
    ensures { OnOk result (steps_of steps.new.items ≡ steps_of steps.old.items ++ act.Branch holder (length labels.now) ∷ map act.Way labels.now) }
{
    push_step(steps, Step::Branch(holder, labels.len()))?;
    push_ways(labels, steps)
}

/// Appends the step that calls a subroutine to which labels are passed, and behind it the branch by the number of its return.
fn push_call_by(
    name: Text,
    labels: &[u32],
    holder: usize,
    values: Items<Pure>,
    steps: &mut Vec<Step>,
) -> Result<(), AllocError>
    ensures { OnOk result (steps_of steps.new.items ≡ steps_of steps.old.items ++ act.CallFor holder (record { name = name; want = term.AsSubroutine }) (pures_of values) ∷ act.Branch holder (length labels.now) ∷ map act.Way labels.now) }
{
    let called = Callee {
        name,
        want: Wanted::Subroutine,
    };
    push_step(steps, Step::CallFor(holder, called, values))?;
    push_branch(labels, holder, steps)
}

/// Appends the steps of a CALL behind those of its arguments, given the labels that are passed.
fn push_sub(
    alloc: Global,
    name: &[u8],
    labels: &[u32],
    holder: usize,
    values: Items<Pure>,
    steps: &mut Vec<Step>,
) -> Result<(), AllocError>
    ensures { OnOk result (steps_of steps.new.items ≡ steps_of steps.old.items ++ code.call_steps holder name.now labels.now (pures_of values)) }
{
    let name = Items::from_slice(alloc, name)?;
    if labels.is_empty() {
        push_step(steps, Step::CallSub(holder, name, values))
    } else {
        push_call_by(name, labels, holder, values, steps)
    }
}

/// Appends the steps of a CALL of a form that is lowered.
fn push_call(
    alloc: Global,
    table: &NameFacts,
    around: Around,
    name: &[u8],
    es: &[Expr],
    steps: &mut Vec<Step>,
) -> Result<(), AllocError>
    requires { spec.call_lowers table.now es.now ≡ true }
    ensures { OnOk result (IsLoweredForm table.now around (spec.call_lowers table.now es.now) (form.calling name.now es.now) steps.old.items steps.new.items) }
{
    let values = lower_arguments(alloc, table, around.free, es, steps)?;
    let mut labels = Vec::new(alloc);
    add_labels_passed(table, es, &mut labels)?;
    push_sub(alloc, name, labels.as_slice(), around.free, values, steps)
}

/// CALL. Section 15.6.
#[tactic(auto, unfolding(crate::specs::StatementOutcomes::IsOutcome))]
pub(crate) fn lower_call(
    alloc: Global,
    table: &NameFacts,
    around: Around,
    name: &[u8],
    es: &[Expr],
    steps: &mut Vec<Step>,
) -> Result<(), LowerError>
    ensures { IsOutcome table.now around (spec.call_lowers table.now es.now) (form.calling name.now es.now) steps.old.items steps.new.items result }
{
    if !call_lowers(table, es) {
        return Err(LowerError::NotLowered);
    }
    match push_call(alloc, table, around, name, es, steps) {
        Ok(()) => Ok(()),
        Err(AllocError) => Err(LowerError::NoMemory),
    }
}
