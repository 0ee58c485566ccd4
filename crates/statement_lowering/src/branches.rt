//! Branches, and statements that end a program unit.

ghost use Rattle.std.specs.Prelude.{◌≡◌, ◌∷◌, ◌++◌, length, map, true, Some, IfOk, OnOk};
ghost use Rattle.lowered_tree.specs.l_core.Pures as core;
ghost use Rattle.lowered_tree.specs.l_core.Steps as act;
ghost use Rattle.lowering.specs.Statements as statements;
ghost use Rattle.lowered_tree.specs.Shapes.{pure_of, step_of, steps_of};
ghost use Rattle.expression_lowering.specs.TableNames.{is_lowered_value};
ghost use Rattle.statement_lowering.specs.StatementForms as form;
ghost use Rattle.statement_lowering.specs.LoweredStatements.{optional_lowers};
ghost use Rattle.statement_lowering.specs.StatementOutcomes.{IsAppended, IsOutcome};

use crate::appending::{append, push_step};
use crate::around::Around;
use crate::label_lists::each_once;
use expression_lowering::{LowerError, Purpose, lower_value};
use f_tree::Expr;
use lowered_tree::{Pure, Step};
use name_facts::NameFacts;
use plain_data::Items;
use std::alloc::{AllocError, Global};

/// GO TO. Section 11.1.
pub(crate) fn lower_go(
    table: &NameFacts,
    around: Around,
    label: u32,
    steps: &mut Vec<Step>,
) -> Result<(), LowerError>
    ensures { IsOutcome table.now around true (form.going label) steps.old.items steps.new.items result }
{
    append(steps, Step::Jump(label))
}

/// END. Section 11.14.
pub(crate) fn lower_end(
    table: &NameFacts,
    around: Around,
    steps: &mut Vec<Step>,
) -> Result<(), LowerError>
    ensures { IsOutcome table.now around true form.ending steps.old.items steps.new.items result }
{
    append(steps, Step::Back)
}

/// STOP. Section 11.12.
pub(crate) fn lower_stop(
    alloc: Global,
    table: &NameFacts,
    around: Around,
    text: &[u8],
    steps: &mut Vec<Step>,
) -> Result<(), LowerError>
    ensures { IsOutcome table.now around true (form.stopping text.now) steps.old.items steps.new.items result }
{
    match Items::from_slice(alloc, text) {
        Ok(text) => append(steps, Step::Halt(text)),
        Err(AllocError) => Err(LowerError::NoMemory),
    }
}

/// Appends a jump to each of the labels.
fn push_jumps(steps: &mut Vec<Step>, labels: &[u32]) -> Result<(), AllocError>
    ensures { OnOk result (steps_of steps.new.items ≡ steps_of steps.old.items ++ map act.Jump labels.now) }
{
    for label in labels {
        push_step(steps, Step::Jump(*label))?;
    }
    Ok(())
}

/// Appends the step by which a number picks one of the labels, and a jump to each of them behind it.
fn push_select(steps: &mut Vec<Step>, number: Pure, labels: &[u32]) -> Result<(), AllocError>
    ensures { OnOk result (steps_of steps.new.items ≡ steps_of steps.old.items ++ act.Select (pure_of number) (length labels.now) ∷ map act.Jump labels.now) }
{
    push_step(steps, Step::Select(number, labels.len()))?;
    push_jumps(steps, labels)
}

/// Appends the step by which a number picks one of the labels, and a jump to each of them behind it.
///
/// # Errors
///
/// `NoMemory` where memory has run out.
#[tactic(auto, unfolding(crate::specs::StatementOutcomes::IsAppended))]
fn append_select(steps: &mut Vec<Step>, number: Pure, labels: &[u32]) -> Result<(), LowerError>
    ensures { IsAppended (act.Select (pure_of number) (length labels.now) ∷ map act.Jump labels.now) steps.old.items steps.new.items result }
{
    match push_select(steps, number, labels) {
        Ok(()) => Ok(()),
        Err(AllocError) => Err(LowerError::NoMemory),
    }
}

/// The computed GO TO. Section 11.2.
pub(crate) fn lower_pick(
    alloc: Global,
    table: &NameFacts,
    around: Around,
    labels: &[u32],
    e: &Expr,
    steps: &mut Vec<Step>,
) -> Result<(), LowerError>
    ensures { IsOutcome table.now around (is_lowered_value table.now e.now) (form.picking labels.now e.now) steps.old.items steps.new.items result }
{
    match lower_value(alloc, table, Purpose::ForUse, around.free, e, steps) {
        Ok(number) => append_select(steps, number.value, labels),
        Err(error) => Err(error),
    }
}

/// RETURN. Section 15.8.
pub(crate) fn lower_return(
    alloc: Global,
    table: &NameFacts,
    around: Around,
    e: &Option<Expr>,
    steps: &mut Vec<Step>,
) -> Result<(), LowerError>
    ensures { IsOutcome table.now around (optional_lowers table.now e.now) (form.returning e.now) steps.old.items steps.new.items result }
{
    match e {
        None => append(steps, Step::Back),
        Some(e) => lower_answer(alloc, table, around, e, steps),
    }
}

/// RETURN by the number of an alternate return. Section 15.8.
fn lower_answer(
    alloc: Global,
    table: &NameFacts,
    around: Around,
    e: &Expr,
    steps: &mut Vec<Step>,
) -> Result<(), LowerError>
    ensures { IsOutcome table.now around (is_lowered_value table.now e.now) (form.returning (Some e.now)) steps.old.items steps.new.items result }
{
    match lower_value(alloc, table, Purpose::ForUse, around.free, e, steps) {
        Ok(number) => append(steps, Step::BackBy(number.value)),
        Err(error) => Err(error),
    }
}

/// The step by which the label that a variable holds picks one of some.
#[tactic(auto, using(lowered_tree::proofs::ShapeForms::pure_forms))]
fn jump_by(alloc: Global, name: &[u8], labels: &[u32]) -> Result<Step, AllocError>
    ensures { IfOk result (λ step. step_of step ≡ act.JumpBy (core.Name name.now) labels.now) }
{
    let name = Items::from_slice(alloc, name)?;
    let labels = Items::from_slice(alloc, labels)?;
    Ok(Step::JumpBy(Pure::Name(name), labels))
}

/// Appends the step by which the label that a variable holds picks one of the labels, and a jump to each of them behind it.
fn push_jump_by(
    alloc: Global,
    steps: &mut Vec<Step>,
    name: &[u8],
    labels: &[u32],
) -> Result<(), AllocError>
    ensures { OnOk result (steps_of steps.new.items ≡ steps_of steps.old.items ++ act.JumpBy (core.Name name.now) (statements.each_once labels.now) ∷ map act.Jump (statements.each_once labels.now)) }
{
    let once = each_once(alloc, labels)?;
    push_step(steps, jump_by(alloc, name, once.as_slice())?)?;
    push_jumps(steps, once.as_slice())
}

/// Appends the step by which the label that a variable holds picks one of the labels, and a jump to each of them behind it.
///
/// # Errors
///
/// `NoMemory` where memory has run out.
#[tactic(auto, unfolding(crate::specs::StatementOutcomes::IsAppended))]
fn append_jump_by(
    alloc: Global,
    steps: &mut Vec<Step>,
    name: &[u8],
    labels: &[u32],
) -> Result<(), LowerError>
    ensures { IsAppended (act.JumpBy (core.Name name.now) (statements.each_once labels.now) ∷ map act.Jump (statements.each_once labels.now)) steps.old.items steps.new.items result }
{
    match push_jump_by(alloc, steps, name, labels) {
        Ok(()) => Ok(()),
        Err(AllocError) => Err(LowerError::NoMemory),
    }
}

/// The assigned GO TO. Section 11.3.
pub(crate) fn lower_assigned_go(
    alloc: Global,
    table: &NameFacts,
    around: Around,
    name: &[u8],
    labels: &[u32],
    steps: &mut Vec<Step>,
) -> Result<(), LowerError>
    ensures { IsOutcome table.now around true (form.going_assigned name.now labels.now) steps.old.items steps.new.items result }
{
    append_jump_by(alloc, steps, name, labels)
}
