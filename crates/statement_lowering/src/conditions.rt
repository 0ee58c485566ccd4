//! Statements that pass others where a condition does not hold, or go on by the sign of a number.

ghost use Rattle.std.specs.Prelude.{◌≡◌, ◌&&◌, ◌++◌, ◌∷◌, [], Bool, None, IfOk, OnOk, length, pos};
ghost use Rattle.f_tree.specs.Values.{IsInt};
ghost use Rattle.f_tree.specs.Terms.{IsLess, IsEqual};
ghost use Rattle.lowered_tree.specs.l_core.Pures as core;
ghost use Rattle.lowered_tree.specs.l_core.Steps as act;
ghost use Rattle.lowered_tree.specs.Shapes.{operator_of, pure_of, steps_of};
ghost use Rattle.expression_lowering.specs.TableNames.{is_lowered_value};
ghost use Rattle.statement_lowering.specs.StatementForms as form;
ghost use Rattle.statement_lowering.specs.StatementOutcomes.{within, IsOutcome, IsAppended};

use crate::appending::{append, append_before, push_step};
use crate::around::Around;
use crate::copies::copy;
use expression_lowering::{LowerError, Purpose, lower_value};
use f_tree::Expr;
use lowered_tree::{Literal, Operator, Pure, Step};
use name_facts::NameFacts;
use plain_data::Boxed;
use std::alloc::{AllocError, Global};

/// IF .. THEN and ELSE IF .. THEN. Sections 11.6 and 11.7.
pub(crate) fn lower_arm(
    alloc: Global,
    table: &NameFacts,
    around: Around,
    e: &Expr,
    steps: &mut Vec<Step>,
) -> Result<(), LowerError>
    ensures { IsOutcome table.now around (is_lowered_value table.now e.now) (form.entering e.now) steps.old.items steps.new.items result }
{
    match lower_value(alloc, table, Purpose::ForUse, around.free, e, steps) {
        Ok(condition) => append(steps, Step::Unless(condition.value, around.room)),
        Err(error) => Err(error),
    }
}

/// DO WHILE. MIL-STD-1753.
pub(crate) fn lower_while(
    alloc: Global,
    table: &NameFacts,
    around: Around,
    e: &Expr,
    steps: &mut Vec<Step>,
) -> Result<(), LowerError>
    ensures { IsOutcome table.now around (is_lowered_value table.now e.now) (form.testing None e.now) steps.old.items steps.new.items result }
{
    lower_arm(alloc, table, around, e, steps)
}

/// Appends a condition, and the steps that are passed where it does not hold.
///
/// # Errors
///
/// `NoMemory` where memory has run out.
fn append_guard(condition: Pure, under: Vec<Step>, steps: &mut Vec<Step>) -> Result<(), LowerError>
    ensures { IsAppended (act.Unless (pure_of condition) (length under.items) ∷ steps_of under.items) steps.old.items steps.new.items result }
{
    let passed = under.len();
    append_before(steps, Step::Unless(condition, passed), under)
}

/// The logical IF, given what was answered at its statement, with the steps of that. Section 11.5.
pub(crate) fn lower_guard(
    alloc: Global,
    table: &NameFacts,
    around: Around,
    e: &Expr,
    lowered: Result<(), LowerError>,
    under: Vec<Step>,
    steps: &mut Vec<Step>,
) -> Result<(), LowerError>
    ensures { (lowers : Bool) (inner : form.Forms) → IsOutcome table.now (within around) lowers inner [] under.items lowered → IsOutcome table.now around (lowers && is_lowered_value table.now e.now) (form.guarding e.now inner) steps.old.items steps.new.items result }
{
    match lowered {
        Ok(()) => {}
        Err(error) => return Err(error),
    }
    match lower_value(alloc, table, Purpose::ForUse, around.free, e, steps) {
        Ok(condition) => append_guard(condition.value, under, steps),
        Err(error) => Err(error),
    }
}

/// A number beside 0.
#[tactic(auto, using(lowered_tree::proofs::ShapeForms::pure_forms))]
pub(crate) fn beside_zero(alloc: Global, op: Operator, number: Pure) -> Result<Pure, AllocError>
    ensures { IfOk result (λ p. pure_of p ≡ core.Operated (operator_of op) (pure_of number) (core.Constant (IsInt (pos 0)))) }
{
    let zero = Pure::Constant(Literal::Integer(0));
    Ok(Pure::Operated(op, Boxed::new(alloc, number)?, Boxed::new(alloc, zero)?))
}

/// Appends a branch where a number is so beside 0.
fn push_branch(
    alloc: Global,
    op: Operator,
    number: Pure,
    label: u32,
    steps: &mut Vec<Step>,
) -> Result<(), AllocError>
    ensures { OnOk result (steps_of steps.new.items ≡ steps_of steps.old.items ++ act.Unless (core.Operated (operator_of op) (pure_of number) (core.Constant (IsInt (pos 0)))) 1 ∷ act.Jump label ∷ []) }
{
    let condition = beside_zero(alloc, op, number)?;
    push_step(steps, Step::Unless(condition, 1))?;
    push_step(steps, Step::Jump(label))
}

/// Appends the branches by the sign of a number.
fn push_branches(
    alloc: Global,
    number: Pure,
    below: u32,
    at: u32,
    above: u32,
    steps: &mut Vec<Step>,
) -> Result<(), AllocError>
    ensures { OnOk result (steps_of steps.new.items ≡ steps_of steps.old.items ++ act.Unless (core.Operated IsLess (pure_of number) (core.Constant (IsInt (pos 0)))) 1 ∷ act.Jump below ∷ act.Unless (core.Operated IsEqual (pure_of number) (core.Constant (IsInt (pos 0)))) 1 ∷ act.Jump at ∷ act.Jump above ∷ []) }
{
    let again = copy(alloc, &number)?;
    push_branch(alloc, Operator::IsLess, number, below, steps)?;
    push_branch(alloc, Operator::IsEqual, again, at, steps)?;
    push_step(steps, Step::Jump(above))
}

/// Appends the branches by the sign of a number.
///
/// # Errors
///
/// `NoMemory` where memory has run out.
#[tactic(auto, unfolding(crate::specs::StatementOutcomes::IsAppended))]
fn append_branches(
    alloc: Global,
    number: Pure,
    below: u32,
    at: u32,
    above: u32,
    steps: &mut Vec<Step>,
) -> Result<(), LowerError>
    ensures { IsAppended (act.Unless (core.Operated IsLess (pure_of number) (core.Constant (IsInt (pos 0)))) 1 ∷ act.Jump below ∷ act.Unless (core.Operated IsEqual (pure_of number) (core.Constant (IsInt (pos 0)))) 1 ∷ act.Jump at ∷ act.Jump above ∷ []) steps.old.items steps.new.items result }
{
    match push_branches(alloc, number, below, at, above, steps) {
        Ok(()) => Ok(()),
        Err(AllocError) => Err(LowerError::NoMemory),
    }
}

/// The arithmetic IF. Section 11.4.
pub(crate) fn lower_sign(
    alloc: Global,
    table: &NameFacts,
    around: Around,
    e: &Expr,
    below: u32,
    at: u32,
    above: u32,
    steps: &mut Vec<Step>,
) -> Result<(), LowerError>
    ensures { IsOutcome table.now around (is_lowered_value table.now e.now) (form.going_by_sign e.now below at above) steps.old.items steps.new.items result }
{
    match lower_value(alloc, table, Purpose::ForLater, around.free, e, steps) {
        Ok(number) => append_branches(alloc, number.value, below, at, above, steps),
        Err(error) => Err(error),
    }
}
