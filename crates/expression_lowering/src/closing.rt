//! What stands behind the operands of a form.

ghost use Rattle.std.specs.Prelude.{◌≡◌, ◌++◌, ◌∷◌, [], suc, IfOk, OnOk, option_map};
ghost use Rattle.f_tree.specs.Terms.{Power};
ghost use Rattle.lowered_tree.specs.l_core.Pures as core;
ghost use Rattle.lowering.specs.Expressions as low;
ghost use Rattle.lowered_tree.specs.Shapes.{operator_of, prefix_of, function_of, pure_of, pures_of, steps_of, step_of, callee_of};
ghost use Rattle.name_facts.specs.GivenFacts.{fact_in, datum_of};
ghost use Rattle.expression_lowering.specs.Purposes.{purpose_of};
ghost use Rattle.expression_lowering.specs.LoweredForms.{callee_of_fact};
ghost use Rattle.expression_lowering.specs.Outcomes.{IsPlain, IsKept, IsClosed, IsGuarded, IsBehind, IsJoined};

use crate::answers::{Lowered, Operands};
use crate::intrinsics::is_library;
use crate::operators::Plan;
use crate::purpose::{Purpose, for_fetch, is_kept};
use lowered_tree::{Callee, Function, Operator, Prefix, Pure, Step, Wanted};
use name_facts::NameFacts;
use plain_data::{Boxed, Items};
use std::alloc::{AllocError, Global};

/// Appends a step.
fn push_step(steps: &mut Vec<Step>, step: Step) -> Result<(), AllocError>
    ensures { OnOk result (steps_of steps.new.items ≡ steps_of steps.old.items ++ step_of step ∷ []) }
{
    steps.push(step)?;
    Ok(())
}

/// Appends steps.
fn append_steps(steps: &mut Vec<Step>, mut more: Vec<Step>) -> Result<(), AllocError>
    ensures { OnOk result (steps_of steps.new.items ≡ steps_of steps.old.items ++ steps_of more.items) }
{
    steps.append(&mut more)
}

/// The number of the next temporary. Fails where no number is left.
fn next(number: usize) -> Result<usize, AllocError>
    ensures { IfOk result (λ n. n ≡ suc number) }
{
    number.checked_add(1).ok_or(AllocError)
}

/// A temporary as a value.
#[tactic(auto, using(lowered_tree::proofs::ShapeForms::pure_forms))]
fn temporary(number: usize) -> Result<Lowered, AllocError>
    ensures { IfOk result (IsPlain (core.Temporary number) (suc number)) }
{
    let free = next(number)?;
    Ok(Lowered {
        value: Pure::Temporary(number),
        free,
    })
}

/// A value that is kept in a temporary where it is for more than use.
fn keep(
    purpose: Purpose,
    first: usize,
    value: Pure,
    free: usize,
    steps: &mut Vec<Step>,
) -> Result<Lowered, AllocError>
    ensures { IfOk result (IsKept (purpose_of purpose) first free (pure_of value) steps.old.items steps.new.items) }
{
    if is_kept(purpose) {
        push_step(steps, Step::Keep(first, value))?;
        temporary(first)
    } else {
        Ok(Lowered { value, free })
    }
}

/// The value at a place.
pub(crate) fn load(
    alloc: Global,
    purpose: Purpose,
    first: usize,
    place: Lowered,
    steps: &mut Vec<Step>,
) -> Result<Lowered, AllocError>
    ensures { IfOk result (IsClosed low.AsFetch (purpose_of purpose) first place.free (core.AndPure (pure_of place.value) core.NoPure) steps.old.items steps.new.items) }
{
    let value = Pure::Load(Boxed::new(alloc, place.value)?);
    keep(for_fetch(purpose), first, value, place.free, steps)
}

/// An operator before its operand.
pub(crate) fn prefix(
    alloc: Global,
    op: Prefix,
    purpose: Purpose,
    first: usize,
    operand: Lowered,
    steps: &mut Vec<Step>,
) -> Result<Lowered, AllocError>
    ensures { IfOk result (IsClosed (low.AsBefore (prefix_of op)) (purpose_of purpose) first operand.free (core.AndPure (pure_of operand.value) core.NoPure) steps.old.items steps.new.items) }
{
    let value = Pure::Prefixed(op, Boxed::new(alloc, operand.value)?);
    keep(purpose, first, value, operand.free, steps)
}

/// An operator between its operands.
#[tactic(auto, using(lowered_tree::proofs::ShapeForms::pure_forms))]
fn operated(alloc: Global, op: Operator, left: Pure, right: Pure) -> Result<Pure, AllocError>
    ensures { IfOk result (λ p. pure_of p ≡ core.Operated (operator_of op) (pure_of left) (pure_of right)) }
{
    Ok(Pure::Operated(op, Boxed::new(alloc, left)?, Boxed::new(alloc, right)?))
}

/// An operator between its operands, behind them.
fn operate(
    alloc: Global,
    op: Operator,
    purpose: Purpose,
    first: usize,
    left: Pure,
    right: Lowered,
    steps: &mut Vec<Step>,
) -> Result<Lowered, AllocError>
    ensures { IfOk result (IsClosed (low.AsBetween (operator_of op)) (purpose_of purpose) first right.free (core.AndPure (pure_of left) (core.AndPure (pure_of right.value) core.NoPure)) steps.old.items steps.new.items) }
{
    let value = operated(alloc, op, left, right.value)?;
    keep(purpose, first, value, right.free, steps)
}

/// Two values in a row.
#[tactic(auto, using(lowered_tree::proofs::ShapeForms::pure_forms))]
fn pair(alloc: Global, left: Pure, right: Pure) -> Result<Items<Pure>, AllocError>
    ensures { IfOk result (λ values. pures_of values ≡ core.AndPure (pure_of left) (core.AndPure (pure_of right) core.NoPure)) }
{
    let mut values = Vec::new(alloc);
    values.push(left)?;
    values.push(right)?;
    Ok(Items::from_vec(values))
}

/// A function of its operands: one of C's library is called, another is a value.
pub(crate) fn apply(
    function: Function,
    purpose: Purpose,
    first: usize,
    operands: Operands,
    steps: &mut Vec<Step>,
) -> Result<Lowered, AllocError>
    ensures { IfOk result (IsClosed (low.AsFunction (function_of function)) (purpose_of purpose) first operands.free (pures_of operands.values) steps.old.items steps.new.items) }
{
    if is_library(function) {
        push_step(steps, Step::Compute(first, function, operands.values))?;
        temporary(first)
    } else {
        let value = Pure::Applied(function, operands.values);
        keep(purpose, first, value, operands.free, steps)
    }
}

/// What is called by a name.
#[tactic(auto, unfolding(crate::specs::LoweredForms::callee_of_fact, f_tree::specs::Reading::width_or_zero))]
fn callee(alloc: Global, table: &NameFacts, name: &[u8]) -> Result<Callee, AllocError>
    ensures { IfOk result (λ callee. callee_of callee ≡ callee_of_fact name.now (fact_in table.now name.now)) }
{
    let width = table.width(name).unwrap_or(0);
    Ok(Callee {
        name: Items::from_slice(alloc, name)?,
        want: Wanted::Function(table.basic(name), width),
    })
}

/// A function that is called.
pub(crate) fn call(
    alloc: Global,
    table: &NameFacts,
    name: &[u8],
    purpose: Purpose,
    first: usize,
    operands: Operands,
    steps: &mut Vec<Step>,
) -> Result<Lowered, AllocError>
    ensures { IfOk result (IsClosed (low.AsReference (callee_of_fact name.now (fact_in table.now name.now))) (purpose_of purpose) first operands.free (pures_of operands.values) steps.old.items steps.new.items) }
{
    let callee = callee(alloc, table, name)?;
    push_step(steps, Step::CallFor(first, callee, operands.values))?;
    temporary(first)
}

/// An element of an array as a place.
#[tactic(auto, using(lowered_tree::proofs::ShapeForms::pure_forms))]
pub(crate) fn element(alloc: Global, name: &[u8], operands: Operands) -> Result<Lowered, AllocError>
    ensures { IfOk result (IsPlain (core.ElementOf name.now (pures_of operands.values)) operands.free) }
{
    let name = Items::from_slice(alloc, name)?;
    Ok(Lowered {
        value: Pure::ElementOf(name, operands.values),
        free: operands.free,
    })
}

/// The condition on which the right operand is wanted, the left one being kept.
#[tactic(auto, unfolding(lowering::specs::Expressions::wanted_where), using(lowered_tree::proofs::ShapeForms::pure_forms))]
fn wanted_where(alloc: Global, op: Operator, left: usize) -> Result<Pure, AllocError>
    ensures { IfOk result (λ p. pure_of p ≡ low.wanted_where (operator_of op) left) }
{
    let value = Pure::Temporary(left);
    match op {
        Operator::Either => Ok(Pure::Prefixed(Prefix::Complement, Boxed::new(alloc, value)?)),
        _ => Ok(value),
    }
}

/// The right operand of `.AND.` or `.OR.` behind the left one, and passed where that one decides.
fn guard(
    alloc: Global,
    op: Operator,
    first: usize,
    left: Pure,
    right: Pure,
    behind: Vec<Step>,
    steps: &mut Vec<Step>,
) -> Result<Lowered, AllocError>
    ensures { IfOk result (IsGuarded (operator_of op) first (pure_of left) (steps_of behind.items) (pure_of right) steps.old.items steps.new.items) }
{
    let wanted = wanted_where(alloc, op, first)?;
    let passed = behind.len() + 1;
    push_step(steps, Step::Keep(first, left))?;
    push_step(steps, Step::Unless(wanted, passed))?;
    append_steps(steps, behind)?;
    push_step(steps, Step::Keep(first, right))?;
    temporary(first)
}

/// An operator between two operands behind the steps of the right one.
fn operate_behind(
    alloc: Global,
    op: Operator,
    purpose: Purpose,
    first: usize,
    left: Pure,
    right: Lowered,
    behind: Vec<Step>,
    steps: &mut Vec<Step>,
) -> Result<Lowered, AllocError>
    ensures { IfOk result (IsBehind (low.AsBetween (operator_of op)) (purpose_of purpose) first right.free (pure_of left) (steps_of behind.items) (pure_of right.value) steps.old.items steps.new.items) }
{
    append_steps(steps, behind)?;
    operate(alloc, op, purpose, first, left, right, steps)
}

/// A power behind the steps of its right operand.
fn raise_behind(
    alloc: Global,
    purpose: Purpose,
    first: usize,
    left: Pure,
    right: Lowered,
    behind: Vec<Step>,
    steps: &mut Vec<Step>,
) -> Result<Lowered, AllocError>
    ensures { IfOk result (IsBehind (low.AsFunction Power) (purpose_of purpose) first right.free (pure_of left) (steps_of behind.items) (pure_of right.value) steps.old.items steps.new.items) }
{
    append_steps(steps, behind)?;
    let free = right.free;
    let values = pair(alloc, left, right.value)?;
    apply(
        Function::Power,
        purpose,
        first,
        Operands { values, free },
        steps,
    )
}

/// Two operands joined as they are planned, given the steps of the right one.
#[tactic(auto, unfolding(crate::specs::Outcomes::IsJoined))]
pub(crate) fn join(
    alloc: Global,
    plan: Plan,
    purpose: Purpose,
    first: usize,
    left: Pure,
    right: Lowered,
    behind: Vec<Step>,
    steps: &mut Vec<Step>,
) -> Result<Lowered, AllocError>
    ensures { IfOk result (IsJoined plan (purpose_of purpose) first right.free (pure_of left) (steps_of behind.items) (pure_of right.value) steps.old.items steps.new.items) }
{
    match plan {
        Plan::Guarded(op) => guard(alloc, op, first, left, right.value, behind, steps),
        Plan::Between(op) => operate_behind(alloc, op, purpose, first, left, right, behind, steps),
        Plan::Power => raise_behind(alloc, purpose, first, left, right, behind, steps),
    }
}
