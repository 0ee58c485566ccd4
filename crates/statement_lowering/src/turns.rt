//! The turns of DO loops. Section 11.10.

ghost use Rattle.std.specs.Prelude.{◌≡◌, ◌++◌, ◌∷◌, [], true, IfOk, OnOk};
ghost use Rattle.f_tree.specs.Terms.{Add};
ghost use Rattle.f_tree.specs.Lines.{Naming, control_of};
ghost use Rattle.lowered_tree.specs.l_core.Pures as core;
ghost use Rattle.lowered_tree.specs.l_core.Steps as act;
ghost use Rattle.lowering.specs.Statements.{loop_operands, test_by, back_by};
ghost use Rattle.lowered_tree.specs.Shapes.{pure_of, step_of, steps_of};
ghost use Rattle.expression_lowering.specs.TableNames.{AreFactsOf};
ghost use Rattle.statement_lowering.specs.LoweredStatements as spec;
ghost use Rattle.statement_lowering.specs.LoopTurns.{IsTurnOutcome, IsFreeOutcome, IsLoweredTurn, IsFreeInside};

use crate::appending::push_step;
use crate::assignments::ahead;
use crate::copies::copy;
use crate::loops::{bounds_refer, control_lowers, loaded, push_first, step_for, test, value_for};
use expression_lowering::{LowerError, Purpose};
use f_tree::statements::LoopControl;
use lowered_tree::{Operator, Pure, Step};
use name_facts::NameFacts;
use plain_data::Boxed;
use std::alloc::{AllocError, Global};

/// The limit and the step of a loop, and the first temporary that is free behind them.
#[derive(Drop)]
struct Bounds {
    limit: Pure,
    by: Pure,
    free: usize,
}

/// The limit and the step of a loop of a form that is lowered, as they stand behind its DO statement.
fn lower_bounds(
    alloc: Global,
    table: &NameFacts,
    free: usize,
    control: &LoopControl,
) -> Result<Bounds, AllocError>
    requires { spec.control_lowers table.now control.now ≡ true }
    ensures values { IfOk result (λ b. (names : Naming) → AreFactsOf names table.now → (first : core.Pure) × ((loop_operands free (control_of names control.now)).value ≡ core.AndPure (core.Name control.now.variable) (core.AndPure first (core.AndPure (pure_of b.limit) (core.AndPure (pure_of b.by) core.NoPure))))) }
    ensures free { IfOk result (λ b. (names : Naming) → AreFactsOf names table.now → b.free ≡ (loop_operands free (control_of names control.now)).free) }
{
    let mut passed = Vec::new(alloc);
    let steps = &mut passed;
    let purpose = ahead(bounds_refer(table, &control.limit, &control.step));
    let first = value_for(alloc, table, purpose, free, &control.first, steps)?;
    let later = Purpose::ForLater;
    let limit = value_for(alloc, table, later, first.free, &control.limit, steps)?;
    let by = step_for(alloc, table, limit.free, &control.step, steps)?;
    Ok(Bounds {
        limit: limit.value,
        by: by.value,
        free: by.free,
    })
}

/// The next value of a loop's variable.
#[tactic(auto, using(lowered_tree::proofs::ShapeForms::pure_forms))]
fn next_value(alloc: Global, name: &[u8], by: Pure) -> Result<Pure, AllocError>
    ensures { IfOk result (λ p. pure_of p ≡ core.Operated Add (core.Load (core.Name name.now)) (pure_of by)) }
{
    let value = loaded(alloc, name)?;
    let value = Boxed::new(alloc, value)?;
    Ok(Pure::Operated(Operator::Add, value, Boxed::new(alloc, by)?))
}

/// The way back to the test of a loop, or to its range while the test holds.
#[tactic(auto, unfolding(lowering::specs::Statements::back_by))]
fn back_step(
    alloc: Global,
    once: bool,
    back: usize,
    name: &[u8],
    limit: Pure,
    by: Pure,
) -> Result<Step, AllocError>
    ensures { IfOk result (λ step. step_of step ≡ back_by once (test_by (core.Name name.now) (pure_of limit) (pure_of by)) back) }
{
    if once {
        let condition = test(alloc, name, limit, by)?;
        Ok(Step::AgainIf(condition, back))
    } else {
        Ok(Step::Again(back))
    }
}

/// Appends the next value of a loop's variable, and the way back.
fn push_turn(
    alloc: Global,
    once: bool,
    back: usize,
    name: &[u8],
    limit: Pure,
    by: Pure,
    steps: &mut Vec<Step>,
) -> Result<(), AllocError>
    ensures { OnOk result (steps_of steps.new.items ≡ steps_of steps.old.items ++ act.Put (core.Name name.now) (core.Operated Add (core.Load (core.Name name.now)) (pure_of by)) ∷ back_by once (test_by (core.Name name.now) (pure_of limit) (pure_of by)) back ∷ []) }
{
    let again = copy(alloc, &by)?;
    let next = next_value(alloc, name, by)?;
    push_first(alloc, name, next, steps)?;
    let step = back_step(alloc, once, back, name, limit, again)?;
    push_step(steps, step)
}

/// Appends the turn of a loop of a form that is lowered.
fn push_bounds(
    alloc: Global,
    table: &NameFacts,
    once: bool,
    free: usize,
    back: usize,
    control: &LoopControl,
    steps: &mut Vec<Step>,
) -> Result<(), AllocError>
    requires { spec.control_lowers table.now control.now ≡ true }
    ensures { OnOk result (IsLoweredTurn table.now once free back control.now steps.old.items steps.new.items) }
{
    let bounds = lower_bounds(alloc, table, free, control)?;
    let name = control.variable.as_slice();
    push_turn(alloc, once, back, name, bounds.limit, bounds.by, steps)
}

/// Appends what stands behind the terminal statement of a DO loop: the next value of its variable, and the way so many steps back to its test, or
/// to its range while the test holds where the range is run at least once. `free` is the first temporary that is free at the DO statement.
///
/// # Errors
///
/// `NotLowered` where the control has an expression that is not lowered: no step is appended then. `NoMemory` where memory has run out, or no
/// number is left for a temporary.
#[tactic(auto, unfolding(crate::specs::LoopTurns::IsTurnOutcome))]
pub fn lower_turn(
    alloc: Global,
    table: &NameFacts,
    once: bool,
    free: usize,
    back: usize,
    control: &LoopControl,
    steps: &mut Vec<Step>,
) -> Result<(), LowerError>
    ensures { IsTurnOutcome table.now once free back control.now steps.old.items steps.new.items result }
{
    if !control_lowers(table, control) {
        return Err(LowerError::NotLowered);
    }
    match push_bounds(alloc, table, once, free, back, control, steps) {
        Ok(()) => Ok(()),
        Err(AllocError) => Err(LowerError::NoMemory),
    }
}

/// The first temporary that is free in the range of a DO loop, given the first that is free at its DO statement.
///
/// # Errors
///
/// `NotLowered` where the control has an expression that is not lowered. `NoMemory` where memory has run out, or no number is left for a temporary.
#[tactic(auto, unfolding(crate::specs::LoopTurns::IsFreeOutcome))]
pub fn free_inside(
    alloc: Global,
    table: &NameFacts,
    free: usize,
    control: &LoopControl,
) -> Result<usize, LowerError>
    ensures { IsFreeOutcome table.now free control.now result }
{
    if !control_lowers(table, control) {
        return Err(LowerError::NotLowered);
    }
    match lower_bounds(alloc, table, free, control) {
        Ok(bounds) => Ok(bounds.free),
        Err(AllocError) => Err(LowerError::NoMemory),
    }
}
