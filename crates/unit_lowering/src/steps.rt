//! Steps that are appended.

ghost use Rattle.std.specs.Prelude.{◌≡◌, [], ◌∷◌, ◌++◌, Err, OnOk};
ghost use Rattle.f_tree.specs.Lines.{mark_of};
ghost use Rattle.lowered_tree.specs.Shapes.{steps_of, step_of};
ghost use Rattle.expression_lowering.specs.declared.answers.LowerError.TheVariants.{NotLowered};
ghost use Rattle.unit_lowering.specs.LineSteps.{skip_steps};

use crate::forms::{ArmForm, arm_form};
use expression_lowering::LowerError;
use f_tree::Body;
use lowered_tree::Step;
use std::alloc::AllocError;

/// Appends a step.
fn push_step(steps: &mut Vec<Step>, step: Step) -> Result<(), AllocError>
    ensures { OnOk result (steps_of steps.new.items ≡ steps_of steps.old.items ++ step_of step ∷ []) }
{
    steps.push(step)?;
    Ok(())
}

/// Appends a step.
pub(crate) fn add_step(steps: &mut Vec<Step>, step: Step) -> Result<(), LowerError>
    ensures added { OnOk result (steps_of steps.new.items ≡ steps_of steps.old.items ++ step_of step ∷ []) }
    ensures lowered { result ≡ Err NotLowered → ⊥ }
{
    match push_step(steps, step) {
        Ok(()) => Ok(()),
        Err(AllocError) => Err(LowerError::NoMemory),
    }
}

/// Appends the step that passes the other arms, where a statement begins a further arm.
#[tactic(auto, unfolding(crate::specs::LineForms::mark_by, crate::specs::LineSteps::skip_steps))]
pub(crate) fn add_skip(body: &Body, skip: usize, steps: &mut Vec<Step>) -> Result<(), LowerError>
    ensures added { OnOk result (steps_of steps.new.items ≡ steps_of steps.old.items ++ skip_steps (mark_of body.now) skip) }
    ensures lowered { result ≡ Err NotLowered → ⊥ }
{
    match arm_form(body) {
        ArmForm::Arm => add_step(steps, Step::Skip(skip)),
        ArmForm::Plain | ArmForm::Opens | ArmForm::Closes => Ok(()),
    }
}
