//! Steps behind others.

ghost use Rattle.std.specs.Prelude.{◌≡◌, ◌++◌, ◌∷◌, [], OnOk};
ghost use Rattle.lowered_tree.specs.Shapes.{step_of, steps_of};
ghost use Rattle.statement_lowering.specs.StatementOutcomes.{IsAppended};

use expression_lowering::LowerError;
use lowered_tree::Step;
use std::alloc::AllocError;

/// Appends a step.
pub(crate) fn push_step(steps: &mut Vec<Step>, step: Step) -> Result<(), AllocError>
    ensures { OnOk result (steps_of steps.new.items ≡ steps_of steps.old.items ++ step_of step ∷ []) }
{
    steps.push(step)?;
    Ok(())
}

/// Appends steps.
pub(crate) fn append_steps(steps: &mut Vec<Step>, mut more: Vec<Step>) -> Result<(), AllocError>
    ensures { OnOk result (steps_of steps.new.items ≡ steps_of steps.old.items ++ steps_of more.items) }
{
    steps.append(&mut more)
}

/// Appends a step.
///
/// # Errors
///
/// `NoMemory` where memory has run out.
#[tactic(auto, unfolding(crate::specs::StatementOutcomes::IsAppended))]
pub(crate) fn append(steps: &mut Vec<Step>, step: Step) -> Result<(), LowerError>
    ensures { IsAppended (step_of step ∷ []) steps.old.items steps.new.items result }
{
    match push_step(steps, step) {
        Ok(()) => Ok(()),
        Err(AllocError) => Err(LowerError::NoMemory),
    }
}

/// Appends steps.
///
/// # Errors
///
/// `NoMemory` where memory has run out.
#[tactic(auto, unfolding(crate::specs::StatementOutcomes::IsAppended))]
fn append_all(steps: &mut Vec<Step>, more: Vec<Step>) -> Result<(), LowerError>
    ensures { IsAppended (steps_of more.items) steps.old.items steps.new.items result }
{
    match append_steps(steps, more) {
        Ok(()) => Ok(()),
        Err(AllocError) => Err(LowerError::NoMemory),
    }
}

/// Appends a step, and others behind it.
///
/// # Errors
///
/// `NoMemory` where memory has run out.
#[tactic(auto, unfolding(crate::specs::StatementOutcomes::IsAppended))]
pub(crate) fn append_before(
    steps: &mut Vec<Step>,
    step: Step,
    behind: Vec<Step>,
) -> Result<(), LowerError>
    ensures { IsAppended (step_of step ∷ steps_of behind.items) steps.old.items steps.new.items result }
{
    match append(steps, step) {
        Ok(()) => append_all(steps, behind),
        Err(error) => Err(error),
    }
}
