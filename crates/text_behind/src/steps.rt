//! Steps and marks behind others.

ghost use Rattle.std.specs.Prelude.{◌≡◌, ◌+◌, [], IfOk, map};
ghost use Rattle.lowered_tree.specs.Shapes.{steps_of};
ghost use Rattle.lowered_text.specs.Texts.{marked_of};
ghost use Rattle.behind_bounds.specs.BehindBounds as spec;

use lowered_text::Marked;
use lowered_tree::Step;
use std::alloc::{AllocError, Global};

/// So many steps that do nothing.
fn passes(alloc: Global, first: usize) -> Result<Vec<Step>, AllocError>
    ensures { IfOk result (λ steps. steps_of steps.items ≡ spec.steps_behind first []) }
{
    let mut steps = Vec::new(alloc);
    for _at in 0..first {
        steps.push(Step::Pass)?;
    }
    Ok(steps)
}

/// Steps behind so many that do nothing.
pub(crate) fn steps_behind(
    alloc: Global,
    first: usize,
    mut steps: Vec<Step>,
) -> Result<Vec<Step>, AllocError>
    ensures { IfOk result (λ all. steps_of all.items ≡ spec.steps_behind first (steps_of steps.items)) }
{
    let mut all = passes(alloc, first)?;
    all.append(&mut steps)?;
    Ok(all)
}

/// The number of a step behind so many others. Fails where no number is left.
pub(crate) fn number_behind(first: usize, at: usize) -> Result<usize, AllocError>
    ensures { IfOk result (λ n. n ≡ first + at) }
{
    first.checked_add(at).ok_or(AllocError)
}

/// A mark behind so many steps. Fails where no number is left for the step.
#[tactic(auto, unfolding(lowered_text::specs::Texts::marked_of, behind_bounds::specs::BehindBounds::mark_behind))]
fn mark_behind(first: usize, marked: &Marked) -> Result<Marked, AllocError>
    ensures { IfOk result (λ behind. marked_of behind ≡ spec.mark_behind first (marked_of marked.now)) }
{
    let at = number_behind(first, marked.at)?;
    Ok(Marked {
        at,
        mark: marked.mark,
    })
}

/// Marks behind so many steps.
pub(crate) fn marks_behind(
    alloc: Global,
    first: usize,
    marks: &[Marked],
) -> Result<Vec<Marked>, AllocError>
    ensures { IfOk result (λ behind. map marked_of behind.items ≡ map (spec.mark_behind first) (map marked_of marks.now)) }
{
    let mut behind = Vec::new(alloc);
    for marked in marks {
        behind.push(mark_behind(first, marked)?)?;
    }
    Ok(behind)
}
