//! A lowered text behind others.

ghost use Rattle.std.specs.Prelude.{IfOk};
ghost use Rattle.lowered_tree.specs.l_core.Steps.{Text};
ghost use Rattle.lowered_text.specs.Texts.{IsText};
ghost use Rattle.behind_bounds.specs.BehindBounds as spec;

use crate::labels::labels_behind;
use crate::steps::{marks_behind, steps_behind};
use lowered_text::LoweredText;
use std::alloc::{AllocError, Global};

/// A lowered text behind so many steps that do nothing: its steps, labels and marks are numbered from there.
///
/// # Errors
///
/// Where memory has run out, or no number is left for a step.
pub fn behind(alloc: Global, text: LoweredText, first: usize) -> Result<LoweredText, AllocError>
    ensures { IfOk result (λ whole. (u : Text) → IsText text u → IsText whole (spec.behind first u)) }
{
    let labels = labels_behind(alloc, first, &text.labels)?;
    let marks = marks_behind(alloc, first, text.marks.as_slice())?;
    let steps = steps_behind(alloc, first, text.steps)?;
    Ok(LoweredText {
        steps,
        labels,
        marks,
    })
}
