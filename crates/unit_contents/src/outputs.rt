//! Whether an output goes on where a step takes an item of it or ends it, and none where the unit returns, and whether what is kept is of a type that is
//! known. Sections 4.1, 12.8 and 15.8.

ghost use Rattle.std.specs.Prelude.{◌≡◌, ℕ, ℤ, Some, Option};
ghost use Rattle.f_tree.specs.Facts.{Facts};
ghost use Rattle.lowered_tree.specs.Shapes.{step_of, steps_of};
ghost use Rattle.main_translation.specs.Flow as spec;
ghost use Rattle.unit_translation.specs.UnitFlow as flow;
ghost use Rattle.unit_contents.specs.ContentsOf.{TellsNames};
ghost use Rattle.unit_contents.specs.Parts as parts;
ghost use Rattle.unit_contents.specs.Tables.{text_of, AreTargets, AreKinds};

use crate::kinds::{item_type, kept_before};
use crate::steps::{begins_output, begun_unit, ends_output, takes_item};
use lowered_text::{Kept, LoweredText};
use lowered_tree::Step;
use name_facts::NameFacts;

/// The unit of the output in progress behind a step that nothing but the step before leads to, given the one before it.
#[tactic(auto, using(crate::proofs::OutputLaws::stage_forms))]
fn stage_after(stage: Option<i32>, step: &Step) -> Option<i32>
    ensures { result ≡ spec.stage_after stage (step_of step.now) }
{
    if begins_output(step) {
        begun_unit(step)
    } else if ends_output(step) {
        None
    } else {
        stage
    }
}

/// The unit of the output in progress behind a step, given the one before it.
#[tactic(auto, unfolding(main_translation::specs::Flow::stage_behind))]
fn stage_behind(is_target: bool, stage: Option<i32>, step: &Step) -> Option<i32>
    ensures { result ≡ spec.stage_behind is_target stage (Some (step_of step.now)) }
{
    if is_target {
        None
    } else {
        stage_after(stage, step)
    }
}

/// Whether an output goes on where a step takes an item of it or ends it.
#[tactic(auto, using(crate::proofs::OutputLaws::on_forms))]
fn is_on(step: &Step, stage: Option<i32>) -> bool
    ensures { result ≡ spec.is_on (step_of step.now) stage }
{
    stage.is_some() || !(takes_item(step) || ends_output(step))
}

/// Whether an output goes on where a step takes an item of it or ends it, and none where the step returns; what it keeps is of a type that is known.
#[tactic(auto, unfolding(crate::specs::Parts::is_in_place_by))]
fn is_in_place(table: &NameFacts, kept: Option<Kept>, step: &Step, stage: Option<i32>) -> bool
    ensures { (c : Facts) → TellsNames table.now c → result ≡ parts.is_in_place_by c kept (step_of step.now) stage }
{
    match step {
        Step::Back | Step::BackBy(_) => stage.is_none(),
        Step::Keep(_, value) => item_type(table, kept, value).is_some(),
        _ => is_on(step, stage),
    }
}

/// Whether an output goes on at each step that takes an item or ends one, and none where the unit returns, and what is kept is of a type that is known.
pub(crate) fn are_in_place(
    table: &NameFacts,
    text: &LoweredText,
    targets: &[bool],
    kinds: &[Option<Kept>],
) -> bool
    requires targets { AreTargets text.now targets.now }
    requires kinds { AreKinds table.now text.now kinds.now }
    ensures { (c : Facts) (begins : ℕ → ℕ) → TellsNames table.now c → result ≡ flow.are_in_place (text_of text.now c begins) 0 (steps_of text.now.steps.items) }
{
    let steps = text.steps.as_slice();
    let mut stage = None;
    for (position, step) in steps.iter().enumerate() {
        if !is_in_place(table, kept_before(kinds, position), step, stage) {
            return false;
        }
        stage = stage_behind(targets[position + 1], stage, step);
    }
    true
}
