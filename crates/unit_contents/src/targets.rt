//! Which steps are reached by a branch.

ghost use Rattle.std.specs.Prelude.{◌≡◌, ◌<◌, ◌^◌, ◌+◌, ◌||◌, ℕ, suc, false, nat_eq, IfOk, length, slice_index_or};
ghost use Rattle.std.specs.List.{list_any};
ghost use Rattle.f_tree.specs.Facts.{Facts};
ghost use Rattle.lowered_tree.specs.Shapes.{step_of};
ghost use Rattle.main_translation.specs.Flow.{targets_on, targets_of};
ghost use Rattle.main_translation.specs.Outlined.{stands_at};
ghost use Rattle.unit_contents.specs.Tables.{text_of, place_in, AreTargets};

use lowered_text::LoweredText;
use lowered_tree::Step;
use std::alloc::{AllocError, Global};

/// Where the steps of the statement with a label begin.
pub(crate) fn place_of(text: &LoweredText, label: u32) -> Option<usize>
    ensures { result ≡ place_in text.now label }
{
    text.labels.get(&label).copied()
}

/// The position so many steps behind the one that follows a position, if it has a number.
#[tactic(auto, using(crate::proofs::TargetLaws::behind_forms))]
fn behind(position: usize, count: usize) -> Option<usize>
    ensures { (place : ℕ) → place < 2 ^ 64 → stands_at result place ≡ nat_eq place (suc position + count) }
{
    position.checked_add(1)?.checked_add(count)
}

/// Notes a place in a table, if the table has it.
pub(crate) fn note(table: &mut [bool], place: usize)
    ensures { (n : ℕ) → n < length table.old → slice_index_or table.new n false ≡ (slice_index_or table.old n false || nat_eq n place) }
{
    if place < table.len() {
        table[place] = true;
    }
}

/// Notes a place in a table, if there is one and the table has it.
#[tactic(auto, using(crate::proofs::TargetLaws::place_forms))]
fn note_if(table: &mut [bool], place: Option<usize>)
    ensures { (n : ℕ) → n < length table.old → slice_index_or table.new n false ≡ (slice_index_or table.old n false || stands_at place n) }
{
    if let Some(place) = place {
        note(table, place);
    }
}

/// Notes each of so many positions behind the one that follows a position, as far as the table has them.
fn note_each(table: &mut [bool], position: usize, count: usize)
    ensures { (n : ℕ) → n < length table.old
        → slice_index_or table.new n false ≡ (slice_index_or table.old n false || list_any (nat_eq n) (targets_on (suc (suc position)) count)) }
{
    for passed in 0..count {
        note_if(table, behind(position, passed + 1));
    }
}

/// Notes where a step at a position may lead but to the one behind it, as far as the table has it.
#[tactic(auto, unfolding(main_translation::specs::Flow::targets_of), using(crate::proofs::TargetLaws::target_forms))]
fn note_targets(table: &mut [bool], text: &LoweredText, position: usize, step: &Step)
    ensures { (c : Facts) (begins : ℕ → ℕ) (n : ℕ) → n < length table.old
        → slice_index_or table.new n false
        ≡ (slice_index_or table.old n false || list_any (nat_eq n) (targets_of (text_of text.now c begins) position (step_of step.now))) }
{
    match step {
        Step::Unless(_, count) | Step::Skip(count) => note_if(table, behind(position, *count)),
        Step::AgainIf(_, count) | Step::Again(count) => note(
            table,
            position.saturating_sub(*count),
        ),
        Step::Jump(label) => note_if(table, place_of(text, *label)),
        Step::Select(_, count) => note_each(table, position, *count),
        Step::JumpBy(_, labels) => note_each(table, position, labels.as_slice().len()),
        Step::Branch(_, count) => note_each(table, position, *count),
        Step::Way(label) => note_if(table, place_of(text, *label)),
        _ => {}
    }
}

/// Whether each position is reached by a branch, up to the one behind the last step.
pub(crate) fn targets(alloc: Global, text: &LoweredText) -> Result<Vec<bool>, AllocError>
    ensures { IfOk result (λ targets. AreTargets text.now targets.items) }
{
    let steps = text.steps.as_slice();
    let mut targets = vec![in alloc; false; steps.len() + 1]?;
    for (position, step) in steps.iter().enumerate() {
        note_targets(&mut targets, text, position, step);
    }
    Ok(targets)
}
