//! The labels, arms and loops of the function of a unit, by the positions of its steps. C89, 3.6; CSTR 149.

ghost use Rattle.std.specs.Prelude.{◌≡◌, ◌<◌, ◌||◌, ◌&&◌, ℕ, true, false, Some, None, is_none, IfOk, length, slice_get, slice_index_or};
ghost use Rattle.lowered_tree.specs.Shapes.{step_of, steps_of};
ghost use Rattle.lowered_text.specs.Texts.{mark_of, marked_of};
ghost use Rattle.main_translation.specs.Outlined as spec;
ghost use Rattle.unit_contents.specs.Tables.{AreNames, is_opening_by, opens_by, AreOpenings, AreArms, turn_opened, AreTurns, AreLaidOut};

use crate::firsts::{first_labels, first_whiles};
use crate::targets::note;
use c_names::{made_label_name, statement_label_name};
use c_tree::expression::Text;
use lowered_text::{LoweredText, Mark, Marked};
use lowered_tree::Step;
use named_items::Layout;
use std::alloc::{AllocError, Global};

/// The name of the label of a loop, by its number from 0, if there is one. Fails where the label has no number.
#[tactic(auto, unfolding(main_translation::specs::Outlined::name_by))]
fn loop_label(alloc: Global, number: Option<usize>) -> Result<Option<Text>, AllocError>
    ensures { IfOk result (λ name. name ≡ spec.name_by None number) }
{
    match number {
        Some(number) => {
            let label = number.checked_add(1).ok_or(AllocError)?;
            Ok(Some(made_label_name(alloc, label)?))
        }
        None => Ok(None),
    }
}

/// The name of a label: of a statement label, else of the loop that begins there.
#[tactic(auto, unfolding(main_translation::specs::Outlined::name_by))]
fn label_name(
    alloc: Global,
    label: Option<u32>,
    number: Option<usize>,
) -> Result<Option<Text>, AllocError>
    ensures { IfOk result (λ name. name ≡ spec.name_by label number) }
{
    match label {
        Some(label) => Ok(Some(statement_label_name(alloc, label)?)),
        None => loop_label(alloc, number),
    }
}

/// The labels of the positions.
fn label_names(alloc: Global, text: &LoweredText) -> Result<Vec<Option<Text>>, AllocError>
    ensures { IfOk result (λ names. AreNames text.now names.items) }
{
    let labels = first_labels(alloc, text)?;
    let numbers = first_whiles(alloc, text)?;
    let mut names = Vec::new(alloc);
    for position in 0..text.steps.len() {
        names.push(label_name(alloc, labels[position], numbers[position])?)?;
    }
    Ok(names)
}

/// Whether a step passes arms.
#[tactic(auto, using(crate::proofs::LayoutLaws::passing_forms))]
fn passes_arms(step: &Step) -> bool
    ensures { result ≡ spec.passes_arms (Some (step_of step.now)) }
{
    matches!(step, Step::Skip(_))
}

/// Whether a step at which a label stands, if it has a name, is the jump at the end of an arm.
fn ends_arm(step: &Step, name: &Option<Text>) -> bool
    ensures { result ≡ spec.passes_arms (Some (step_of step.now)) && is_none name.now }
{
    passes_arms(step) && name.is_none()
}

/// Which steps are the jumps at the ends of arms.
fn arms(alloc: Global, steps: &[Step], names: &[Option<Text>]) -> Result<Vec<bool>, AllocError>
    requires { length names.now ≡ length steps.now }
    ensures { IfOk result (λ arms. AreArms steps.now names.now arms.items) }
{
    let mut arms = Vec::new(alloc);
    for (position, step) in steps.iter().enumerate() {
        arms.push(ends_arm(step, &names[position]))?;
    }
    Ok(arms)
}

/// Whether a mark opens a loop whose variable is tested before each turn.
#[tactic(auto, unfolding(main_translation::specs::Outlined::is_opening, lowered_text::specs::Texts::mark_of))]
fn is_opening(mark: Mark) -> bool
    ensures { result ≡ spec.is_opening (mark_of mark) }
{
    matches!(mark, Mark::OpensLoop)
}

/// Whether a mark opens a loop whose variable is tested behind each turn alone.
#[tactic(auto, unfolding(main_translation::specs::Outlined::is_opening_once, lowered_text::specs::Texts::mark_of))]
fn is_opening_once(mark: Mark) -> bool
    ensures { result ≡ spec.is_opening_once (mark_of mark) }
{
    matches!(mark, Mark::OpensLoopOnce)
}

/// Whether a mark opens a loop that is tested behind each turn alone, or else one that is tested before each.
fn is_opening_by(once: bool, mark: Mark) -> bool
    ensures { result ≡ is_opening_by once (mark_of mark) }
{
    if once {
        is_opening_once(mark)
    } else {
        is_opening(mark)
    }
}

/// Notes where a mark opens a loop of one of these kinds, if it opens one and the table has the place.
fn note_opening(openings: &mut [bool], once: bool, marked: Marked)
    ensures { (n : ℕ) → n < length openings.old → slice_index_or openings.new n false ≡ (slice_index_or openings.old n false || opens_by once n (marked_of marked)) }
{
    if is_opening_by(once, marked.mark) {
        note(openings, marked.at);
    }
}

/// Where loops open that are tested behind each turn alone, or else those that are tested before each.
fn openings(alloc: Global, text: &LoweredText, once: bool) -> Result<Vec<bool>, AllocError>
    ensures { IfOk result (λ openings. AreOpenings text.now once openings.items) }
{
    let mut openings = vec![in alloc; false; text.steps.len()]?;
    for marked in text.marks.as_slice() {
        note_opening(&mut openings, once, *marked);
    }
    Ok(openings)
}

/// How many steps the turn of a loop has that a step tests.
fn turn_of(step: &Step) -> Option<usize>
    ensures { result ≡ spec.turn_of (Some (step_of step.now)) }
{
    match step {
        Step::Unless(_, count) => count.checked_sub(2),
        _ => None,
    }
}

/// Whether a step tests behind so many others, and goes back to the first of them.
#[tactic(auto, using(crate::proofs::LayoutLaws::back_forms))]
fn goes_back_by(count: usize, step: &Step) -> bool
    ensures { result ≡ spec.goes_back_by count (step_of step.now) }
{
    match step {
        Step::AgainIf(_, passed) => *passed == count,
        _ => false,
    }
}

/// How many steps the turn has that these begin with, if it is tested behind them.
fn turn_behind(steps: &[Step]) -> Option<usize>
    ensures { result ≡ spec.turn_behind 0 (steps_of steps.now) }
{
    for (count, step) in steps.iter().enumerate() {
        if goes_back_by(count, step) {
            return Some(count);
        }
    }
    None
}

/// How many steps the turn of a loop has that opens at a position, if one does: with the step that tests it, or with its turn.
#[tactic(auto, using(crate::proofs::LayoutLaws::opened_forms))]
fn turn_at(openings: &[bool], onces: &[bool], steps: &[Step], position: usize) -> Option<usize>
    requires tested { length openings.now ≡ length steps.now }
    requires once { length onces.now ≡ length steps.now }
    ensures { result ≡ turn_opened steps.now openings.now onces.now position }
{
    if position >= steps.len() {
        return None;
    }
    if openings[position] {
        return turn_of(&steps[position]);
    }
    if onces[position] {
        turn_behind(&steps[position..])
    } else {
        None
    }
}

/// How many steps the turns of loops have, by the steps that first set their variables.
fn turns(
    alloc: Global,
    openings: &[bool],
    onces: &[bool],
    steps: &[Step],
) -> Result<Vec<Option<usize>>, AllocError>
    requires tested { length openings.now ≡ length steps.now }
    requires once { length onces.now ≡ length steps.now }
    ensures { IfOk result (λ turns. AreTurns steps.now openings.now onces.now turns.items) }
{
    let mut turns = Vec::new(alloc);
    for position in 0..steps.len() {
        turns.push(turn_at(openings, onces, steps, position + 1))?;
    }
    Ok(turns)
}

/// Labels, arms and loops.
pub(crate) fn layout(alloc: Global, text: &LoweredText) -> Result<Layout, AllocError>
    ensures { IfOk result (λ layout. AreLaidOut text.now layout) }
{
    let steps = text.steps.as_slice();
    let labels = label_names(alloc, text)?;
    let arms = arms(alloc, steps, labels.as_slice())?;
    let tested = openings(alloc, text, false)?;
    let onces = openings(alloc, text, true)?;
    let loops = turns(alloc, tested.as_slice(), onces.as_slice(), steps)?;
    Ok(Layout {
        labels,
        arms,
        loops,
    })
}
