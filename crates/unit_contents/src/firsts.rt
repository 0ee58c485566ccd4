//! What stands first at each position: a label that steps branch to, or a loop that goes by a condition alone. CSTR 149.

ghost use Rattle.std.specs.Prelude.{◌≡◌, ◌<◌, ◌++◌, ℕ, None, Some, nat_eq, OnOk, IfOk, length, map, option_to_list, slice_index_or, if◌then◌else◌};
ghost use Rattle.std.specs.Option.{option_or};
ghost use Rattle.lowered_tree.specs.Shapes.{step_of, steps_of};
ghost use Rattle.lowered_text.specs.Texts.{mark_of, marked_of};
ghost use Rattle.main_translation.specs.Outlined as spec;
ghost use Rattle.unit_contents.specs.Parts as parts;
ghost use Rattle.unit_contents.specs.Tables.{AreLabels, AreWhiles};

use crate::targets::place_of;
use lowered_text::{LoweredText, Mark, Marked};
use lowered_tree::Step;
use std::alloc::{AllocError, Global};

/// The label that a step branches to, that of an alternate return among them.
#[tactic(auto, unfolding(crate::specs::Parts::label_in))]
fn label_in(step: &Step) -> Option<u32>
    ensures { result ≡ parts.label_in (step_of step.now) }
{
    match step {
        Step::Jump(label) => Some(*label),
        Step::Way(label) => Some(*label),
        _ => None,
    }
}

/// Adds a label, where there is one.
fn add_label(labels: &mut Vec<u32>, label: Option<u32>) -> Result<(), AllocError>
    ensures { OnOk result (labels.new.items ≡ labels.old.items ++ option_to_list label) }
{
    if let Some(label) = label {
        labels.push(label)?;
    }
    Ok(())
}

/// The labels that steps branch to.
fn labels_in(alloc: Global, steps: &[Step]) -> Result<Vec<u32>, AllocError>
    ensures { IfOk result (λ labels. labels.items ≡ spec.labels_in (steps_of steps.now)) }
{
    let mut labels = Vec::new(alloc);
    for step in steps {
        add_label(&mut labels, label_in(step))?;
    }
    Ok(labels)
}

/// Whether a mark opens a loop that goes by a condition alone.
#[tactic(auto, unfolding(main_translation::specs::Outlined::opens_while, lowered_text::specs::Texts::mark_of))]
fn opens_while(mark: Mark) -> bool
    ensures { result ≡ spec.opens_while (mark_of mark) }
{
    matches!(mark, Mark::OpensWhile)
}

/// Where the loops begin that go by a condition alone.
fn whiles_in(alloc: Global, marks: &[Marked]) -> Result<Vec<usize>, AllocError>
    ensures { IfOk result (λ places. places.items ≡ spec.whiles_in (map marked_of marks.now)) }
{
    let mut places = Vec::new(alloc);
    for marked in marks {
        if opens_while(marked.mark) {
            places.push(marked.at)?;
        }
    }
    Ok(places)
}

/// Puts a value at a place of a table that has none there yet, if the table has the place.
fn put_first<T: Copy>(table: &mut [Option<T>], place: usize, value: T)
    ensures { (n : ℕ) → n < length table.old
        → slice_index_or table.new n None ≡ option_or (slice_index_or table.old n None) (if nat_eq n place then Some value else None) }
{
    if place < table.len() && table[place].is_none() {
        table[place] = Some(value);
    }
}

/// Puts a label at its place, if it has one.
fn put_label(table: &mut [Option<u32>], place: Option<usize>, label: u32)
    ensures { (n : ℕ) → n < length table.old
        → slice_index_or table.new n None ≡ option_or (slice_index_or table.old n None) (if spec.stands_at place n then Some label else None) }
{
    if let Some(place) = place {
        put_first(table, place, label);
    }
}

/// The first of the labels to which steps branch that stands at each position.
pub(crate) fn first_labels(
    alloc: Global,
    text: &LoweredText,
) -> Result<Vec<Option<u32>>, AllocError>
    ensures { IfOk result (λ labels. AreLabels text.now labels.items) }
{
    let steps = text.steps.as_slice();
    let labels = labels_in(alloc, steps)?;
    let mut firsts = vec![in alloc; None; steps.len()]?;
    for label in &labels {
        put_label(&mut firsts, place_of(text, *label), *label);
    }
    Ok(firsts)
}

/// The first of the loops that go by a condition alone that begins at each position, by its number from 0.
pub(crate) fn first_whiles(
    alloc: Global,
    text: &LoweredText,
) -> Result<Vec<Option<usize>>, AllocError>
    ensures { IfOk result (λ numbers. AreWhiles text.now numbers.items) }
{
    let places = whiles_in(alloc, text.marks.as_slice())?;
    let mut firsts = vec![in alloc; None; text.steps.len()]?;
    for (number, place) in places.iter().enumerate() {
        put_first(&mut firsts, *place, number);
    }
    Ok(firsts)
}
