//! Where the steps of labelled statements begin. Section 3.4.

ghost use Rattle.std.specs.Prelude.{◌≡◌, ℕ, nat_eq, None, Some, OnOk, IfOk, length, if◌then◌else◌};
ghost use Rattle.std.specs.HashMap.{get_by};
ghost use Rattle.f_tree.specs.Attributes.{first_of_two};
ghost use Rattle.f_tree.specs.Places.{has_label};
ghost use Rattle.unit_lowering.specs.LabelStarts as spec;

use crate::numbered::{place_at, statement_at};
use f_tree::Stmt;
use indexmap::IndexMap;
use statement_places::StatementPlace;
use std::alloc::{AllocError, Global};

/// Notes where the steps of a label begin.
fn put_start(labels: &mut IndexMap<u32, usize>, label: u32, start: usize) -> Result<(), AllocError>
    ensures { OnOk result ((l : ℕ) → get_by (nat_eq l) labels.new ≡ (if nat_eq label l then Some start else get_by (nat_eq l) labels.old)) }
{
    match labels.insert(label, start) {
        Ok(_) => Ok(()),
        Err(_) => Err(AllocError),
    }
}

/// Notes where the steps of a label begin that is not noted yet.
fn note_start(labels: &mut IndexMap<u32, usize>, label: u32, start: usize) -> Result<(), AllocError>
    ensures { OnOk result ((l : ℕ) → get_by (nat_eq l) labels.new ≡ first_of_two (get_by (nat_eq l) labels.old) (if nat_eq label l then Some start else None)) }
{
    match labels.get(&label) {
        Some(_) => Ok(()),
        None => put_start(labels, label, start),
    }
}

/// Notes where the steps of a statement begin, if it is labelled.
fn note_label(
    labels: &mut IndexMap<u32, usize>,
    label: Option<u32>,
    start: usize,
) -> Result<(), AllocError>
    ensures { OnOk result ((l : ℕ) → get_by (nat_eq l) labels.new ≡ first_of_two (get_by (nat_eq l) labels.old) (if has_label label l then Some start else None)) }
{
    match label {
        Some(label) => note_start(labels, label, start),
        None => Ok(()),
    }
}

/// Notes where the steps of a statement begin, by its number in the unit, if there is such a statement with a place.
#[tactic(auto, unfolding(crate::specs::LabelStarts::start_at, crate::specs::LabelStarts::start_by))]
fn note_label_at(
    statements: &[Stmt],
    places: &[StatementPlace],
    at: usize,
    labels: &mut IndexMap<u32, usize>,
) -> Result<(), AllocError>
    ensures { OnOk result ((l : ℕ) → get_by (nat_eq l) labels.new ≡ first_of_two (get_by (nat_eq l) labels.old) (spec.start_at l statements.now places.now at)) }
{
    match (statement_at(statements, at), place_at(places, at)) {
        (Some(statement), Some(place)) => note_label(labels, statement.label, place.start),
        (Some(_), None) => Ok(()),
        (None, _) => Ok(()),
    }
}

/// Where the steps of labels begin: those of the first statement with each.
pub(crate) fn label_starts(
    alloc: Global,
    statements: &[Stmt],
    places: &[StatementPlace],
) -> Result<IndexMap<u32, usize>, AllocError>
    ensures { IfOk result (λ labels. (l : ℕ) → get_by (nat_eq l) labels ≡ spec.label_start l statements.now places.now (length statements.now)) }
{
    let mut labels = IndexMap::new(alloc);
    for at in 0..statements.len() {
        note_label_at(statements, places, at, &mut labels)?;
    }
    Ok(labels)
}
