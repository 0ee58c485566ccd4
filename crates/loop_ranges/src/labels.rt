//! Where the labels of a unit stand, and which of them loops name. Sections 3.4 and 11.10.
#![tactic(auto)]

ghost use Rattle.std.specs.Prelude.{◌≡◌, ◌||◌, ℕ, None, Some, nat_eq, OnOk, IfOk, is_some, if◌then◌else◌};
ghost use Rattle.std.specs.List.{list_any};
ghost use Rattle.f_tree.specs.Places.{has_label};
ghost use Rattle.f_tree.specs.Attributes.{first_of_two, option_list};
ghost use Rattle.name_table.specs.Named.{labelled};
ghost use Rattle.loop_ranges.specs.LoopForms.{named_label};
ghost use Rattle.loop_ranges.specs.LoopEnds.{labelled_at, is_named, AreNamed, AreLabels};

use crate::forms::{LoopForm, loop_form};
use f_tree::Stmt;
use name_table::LabelTable;
use std::alloc::{AllocError, Global};

/// The labels of a unit.
#[derive(Drop)]
pub struct Labels {
    /// The first place of each.
    pub places: LabelTable<usize>,
    /// Those that DO and DO WHILE statements name.
    pub named: LabelTable<()>,
}

/// Notes the place of a label that has none yet.
fn note_label(places: &mut LabelTable<usize>, label: u32, place: usize) -> Result<(), AllocError>
    ensures { OnOk result ((l : ℕ) → labelled places.new l ≡ first_of_two (labelled places.old l) (if nat_eq label l then Some place else None)) }
{
    match places.get(label) {
        Some(_) => Ok(()),
        None => places.put(label, place),
    }
}

/// Notes the place of a statement, by its label, which may have a place already.
fn note_place(
    places: &mut LabelTable<usize>,
    label: Option<u32>,
    place: usize,
) -> Result<(), AllocError>
    ensures { OnOk result ((l : ℕ) → labelled places.new l ≡ first_of_two (labelled places.old l) (if has_label label l then Some place else None)) }
{
    match label {
        Some(label) => note_label(places, label, place),
        None => Ok(()),
    }
}

/// The first place of each label.
pub fn label_places(alloc: Global, statements: &[Stmt]) -> Result<LabelTable<usize>, AllocError>
    ensures { IfOk result (λ places. (l : ℕ) → labelled places l ≡ labelled_at 0 statements.now l) }
{
    let mut places = LabelTable::new(alloc);
    for place in 0..statements.len() {
        note_place(&mut places, statements[place].label, place)?;
    }
    Ok(places)
}

/// The label that a loop names.
#[tactic(auto, unfolding(crate::specs::LoopForms::named_label, f_tree::specs::Attributes::option_list))]
fn named_label(form: LoopForm) -> Option<u32>
    ensures { option_list result ≡ named_label form }
{
    match form {
        LoopForm::ToLabel(label) => Some(label),
        LoopForm::ToEndDo | LoopForm::EndDo | LoopForm::Other => None,
    }
}

/// Notes a label that a loop names.
fn note_named(named: &mut LabelTable<()>, label: Option<u32>) -> Result<(), AllocError>
    ensures { OnOk result ((l : ℕ) → is_some (labelled named.new l) ≡ (is_some (labelled named.old l) || list_any (nat_eq l) (option_list label))) }
{
    match label {
        Some(label) => named.put(label, ()),
        None => Ok(()),
    }
}

/// The labels that DO and DO WHILE statements name.
fn named_labels(alloc: Global, statements: &[Stmt]) -> Result<LabelTable<()>, AllocError>
    ensures { IfOk result (λ named. AreNamed named statements.now) }
{
    let mut named = LabelTable::new(alloc);
    for statement in statements {
        let label = named_label(loop_form(&statement.body));
        note_named(&mut named, label)?;
    }
    Ok(named)
}

/// The labels of the statements of a unit.
pub fn unit_labels(alloc: Global, statements: &[Stmt]) -> Result<Labels, AllocError>
    ensures { IfOk result (λ labels. AreLabels labels statements.now) }
{
    let places = label_places(alloc, statements)?;
    let named = named_labels(alloc, statements)?;
    Ok(Labels { places, named })
}

impl Labels {
    /// Whether a label is there and one that loops name.
    #[tactic(auto, unfolding(crate::specs::LoopEnds::is_named, crate::specs::LoopEnds::named_among))]
    pub fn ends_loop(&self, label: Option<u32>) -> bool
        ensures { result ≡ is_named self.now label }
    {
        match label {
            Some(label) => self.named.get(label).is_some(),
            None => false,
        }
    }
}
