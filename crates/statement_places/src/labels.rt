//! The labels that branches name. Sections 10.3, 11.1 to 11.5, 12.7 and 15.6.

ghost use Rattle.std.specs.Prelude.{◌≡◌, ◌++◌, ◌∷◌, [], ℕ, List, OnOk, IfOk};
ghost use Rattle.f_tree.specs.Attributes.{from_all};
ghost use Rattle.lowering.specs.Units as unit;
ghost use Rattle.statement_places.specs.NamedLabels as spec;
ghost use Rattle.statement_places.specs.NamedLabels.{control_labels, labels_of, IsLabelSet};

use f_tree::statements::{Control, ControlValue, ControlWord};
use f_tree::{Body, Stmt};
use name_facts::NameFacts;
use name_table::LabelTable;
use statement_lowering::add_labels_passed;
use std::alloc::{AllocError, Global};

/// Adds a label.
fn add_label(labels: &mut Vec<u32>, label: u32) -> Result<(), AllocError>
    ensures { OnOk result (labels.new.items ≡ labels.old.items ++ label ∷ []) }
{
    labels.push(label)?;
    Ok(())
}

/// Adds labels.
fn add_labels(labels: &mut Vec<u32>, more: &[u32]) -> Result<(), AllocError>
    ensures { OnOk result (labels.new.items ≡ labels.old.items ++ more.now) }
{
    labels.extend_from_slice(more)?;
    Ok(())
}

/// Adds a label, if one is written.
#[tactic(auto, unfolding(lowering::specs::Units::label_in))]
fn add_written(labels: &mut Vec<u32>, label: Option<u32>) -> Result<(), AllocError>
    ensures { OnOk result (labels.new.items ≡ labels.old.items ++ unit.label_in label) }
{
    match label {
        Some(label) => add_label(labels, label),
        None => Ok(()),
    }
}

/// The label behind END, or behind ERR.
#[tactic(auto, unfolding(crate::specs::NamedLabels::label_for))]
fn label_for(at_end: bool, word: ControlWord, value: &ControlValue) -> Option<u32>
    ensures { result ≡ spec.label_for at_end word value.now }
{
    match (at_end, word, value) {
        (true, ControlWord::OnEnd, ControlValue::Label(label)) => Some(*label),
        (false, ControlWord::OnError, ControlValue::Label(label)) => Some(*label),
        _ => None,
    }
}

/// The first label that is written behind END, or behind ERR.
fn label_among(at_end: bool, controls: &[Control]) -> Option<u32>
    ensures { result ≡ spec.label_among at_end controls.now }
{
    for control in controls {
        let label = label_for(at_end, control.word, &control.value);
        if label.is_some() {
            return label;
        }
    }
    None
}

/// Adds the labels behind ERR and END.
fn add_control_labels(labels: &mut Vec<u32>, controls: &[Control]) -> Result<(), AllocError>
    ensures { OnOk result (labels.new.items ≡ labels.old.items ++ control_labels controls.now) }
{
    add_written(labels, label_among(false, controls))?;
    add_written(labels, label_among(true, controls))
}

/// Adds the labels that a statement names, also as the statement of a logical IF.
#[cycle(named)]
#[tactic(auto, using(crate::proofs::LabelForms::label_forms))]
fn add_named(table: &NameFacts, labels: &mut Vec<u32>, body: &Body) -> Result<(), AllocError>
    ensures { OnOk result (labels.new.items ≡ labels.old.items ++ labels_of table.now body.now) }
{
    match body {
        Body::AssignLabel(label, _) => add_label(labels, *label),
        Body::Goto(label) => add_label(labels, *label),
        Body::GotoList(more, _) => add_labels(labels, more.as_slice()),
        Body::GotoName(_, more) => add_labels(labels, more.as_slice()),
        Body::IfSign(_, below, at, above) => add_labels(labels, &[*below, *at, *above]),
        Body::IfOne(_, body) => add_named(table, labels, body.get()),
        Body::Call(_, es) => add_labels_passed(table, es.as_slice(), labels),
        Body::Transfer(_, controls, _) => add_control_labels(labels, controls.as_slice()),
        Body::Auxiliary(_, controls) => add_control_labels(labels, controls.as_slice()),
        _ => Ok(()),
    }
}

/// The labels that the branches of statements name.
fn named_labels(
    alloc: Global,
    table: &NameFacts,
    statements: &[Stmt],
) -> Result<Vec<u32>, AllocError>
    ensures { IfOk result (λ labels. labels.items ≡ from_all (labels_of table.now) statements.now) }
{
    let mut labels = Vec::new(alloc);
    for statement in statements {
        add_named(table, &mut labels, &statement.body)?;
    }
    Ok(labels)
}

/// Labels as a set.
fn label_set(alloc: Global, labels: &[u32]) -> Result<LabelTable<()>, AllocError>
    ensures { IfOk result (IsLabelSet labels.now) }
{
    let mut set = LabelTable::new(alloc);
    for label in labels {
        set.put(*label, ())?;
    }
    Ok(set)
}

/// The labels that the branches of statements name, as a set.
pub(crate) fn branch_labels(
    alloc: Global,
    table: &NameFacts,
    statements: &[Stmt],
) -> Result<LabelTable<()>, AllocError>
    ensures { IfOk result (IsLabelSet (from_all (labels_of table.now) statements.now)) }
{
    let labels = named_labels(alloc, table, statements)?;
    label_set(alloc, labels.as_slice())
}

/// Whether a branch names the label of a statement.
pub(crate) fn is_named(set: &LabelTable<()>, label: Option<u32>) -> bool
    ensures { (labels : List ℕ) → IsLabelSet labels set.now → result ≡ unit.is_named labels label }
{
    match label {
        Some(label) => set.get(label).is_some(),
        None => false,
    }
}
