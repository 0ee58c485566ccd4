//! The labels that a statement may branch to. Sections 11.1 to 11.5, 12.7 (ERR and END) and 15.9.3.5 (alternate returns).

ghost use Rattle.std.specs.Prelude.{◌≡◌, ◌++◌, OnOk, IfOk};
ghost use Rattle.loop_entries.specs.Branches as spec;
ghost use Rattle.loop_entries.specs.PassedLabels.{told_by};
ghost use Rattle.loop_entries.specs.Branches.{option_labels, control_labels, branches_of};

use crate::labels::{Scope, add_all, add_each, add_label};
use f_tree::{Body, Control, ControlValue, ControlWord};
use std::alloc::{AllocError, Global};

/// The label behind END, or behind ERR.
#[tactic(auto, unfolding(crate::specs::Branches::label_for))]
fn label_for(at_end: bool, word: ControlWord, value: &ControlValue) -> Option<u32>
    ensures { result ≡ spec.label_for at_end word value.now }
{
    match (at_end, word, value) {
        (true, ControlWord::OnEnd, ControlValue::Label(label)) => Some(*label),
        (false, ControlWord::OnError, ControlValue::Label(label)) => Some(*label),
        _ => None,
    }
}

/// The first label that is written behind END, or behind ERR.
fn label_among(at_end: bool, controls: &[Control]) -> Option<u32>
    ensures { result ≡ spec.label_among at_end controls.now }
{
    for control in controls {
        let label = label_for(at_end, control.word, &control.value);
        if label.is_some() {
            return label;
        }
    }
    None
}

/// Adds a label, if one is written.
#[tactic(auto, unfolding(crate::specs::Branches::option_labels))]
fn add_written(labels: &mut Vec<u32>, label: Option<u32>) -> Result<(), AllocError>
    ensures { OnOk result (labels.new.items ≡ labels.old.items ++ option_labels label) }
{
    match label {
        Some(label) => add_label(labels, label),
        None => Ok(()),
    }
}

/// Adds the labels behind ERR and END.
fn add_controls(labels: &mut Vec<u32>, controls: &[Control]) -> Result<(), AllocError>
    ensures { OnOk result (labels.new.items ≡ labels.old.items ++ control_labels controls.now) }
{
    add_written(labels, label_among(false, controls))?;
    add_written(labels, label_among(true, controls))
}

/// Adds the labels that a statement may branch to, also as the statement of a logical IF; an assigned GO TO has those that ASSIGN statements name.
#[cycle(branches)]
#[tactic(auto, using(crate::proofs::BranchForms::branch_forms))]
fn add_branches(scope: &Scope, labels: &mut Vec<u32>, body: &Body) -> Result<(), AllocError>
    ensures { OnOk result (labels.new.items ≡ labels.old.items ++ branches_of (told_by scope.now) body.now) }
{
    match body {
        Body::Goto(label) => add_label(labels, *label),
        Body::GotoList(more, _) => add_all(labels, more.as_slice()),
        Body::IfSign(_, below, at, above) => add_all(labels, &[*below, *at, *above]),
        Body::IfOne(_, body) => add_branches(scope, labels, body.get()),
        Body::Call(_, es) => add_each(scope, labels, es.as_slice()),
        Body::Transfer(_, controls, _) => add_controls(labels, controls.as_slice()),
        Body::Auxiliary(_, controls) => add_controls(labels, controls.as_slice()),
        _ => Ok(()),
    }
}

/// The labels that a statement may branch to. An error where memory ran out.
pub(crate) fn branch_labels(
    alloc: Global,
    scope: &Scope,
    body: &Body,
) -> Result<Vec<u32>, AllocError>
    ensures { IfOk result (λ labels. labels.items ≡ branches_of (told_by scope.now) body.now) }
{
    let mut labels = Vec::new(alloc);
    add_branches(scope, &mut labels, body)?;
    Ok(labels)
}
