//! The labels that a statement may branch to. Sections 11.1 to 11.5, 12.7 (ERR and END) and 15.9.3.5 (alternate returns).
#![tactic(auto)]

ghost use Rattle.std.specs.Prelude.{◌≡◌, ◌++◌, ◌∷◌, [], OnOk};
ghost use Rattle.f_tree.specs.Folds.{fold_expr};
ghost use Rattle.declaration_rows.specs.BlockRows.{layer_exits, exits_of, label_of_word, labels_of_controls, branches_of};

use f_tree::{Body, Control, ControlValue, ControlWord, Expr};
use std::alloc::AllocError;

/// Adds a label.
fn add_label(labels: &mut Vec<u32>, label: u32) -> Result<(), AllocError>
    ensures { OnOk result (labels.new.items ≡ labels.old.items ++ label ∷ []) }
{
    labels.push(label)?;
    Ok(())
}

/// Adds labels.
fn add_labels(labels: &mut Vec<u32>, more: &[u32]) -> Result<(), AllocError>
    ensures { OnOk result (labels.new.items ≡ labels.old.items ++ more.now) }
{
    labels.extend_from_slice(more)?;
    Ok(())
}

/// Adds the label of an alternate return.
fn add_exit(labels: &mut Vec<u32>, e: &Expr) -> Result<(), AllocError>
    ensures { OnOk result (labels.new.items ≡ labels.old.items ++ fold_expr layer_exits e.now) }
{
    match e {
        Expr::AltReturn(label) => add_label(labels, *label),
        _ => Ok(()),
    }
}

/// Adds the labels of the alternate returns of a CALL.
fn add_exits(labels: &mut Vec<u32>, es: &[Expr]) -> Result<(), AllocError>
    ensures { OnOk result (labels.new.items ≡ labels.old.items ++ exits_of es.now) }
{
    for e in es {
        add_exit(labels, e)?;
    }
    Ok(())
}

/// Adds the label behind ERR or END.
#[tactic(auto, unfolding(declaration_rows::specs::BlockRows::label_of_word))]
fn add_control_label(
    labels: &mut Vec<u32>,
    word: ControlWord,
    value: &ControlValue,
) -> Result<(), AllocError>
    ensures { OnOk result (labels.new.items ≡ labels.old.items ++ label_of_word word value.now) }
{
    match (word, value) {
        (ControlWord::OnError | ControlWord::OnEnd, ControlValue::Label(label)) => {
            add_label(labels, *label)
        }
        _ => Ok(()),
    }
}

/// Adds the labels behind ERR and END.
fn add_control_labels(labels: &mut Vec<u32>, controls: &[Control]) -> Result<(), AllocError>
    ensures { OnOk result (labels.new.items ≡ labels.old.items ++ labels_of_controls controls.now) }
{
    for control in controls {
        add_control_label(labels, control.word, &control.value)?;
    }
    Ok(())
}

/// Adds the labels that a statement may branch to, also as the statement of a logical IF.
#[cycle(branches)]
#[tactic(auto, using(crate::proofs::BranchForms::branch_forms))]
pub(crate) fn add_branches(labels: &mut Vec<u32>, body: &Body) -> Result<(), AllocError>
    ensures { OnOk result (labels.new.items ≡ labels.old.items ++ branches_of body.now) }
{
    match body {
        Body::Goto(label) => add_label(labels, *label),
        Body::GotoList(more, _) => add_labels(labels, more.as_slice()),
        Body::GotoName(_, more) => add_labels(labels, more.as_slice()),
        Body::IfSign(_, below, at, above) => add_labels(labels, &[*below, *at, *above]),
        Body::IfOne(_, body) => add_branches(labels, body.get()),
        Body::Call(_, es) => add_exits(labels, es.as_slice()),
        Body::Transfer(_, controls, _) => add_control_labels(labels, controls.as_slice()),
        Body::Auxiliary(_, controls) => add_control_labels(labels, controls.as_slice()),
        _ => Ok(()),
    }
}
