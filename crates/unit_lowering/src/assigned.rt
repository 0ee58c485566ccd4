//! The labels that ASSIGN statements name. Sections 10.3 and 11.5.

ghost use Rattle.std.specs.Prelude.{◌≡◌, ◌++◌, ◌∷◌, [], OnOk, IfOk};
ghost use Rattle.f_tree.specs.Attributes.{from_all};
ghost use Rattle.unit_lowering.specs.AssignedLabels.{assigned_of};

use f_tree::{Body, Stmt};
use std::alloc::{AllocError, Global};

/// Adds a label.
fn add_label(labels: &mut Vec<u32>, label: u32) -> Result<(), AllocError>
    ensures { OnOk result (labels.new.items ≡ labels.old.items ++ label ∷ []) }
{
    labels.push(label)?;
    Ok(())
}

/// Adds the label that a statement names if it is an ASSIGN, also as the statement of a logical IF.
#[tactic(auto, using(crate::proofs::AssignedForms::assigned_forms))]
fn add_assigned(labels: &mut Vec<u32>, body: &Body) -> Result<(), AllocError>
    ensures { OnOk result (labels.new.items ≡ labels.old.items ++ assigned_of body.now) }
{
    match body {
        Body::AssignLabel(label, _) => add_label(labels, *label),
        Body::IfOne(_, body) => add_assigned(labels, body.get()),
        _ => Ok(()),
    }
}

/// The labels that the ASSIGN statements of a unit name.
pub(crate) fn assigned_labels(alloc: Global, statements: &[Stmt]) -> Result<Vec<u32>, AllocError>
    ensures { IfOk result (λ labels. labels.items ≡ from_all assigned_of statements.now) }
{
    let mut labels = Vec::new(alloc);
    for statement in statements {
        add_assigned(&mut labels, &statement.body)?;
    }
    Ok(labels)
}
