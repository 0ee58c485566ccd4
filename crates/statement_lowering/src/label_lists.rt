//! The labels of an assigned GO TO, each once. Section 11.3.

ghost use Rattle.std.specs.List.{list_any};
ghost use Rattle.std.specs.Prelude.{◌≡◌, ◌++◌, nat_eq, IfOk, OnOk};
ghost use Rattle.lowering.specs.Statements as statements;
ghost use Rattle.statement_lowering.specs.ListedLabels.{unless_again};

use std::alloc::{AllocError, Global};

/// Whether a label is one of some.
fn is_among(label: u32, labels: &[u32]) -> bool
    ensures { result ≡ list_any (λ other. nat_eq other label) labels.now }
{
    labels.iter().any(|other| *other == label)
}

/// Adds a label to others, unless it is one of those behind it.
#[tactic(auto, unfolding(crate::specs::ListedLabels::unless_again), using(crate::proofs::LabelLists::list_forms))]
fn add_unless_again(once: &mut Vec<u32>, label: u32, later: &[u32]) -> Result<(), AllocError>
    ensures { OnOk result (once.new.items ≡ once.old.items ++ unless_again label later.now) }
{
    if !is_among(label, later) {
        once.push(label)?;
    }
    Ok(())
}

/// The labels of a list, each once.
pub(crate) fn each_once(alloc: Global, labels: &[u32]) -> Result<Vec<u32>, AllocError>
    ensures { IfOk result (λ once. once.items ≡ statements.each_once labels.now) }
{
    let mut once = Vec::new(alloc);
    for (place, label) in labels.iter().enumerate() {
        add_unless_again(&mut once, *label, &labels[place + 1..])?;
    }
    Ok(once)
}
