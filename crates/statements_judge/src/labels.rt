//! The labels of a unit that its statements may name. Sections 3.4, 11 and 13.1. The statements are gone over from the last one to the first, so
//! that of two with one label the first counts.

ghost use Rattle.std.specs.Prelude.{◌≡◌, ◌||◌, ℕ, nat_eq, false, OnOk, IfOk, if◌then◌else◌};
ghost use Rattle.std.specs.HashSet.{contains};
ghost use Rattle.f_tree.specs.Places.{has_label};
ghost use Rattle.declaration_rows.specs.UnitRows as rows;
ghost use Rattle.statements_judge.specs.UnitLabels.{AreLabels};

use crate::forms::{format_label, may_be_entered};
use f_tree::Stmt;
use indexmap::IndexSet;
use std::alloc::{AllocError, Global};

/// The labels of a unit that its statements may name.
#[derive(Drop)]
pub(crate) struct Labels {
    /// Those of the statements that a branch may go to. Section 11.
    pub branches: IndexSet<u32>,
    /// Those of the FORMAT statements. Section 13.1.
    pub formats: IndexSet<u32>,
}

/// Adds a label.
fn insert_label(labels: &mut IndexSet<u32>, label: u32) -> Result<(), AllocError>
    ensures { OnOk result ((l : ℕ) → contains nat_eq labels.new l ≡ (nat_eq label l || contains nat_eq labels.old l)) }
{
    match labels.insert(label) {
        Ok(_) => Ok(()),
        Err(_) => Err(AllocError),
    }
}

/// Adds a label, if there is one.
fn add_label(labels: &mut IndexSet<u32>, label: Option<u32>) -> Result<(), AllocError>
    ensures { OnOk result ((l : ℕ) → contains nat_eq labels.new l ≡ (has_label label l || contains nat_eq labels.old l)) }
{
    match label {
        Some(label) => insert_label(labels, label),
        None => Ok(()),
    }
}

/// Takes a label out, if there is one.
fn remove_label(labels: &mut IndexSet<u32>, label: Option<u32>)
    ensures { (l : ℕ) → contains nat_eq labels.new l ≡ (if has_label label l then false else contains nat_eq labels.old l) }
{
    if let Some(label) = label {
        labels.swap_remove(&label);
    }
}

/// Notes by its label whether a branch may go to a statement.
fn note_branch(branches: &mut IndexSet<u32>, statement: &Stmt) -> Result<(), AllocError>
    ensures { OnOk result ((l : ℕ) → contains nat_eq branches.new l
        ≡ (if has_label statement.now.label l then rows.may_be_entered statement.now.body else contains nat_eq branches.old l)) }
{
    if may_be_entered(&statement.body) {
        return add_label(branches, statement.label);
    }
    remove_label(branches, statement.label);
    Ok(())
}

/// The labels of a unit that its statements may name.
pub(crate) fn unit_labels(alloc: Global, statements: &[Stmt]) -> Result<Labels, AllocError>
    ensures { IfOk result (λ labels. AreLabels labels statements.now) }
{
    let mut branches = IndexSet::new(alloc);
    let mut formats = IndexSet::new(alloc);
    for behind in 0..statements.len() {
        let statement = &statements[statements.len() - 1 - behind];
        note_branch(&mut branches, statement)?;
        add_label(&mut formats, format_label(statement))?;
    }
    Ok(Labels { branches, formats })
}
