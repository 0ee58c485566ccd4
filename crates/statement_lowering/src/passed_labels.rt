//! The labels that a CALL passes, in their order. Section 15.6.2.3.

ghost use Rattle.std.specs.Prelude.{◌≡◌, ◌++◌, ◌∷◌, [], OnOk};
ghost use Rattle.lowering.specs.Units.{label_in};
ghost use Rattle.name_facts.specs.GivenFacts.{fact_in};
ghost use Rattle.statement_lowering.specs.LoweredTransfers as spec;

use f_tree::Expr;
use f_tree::names::Class;
use name_facts::{ConstantValue, NameFacts};
use std::alloc::AllocError;

/// The label that is the value of a constant.
#[tactic(auto, unfolding(crate::specs::LoweredTransfers::label_valued))]
fn label_valued(value: &ConstantValue) -> Option<u32>
    ensures { result ≡ spec.label_valued value.now }
{
    match value {
        ConstantValue::Label(label) => Some(*label),
        ConstantValue::Integer(_) | ConstantValue::Logical(_) | ConstantValue::Text(_) => None,
    }
}

/// The label that is the value of a name of a constant.
#[tactic(auto, unfolding(crate::specs::LoweredTransfers::constant_label))]
fn constant_label(table: &NameFacts, name: &[u8]) -> Option<u32>
    ensures { result ≡ spec.constant_label (fact_in table.now name.now).constant }
{
    match table.constant(name) {
        Some(value) => label_valued(value),
        None => None,
    }
}

/// The label that is the value of a name alone.
#[tactic(auto, unfolding(crate::specs::LoweredTransfers::name_label))]
fn name_label(table: &NameFacts, name: &[u8]) -> Option<u32>
    ensures { result ≡ spec.name_label (fact_in table.now name.now).class (fact_in table.now name.now).constant }
{
    match table.class(name) {
        Class::Constant => constant_label(table, name),
        Class::Stored | Class::Dummy | Class::Result | Class::Procedure => None,
        Class::DummyProcedure | Class::StatementFunction => None,
        Class::Intrinsic | Class::Unit => None,
    }
}

/// The label that is the value of an argument.
#[tactic(auto, using(crate::proofs::CallForms::labelled_forms))]
fn label_passed(table: &NameFacts, e: &Expr) -> Option<u32>
    ensures { result ≡ spec.label_passed table.now e.now }
{
    match e {
        Expr::AltReturn(label) => Some(*label),
        Expr::Name(name) => name_label(table, name.as_slice()),
        Expr::Plus(operand) | Expr::Paren(operand) => label_passed(table, operand.get()),
        Expr::Int(_) | Expr::Logical(_) | Expr::Text(_) | Expr::Apply(_, _) => None,
        Expr::Part(_, _, _) | Expr::Minus(_) | Expr::Not(_) => None,
        Expr::Binary(_, _, _) | Expr::Bind(_, _) | Expr::Bound(_) => None,
    }
}

/// Adds a label.
fn push_label(labels: &mut Vec<u32>, label: u32) -> Result<(), AllocError>
    ensures { OnOk result (labels.new.items ≡ labels.old.items ++ label ∷ []) }
{
    labels.push(label)?;
    Ok(())
}

/// Adds a label, if there is one.
#[tactic(auto, unfolding(lowering::specs::Units::label_in))]
fn add_label(labels: &mut Vec<u32>, label: Option<u32>) -> Result<(), AllocError>
    ensures { OnOk result (labels.new.items ≡ labels.old.items ++ label_in label) }
{
    match label {
        Some(label) => push_label(labels, label),
        None => Ok(()),
    }
}

/// Adds the labels that a CALL with these arguments passes, in their order.
pub fn add_labels_passed(
    table: &NameFacts,
    es: &[Expr],
    labels: &mut Vec<u32>,
) -> Result<(), AllocError>
    ensures { OnOk result (labels.new.items ≡ labels.old.items ++ spec.labels_passed table.now es.now) }
{
    for e in es {
        add_label(labels, label_passed(table, e))?;
    }
    Ok(())
}
