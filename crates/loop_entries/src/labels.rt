//! The labels that the values of actual arguments are. Sections 8.6, 15.4 and 15.9.3.5.

ghost use Rattle.std.specs.Prelude.{◌≡◌, ◌++◌, ◌∷◌, [], None, Some, List, ℕ, OnOk, map, option_map, bytes_eq, if◌then◌else◌};
ghost use Rattle.f_tree.specs.Uses.{is_among as is_among_read};
ghost use Rattle.name_facts.specs.GivenFacts.{fact_in};
ghost use Rattle.name_table.specs.Named.{texts};
ghost use Rattle.loop_entries.specs.PassedLabels as spec;
ghost use Rattle.loop_entries.specs.PassedLabels.{told_by, labels_at, own_labels, constant_labels, name_labels, applied_labels, joined, labels_of};

use f_tree::{Class, Expr};
use indexmap::IndexMap;
use name_facts::{ConstantValue, NameFacts};
use std::alloc::{AllocError, Global};

/// The labels that the values of statement functions may be, by the names of the functions.
#[derive(Drop)]
pub(crate) struct FunctionLabels<'a> {
    labels: IndexMap<&'a [u8], Vec<u32>>,
}

impl<'a> FunctionLabels<'a> {
    /// No functions.
    #[tactic(auto, unfolding(crate::specs::PassedLabels::labels_at))]
    pub(crate) fn new(alloc: Global) -> FunctionLabels<'a>
        ensures { (x : List ℕ) → labels_at result x ≡ None }
    {
        FunctionLabels {
            labels: IndexMap::new(alloc),
        }
    }

    /// The labels of a function, if it is defined.
    #[tactic(auto, unfolding(crate::specs::PassedLabels::labels_at))]
    pub(crate) fn get(&self, name: &[u8]) -> Option<&[u32]>
        ensures { option_map (λ labels. labels.now) result ≡ labels_at self.now name.now }
    {
        match self.labels.get(name) {
            Some(labels) => Some(labels.as_slice()),
            None => None,
        }
    }

    /// Gives a function its labels.
    pub(crate) fn put(&mut self, name: &'a [u8], labels: Vec<u32>) -> Result<(), AllocError>
        ensures { OnOk result ((x : List ℕ) → labels_at self.new x ≡ (if bytes_eq name.now x then Some labels.items else labels_at self.old x)) }
    {
        match self.labels.insert(name, labels) {
            Ok(_) => Ok(()),
            Err(_) => Err(AllocError),
        }
    }
}

/// What tells the labels of names where an expression stands: the names of the unit, its statement functions, and the dummy arguments of the one
/// that is being defined, whose values are no labels.
#[derive(Drop)]
pub(crate) struct Scope<'a> {
    pub(crate) table: &'a NameFacts<'a>,
    pub(crate) functions: &'a FunctionLabels<'a>,
    pub(crate) dummies: &'a [&'a [u8]],
}

/// Whether a name is one of some names.
#[tactic(auto, unfolding(f_tree::specs::Uses::is_among))]
fn is_among(name: &[u8], names: &[&[u8]]) -> bool
    ensures { result ≡ is_among_read name.now (texts names.now) }
{
    match names {
        [first, rest @ ..] => name == *first || is_among(name, rest),
        [] => false,
    }
}

/// Adds a label.
pub(crate) fn add_label(labels: &mut Vec<u32>, label: u32) -> Result<(), AllocError>
    ensures { OnOk result (labels.new.items ≡ labels.old.items ++ label ∷ []) }
{
    labels.push(label)?;
    Ok(())
}

/// Adds labels.
pub(crate) fn add_all(labels: &mut Vec<u32>, more: &[u32]) -> Result<(), AllocError>
    ensures { OnOk result (labels.new.items ≡ labels.old.items ++ more.now) }
{
    labels.extend_from_slice(more)?;
    Ok(())
}

/// Adds the label that the value of a constant is, if it is one.
#[tactic(auto, unfolding(crate::specs::PassedLabels::constant_labels))]
fn add_constant(labels: &mut Vec<u32>, value: Option<&ConstantValue>) -> Result<(), AllocError>
    ensures { OnOk result (labels.new.items ≡ labels.old.items ++ constant_labels (option_map (λ v. v.now) value.entry)) }
{
    match value {
        Some(ConstantValue::Label(label)) => add_label(labels, *label),
        _ => Ok(()),
    }
}

/// Adds the labels of a statement function, if it is defined.
#[tactic(auto, unfolding(crate::specs::PassedLabels::own_labels))]
fn add_own(labels: &mut Vec<u32>, own: Option<&[u32]>) -> Result<(), AllocError>
    ensures { OnOk result (labels.new.items ≡ labels.old.items ++ own_labels (option_map (λ ls. ls.now) own.entry)) }
{
    match own {
        Some(more) => add_all(labels, more),
        None => Ok(()),
    }
}

/// Adds the labels that the value of a name alone may be, which is no dummy argument.
fn add_of_class(scope: &Scope, labels: &mut Vec<u32>, name: &[u8]) -> Result<(), AllocError>
    ensures { OnOk result (labels.new.items ≡ labels.old.items ++ spec.class_labels (fact_in scope.now.table.now name.now).class
        (fact_in scope.now.table.now name.now).constant (labels_at scope.now.functions.now name.now)) }
{
    match scope.table.class(name) {
        Class::Constant => add_constant(labels, scope.table.constant(name)),
        Class::StatementFunction => add_own(labels, scope.functions.get(name)),
        _ => Ok(()),
    }
}

/// Adds the labels that the value of a name alone may be.
fn add_name(scope: &Scope, labels: &mut Vec<u32>, name: &[u8]) -> Result<(), AllocError>
    ensures { OnOk result (labels.new.items ≡ labels.old.items ++ name_labels (told_by scope.now) name.now) }
{
    if is_among(name, scope.dummies) {
        return Ok(());
    }
    add_of_class(scope, labels, name)
}

/// The labels of a statement function, if a name is that of one which is defined.
fn function_labels<'a>(scope: &Scope<'a>, name: &[u8]) -> Option<&'a [u32]>
    ensures { option_map (λ ls. ls.now) result ≡ spec.function_labels (fact_in scope.now.table.now name.now).class (labels_at scope.now.functions.now name.now) }
{
    match scope.table.class(name) {
        Class::StatementFunction => scope.functions.get(name),
        _ => None,
    }
}

/// Adds the labels that the value of an expression may be: parentheses and a sign + leave it so.
#[cycle(labels)]
#[tactic(auto, using(crate::proofs::LabelForms::label_forms))]
pub(crate) fn add_labels(scope: &Scope, labels: &mut Vec<u32>, e: &Expr) -> Result<(), AllocError>
    ensures { OnOk result (labels.new.items ≡ labels.old.items ++ labels_of (told_by scope.now) e.now) }
{
    match e {
        Expr::Name(name) => add_name(scope, labels, name.as_slice()),
        Expr::Apply(name, es) => add_applied(scope, labels, name.as_slice(), es.as_slice()),
        Expr::Plus(operand) | Expr::Paren(operand) => add_labels(scope, labels, operand.get()),
        Expr::AltReturn(label) => add_label(labels, *label),
        Expr::Bind(es, body) => {
            add_each(scope, labels, es.as_slice())?;
            add_labels(scope, labels, body.get())
        }
        Expr::Int(_) | Expr::Logical(_) | Expr::Bound(_) => Ok(()),
        Expr::Text(_) => Ok(()),
        Expr::Part(..) | Expr::Minus(_) | Expr::Not(_) | Expr::Binary(..) => Ok(()),
    }
}

/// Adds the labels of a name with a list, which are those of the list too if the name is that of a statement function.
#[cycle(labels)]
fn add_applied(
    scope: &Scope,
    labels: &mut Vec<u32>,
    name: &[u8],
    es: &[Expr],
) -> Result<(), AllocError>
    ensures { OnOk result (labels.new.items ≡ labels.old.items ++ applied_labels (told_by scope.now) name.now (map (labels_of (told_by scope.now)) es.now)) }
{
    if is_among(name, scope.dummies) {
        return add_each(scope, labels, es);
    }
    match function_labels(scope, name) {
        Some(own) => {
            add_each(scope, labels, es)?;
            add_all(labels, own)
        }
        None => Ok(()),
    }
}

/// Adds the labels of expressions.
#[cycle(labels)]
pub(crate) fn add_each(scope: &Scope, labels: &mut Vec<u32>, es: &[Expr]) -> Result<(), AllocError>
    ensures { OnOk result (labels.new.items ≡ labels.old.items ++ joined (map (labels_of (told_by scope.now)) es.now)) }
{
    for e in es {
        add_labels(scope, labels, e)?;
    }
    Ok(())
}
