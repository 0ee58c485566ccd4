//! Assignments.

ghost use Rattle.std.specs.Prelude.{◌≡◌, true, IfOk, option_map};
ghost use Rattle.f_tree.specs.Uses.{heading_of};
ghost use Rattle.f_tree.specs.Lines as lines;
ghost use Rattle.lowered_tree.specs.l_core.Pures as core;
ghost use Rattle.lowered_tree.specs.l_core.Steps as act;
ghost use Rattle.lowering.specs.Expressions as low;
ghost use Rattle.lowered_tree.specs.Shapes.{step_of};
ghost use Rattle.name_facts.specs.GivenFacts.{fact_in};
ghost use Rattle.expression_lowering.specs.Purposes.{purpose_of};
ghost use Rattle.statement_lowering.specs.StatementForms as form;
ghost use Rattle.statement_lowering.specs.LoweredStatements as spec;
ghost use Rattle.statement_lowering.specs.StatementOutcomes.{IsOutcome};

use crate::appending::append;
use crate::around::Around;
use expression_lowering::{
    LowerError, Purpose, has_reference, is_lowered, lower_actual, lower_value,
};
use f_tree::Expr;
use f_tree::names::{Basic, Class};
use lowered_tree::{Pure, Step};
use name_facts::NameFacts;
use plain_data::Items;
use std::alloc::{AllocError, Global};

/// The name that stands with a list on the left of an assignment.
#[tactic(auto, using(crate::proofs::TargetForms::heading_forms))]
fn applied_name(target: &Expr) -> Option<&[u8]>
    ensures { option_map (λ x. x.now) result ≡ (heading_of target.now).applied }
{
    match target {
        Expr::Apply(name, _) => Some(name.as_slice()),
        Expr::Int(_) | Expr::Logical(_) | Expr::Text(_) | Expr::Name(_) => None,
        Expr::Part(_, _, _) | Expr::Minus(_) | Expr::Plus(_) | Expr::Not(_) => None,
        Expr::Paren(_) | Expr::Binary(_, _, _) | Expr::AltReturn(_) => None,
        Expr::Bind(_, _) | Expr::Bound(_) => None,
    }
}

/// Whether a class is that of statement functions.
#[tactic(auto, unfolding(crate::specs::LoweredStatements::is_function_class))]
fn is_function_class(class: Class) -> bool
    ensures { result ≡ spec.is_function_class class }
{
    match class {
        Class::StatementFunction => true,
        Class::Constant | Class::Stored | Class::Dummy | Class::Result => false,
        Class::Procedure | Class::DummyProcedure | Class::Intrinsic | Class::Unit => false,
    }
}

/// Whether an assignment to a target defines a statement function. Section 15.4.
#[tactic(auto, unfolding(crate::specs::LoweredStatements::is_definition, crate::specs::LoweredStatements::names_function))]
fn is_definition(table: &NameFacts, target: &Expr) -> bool
    ensures { result ≡ spec.is_definition table.now target.now }
{
    match applied_name(target) {
        Some(name) => is_function_class(table.class(name)),
        None => false,
    }
}

/// Whether a type is CHARACTER.
#[tactic(auto, unfolding(f_tree::specs::Lines::is_character))]
fn is_character(basic: Basic) -> bool
    ensures { result ≡ lines.is_character basic }
{
    match basic {
        Basic::Character => true,
        Basic::Integer | Basic::Logical | Basic::Untyped => false,
    }
}

/// Whether a name alone is a variable or an array of type CHARACTER.
#[tactic(auto, unfolding(crate::specs::LoweredStatements::variable_is_text))]
fn variable_is_text(class: Class, basic: Basic) -> bool
    ensures { result ≡ spec.variable_is_text class basic }
{
    match class {
        Class::Constant | Class::Procedure | Class::DummyProcedure => false,
        Class::StatementFunction | Class::Intrinsic => false,
        Class::Stored | Class::Dummy | Class::Result | Class::Unit => is_character(basic),
    }
}

/// Whether a name with a list is an element of type CHARACTER.
#[tactic(auto, unfolding(crate::specs::LoweredStatements::element_is_text))]
fn element_is_text(class: Class, basic: Basic) -> bool
    ensures { result ≡ spec.element_is_text class basic }
{
    match class {
        Class::Result | Class::Procedure | Class::DummyProcedure => false,
        Class::StatementFunction | Class::Intrinsic => false,
        Class::Constant | Class::Stored | Class::Dummy | Class::Unit => is_character(basic),
    }
}

/// Whether the target of an assignment is a text.
#[tactic(auto, using(crate::proofs::TargetForms::text_forms))]
pub(crate) fn is_text_target(table: &NameFacts, target: &Expr) -> bool
    ensures { result ≡ spec.is_text_target table.now target.now }
{
    match target {
        Expr::Name(name) => {
            variable_is_text(table.class(name.as_slice()), table.basic(name.as_slice()))
        }
        Expr::Apply(name, _) => {
            element_is_text(table.class(name.as_slice()), table.basic(name.as_slice()))
        }
        Expr::Part(whole, _, _) => is_text_target(table, whole.get()),
        Expr::Int(_) | Expr::Logical(_) | Expr::Text(_) | Expr::Minus(_) => false,
        Expr::Plus(_) | Expr::Not(_) | Expr::Paren(_) | Expr::Binary(_, _, _) => false,
        Expr::AltReturn(_) | Expr::Bind(_, _) | Expr::Bound(_) => false,
    }
}

/// What an operand is for that is used at once, given whether one behind it has a reference to a function.
#[tactic(auto, unfolding(lowering::specs::Expressions::ahead))]
pub(crate) fn ahead(refers: bool) -> Purpose
    ensures { purpose_of result ≡ low.ahead low.ForUse refers }
{
    if refers {
        Purpose::ForLater
    } else {
        Purpose::ForUse
    }
}

/// Whether two expressions are lowered.
#[tactic(auto, unfolding(crate::specs::LoweredStatements::both_lower))]
fn both_lower(table: &NameFacts, one: &Expr, other: &Expr) -> bool
    ensures { result ≡ spec.both_lower table.now one.now other.now }
{
    is_lowered(table, one) && is_lowered(table, other)
}

/// An assignment of a number or a truth value. Sections 10.1 and 10.2.
fn lower_setting(
    alloc: Global,
    table: &NameFacts,
    around: Around,
    target: &Expr,
    e: &Expr,
    steps: &mut Vec<Step>,
) -> Result<(), LowerError>
    ensures { IsOutcome table.now around (spec.both_lower table.now e.now target.now) (form.setting target.now e.now) steps.old.items steps.new.items result }
{
    if !both_lower(table, e, target) {
        return Err(LowerError::NotLowered);
    }
    let purpose = ahead(has_reference(table, target));
    let value = match lower_value(alloc, table, purpose, around.free, e, steps) {
        Ok(value) => value,
        Err(error) => return Err(error),
    };
    match lower_actual(alloc, table, Purpose::ForUse, value.free, target, steps) {
        Ok(place) => append(steps, Step::Put(place.value, value.value)),
        Err(error) => Err(error),
    }
}

/// An assignment, or the definition of a statement function, which takes no step. Sections 10.1, 10.2 and 15.4.
pub(crate) fn lower_assignment(
    alloc: Global,
    table: &NameFacts,
    around: Around,
    target: &Expr,
    e: &Expr,
    steps: &mut Vec<Step>,
) -> Result<(), LowerError>
    ensures { IsOutcome table.now around (spec.assignment_lowers table.now target.now e.now) (form.assigning target.now e.now) steps.old.items steps.new.items result }
{
    if is_definition(table, target) {
        return Ok(());
    }
    if is_text_target(table, target) {
        return Err(LowerError::NotLowered);
    }
    lower_setting(alloc, table, around, target, e, steps)
}

/// The step by which a variable gets a label.
#[tactic(auto, using(lowered_tree::proofs::ShapeForms::pure_forms))]
fn put_label(alloc: Global, label: u32, name: &[u8]) -> Result<Step, AllocError>
    ensures { IfOk result (λ step. step_of step ≡ act.PutLabel (core.Name name.now) label) }
{
    let name = Items::from_slice(alloc, name)?;
    Ok(Step::PutLabel(Pure::Name(name), label))
}

/// ASSIGN. Section 10.3.
pub(crate) fn lower_label_assignment(
    alloc: Global,
    table: &NameFacts,
    around: Around,
    label: u32,
    name: &[u8],
    steps: &mut Vec<Step>,
) -> Result<(), LowerError>
    ensures { IsOutcome table.now around true (form.assigning_label label name.now) steps.old.items steps.new.items result }
{
    match put_label(alloc, label, name) {
        Ok(step) => append(steps, step),
        Err(AllocError) => Err(LowerError::NoMemory),
    }
}
