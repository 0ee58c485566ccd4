//! Which expressions take a step where their value is used at once.

ghost use Rattle.std.specs.Prelude.{◌≡◌, ◌&&◌, map, true};
ghost use Rattle.f_tree.specs.Reading as reading;
ghost use Rattle.lowering.specs.Expressions as low;
ghost use Rattle.lowered_tree.specs.Shapes.{operator_of};
ghost use Rattle.name_facts.specs.GivenFacts.{fact_in};
ghost use Rattle.expression_lowering.specs.TableNames.{is_lowered_value, all_lower};
ghost use Rattle.expression_lowering.specs.LoweredForms as spec;

use crate::intrinsics::{function_named, is_library};
use crate::operators::{BinaryForm, Plan, may_decide};
use f_tree::names::Class;
use f_tree::{BinaryOp, Expr};
use lowered_tree::Operator;
use name_facts::NameFacts;

/// Whether an intrinsic function is called, from C's library or as another function is.
#[tactic(auto, unfolding(crate::specs::LoweredForms::function_calls))]
fn function_calls(name: &[u8]) -> bool
    ensures { result ≡ spec.function_calls (reading.function_named name.now) }
{
    match function_named(name) {
        None => true,
        Some(function) => is_library(function),
    }
}

/// Whether a name with a list takes a step of its own.
#[tactic(auto, unfolding(crate::specs::LoweredForms::makes_call))]
fn makes_call(table: &NameFacts, name: &[u8]) -> bool
    ensures { result ≡ spec.makes_call name.now (fact_in table.now name.now).class }
{
    match table.class(name) {
        Class::Intrinsic => function_calls(name),
        Class::Procedure | Class::DummyProcedure | Class::Result => true,
        Class::StatementFunction => true,
        Class::Constant | Class::Stored | Class::Dummy | Class::Unit => false,
    }
}

/// Whether an operator takes a step of its own.
#[tactic(auto, unfolding(crate::specs::LoweredForms::operator_calls))]
fn operator_calls(op: BinaryOp) -> bool
    ensures { result ≡ spec.operator_calls op }
{
    matches!(op, BinaryOp::Power)
}

/// Whether an expression of a form that is lowered takes a step where its value is used at once.
#[cycle(takes)]
#[tactic(auto, using(crate::proofs::CoveredForms::covered_forms, crate::proofs::CoveredForms::covered_parts, crate::proofs::ReferenceForms::step_forms))]
fn takes_step(table: &NameFacts, e: &Expr) -> bool
    requires { is_lowered_value table.now e.now ≡ true }
    ensures { result ≡ spec.takes_any_step table.now e.now }
{
    match e {
        Expr::Int(_) | Expr::Logical(_) | Expr::Text(_) => false,
        Expr::Name(_) | Expr::AltReturn(_) => false,
        Expr::Apply(name, es) => {
            makes_call(table, name.as_slice()) || any_takes_step(table, es.as_slice())
        }
        Expr::Minus(operand) | Expr::Plus(operand) => takes_step(table, operand.get()),
        Expr::Not(operand) | Expr::Paren(operand) => takes_step(table, operand.get()),
        Expr::Binary(op, left, right) => {
            operator_calls(*op) || takes_step(table, right.get()) || takes_step(table, left.get())
        }
        Expr::Part(_, _, _) | Expr::Bind(_, _) | Expr::Bound(_) => unreachable!(),
    }
}

/// Whether any expression of a list takes a step.
#[cycle(takes)]
#[tactic(auto, unfolding(crate::specs::LoweredForms::any_takes_step, crate::specs::TableNames::all_lower))]
fn any_takes_step(table: &NameFacts, es: &[Expr]) -> bool
    requires { all_lower (map (is_lowered_value table.now) es.now) ≡ true }
    ensures { result ≡ spec.any_takes_step table.now es.now }
{
    for e in es {
        if takes_step(table, e) {
            return true;
        }
    }
    false
}

/// Whether a right operand is passed where the left one decides: it takes a step. Section 6.4.2.
fn is_guarded(table: &NameFacts, op: Operator, right: &Expr) -> bool
    requires { is_lowered_value table.now right.now ≡ true }
    ensures { result ≡ low.may_decide (operator_of op) && spec.takes_any_step table.now right.now }
{
    may_decide(op) && takes_step(table, right)
}

/// How two operands of a form that is lowered are lowered.
#[tactic(auto, unfolding(crate::specs::LoweredForms::plan_of, crate::specs::LoweredForms::plan_between, crate::specs::LoweredForms::is_form))]
pub(crate) fn plan(table: &NameFacts, form: BinaryForm, right: &Expr) -> Plan
    requires form { spec.is_form form ≡ true }
    requires right { is_lowered_value table.now right.now ≡ true }
    ensures { result ≡ spec.plan_of table.now form right.now }
{
    match form {
        BinaryForm::Power => Plan::Power,
        BinaryForm::Operator(op) => {
            if is_guarded(table, op, right) {
                Plan::Guarded(op)
            } else {
                Plan::Between(op)
            }
        }
        BinaryForm::Concatenation => unreachable!(),
    }
}
