//! Of which expressions all forms are lowered.

ghost use Rattle.std.specs.Prelude.{◌≡◌, map};
ghost use Rattle.f_tree.specs.Reading as reading;
ghost use Rattle.expression_lowering.specs.TableNames as spec;
ghost use Rattle.name_facts.specs.GivenFacts.{fact_in};

use crate::intrinsics::function_named;
use f_tree::names::Class;
use f_tree::{BinaryOp, Expr};
use lowered_tree::Function;
use name_facts::NameFacts;

/// Whether an expression is of a form that is lowered, given what its names are.
#[cycle(covers)]
#[tactic(auto, using(crate::proofs::CoveredForms::covered_forms))]
pub fn is_lowered(table: &NameFacts, e: &Expr) -> bool
    ensures { result ≡ spec.is_lowered_value table.now e.now }
{
    match e {
        Expr::Int(_) | Expr::Logical(_) | Expr::Text(_) | Expr::AltReturn(_) => true,
        Expr::Name(name) => covers_name(table, name.as_slice()),
        Expr::Apply(name, es) => {
            covers_list(table, name.as_slice()) && covers_all(table, es.as_slice())
        }
        Expr::Minus(operand) | Expr::Plus(operand) => is_lowered(table, operand.get()),
        Expr::Not(operand) | Expr::Paren(operand) => is_lowered(table, operand.get()),
        Expr::Binary(op, left, right) => {
            covers_operator(*op) && is_lowered(table, left.get()) && is_lowered(table, right.get())
        }
        Expr::Part(_, _, _) | Expr::Bind(_, _) | Expr::Bound(_) => false,
    }
}

/// Whether all expressions of a list are.
#[cycle(covers)]
#[tactic(auto, unfolding(crate::specs::TableNames::all_lower))]
fn covers_all(table: &NameFacts, es: &[Expr]) -> bool
    ensures { result ≡ spec.all_lower (map (spec.is_lowered_value table.now) es.now) }
{
    for e in es {
        if !is_lowered(table, e) {
            return false;
        }
    }
    true
}

/// Whether a name alone is.
#[tactic(auto, unfolding(crate::specs::TableNames::name_lowers))]
fn covers_name(table: &NameFacts, name: &[u8]) -> bool
    ensures { result ≡ spec.name_lowers (fact_in table.now name.now).class }
{
    match table.class(name) {
        Class::StatementFunction => false,
        Class::Constant | Class::Stored | Class::Dummy | Class::Result => true,
        Class::Procedure | Class::DummyProcedure | Class::Intrinsic | Class::Unit => true,
    }
}

/// Whether an intrinsic function is: LEN asks its operand for no value.
#[tactic(auto, unfolding(crate::specs::TableNames::function_lowers))]
fn covers_function(name: &[u8]) -> bool
    ensures { result ≡ spec.function_lowers (reading.function_named name.now) }
{
    !matches!(function_named(name), Some(Function::TextLength))
}

/// Whether a name with a list is, where the list is.
#[tactic(auto, unfolding(crate::specs::TableNames::applied_lowers))]
fn covers_list(table: &NameFacts, name: &[u8]) -> bool
    ensures { result ≡ spec.applied_lowers name.now (fact_in table.now name.now).class }
{
    match table.class(name) {
        Class::StatementFunction => false,
        Class::Intrinsic => covers_function(name),
        Class::Constant | Class::Stored | Class::Dummy | Class::Result => true,
        Class::Procedure | Class::DummyProcedure | Class::Unit => true,
    }
}

/// Whether an operator is.
#[tactic(auto, unfolding(crate::specs::TableNames::operator_lowers))]
fn covers_operator(op: BinaryOp) -> bool
    ensures { result ≡ spec.operator_lowers op }
{
    !matches!(op, BinaryOp::Concatenate)
}
