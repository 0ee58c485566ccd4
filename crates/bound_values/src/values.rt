//! The pure value of an expression that is a bound.

ghost use Rattle.std.specs.Prelude.{◌≡◌, IfOk, option_map};
ghost use Rattle.lowered_tree.specs.Shapes.{pure_of};
ghost use Rattle.bound_values.specs.BoundValues as spec;

use crate::leaves::{integer, is_operator, is_pure_name, name_value, operated, prefixed};
use f_tree::Expr;
use lowered_tree::{Prefix, Pure};
use name_facts::NameFacts;
use std::alloc::{AllocError, Global};

/// Whether an expression has a pure value, which takes no step: it has integer constants, variables, signs and operators, and no power, no function and
/// no element. The table tells what its names are.
#[tactic(auto, using(crate::proofs::BoundForms::test_forms))]
pub fn is_pure_bound(table: &NameFacts, e: &Expr) -> bool
    ensures { result ≡ spec.is_pure_bound table.now e.now }
{
    match e {
        Expr::Int(_) => true,
        Expr::Name(name) => is_pure_name(table, name.as_slice()),
        Expr::Minus(operand) | Expr::Plus(operand) => is_pure_bound(table, operand.get()),
        Expr::Not(operand) | Expr::Paren(operand) => is_pure_bound(table, operand.get()),
        Expr::Binary(op, left, right) => {
            is_operator(*op)
                && is_pure_bound(table, left.get())
                && is_pure_bound(table, right.get())
        }
        Expr::Logical(_) | Expr::Text(_) | Expr::Apply(_, _) | Expr::Part(_, _, _) => false,
        Expr::AltReturn(_) | Expr::Bind(_, _) | Expr::Bound(_) => false,
    }
}

/// The pure value of an expression, where it has one.
///
/// # Errors
///
/// Where memory has run out.
#[tactic(auto, using(crate::proofs::BoundForms::value_forms))]
pub fn bound_value(alloc: Global, table: &NameFacts, e: &Expr) -> Result<Option<Pure>, AllocError>
    ensures { IfOk result (λ value. option_map pure_of value ≡ spec.pure_bound table.now e.now) }
{
    match e {
        Expr::Int(number) => Ok(Some(integer(number))),
        Expr::Name(name) => name_value(alloc, table, name.as_slice()),
        Expr::Minus(operand) => {
            let value = bound_value(alloc, table, operand.get())?;
            prefixed(alloc, Prefix::Negate, value)
        }
        Expr::Not(operand) => {
            let value = bound_value(alloc, table, operand.get())?;
            prefixed(alloc, Prefix::Complement, value)
        }
        Expr::Plus(operand) | Expr::Paren(operand) => bound_value(alloc, table, operand.get()),
        Expr::Binary(op, left, right) => {
            let left = bound_value(alloc, table, left.get())?;
            let right = bound_value(alloc, table, right.get())?;
            operated(alloc, *op, left, right)
        }
        Expr::Logical(_) | Expr::Text(_) | Expr::Apply(_, _) | Expr::Part(_, _, _) => Ok(None),
        Expr::AltReturn(_) | Expr::Bind(_, _) | Expr::Bound(_) => Ok(None),
    }
}
