//! Bounds of dummy arrays, which the call fixes: integers, integer constants and integer variables, and sums, products and powers of them.
//! Section 5.1.1.
#![tactic(auto)]

ghost use Rattle.std.specs.Prelude.{◌≡◌, ◌&&◌, option_map};
ghost use Rattle.declaration_rows.specs.NameRows as rows;
ghost use Rattle.name_facts.specs.GivenFacts.{datum_of};
ghost use Rattle.name_judge.specs.FactRows.{naming_in};

use f_tree::{Basic, BinaryOp, Class, Dimension, Expr, UpperBound};
use name_facts::{ConstantValue, NameFacts};

/// Whether a constant has an integer as its value.
#[tactic(auto, unfolding(declaration_rows::specs::NameRows::is_integer_value, name_facts::specs::GivenFacts::datum_of))]
fn is_integer_value(constant: Option<&ConstantValue>) -> bool
    ensures { result ≡ rows.is_integer_value (option_map datum_of (option_map (λ one. one.now) constant.entry)) }
{
    match constant {
        Some(ConstantValue::Integer(_)) => true,
        Some(ConstantValue::Logical(_) | ConstantValue::Text(_) | ConstantValue::Label(_)) => false,
        None => false,
    }
}

/// Whether a type is that of integers.
#[tactic(auto, unfolding(declaration_rows::specs::NameRows::same_integer))]
fn is_integer(basic: Basic) -> bool
    ensures { result ≡ rows.same_integer basic }
{
    match basic {
        Basic::Integer => true,
        Basic::Logical | Basic::Character | Basic::Untyped => false,
    }
}

/// Whether a name may stand in a bound.
#[tactic(auto, unfolding(declaration_rows::specs::NameRows::is_integer_name, crate::specs::FactRows::naming_in))]
fn is_integer_name(facts: &NameFacts, name: &[u8]) -> bool
    ensures { result ≡ rows.is_integer_name (naming_in facts.now name.now) }
{
    match facts.class(name) {
        Class::Constant => is_integer_value(facts.constant(name)),
        Class::Dummy | Class::Stored => is_integer(facts.basic(name)),
        Class::Result | Class::Procedure | Class::DummyProcedure => false,
        Class::StatementFunction | Class::Intrinsic | Class::Unit => false,
    }
}

/// Whether an operator takes integers and gives one.
#[tactic(auto, unfolding(declaration_rows::specs::NameRows::is_arithmetic))]
fn is_arithmetic(op: BinaryOp) -> bool
    ensures { result ≡ rows.is_arithmetic op }
{
    match op {
        BinaryOp::Power | BinaryOp::Times | BinaryOp::Divide => true,
        BinaryOp::Plus | BinaryOp::Minus => true,
        _ => false,
    }
}

/// Whether an operation may be a bound of a dummy array, given whether its operands may.
fn is_bound_operation(op: BinaryOp, left: bool, right: bool) -> bool
    ensures { result ≡ (rows.is_arithmetic op && (left && right)) }
{
    is_arithmetic(op) && (left && right)
}

/// Whether an expression may be a bound of a dummy array.
#[tactic(auto, using(crate::proofs::BoundForms::bound_forms))]
fn is_bound_expression(facts: &NameFacts, e: &Expr) -> bool
    ensures { result ≡ rows.is_bound_expression (naming_in facts.now) e.now }
{
    match e {
        Expr::Int(_) => true,
        Expr::Name(name) => is_integer_name(facts, name.as_slice()),
        Expr::Minus(operand) | Expr::Plus(operand) => is_bound_expression(facts, operand.get()),
        Expr::Paren(operand) => is_bound_expression(facts, operand.get()),
        Expr::Binary(op, left, right) => is_bound_operation(
            *op,
            is_bound_expression(facts, left.get()),
            is_bound_expression(facts, right.get()),
        ),
        Expr::Logical(_) | Expr::Text(_) | Expr::Apply(..) | Expr::Part(..) => false,
        Expr::Not(_) | Expr::AltReturn(_) | Expr::Bind(..) | Expr::Bound(_) => false,
    }
}

/// Whether a lower bound of a dummy array may be fixed by the call.
#[tactic(auto, unfolding(declaration_rows::specs::NameRows::is_lower))]
fn is_lower(facts: &NameFacts, lower: &Option<Expr>) -> bool
    ensures { result ≡ rows.is_lower (naming_in facts.now) lower.now }
{
    match lower {
        Some(e) => is_bound_expression(facts, e),
        None => true,
    }
}

/// Whether an upper bound of a dummy array may be fixed by the call.
#[tactic(auto, unfolding(declaration_rows::specs::NameRows::is_upper))]
fn is_upper(facts: &NameFacts, upper: &UpperBound) -> bool
    ensures { result ≡ rows.is_upper (naming_in facts.now) upper.now }
{
    match upper {
        UpperBound::Value(e) => is_bound_expression(facts, e),
        UpperBound::Star => true,
    }
}

/// Whether the bounds of a dummy array may be fixed by the call.
#[tactic(auto, unfolding(declaration_rows::specs::NameRows::are_dummy_bounds))]
pub(crate) fn are_dummy_bounds(facts: &NameFacts, dimensions: &[Dimension]) -> bool
    ensures { result ≡ rows.are_dummy_bounds (naming_in facts.now) dimensions.now }
{
    for dimension in dimensions {
        if !is_lower(facts, &dimension.lower) || !is_upper(facts, &dimension.upper) {
            return false;
        }
    }
    true
}
