//! Names, operators and constants in bounds.

ghost use Rattle.std.specs.Prelude.{◌≡◌, IfOk, option_map, is_some};
ghost use Rattle.f_tree.specs.Values.{IsInt};
ghost use Rattle.lowered_tree.specs.l_core.Pures as core;
ghost use Rattle.lowered_tree.specs.Shapes.{operator_of, prefix_of, pure_of};
ghost use Rattle.name_facts.specs.GivenFacts.{fact_in};
ghost use Rattle.kept_bounds.specs.KeptBounds.{operated_pure};
ghost use Rattle.bound_values.specs.BoundValues as spec;

use f_tree::{BinaryOp, Class};
use lowered_tree::{Literal, Operator, Prefix, Pure};
use name_facts::{ConstantValue, NameFacts};
use plain_data::{Boxed, Items};
use std::alloc::{AllocError, Global};

/// An integer. Section 4.3.
#[tactic(auto, using(lowered_tree::proofs::ShapeForms::pure_forms))]
pub(crate) fn integer(number: &i32) -> Pure
    ensures { pure_of result ≡ core.Constant (IsInt number.now) }
{
    Pure::Constant(Literal::Integer(*number))
}

/// Whether a value is an integer.
#[tactic(auto, unfolding(crate::specs::BoundValues::value_pure))]
fn is_integer(value: &ConstantValue) -> bool
    ensures { result ≡ is_some (spec.value_pure value.now) }
{
    match value {
        ConstantValue::Integer(_) => true,
        ConstantValue::Logical(_) | ConstantValue::Text(_) | ConstantValue::Label(_) => false,
    }
}

/// Whether a constant is an integer.
#[tactic(auto, unfolding(crate::specs::BoundValues::constant_pure))]
fn is_integer_constant(table: &NameFacts, name: &[u8]) -> bool
    ensures { result ≡ is_some (spec.constant_pure (fact_in table.now name.now).constant) }
{
    match table.constant(name) {
        Some(value) => is_integer(value),
        None => false,
    }
}

/// Whether a name is that of a variable, or of a constant that is an integer.
#[tactic(auto, unfolding(crate::specs::BoundValues::name_pure))]
pub(crate) fn is_pure_name(table: &NameFacts, name: &[u8]) -> bool
    ensures { result ≡ is_some (spec.name_pure name.now (fact_in table.now name.now).class (fact_in table.now name.now).constant) }
{
    match table.class(name) {
        Class::Constant => is_integer_constant(table, name),
        Class::Stored | Class::Dummy | Class::Result | Class::Unit => true,
        Class::Procedure | Class::DummyProcedure => false,
        Class::StatementFunction | Class::Intrinsic => false,
    }
}

/// A value, where it is an integer.
#[tactic(auto, unfolding(crate::specs::BoundValues::value_pure))]
fn integer_value(value: &ConstantValue) -> Option<Pure>
    ensures { option_map pure_of result ≡ spec.value_pure value.now }
{
    match value {
        ConstantValue::Integer(number) => Some(integer(number)),
        ConstantValue::Logical(_) | ConstantValue::Text(_) | ConstantValue::Label(_) => None,
    }
}

/// The value of a constant, where it is an integer.
#[tactic(auto, unfolding(crate::specs::BoundValues::constant_pure))]
fn constant(table: &NameFacts, name: &[u8]) -> Option<Pure>
    ensures { option_map pure_of result ≡ spec.constant_pure (fact_in table.now name.now).constant }
{
    match table.constant(name) {
        Some(value) => integer_value(value),
        None => None,
    }
}

/// What a variable holds.
#[tactic(auto, using(lowered_tree::proofs::ShapeForms::pure_forms))]
fn variable(alloc: Global, name: &[u8]) -> Result<Pure, AllocError>
    ensures { IfOk result (λ p. pure_of p ≡ core.Load (core.Name name.now)) }
{
    let name = Items::from_slice(alloc, name)?;
    Ok(Pure::Load(Boxed::new(alloc, Pure::Name(name))?))
}

/// A variable's value, or that of a constant that is an integer.
#[tactic(auto, unfolding(crate::specs::BoundValues::name_pure))]
pub(crate) fn name_value(
    alloc: Global,
    table: &NameFacts,
    name: &[u8],
) -> Result<Option<Pure>, AllocError>
    ensures { IfOk result (λ value. option_map pure_of value ≡ spec.name_pure name.now (fact_in table.now name.now).class (fact_in table.now name.now).constant) }
{
    match table.class(name) {
        Class::Constant => Ok(constant(table, name)),
        Class::Stored | Class::Dummy | Class::Result | Class::Unit => {
            Ok(Some(variable(alloc, name)?))
        }
        Class::Procedure | Class::DummyProcedure => Ok(None),
        Class::StatementFunction | Class::Intrinsic => Ok(None),
    }
}

/// The operator of a pure value, which is no power and no concatenation. Section 6.1.1.
#[tactic(auto, unfolding(crate::specs::BoundValues::operator_in))]
pub(crate) fn operator_in(op: BinaryOp) -> Option<Operator>
    ensures { option_map operator_of result ≡ spec.operator_in op }
{
    match op {
        BinaryOp::Power | BinaryOp::Concatenate => None,
        BinaryOp::Times => Some(Operator::Multiply),
        BinaryOp::Divide => Some(Operator::Divide),
        BinaryOp::Plus => Some(Operator::Add),
        BinaryOp::Minus => Some(Operator::Subtract),
        BinaryOp::Less => Some(Operator::IsLess),
        BinaryOp::LessOrEqual => Some(Operator::IsLessOrEqual),
        BinaryOp::Equal => Some(Operator::IsEqual),
        BinaryOp::NotEqual => Some(Operator::IsNotEqual),
        BinaryOp::Greater => Some(Operator::IsGreater),
        BinaryOp::GreaterOrEqual => Some(Operator::IsGreaterOrEqual),
        BinaryOp::And => Some(Operator::Both),
        BinaryOp::Or => Some(Operator::Either),
        BinaryOp::Equivalent => Some(Operator::Same),
        BinaryOp::NotEquivalent => Some(Operator::Different),
    }
}

/// Whether an operator stands in pure values.
#[tactic(auto, unfolding(crate::specs::BoundValues::operator_in))]
pub(crate) fn is_operator(op: BinaryOp) -> bool
    ensures { result ≡ is_some (spec.operator_in op) }
{
    !matches!(op, BinaryOp::Power | BinaryOp::Concatenate)
}

/// An operator before its operand.
#[tactic(auto, using(lowered_tree::proofs::ShapeForms::pure_forms))]
fn before(alloc: Global, op: Prefix, operand: Pure) -> Result<Pure, AllocError>
    ensures { IfOk result (λ p. pure_of p ≡ core.Prefixed (prefix_of op) (pure_of operand)) }
{
    Ok(Pure::Prefixed(op, Boxed::new(alloc, operand)?))
}

/// An operator between its operands.
#[tactic(auto, using(lowered_tree::proofs::ShapeForms::pure_forms))]
pub(crate) fn between(
    alloc: Global,
    op: Operator,
    left: Pure,
    right: Pure,
) -> Result<Pure, AllocError>
    ensures { IfOk result (λ p. pure_of p ≡ core.Operated (operator_of op) (pure_of left) (pure_of right)) }
{
    Ok(Pure::Operated(op, Boxed::new(alloc, left)?, Boxed::new(alloc, right)?))
}

/// An operator before its operand, where that has a value.
pub(crate) fn prefixed(
    alloc: Global,
    op: Prefix,
    operand: Option<Pure>,
) -> Result<Option<Pure>, AllocError>
    ensures { IfOk result (λ value. option_map pure_of value ≡ option_map (core.Prefixed (prefix_of op)) (option_map pure_of operand)) }
{
    match operand {
        Some(operand) => Ok(Some(before(alloc, op, operand)?)),
        None => Ok(None),
    }
}

/// An operator between its operands, where both have values.
#[tactic(auto, unfolding(kept_bounds::specs::KeptBounds::operated_pure))]
fn between_both(
    alloc: Global,
    op: Operator,
    left: Option<Pure>,
    right: Option<Pure>,
) -> Result<Option<Pure>, AllocError>
    ensures { IfOk result (λ value. option_map pure_of value ≡ operated_pure (operator_of op) (option_map pure_of left) (option_map pure_of right)) }
{
    match left {
        Some(left) => match right {
            Some(right) => Ok(Some(between(alloc, op, left, right)?)),
            None => Ok(None),
        },
        None => Ok(None),
    }
}

/// An operator of pure values between its operands, where both have values.
#[tactic(auto, unfolding(crate::specs::BoundValues::binary_pure))]
pub(crate) fn operated(
    alloc: Global,
    op: BinaryOp,
    left: Option<Pure>,
    right: Option<Pure>,
) -> Result<Option<Pure>, AllocError>
    ensures { IfOk result (λ value. option_map pure_of value ≡ spec.binary_pure (spec.operator_in op) (option_map pure_of left) (option_map pure_of right)) }
{
    match operator_in(op) {
        Some(op) => between_both(alloc, op, left, right),
        None => Ok(None),
    }
}
