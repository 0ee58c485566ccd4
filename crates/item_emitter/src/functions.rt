//! Functions over numbers that C has. ANSI X3.9-1978, section 15.10.

ghost use Rattle.std.specs.Prelude.{◌≡◌, option_map, IfOk};
ghost use Rattle.c_tree.specs.declared.expression.CExpr.TheVariants as expr;
ghost use Rattle.lowered_tree.specs.Shapes.{function_of};
ghost use Rattle.item_emission.specs.NamedEmission as spec;

use crate::arithmetic::between;
use c_tree::expression::{BinaryOp, CExpr, Extreme};
use lowered_tree::Function;
use plain_data::Boxed;
use std::alloc::{AllocError, Global};
use std::collections::VecDeque;

/// The greater or the less of two numbers.
fn extreme_of_two(
    alloc: Global,
    which: Extreme,
    one: CExpr,
    other: CExpr,
) -> Result<CExpr, AllocError>
    ensures { IfOk result (λ e. e ≡ expr.MaxMin which one other) }
{
    Ok(CExpr::MaxMin(which, Boxed::new(alloc, one)?, Boxed::new(alloc, other)?))
}

/// The greatest or the least of a number and some others, from the left.
fn extreme_from(
    alloc: Global,
    which: Extreme,
    mut best: CExpr,
    mut operands: VecDeque<CExpr>,
) -> Result<CExpr, AllocError>
    ensures { IfOk result (λ e. e ≡ spec.extreme_expr which best operands.items) }
{
    while let Some(operand) = operands.pop_front() {
        best = extreme_of_two(alloc, which, best, operand)?;
    }
    Ok(best)
}

/// The greatest or the least of some numbers, where there are any.
fn extreme(
    alloc: Global,
    which: Extreme,
    mut operands: VecDeque<CExpr>,
) -> Result<Option<CExpr>, AllocError>
    ensures { IfOk result (λ e. e ≡ spec.first_extreme which operands.items) }
{
    match operands.pop_front() {
        Some(first) => Ok(Some(extreme_from(alloc, which, first, operands)?)),
        None => Ok(None),
    }
}

/// An operand that stands alone.
#[tactic(auto, unfolding(item_emission::specs::NamedEmission::alone_expr))]
fn alone(mut operands: VecDeque<CExpr>) -> Option<CExpr>
    ensures { result ≡ spec.alone_expr operands.items }
{
    let first = operands.pop_front();
    if operands.is_empty() { first } else { None }
}

/// The magnitude of a number, where there is one.
fn magnitude(alloc: Global, operand: Option<CExpr>) -> Result<Option<CExpr>, AllocError>
    ensures { IfOk result (λ e. e ≡ option_map expr.Abs operand) }
{
    match operand {
        Some(operand) => Ok(Some(CExpr::Abs(Boxed::new(alloc, operand)?))),
        None => Ok(None),
    }
}

/// A remainder, where there are two operands.
#[tactic(auto, unfolding(item_emission::specs::NamedEmission::remainder_expr))]
fn remainder(alloc: Global, mut operands: VecDeque<CExpr>) -> Result<Option<CExpr>, AllocError>
    ensures { IfOk result (λ e. e ≡ spec.remainder_expr operands.items) }
{
    let Some(left) = operands.pop_front() else {
        return Ok(None);
    };
    match alone(operands) {
        Some(right) => Ok(Some(between(alloc, BinaryOp::Remainder, left, right)?)),
        None => Ok(None),
    }
}

/// A function of its operands; none for one that takes a call of the library, or texts.
#[tactic(auto, unfolding(item_emission::specs::NamedEmission::function_expr))]
fn function(
    alloc: Global,
    name: Function,
    operands: VecDeque<CExpr>,
) -> Result<Option<CExpr>, AllocError>
    ensures { IfOk result (λ e. e ≡ spec.function_expr (function_of name) operands.items) }
{
    match name {
        Function::Truncation => Ok(alone(operands)),
        Function::Magnitude => magnitude(alloc, alone(operands)),
        Function::Remainder => remainder(alloc, operands),
        Function::Largest => extreme(alloc, Extreme::Max, operands),
        Function::Smallest => extreme(alloc, Extreme::Min, operands),
        Function::Power
        | Function::SignTransfer
        | Function::PositiveDifference
        | Function::CharacterCode
        | Function::CharacterOfCode
        | Function::TextLength
        | Function::IndexOf
        | Function::LexicallyGreaterOrEqual
        | Function::LexicallyGreater
        | Function::LexicallyLessOrEqual
        | Function::LexicallyLess
        | Function::Front(_)
        | Function::Fitted(_)
        | Function::InclusiveOr
        | Function::LogicalProduct
        | Function::ExclusiveOr
        | Function::BitComplement
        | Function::BitShift
        | Function::BitTest
        | Function::BitSet
        | Function::BitClear => Ok(None),
    }
}

/// A function of its operands, where they have expressions.
#[tactic(auto, unfolding(item_emission::specs::NamedEmission::applied_expr))]
pub(crate) fn applied(
    alloc: Global,
    name: Function,
    operands: Option<Vec<CExpr>>,
) -> Result<Option<CExpr>, AllocError>
    ensures { IfOk result (λ e. e ≡ spec.applied_expr (function_of name) (option_map (λ es. es.items) operands)) }
{
    match operands {
        Some(operands) => function(alloc, name, VecDeque::from_vec(operands)),
        None => Ok(None),
    }
}
