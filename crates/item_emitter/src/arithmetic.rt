//! Constants and sums. C89, 3.1.3.2 and 3.3.

ghost use Rattle.std.specs.Prelude.{◌≡◌, pos, Some, IfOk};
ghost use Rattle.c_tree.specs.declared.expression.CExpr.TheVariants as expr;
ghost use Rattle.c_structure.specs.Expressions.{number_expr};
ghost use Rattle.named_items.specs.SamePlaces as places;
ghost use Rattle.item_emission.specs.NamedEmission as spec;

use c_tree::expression::{BinaryOp, CExpr, UnaryOp};
use plain_data::Boxed;
use std::alloc::{AllocError, Global};

/// The number that an expression is.
#[tactic(auto, using(named_items::proofs::Forms::place_forms))]
fn number_in(e: &CExpr) -> Option<i32>
    ensures { result ≡ places.number_in e.now }
{
    match e {
        CExpr::Number(number) => Some(*number),
        _ => None,
    }
}

/// A count as a constant; none where it is too large for one.
#[tactic(auto, using(item_emission::proofs::Numbers::number_forms))]
pub(crate) fn count(value: u64) -> Option<CExpr>
    ensures { result ≡ number_expr (pos value) }
{
    if value <= 2147483647 {
        Some(CExpr::Number(value as i32))
    } else {
        None
    }
}

/// A number as a constant; none where it is negative or too large for one.
#[tactic(auto, using(item_emission::proofs::Numbers::number_forms))]
fn number(value: i64) -> Option<CExpr>
    ensures { result ≡ number_expr value }
{
    if value < 0 {
        None
    } else {
        count(value.unsigned_abs())
    }
}

/// An operator and its operand.
pub(crate) fn prefixed(
    alloc: Global,
    operator: UnaryOp,
    operand: CExpr,
) -> Result<CExpr, AllocError>
    ensures { IfOk result (λ e. e ≡ expr.Unary operator operand) }
{
    Ok(CExpr::Unary(operator, Boxed::new(alloc, operand)?))
}

/// An operator between two operands.
pub(crate) fn between(
    alloc: Global,
    operator: BinaryOp,
    left: CExpr,
    right: CExpr,
) -> Result<CExpr, AllocError>
    ensures { IfOk result (λ e. e ≡ expr.Binary operator left right) }
{
    Ok(CExpr::Binary(
        operator,
        Boxed::new(alloc, left)?,
        Boxed::new(alloc, right)?,
    ))
}

/// The least number, as a difference.
#[tactic(auto, using(item_emission::proofs::Numbers::number_forms))]
fn least(alloc: Global) -> Result<CExpr, AllocError>
    ensures { IfOk result (λ e. spec.constant_expr i32.MIN ≡ Some e) }
{
    let greatest = prefixed(alloc, UnaryOp::Minus, CExpr::Number(2147483647))?;
    between(alloc, BinaryOp::Subtract, greatest, CExpr::Number(1))
}

/// A number, a negative one with a sign.
pub(crate) fn constant(alloc: Global, value: i32) -> Result<CExpr, AllocError>
    ensures { IfOk result (λ e. spec.constant_expr value ≡ Some e) }
{
    if value < 0 {
        if value == i32::MIN {
            least(alloc)
        } else {
            prefixed(alloc, UnaryOp::Minus, CExpr::Number(-value))
        }
    } else {
        Ok(CExpr::Number(value))
    }
}

/// Whether an expression is a number.
#[tactic(auto, unfolding(item_emission::specs::NamedEmission::is_the_number))]
fn is_number(wanted: i32, e: &CExpr) -> bool
    ensures { result ≡ spec.is_the_number wanted (places.number_in e.now) }
{
    match number_in(e) {
        Some(number) => number == wanted,
        None => false,
    }
}

/// A sum without what adds nothing.
#[tactic(auto, unfolding(item_emission::specs::NamedEmission::added_expr))]
fn added(
    alloc: Global,
    left_is_zero: bool,
    right_is_zero: bool,
    left: CExpr,
    right: CExpr,
) -> Result<CExpr, AllocError>
    ensures { IfOk result (λ e. e ≡ spec.added_expr left_is_zero right_is_zero left right) }
{
    if left_is_zero {
        Ok(right)
    } else if right_is_zero {
        Ok(left)
    } else {
        between(alloc, BinaryOp::Add, left, right)
    }
}

/// A sum of which one operand is no constant.
fn mixed_sum(
    alloc: Global,
    left_is_zero: bool,
    right_is_zero: bool,
    left: CExpr,
    right: CExpr,
) -> Result<Option<CExpr>, AllocError>
    ensures { IfOk result (λ e. e ≡ Some (spec.added_expr left_is_zero right_is_zero left right)) }
{
    Ok(Some(added(alloc, left_is_zero, right_is_zero, left, right)?))
}

/// A sum, of two constants by its value; none where that has no constant.
#[tactic(auto, unfolding(item_emission::specs::NamedEmission::sum_expr, item_emission::specs::NamedEmission::sum_by))]
pub(crate) fn sum(alloc: Global, left: CExpr, right: CExpr) -> Result<Option<CExpr>, AllocError>
    ensures { IfOk result (λ e. e ≡ spec.sum_expr left right) }
{
    let right_is_zero = is_number(0, &right);
    match (number_in(&left), number_in(&right)) {
        (Some(one), Some(other)) => Ok(number(i64::from(one) + i64::from(other))),
        (Some(one), None) => mixed_sum(alloc, one == 0, false, left, right),
        (None, _) => mixed_sum(alloc, false, right_is_zero, left, right),
    }
}

/// A difference without a 0 that is taken away.
#[tactic(auto, unfolding(item_emission::specs::NamedEmission::difference_expr))]
pub(crate) fn difference(alloc: Global, left: CExpr, right: CExpr) -> Result<CExpr, AllocError>
    ensures { IfOk result (λ e. e ≡ spec.difference_expr left right) }
{
    if is_number(0, &right) {
        Ok(left)
    } else {
        between(alloc, BinaryOp::Subtract, left, right)
    }
}

/// A product without a factor of 1.
#[tactic(auto, unfolding(item_emission::specs::NamedEmission::product_expr))]
pub(crate) fn product(alloc: Global, left: CExpr, right: CExpr) -> Result<CExpr, AllocError>
    ensures { IfOk result (λ e. e ≡ spec.product_expr left right) }
{
    if is_number(1, &right) {
        Ok(left)
    } else {
        between(alloc, BinaryOp::Multiply, left, right)
    }
}
