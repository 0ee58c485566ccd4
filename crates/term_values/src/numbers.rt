//! Numbers of 32 bits, and what operators make of them (C89, 3.3.3 to 3.3.9).

ghost use Rattle.std.specs.Prelude.{◌≡◌, ◌+ℤ◌, ◌-ℤ◌, ◌*ℤ◌, neg_ℤ};
ghost use Rattle.c_tree.specs.declared.outcome.CValue.TheVariants.{Number};
ghost use Rattle.c_tree.specs.Objects as objects;
ghost use Rattle.c_tree.specs.Values as values;
ghost use Rattle.run_bytes.specs.Accesses.{typed_of};
ghost use Rattle.run_bytes.specs.Answers.{answered};
ghost use Rattle.term_values.specs.Numbers.{or_overflow, of_numbers};

use c_tree::expression::{BinaryOp, Extreme};
use c_tree::outcome::{CFault, CValue};
use run_bytes::{AccessType, TypedValue};

/// A value through which nothing is accessed.
pub(crate) fn plain(value: CValue) -> TypedValue
    ensures { typed_of result ≡ objects.plain value }
{
    TypedValue {
        value,
        through: AccessType::Nothing,
    }
}

/// A number as a value.
pub(crate) fn number(number: i32) -> TypedValue
    ensures { typed_of result ≡ objects.plain (Number number) }
{
    plain(CValue::Number(number))
}

/// 1 for what holds, else 0.
pub(crate) fn truth(holds: bool) -> TypedValue
    ensures { typed_of result ≡ values.truth holds }
{
    number(if holds { 1 } else { 0 })
}

/// The number that a value is.
pub(crate) fn as_number(value: CValue) -> Result<i32, CFault>
    ensures { answered (λ number. number) result ≡ objects.as_number value }
{
    match value {
        CValue::Number(number) => Ok(number),
        _ => Err(CFault::Kind),
    }
}

/// Whether a number stands for true.
pub(crate) fn condition(typed: TypedValue) -> Result<bool, CFault>
    ensures { answered (λ holds. holds) result ≡ values.condition (typed_of typed) }
{
    match as_number(typed.value) {
        Ok(number) => Ok(number != 0),
        Err(fault) => Err(fault),
    }
}

/// A result of 32 bits.
fn checked(found: Option<i32>) -> Result<TypedValue, CFault>
    ensures { answered typed_of result ≡ or_overflow found }
{
    match found {
        Some(found) => Ok(number(found)),
        None => Err(CFault::Overflow),
    }
}

/// A sum.
#[tactic(auto, using(crate::proofs::NumberLaws::checked_laws))]
pub(crate) fn sum(left: i32, right: i32) -> Result<TypedValue, CFault>
    ensures { answered typed_of result ≡ values.checked (left +ℤ right) }
{
    checked(left.checked_add(right))
}

/// A difference.
#[tactic(auto, using(crate::proofs::NumberLaws::checked_laws))]
pub(crate) fn difference(left: i32, right: i32) -> Result<TypedValue, CFault>
    ensures { answered typed_of result ≡ values.checked (left -ℤ right) }
{
    checked(left.checked_sub(right))
}

/// A product.
#[tactic(auto, using(crate::proofs::NumberLaws::checked_laws))]
fn product(left: i32, right: i32) -> Result<TypedValue, CFault>
    ensures { answered typed_of result ≡ values.checked (left *ℤ right) }
{
    checked(left.checked_mul(right))
}

/// A quotient, cut towards zero.
#[tactic(auto, using(crate::proofs::NumberLaws::checked_laws))]
fn quotient(left: i32, right: i32) -> Result<TypedValue, CFault>
    ensures { answered typed_of result ≡ values.quotient left right }
{
    if right == 0 {
        return Err(CFault::ZeroDivide);
    }
    checked(left.checked_div(right))
}

/// The remainder of a quotient that has 32 bits.
#[tactic(auto, using(crate::proofs::NumberLaws::checked_laws))]
fn remainder(left: i32, right: i32) -> Result<TypedValue, CFault>
    ensures { answered typed_of result ≡ values.remainder left right }
{
    if right == 0 {
        return Err(CFault::ZeroDivide);
    }
    checked(left.checked_rem(right))
}

/// A number with the other sign.
#[tactic(auto, using(crate::proofs::NumberLaws::checked_laws))]
pub(crate) fn negated(number: i32) -> Result<TypedValue, CFault>
    ensures { answered typed_of result ≡ values.checked (neg_ℤ number) }
{
    checked(number.checked_neg())
}

/// `abs`
#[tactic(auto, using(crate::proofs::NumberLaws::checked_laws))]
pub(crate) fn magnitude(number: i32) -> Result<TypedValue, CFault>
    ensures { answered typed_of result ≡ values.magnitude number }
{
    checked(number.checked_abs())
}

/// `max` or `min`
pub(crate) fn most(which: Extreme, left: i32, right: i32) -> Result<TypedValue, CFault>
    ensures { answered typed_of result ≡ values.most which left right }
{
    match which {
        Extreme::Max => Ok(number(if left < right { right } else { left })),
        Extreme::Min => Ok(number(if right < left { right } else { left })),
    }
}

/// An operator that takes numbers alone.
fn of_numbers(op: BinaryOp, left: i32, right: i32) -> Result<TypedValue, CFault>
    ensures { answered typed_of result ≡ of_numbers op left right }
{
    match op {
        BinaryOp::Multiply => product(left, right),
        BinaryOp::Divide => quotient(left, right),
        BinaryOp::Remainder => remainder(left, right),
        BinaryOp::Less => Ok(truth(left < right)),
        BinaryOp::LessOrEqual => Ok(truth(left <= right)),
        BinaryOp::Greater => Ok(truth(left > right)),
        BinaryOp::GreaterOrEqual => Ok(truth(left >= right)),
        BinaryOp::Or | BinaryOp::And | BinaryOp::Equal => Err(CFault::Kind),
        BinaryOp::Unequal | BinaryOp::Add | BinaryOp::Subtract => Err(CFault::Kind),
    }
}

/// An operator that takes numbers alone, between two values.
pub(crate) fn on_numbers(
    op: BinaryOp,
    left: TypedValue,
    right: TypedValue,
) -> Result<TypedValue, CFault>
    ensures { answered typed_of result ≡ values.on_numbers (of_numbers op) (typed_of left) (typed_of right) }
{
    let left = as_number(left.value)?;
    let right = as_number(right.value)?;
    of_numbers(op, left, right)
}

/// `max` or `min` of two values.
pub(crate) fn most_of(
    which: Extreme,
    left: TypedValue,
    right: TypedValue,
) -> Result<TypedValue, CFault>
    ensures { answered typed_of result ≡ values.on_numbers (values.most which) (typed_of left) (typed_of right) }
{
    let left = as_number(left.value)?;
    let right = as_number(right.value)?;
    most(which, left, right)
}
