//! Operators on values (C89, 3.3.3 to 3.3.9).

ghost use Rattle.std.specs.Prelude.{◌≡◌, neg_ℤ, not, Ok};
ghost use Rattle.c_tree.specs.Faults.{after};
ghost use Rattle.c_tree.specs.Objects as objects;
ghost use Rattle.c_tree.specs.Values as values;
ghost use Rattle.run_bytes.specs.Accesses.{access_of, typed_of};
ghost use Rattle.run_bytes.specs.Answers.{answered};

use crate::numbers::{as_number, condition, magnitude, negated, on_numbers, truth};
use crate::pointers::{difference_of, same, sum_of};
use c_tree::expression::BinaryOp;
use c_tree::outcome::{CFault, CValue};
use c_tree::types::CastType;
use run_bytes::{AccessType, RunBytes, TypedValue};

/// An operator that values both operands.
pub(crate) fn operation(
    run: &RunBytes,
    op: BinaryOp,
    left: TypedValue,
    right: TypedValue,
) -> Result<TypedValue, CFault>
    ensures { answered typed_of result ≡ values.operation run.now op (typed_of left) (typed_of right) }
{
    match op {
        BinaryOp::Add => sum_of(run, left, right),
        BinaryOp::Subtract => difference_of(run, left, right),
        BinaryOp::Equal => Ok(truth(same(left.value, right.value)?)),
        BinaryOp::Unequal => Ok(truth(!same(left.value, right.value)?)),
        BinaryOp::Multiply | BinaryOp::Divide | BinaryOp::Remainder => {
            on_numbers(op, left, right)
        }
        BinaryOp::Less | BinaryOp::LessOrEqual => on_numbers(op, left, right),
        BinaryOp::Greater | BinaryOp::GreaterOrEqual => on_numbers(op, left, right),
        BinaryOp::Or | BinaryOp::And => Err(CFault::Kind),
    }
}

/// `-`
pub(crate) fn minus(typed: TypedValue) -> Result<TypedValue, CFault>
    ensures { answered typed_of result ≡ after (objects.as_number typed.value) (λ number. values.checked (neg_ℤ number)) }
{
    negated(as_number(typed.value)?)
}

/// `!`
pub(crate) fn complement(typed: TypedValue) -> Result<TypedValue, CFault>
    ensures { answered typed_of result ≡ after (values.condition (typed_of typed)) (λ holds. Ok (values.truth (not holds))) }
{
    Ok(truth(!condition(typed)?))
}

/// `abs`
pub(crate) fn absolute(typed: TypedValue) -> Result<TypedValue, CFault>
    ensures { answered typed_of result ≡ after (objects.as_number typed.value) values.magnitude }
{
    magnitude(as_number(typed.value)?)
}

/// Through what a cast accesses.
fn access_by(kind: CastType) -> AccessType
    ensures { access_of result ≡ values.access_of kind }
{
    match kind {
        CastType::Chars => AccessType::Char,
        CastType::UnsignedChars => AccessType::Byte,
        CastType::Integers | CastType::Logicals => AccessType::Number,
        CastType::Length | CastType::Number | CastType::Function(_) => AccessType::Nothing,
    }
}

/// A number once it is cast: 0 is null where a pointer or a function is wanted (C89, 3.2.2.3).
fn cast_number(kind: CastType, number: i32) -> Result<CValue, CFault>
    ensures { answered (λ value. value) result ≡ values.cast_number kind number }
{
    match kind {
        CastType::Length | CastType::Number => Ok(CValue::Number(number)),
        _ if number == 0 => Ok(CValue::Null),
        _ => Err(CFault::Kind),
    }
}

/// A cast, which keeps a pointer or a function (C89, 3.3.4).
pub(crate) fn cast(kind: CastType, typed: TypedValue) -> Result<TypedValue, CFault>
    ensures { answered typed_of result ≡ values.cast kind (typed_of typed) }
{
    let value = match typed.value {
        CValue::Number(number) => cast_number(kind, number)?,
        other => other,
    };
    Ok(TypedValue {
        value,
        through: access_by(kind),
    })
}
