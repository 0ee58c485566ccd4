//! Operators between two values. Sections 6.1 to 6.4.

ghost use Rattle.std.specs.Prelude.{◌≡◌, ◌++◌, IfOk, option_map, Some, None};
ghost use Rattle.f_tree.specs.Values.{IsInt, IsLog, IsText};
ghost use Rattle.f_tree.specs.Terms.{Negate, Complement};
ghost use Rattle.f_tree.specs.Valuing.{both_or_none};
ghost use Rattle.name_facts.specs.GivenFacts.{datum_of};
ghost use Rattle.constant_values.specs.Folded.{binary_folded, prefixed_folded};

use crate::integers;
use crate::texts::is_before;
use crate::values::integer;
use f_tree::BinaryOp;
use name_facts::ConstantValue;
use plain_data::Items;
use std::alloc::{AllocError, Global};

/// A value with the other sign.
#[tactic(auto, unfolding(name_facts::specs::GivenFacts::datum_of, crate::specs::Folded::prefixed_folded, crate::specs::Folded::if_some, crate::specs::Folded::given, f_tree::specs::Valuing::prefixed))]
pub fn negated(value: Option<ConstantValue>) -> Option<ConstantValue>
    ensures { option_map datum_of result ≡ prefixed_folded Negate (option_map datum_of value) }
{
    match value {
        Some(ConstantValue::Integer(a)) => integer(integers::negated(a)),
        Some(ConstantValue::Logical(_)) => None,
        Some(ConstantValue::Text(_)) => None,
        Some(ConstantValue::Label(_)) => None,
        None => None,
    }
}

/// The other truth value.
#[tactic(auto, unfolding(name_facts::specs::GivenFacts::datum_of, crate::specs::Folded::prefixed_folded, crate::specs::Folded::if_some, crate::specs::Folded::given, f_tree::specs::Valuing::prefixed))]
pub fn complemented(value: Option<ConstantValue>) -> Option<ConstantValue>
    ensures { option_map datum_of result ≡ prefixed_folded Complement (option_map datum_of value) }
{
    match value {
        Some(ConstantValue::Logical(a)) => Some(ConstantValue::Logical(!a)),
        Some(ConstantValue::Integer(_)) => None,
        Some(ConstantValue::Text(_)) => None,
        Some(ConstantValue::Label(_)) => None,
        None => None,
    }
}

/// An operator between integers.
#[tactic(auto, unfolding(name_facts::specs::GivenFacts::datum_of), using(crate::proofs::OperatorLemmas::integer_forms))]
fn on_integers(op: BinaryOp, a: i32, b: i32) -> Option<ConstantValue>
    ensures { option_map datum_of result ≡ binary_folded op (Some (IsInt a)) (Some (IsInt b)) }
{
    match op {
        BinaryOp::Power => integer(integers::power(a, b)),
        BinaryOp::Times => integer(integers::product(a, b)),
        BinaryOp::Divide => integer(integers::quotient(a, b)),
        BinaryOp::Plus => integer(integers::sum(a, b)),
        BinaryOp::Minus => integer(integers::difference(a, b)),
        BinaryOp::Less => Some(ConstantValue::Logical(a < b)),
        BinaryOp::LessOrEqual => Some(ConstantValue::Logical(a <= b)),
        BinaryOp::Equal => Some(ConstantValue::Logical(a == b)),
        BinaryOp::NotEqual => Some(ConstantValue::Logical(a != b)),
        BinaryOp::Greater => Some(ConstantValue::Logical(b < a)),
        BinaryOp::GreaterOrEqual => Some(ConstantValue::Logical(b <= a)),
        BinaryOp::Concatenate
        | BinaryOp::And
        | BinaryOp::Or
        | BinaryOp::Equivalent
        | BinaryOp::NotEquivalent => None,
    }
}

/// Whether two truth values are the same.
#[tactic(auto, unfolding(f_tree::specs::Valuing::both_or_none))]
fn is_same(a: bool, b: bool) -> bool
    ensures { result ≡ both_or_none a b }
{
    if a { b } else { !b }
}

/// An operator between truth values.
#[tactic(auto, unfolding(name_facts::specs::GivenFacts::datum_of), using(crate::proofs::OperatorLemmas::logical_forms))]
fn on_logicals(op: BinaryOp, a: bool, b: bool) -> Option<ConstantValue>
    ensures { option_map datum_of result ≡ binary_folded op (Some (IsLog a)) (Some (IsLog b)) }
{
    match op {
        BinaryOp::And => Some(ConstantValue::Logical(a && b)),
        BinaryOp::Or => Some(ConstantValue::Logical(a || b)),
        BinaryOp::Equivalent => Some(ConstantValue::Logical(is_same(a, b))),
        BinaryOp::NotEquivalent => Some(ConstantValue::Logical(!is_same(a, b))),
        BinaryOp::Power
        | BinaryOp::Times
        | BinaryOp::Divide
        | BinaryOp::Plus
        | BinaryOp::Minus
        | BinaryOp::Concatenate
        | BinaryOp::Less
        | BinaryOp::LessOrEqual
        | BinaryOp::Equal
        | BinaryOp::NotEqual
        | BinaryOp::Greater
        | BinaryOp::GreaterOrEqual => None,
    }
}

/// A text behind another. Section 6.2.
#[tactic(auto, unfolding(name_facts::specs::GivenFacts::datum_of))]
fn joined(alloc: Global, a: &[u8], b: &[u8]) -> Result<Option<ConstantValue>, AllocError>
    ensures { IfOk result (λ v. option_map datum_of v ≡ Some (IsText (a.now ++ b.now))) }
{
    let mut whole = Vec::from_slice(alloc, a)?;
    whole.extend_from_slice(b)?;
    Ok(Some(ConstantValue::Text(Items::from_vec(whole))))
}

/// An operator between texts.
#[tactic(auto, unfolding(name_facts::specs::GivenFacts::datum_of), using(crate::proofs::OperatorLemmas::text_forms))]
fn on_texts(
    alloc: Global,
    op: BinaryOp,
    a: &[u8],
    b: &[u8],
) -> Result<Option<ConstantValue>, AllocError>
    ensures { IfOk result (λ v. option_map datum_of v ≡ binary_folded op (Some (IsText a.now)) (Some (IsText b.now))) }
{
    match op {
        BinaryOp::Concatenate => joined(alloc, a, b),
        BinaryOp::Less => Ok(Some(ConstantValue::Logical(is_before(a, b)))),
        BinaryOp::LessOrEqual => Ok(Some(ConstantValue::Logical(!is_before(b, a)))),
        BinaryOp::Equal => Ok(Some(ConstantValue::Logical(!is_before(a, b) && !is_before(b, a)))),
        BinaryOp::NotEqual => Ok(Some(ConstantValue::Logical(is_before(a, b) || is_before(b, a)))),
        BinaryOp::Greater => Ok(Some(ConstantValue::Logical(is_before(b, a)))),
        BinaryOp::GreaterOrEqual => Ok(Some(ConstantValue::Logical(!is_before(a, b)))),
        BinaryOp::Power
        | BinaryOp::Times
        | BinaryOp::Divide
        | BinaryOp::Plus
        | BinaryOp::Minus
        | BinaryOp::And
        | BinaryOp::Or
        | BinaryOp::Equivalent
        | BinaryOp::NotEquivalent => Ok(None),
    }
}

/// An operator whose left operand is a truth value and whose right operand is none: the left one may decide. Section 6.6.1.
#[tactic(auto, unfolding(name_facts::specs::GivenFacts::datum_of), using(crate::proofs::OperatorLemmas::left_forms))]
fn left_alone(op: BinaryOp, a: bool) -> Option<ConstantValue>
    ensures { option_map datum_of result ≡ binary_folded op (Some (IsLog a)) None }
{
    match op {
        BinaryOp::And => {
            if a {
                None
            } else {
                Some(ConstantValue::Logical(false))
            }
        }
        BinaryOp::Or => {
            if a {
                Some(ConstantValue::Logical(true))
            } else {
                None
            }
        }
        BinaryOp::Power
        | BinaryOp::Times
        | BinaryOp::Divide
        | BinaryOp::Plus
        | BinaryOp::Minus
        | BinaryOp::Concatenate
        | BinaryOp::Less
        | BinaryOp::LessOrEqual
        | BinaryOp::Equal
        | BinaryOp::NotEqual
        | BinaryOp::Greater
        | BinaryOp::GreaterOrEqual
        | BinaryOp::Equivalent
        | BinaryOp::NotEquivalent => None,
    }
}

/// An operator between an integer and another value.
#[tactic(auto, unfolding(name_facts::specs::GivenFacts::datum_of), using(crate::proofs::OperatorLemmas::unlike_forms))]
fn integer_and(op: BinaryOp, a: i32, other: &ConstantValue) -> Option<ConstantValue>
    ensures { option_map datum_of result ≡ binary_folded op (Some (IsInt a)) (Some (datum_of other.now)) }
{
    match other {
        ConstantValue::Integer(b) => on_integers(op, a, *b),
        ConstantValue::Logical(_) | ConstantValue::Text(_) | ConstantValue::Label(_) => None,
    }
}

/// An operator between a truth value and another value.
#[tactic(auto, unfolding(name_facts::specs::GivenFacts::datum_of), using(crate::proofs::OperatorLemmas::unlike_forms))]
fn logical_and(op: BinaryOp, a: bool, other: &ConstantValue) -> Option<ConstantValue>
    ensures { option_map datum_of result ≡ binary_folded op (Some (IsLog a)) (Some (datum_of other.now)) }
{
    match other {
        ConstantValue::Logical(b) => on_logicals(op, a, *b),
        ConstantValue::Integer(_) | ConstantValue::Text(_) | ConstantValue::Label(_) => {
            left_alone(op, a)
        }
    }
}

/// An operator between a text and another value.
#[tactic(auto, unfolding(name_facts::specs::GivenFacts::datum_of), using(crate::proofs::OperatorLemmas::unlike_forms))]
fn text_and(
    alloc: Global,
    op: BinaryOp,
    a: &[u8],
    other: &ConstantValue,
) -> Result<Option<ConstantValue>, AllocError>
    ensures { IfOk result (λ v. option_map datum_of v ≡ binary_folded op (Some (IsText a.now)) (Some (datum_of other.now))) }
{
    match other {
        ConstantValue::Text(b) => on_texts(alloc, op, a, b.as_slice()),
        ConstantValue::Integer(_) | ConstantValue::Logical(_) | ConstantValue::Label(_) => Ok(None),
    }
}

/// An operator between two values. An error where memory ran out.
#[tactic(auto, unfolding(name_facts::specs::GivenFacts::datum_of), using(crate::proofs::OperatorLemmas::unlike_forms))]
fn on_pair(
    alloc: Global,
    op: BinaryOp,
    one: &ConstantValue,
    other: &ConstantValue,
) -> Result<Option<ConstantValue>, AllocError>
    ensures { IfOk result (λ v. option_map datum_of v ≡ binary_folded op (Some (datum_of one.now)) (Some (datum_of other.now))) }
{
    match one {
        ConstantValue::Integer(a) => Ok(integer_and(op, *a, other)),
        ConstantValue::Logical(a) => Ok(logical_and(op, *a, other)),
        ConstantValue::Text(a) => text_and(alloc, op, a.as_slice(), other),
        ConstantValue::Label(_) => Ok(None),
    }
}

/// An operator whose right operand has no value.
#[tactic(auto, unfolding(name_facts::specs::GivenFacts::datum_of), using(crate::proofs::OperatorLemmas::unlike_forms))]
fn on_left(op: BinaryOp, one: &ConstantValue) -> Option<ConstantValue>
    ensures { option_map datum_of result ≡ binary_folded op (Some (datum_of one.now)) None }
{
    match one {
        ConstantValue::Logical(a) => left_alone(op, *a),
        ConstantValue::Integer(_) | ConstantValue::Text(_) | ConstantValue::Label(_) => None,
    }
}

/// An operator between two operands, which may have no values. An error where memory ran out.
#[tactic(auto, using(crate::proofs::OperatorLemmas::unlike_forms))]
pub fn binary(
    alloc: Global,
    op: BinaryOp,
    one: &Option<ConstantValue>,
    other: &Option<ConstantValue>,
) -> Result<Option<ConstantValue>, AllocError>
    ensures { IfOk result (λ v. option_map datum_of v ≡ binary_folded op (option_map datum_of one.now) (option_map datum_of other.now)) }
{
    match one {
        None => Ok(None),
        Some(one) => match other {
            None => Ok(on_left(op, one)),
            Some(other) => on_pair(alloc, op, one, other),
        },
    }
}
