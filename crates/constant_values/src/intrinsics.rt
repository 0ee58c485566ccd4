//! Intrinsic functions other than LEN, over values. Section 15.10, and MIL-STD-1753.

ghost use Rattle.std.specs.Prelude.{◌≡◌, ◌∷◌, [], IfOk, option_map, pos, Some, ◌≤◌, length};
ghost use Rattle.f_tree.specs.Values.{IsInt, IsText};
ghost use Rattle.f_tree.specs.Terms.{Largest, Smallest};
ghost use Rattle.f_tree.specs.Valuing as valuing;
ghost use Rattle.name_facts.specs.GivenFacts.{datum_of};
ghost use Rattle.constant_values.specs.FunctionNames.{function_of};
ghost use Rattle.constant_values.specs.Folded.{given};
ghost use Rattle.constant_values.specs.Operands.{apart_from_length, data_of, extreme_step, extreme_onward};

use crate::bits::{has_bit, shifted, with_bit, without_bit};
use crate::functions::IntrinsicFunction;
use crate::integers::{difference_over, magnitude, remainder, with_sign_of};
use crate::texts::{first_character, index, is_before};
use crate::values::{integer, logical, text_value};
use name_facts::ConstantValue;
use std::alloc::{AllocError, Global};

/// The character with a number.
#[tactic(auto, unfolding(f_tree::specs::Valuing::character_of, crate::specs::Folded::given, name_facts::specs::GivenFacts::datum_of))]
fn character(alloc: Global, number: i32) -> Result<Option<ConstantValue>, AllocError>
    ensures { IfOk result (λ v. option_map datum_of v ≡ given (valuing.character_of number)) }
{
    if 0 <= number && number < 256 {
        text_value(alloc, &[number as u8])
    } else {
        Ok(None)
    }
}

/// A function of one integer.
#[tactic(auto, unfolding(crate::specs::FunctionNames::function_of, crate::specs::Operands::apart_from_length, crate::specs::Folded::given, name_facts::specs::GivenFacts::datum_of, f_tree::specs::Valuing::applied, f_tree::specs::Valuing::extreme, run_state::specs::Bits::complement))]
fn of_integer(
    alloc: Global,
    function: IntrinsicFunction,
    a: i32,
) -> Result<Option<ConstantValue>, AllocError>
    ensures { IfOk result (λ v. option_map datum_of v ≡ apart_from_length (function_of function) (IsInt a ∷ [])) }
{
    match function {
        IntrinsicFunction::Truncation | IntrinsicFunction::Largest | IntrinsicFunction::Smallest =>
            { Ok(Some(ConstantValue::Integer(a))) }
        IntrinsicFunction::Magnitude => Ok(integer(magnitude(a))),
        IntrinsicFunction::CharacterOfCode => character(alloc, a),
        IntrinsicFunction::BitComplement => Ok(Some(ConstantValue::Integer(!a))),
        IntrinsicFunction::Remainder
        | IntrinsicFunction::SignTransfer
        | IntrinsicFunction::PositiveDifference
        | IntrinsicFunction::CharacterCode
        | IntrinsicFunction::TextLength
        | IntrinsicFunction::IndexOf
        | IntrinsicFunction::LexicallyGreaterOrEqual
        | IntrinsicFunction::LexicallyGreater
        | IntrinsicFunction::LexicallyLessOrEqual
        | IntrinsicFunction::LexicallyLess
        | IntrinsicFunction::InclusiveOr
        | IntrinsicFunction::LogicalProduct
        | IntrinsicFunction::ExclusiveOr
        | IntrinsicFunction::BitShift
        | IntrinsicFunction::BitTest
        | IntrinsicFunction::BitSet
        | IntrinsicFunction::BitClear => Ok(None),
    }
}

/// A function of two integers.
#[tactic(auto, unfolding(crate::specs::FunctionNames::function_of, crate::specs::Operands::apart_from_length, crate::specs::Folded::given, name_facts::specs::GivenFacts::datum_of, f_tree::specs::Valuing::applied, f_tree::specs::Valuing::extreme, f_tree::specs::Valuing::int_max, f_tree::specs::Valuing::int_min, f_tree::specs::Valuing::if_bits, f_tree::specs::Valuing::if_bit, run_state::specs::Bits::inclusive_or, run_state::specs::Bits::logical_product, run_state::specs::Bits::exclusive_or))]
fn of_integers(function: IntrinsicFunction, a: i32, b: i32) -> Option<ConstantValue>
    ensures { option_map datum_of result ≡ apart_from_length (function_of function) (IsInt a ∷ IsInt b ∷ []) }
{
    match function {
        IntrinsicFunction::Remainder => integer(remainder(a, b)),
        IntrinsicFunction::SignTransfer => integer(with_sign_of(a, b)),
        IntrinsicFunction::PositiveDifference => integer(difference_over(a, b)),
        IntrinsicFunction::Largest => Some(ConstantValue::Integer(if a < b { b } else { a })),
        IntrinsicFunction::Smallest => Some(ConstantValue::Integer(if b < a { b } else { a })),
        IntrinsicFunction::InclusiveOr => Some(ConstantValue::Integer(a | b)),
        IntrinsicFunction::LogicalProduct => Some(ConstantValue::Integer(a & b)),
        IntrinsicFunction::ExclusiveOr => Some(ConstantValue::Integer(a ^ b)),
        IntrinsicFunction::BitShift => integer(shifted(a, b)),
        IntrinsicFunction::BitTest => logical(has_bit(a, b)),
        IntrinsicFunction::BitSet => integer(with_bit(a, b)),
        IntrinsicFunction::BitClear => integer(without_bit(a, b)),
        IntrinsicFunction::Truncation
        | IntrinsicFunction::Magnitude
        | IntrinsicFunction::CharacterCode
        | IntrinsicFunction::CharacterOfCode
        | IntrinsicFunction::TextLength
        | IntrinsicFunction::IndexOf
        | IntrinsicFunction::LexicallyGreaterOrEqual
        | IntrinsicFunction::LexicallyGreater
        | IntrinsicFunction::LexicallyLessOrEqual
        | IntrinsicFunction::LexicallyLess
        | IntrinsicFunction::BitComplement => None,
    }
}

/// A function of one text.
#[tactic(auto, unfolding(crate::specs::FunctionNames::function_of, crate::specs::Operands::apart_from_length, crate::specs::Folded::given, name_facts::specs::GivenFacts::datum_of, f_tree::specs::Valuing::applied))]
fn of_text(function: IntrinsicFunction, text: &[u8]) -> Option<ConstantValue>
    ensures { option_map datum_of result ≡ apart_from_length (function_of function) (IsText text.now ∷ []) }
{
    match function {
        IntrinsicFunction::CharacterCode => {
            Some(ConstantValue::Integer(first_character(text) as i32))
        }
        IntrinsicFunction::Truncation
        | IntrinsicFunction::Magnitude
        | IntrinsicFunction::Remainder
        | IntrinsicFunction::SignTransfer
        | IntrinsicFunction::PositiveDifference
        | IntrinsicFunction::Largest
        | IntrinsicFunction::Smallest
        | IntrinsicFunction::CharacterOfCode
        | IntrinsicFunction::TextLength
        | IntrinsicFunction::IndexOf
        | IntrinsicFunction::LexicallyGreaterOrEqual
        | IntrinsicFunction::LexicallyGreater
        | IntrinsicFunction::LexicallyLessOrEqual
        | IntrinsicFunction::LexicallyLess
        | IntrinsicFunction::InclusiveOr
        | IntrinsicFunction::LogicalProduct
        | IntrinsicFunction::ExclusiveOr
        | IntrinsicFunction::BitComplement
        | IntrinsicFunction::BitShift
        | IntrinsicFunction::BitTest
        | IntrinsicFunction::BitSet
        | IntrinsicFunction::BitClear => None,
    }
}

/// The place of a text in another, as a value. An error where it is past the largest integer, which no memory reaches.
#[tactic(auto, unfolding(name_facts::specs::GivenFacts::datum_of))]
fn place_in_text(text: &[u8], part: &[u8]) -> Result<Option<ConstantValue>, AllocError>
    ensures { IfOk result (λ v. option_map datum_of v ≡ Some (IsInt (pos (valuing.index_from 1 text.now part.now)))) }
{
    let place = index(text, part);
    if place <= 2147483647 {
        Ok(Some(ConstantValue::Integer(place as i32)))
    } else {
        Err(AllocError)
    }
}

/// A function of two texts. An error where the place of one in the other is past the largest integer.
#[tactic(auto, unfolding(crate::specs::FunctionNames::function_of, crate::specs::Operands::apart_from_length, crate::specs::Folded::given, name_facts::specs::GivenFacts::datum_of, f_tree::specs::Valuing::applied, f_tree::specs::Valuing::on_texts))]
fn of_texts(
    function: IntrinsicFunction,
    a: &[u8],
    b: &[u8],
) -> Result<Option<ConstantValue>, AllocError>
    ensures { IfOk result (λ v. option_map datum_of v ≡ apart_from_length (function_of function) (IsText a.now ∷ IsText b.now ∷ [])) }
{
    match function {
        IntrinsicFunction::IndexOf => place_in_text(a, b),
        IntrinsicFunction::LexicallyGreaterOrEqual => {
            Ok(Some(ConstantValue::Logical(!is_before(a, b))))
        }
        IntrinsicFunction::LexicallyGreater => Ok(Some(ConstantValue::Logical(is_before(b, a)))),
        IntrinsicFunction::LexicallyLessOrEqual => {
            Ok(Some(ConstantValue::Logical(!is_before(b, a))))
        }
        IntrinsicFunction::LexicallyLess => Ok(Some(ConstantValue::Logical(is_before(a, b)))),
        IntrinsicFunction::Truncation
        | IntrinsicFunction::Magnitude
        | IntrinsicFunction::Remainder
        | IntrinsicFunction::SignTransfer
        | IntrinsicFunction::PositiveDifference
        | IntrinsicFunction::Largest
        | IntrinsicFunction::Smallest
        | IntrinsicFunction::CharacterCode
        | IntrinsicFunction::CharacterOfCode
        | IntrinsicFunction::TextLength
        | IntrinsicFunction::InclusiveOr
        | IntrinsicFunction::LogicalProduct
        | IntrinsicFunction::ExclusiveOr
        | IntrinsicFunction::BitComplement
        | IntrinsicFunction::BitShift
        | IntrinsicFunction::BitTest
        | IntrinsicFunction::BitSet
        | IntrinsicFunction::BitClear => Ok(None),
    }
}

/// A function of one operand.
#[tactic(auto, unfolding(name_facts::specs::GivenFacts::datum_of), using(crate::proofs::OperandLemmas::one_operand))]
fn of_one(
    alloc: Global,
    function: IntrinsicFunction,
    value: &ConstantValue,
) -> Result<Option<ConstantValue>, AllocError>
    ensures { IfOk result (λ v. option_map datum_of v ≡ apart_from_length (function_of function) (datum_of value.now ∷ [])) }
{
    match value {
        ConstantValue::Integer(a) => of_integer(alloc, function, *a),
        ConstantValue::Text(a) => Ok(of_text(function, a.as_slice())),
        ConstantValue::Logical(_) | ConstantValue::Label(_) => Ok(None),
    }
}

/// A function of an integer and another operand.
#[tactic(auto, unfolding(name_facts::specs::GivenFacts::datum_of), using(crate::proofs::OperandLemmas::two_operands))]
fn of_integer_and(
    function: IntrinsicFunction,
    a: i32,
    other: &ConstantValue,
) -> Option<ConstantValue>
    ensures { option_map datum_of result ≡ apart_from_length (function_of function) (IsInt a ∷ datum_of other.now ∷ []) }
{
    match other {
        ConstantValue::Integer(b) => of_integers(function, a, *b),
        ConstantValue::Logical(_) | ConstantValue::Text(_) | ConstantValue::Label(_) => None,
    }
}

/// A function of a text and another operand.
#[tactic(auto, unfolding(name_facts::specs::GivenFacts::datum_of), using(crate::proofs::OperandLemmas::two_operands))]
fn of_text_and(
    function: IntrinsicFunction,
    a: &[u8],
    other: &ConstantValue,
) -> Result<Option<ConstantValue>, AllocError>
    ensures { IfOk result (λ v. option_map datum_of v ≡ apart_from_length (function_of function) (IsText a.now ∷ datum_of other.now ∷ [])) }
{
    match other {
        ConstantValue::Text(b) => of_texts(function, a, b.as_slice()),
        ConstantValue::Integer(_) | ConstantValue::Logical(_) | ConstantValue::Label(_) => Ok(None),
    }
}

/// A function of two operands.
#[tactic(auto, unfolding(name_facts::specs::GivenFacts::datum_of), using(crate::proofs::OperandLemmas::two_operands))]
fn of_two(
    function: IntrinsicFunction,
    one: &ConstantValue,
    other: &ConstantValue,
) -> Result<Option<ConstantValue>, AllocError>
    ensures { IfOk result (λ v. option_map datum_of v ≡ apart_from_length (function_of function) (datum_of one.now ∷ datum_of other.now ∷ [])) }
{
    match one {
        ConstantValue::Integer(a) => Ok(of_integer_and(function, *a, other)),
        ConstantValue::Text(a) => of_text_and(function, a.as_slice(), other),
        ConstantValue::Logical(_) | ConstantValue::Label(_) => Ok(None),
    }
}

/// The larger of an integer and an operand; none where that is no integer.
#[tactic(auto, unfolding(crate::specs::Operands::extreme_step, name_facts::specs::GivenFacts::datum_of, f_tree::specs::Valuing::int_max))]
fn larger(best: Option<i32>, value: &ConstantValue) -> Option<i32>
    ensures { result ≡ extreme_step valuing.int_max best (datum_of value.now) }
{
    match best {
        None => None,
        Some(best) => match value {
            ConstantValue::Integer(number) => Some(if best < *number { *number } else { best }),
            ConstantValue::Logical(_) | ConstantValue::Text(_) | ConstantValue::Label(_) => None,
        },
    }
}

/// The smaller of an integer and an operand; none where that is no integer.
#[tactic(auto, unfolding(crate::specs::Operands::extreme_step, name_facts::specs::GivenFacts::datum_of, f_tree::specs::Valuing::int_min))]
fn smaller(best: Option<i32>, value: &ConstantValue) -> Option<i32>
    ensures { result ≡ extreme_step valuing.int_min best (datum_of value.now) }
{
    match best {
        None => None,
        Some(best) => match value {
            ConstantValue::Integer(number) => Some(if *number < best { *number } else { best }),
            ConstantValue::Logical(_) | ConstantValue::Text(_) | ConstantValue::Label(_) => None,
        },
    }
}

/// The largest of integers; none where an operand is no integer.
#[tactic(auto, unfolding(crate::specs::Operands::extreme_onward, crate::specs::Operands::data_of))]
fn largest(first: i32, values: &[ConstantValue]) -> Option<i32>
    ensures { result ≡ extreme_onward valuing.int_max (Some first) (data_of values.now) }
{
    let mut best = Some(first);
    for value in values {
        best = larger(best, value);
    }
    best
}

/// The smallest of integers; none where an operand is no integer.
#[tactic(auto, unfolding(crate::specs::Operands::extreme_onward, crate::specs::Operands::data_of))]
fn smallest(first: i32, values: &[ConstantValue]) -> Option<i32>
    ensures { result ≡ extreme_onward valuing.int_min (Some first) (data_of values.now) }
{
    let mut best = Some(first);
    for value in values {
        best = smaller(best, value);
    }
    best
}

/// The largest of operands.
#[tactic(auto, unfolding(name_facts::specs::GivenFacts::datum_of, crate::specs::Folded::given, f_tree::specs::Valuing::applied), using(crate::proofs::OperandLemmas::extreme_is))]
fn largest_of(first: &ConstantValue, later: &[ConstantValue]) -> Option<ConstantValue>
    ensures { option_map datum_of result ≡ given (valuing.applied Largest (datum_of first.now ∷ data_of later.now)) }
{
    match first {
        ConstantValue::Integer(a) => integer(largest(*a, later)),
        ConstantValue::Logical(_) | ConstantValue::Text(_) | ConstantValue::Label(_) => None,
    }
}

/// The smallest of operands.
#[tactic(auto, unfolding(name_facts::specs::GivenFacts::datum_of, crate::specs::Folded::given, f_tree::specs::Valuing::applied), using(crate::proofs::OperandLemmas::extreme_is))]
fn smallest_of(first: &ConstantValue, later: &[ConstantValue]) -> Option<ConstantValue>
    ensures { option_map datum_of result ≡ given (valuing.applied Smallest (datum_of first.now ∷ data_of later.now)) }
{
    match first {
        ConstantValue::Integer(a) => integer(smallest(*a, later)),
        ConstantValue::Logical(_) | ConstantValue::Text(_) | ConstantValue::Label(_) => None,
    }
}

/// A function of three operands or more: the largest or the smallest of integers.
#[tactic(auto, unfolding(crate::specs::FunctionNames::function_of, crate::specs::Operands::apart_from_length), using(crate::proofs::OperandLemmas::many_operands))]
fn of_many(
    function: IntrinsicFunction,
    first: &ConstantValue,
    later: &[ConstantValue],
) -> Option<ConstantValue>
    requires { 2 ≤ length later.now }
    ensures { option_map datum_of result ≡ apart_from_length (function_of function) (datum_of first.now ∷ data_of later.now) }
{
    match function {
        IntrinsicFunction::Largest => largest_of(first, later),
        IntrinsicFunction::Smallest => smallest_of(first, later),
        IntrinsicFunction::Truncation
        | IntrinsicFunction::Magnitude
        | IntrinsicFunction::Remainder
        | IntrinsicFunction::SignTransfer
        | IntrinsicFunction::PositiveDifference
        | IntrinsicFunction::CharacterCode
        | IntrinsicFunction::CharacterOfCode
        | IntrinsicFunction::TextLength
        | IntrinsicFunction::IndexOf
        | IntrinsicFunction::LexicallyGreaterOrEqual
        | IntrinsicFunction::LexicallyGreater
        | IntrinsicFunction::LexicallyLessOrEqual
        | IntrinsicFunction::LexicallyLess
        | IntrinsicFunction::InclusiveOr
        | IntrinsicFunction::LogicalProduct
        | IntrinsicFunction::ExclusiveOr
        | IntrinsicFunction::BitComplement
        | IntrinsicFunction::BitShift
        | IntrinsicFunction::BitTest
        | IntrinsicFunction::BitSet
        | IntrinsicFunction::BitClear => None,
    }
}

/// An intrinsic function other than LEN, which takes no values. An error where memory ran out.
#[tactic(auto, unfolding(crate::specs::Operands::data_of), using(crate::proofs::OperandLemmas::no_operands))]
pub fn apply(
    alloc: Global,
    function: IntrinsicFunction,
    values: &[ConstantValue],
) -> Result<Option<ConstantValue>, AllocError>
    ensures { IfOk result (λ v. option_map datum_of v ≡ apart_from_length (function_of function) (data_of values.now)) }
{
    match values {
        [] => Ok(None),
        [one] => of_one(alloc, function, one),
        [one, other] => of_two(function, one, other),
        [first, later @ ..] => Ok(of_many(function, first, later)),
    }
}
