//! What expressions say of lengths, from what their parts say. Sections 5.7, 6.2, 6.3, 15.9.3 and 15.10.
#![tactic(auto)]

ghost use Rattle.std.specs.Prelude.{◌≡◌, ◌+◌, IfOk, nat_lt};
ghost use Rattle.declaration_rows.specs.LengthRows as rows;
ghost use Rattle.declaration_rows.specs.SharedStorageRows.{most_storage};
ghost use Rattle.length_judge.specs.LengthsSeen as spec;

use crate::names::NameLength;
use f_tree::{BinaryOp, Class};
use std::alloc::AllocError;

/// The greatest length, and the most character units of one item.
const MOST_STORAGE: u64 = 67_108_864;

/// What an expression says of lengths.
#[derive(Clone, Copy, Debug, PartialEq, Eq)]
pub(crate) struct Lengths {
    /// It is an operand of length `(*)` that is no constant.
    pub star: bool,
    /// It is such an operand in parentheses, and nothing else.
    pub parenthesised: bool,
    /// It is a concatenation with such an operand, which only a character assignment may assign. Section 6.2.
    pub joined: bool,
    /// Such an operand stands somewhere in it.
    pub has_star: bool,
    /// A reference of an external function or of a statement function stands in it.
    pub refers: bool,
    /// It uses such an operand as it may not.
    pub misused: bool,
    /// A length in it is past the greatest.
    pub too_long: bool,
    /// Its greatest length, an operand of length `(*)` counting for nothing.
    pub longest: u64,
}

/// What some parts of an expression say of lengths, one behind the other.
#[derive(Clone, Copy, Debug, PartialEq, Eq)]
pub(crate) struct Parts {
    /// One is an operand of length `(*)`.
    pub star: bool,
    /// One is such an operand in parentheses.
    pub parenthesised: bool,
    pub has_star: bool,
    pub refers: bool,
    /// One uses such an operand as it may not, or is a concatenation with one.
    pub misused: bool,
    pub too_long: bool,
    /// One is such an operand, and in a later one a reference stands.
    pub star_before_reference: bool,
}

/// Whether a number of character units is past the greatest.
#[tactic(auto, unfolding(declaration_rows::specs::SharedStorageRows::most_storage))]
pub(crate) fn is_large(units: u64) -> bool
    ensures { result ≡ nat_lt most_storage units }
{
    MOST_STORAGE < units
}

/// What is no text.
#[tactic(auto, unfolding(crate::specs::LengthsSeen::no_lengths))]
pub(crate) fn no_lengths() -> Lengths
    ensures { result ≡ spec.no_lengths }
{
    Lengths {
        star: false,
        parenthesised: false,
        joined: false,
        has_star: false,
        refers: false,
        misused: false,
        too_long: false,
        longest: 0,
    }
}

/// What has a length.
#[tactic(auto, unfolding(crate::specs::LengthsSeen::text_lengths))]
pub(crate) fn text_lengths(characters: u64) -> Lengths
    ensures { result ≡ spec.text_lengths characters }
{
    Lengths {
        longest: characters,
        ..no_lengths()
    }
}

/// No parts.
#[tactic(auto, unfolding(crate::specs::LengthsSeen::no_parts))]
pub(crate) fn no_parts() -> Parts
    ensures { result ≡ spec.no_parts }
{
    Parts {
        star: false,
        parenthesised: false,
        has_star: false,
        refers: false,
        misused: false,
        too_long: false,
        star_before_reference: false,
    }
}

/// Parts with one more behind them.
#[tactic(auto, unfolding(crate::specs::LengthsSeen::with_part))]
pub(crate) fn with_part(parts: Parts, part: Lengths) -> Parts
    ensures { result ≡ spec.with_part parts part }
{
    Parts {
        star: parts.star || part.star,
        parenthesised: parts.parenthesised || part.parenthesised,
        has_star: parts.has_star || part.has_star,
        refers: parts.refers || part.refers,
        misused: parts.misused || (part.misused || part.joined),
        too_long: parts.too_long || part.too_long,
        star_before_reference: parts.star_before_reference || (parts.star && part.refers),
    }
}

/// An expression over its parts, without a length.
#[tactic(auto, unfolding(crate::specs::LengthsSeen::over, crate::specs::LengthsSeen::no_lengths))]
pub(crate) fn over(parts: Parts) -> Lengths
    ensures { result ≡ spec.over parts }
{
    Lengths {
        has_star: parts.has_star,
        refers: parts.refers,
        misused: parts.misused,
        too_long: parts.too_long,
        ..no_lengths()
    }
}

/// A name that is no constant, or one with a list, over the parts of the list.
#[tactic(auto, unfolding(crate::specs::LengthsSeen::named))]
fn named(name: NameLength, list: Lengths) -> Lengths
    ensures { result ≡ spec.named name list }
{
    Lengths {
        star: name.is_star,
        has_star: list.has_star || name.is_star,
        longest: u64::from(name.characters),
        ..list
    }
}

/// A name alone.
#[tactic(auto, unfolding(crate::specs::LengthsSeen::name_lengths, crate::specs::LengthsSeen::text_lengths))]
pub(crate) fn name_lengths(name: NameLength) -> Lengths
    ensures { result ≡ spec.name_lengths name }
{
    match name.class {
        Class::Constant => text_lengths(u64::from(name.characters)),
        Class::Stored | Class::Dummy | Class::Result | Class::Unit => named(name, no_lengths()),
        Class::Procedure | Class::DummyProcedure => named(name, no_lengths()),
        Class::StatementFunction | Class::Intrinsic => named(name, no_lengths()),
    }
}

/// A reference of an external function: none of its arguments is an operand of length `(*)` in parentheses. Section 15.9.3.
#[tactic(auto, unfolding(crate::specs::LengthsSeen::referred))]
fn referred(name: NameLength, parts: Parts) -> Lengths
    ensures { result ≡ spec.referred name parts }
{
    Lengths {
        refers: true,
        misused: parts.misused || parts.parenthesised,
        ..named(name, over(parts))
    }
}

/// A reference of an intrinsic function: none of its operands of length `(*)` stands before a reference. Section 15.10.
#[tactic(auto, unfolding(crate::specs::LengthsSeen::intrinsic_lengths))]
fn intrinsic_lengths(parts: Parts) -> Lengths
    ensures { result ≡ spec.intrinsic_lengths parts }
{
    Lengths {
        misused: parts.misused || parts.star_before_reference,
        longest: 1,
        ..over(parts)
    }
}

/// A reference of a statement function. Section 15.4.
#[tactic(auto, unfolding(crate::specs::LengthsSeen::defined_lengths))]
fn defined_lengths(name: NameLength, parts: Parts) -> Lengths
    ensures { result ≡ spec.defined_lengths name parts }
{
    Lengths {
        refers: true,
        ..named(name, over(parts))
    }
}

/// A name with a list.
#[tactic(auto, unfolding(crate::specs::LengthsSeen::applied_lengths))]
pub(crate) fn applied_lengths(name: NameLength, parts: Parts) -> Lengths
    ensures { result ≡ spec.applied_lengths name parts }
{
    match name.class {
        Class::Intrinsic => intrinsic_lengths(parts),
        Class::Procedure | Class::DummyProcedure | Class::Result => referred(name, parts),
        Class::StatementFunction => defined_lengths(name, parts),
        Class::Constant | Class::Stored | Class::Dummy | Class::Unit => named(name, over(parts)),
    }
}

/// A substring, by its length where its places are constant, its base, and its parts. Section 5.7.
#[tactic(auto, unfolding(crate::specs::LengthsSeen::part_lengths))]
pub(crate) fn part_lengths(length: Option<u64>, base: Lengths, parts: Parts) -> Lengths
    ensures { result ≡ spec.part_lengths length base parts }
{
    match length {
        Some(characters) => Lengths {
            longest: characters,
            ..over(parts)
        },
        None => Lengths {
            star: base.star,
            has_star: parts.has_star || base.star,
            longest: base.longest,
            ..over(parts)
        },
    }
}

/// A concatenation of so many characters: what its operands join is not misused yet. Section 6.2.
#[tactic(auto, unfolding(crate::specs::LengthsSeen::joined_lengths))]
fn joined_lengths(one: Lengths, other: Lengths, characters: u64, parts: Parts) -> Lengths
    requires { characters ≡ one.longest + other.longest }
    ensures { result ≡ spec.joined_lengths one other parts }
{
    Lengths {
        joined: one.star || (other.star || (one.joined || other.joined)),
        misused: one.misused || other.misused,
        too_long: parts.too_long || is_large(characters),
        longest: characters,
        ..over(parts)
    }
}

/// Whether an operator is one of a relation. Section 6.3.
#[tactic(auto, unfolding(declaration_rows::specs::LengthRows::is_relation))]
fn is_relation(op: BinaryOp) -> bool
    ensures { result ≡ rows.is_relation op }
{
    match op {
        BinaryOp::Less | BinaryOp::LessOrEqual | BinaryOp::Equal => true,
        BinaryOp::NotEqual | BinaryOp::Greater | BinaryOp::GreaterOrEqual => true,
        _ => false,
    }
}

/// An operation other than a concatenation: in a relation no operand of length `(*)` stands before a reference.
#[tactic(auto, unfolding(crate::specs::LengthsSeen::other_operation))]
fn other_operation(op: BinaryOp, parts: Parts) -> Lengths
    ensures { result ≡ spec.other_operation op parts }
{
    Lengths {
        misused: parts.misused || (is_relation(op) && parts.star_before_reference),
        ..over(parts)
    }
}

/// Two operands.
#[tactic(auto, unfolding(crate::specs::LengthsSeen::both_parts))]
fn both_parts(one: Lengths, other: Lengths) -> Parts
    ensures { result ≡ spec.both_parts one other }
{
    with_part(with_part(no_parts(), one), other)
}

/// A concatenation. An error where its length is past 64 bits, for which no memory holds an expression.
fn concatenation(one: Lengths, other: Lengths) -> Result<Lengths, AllocError>
    ensures { IfOk result (λ found. found ≡ spec.joined_lengths one other (spec.both_parts one other)) }
{
    match one.longest.checked_add(other.longest) {
        Some(characters) => Ok(joined_lengths(one, other, characters, both_parts(one, other))),
        None => Err(AllocError),
    }
}

/// Two operands with an operator between them. An error where a length is past 64 bits.
#[tactic(auto, unfolding(crate::specs::LengthsSeen::binary_lengths, declaration_rows::specs::LengthRows::is_joining))]
pub(crate) fn binary_lengths(
    op: BinaryOp,
    one: Lengths,
    other: Lengths,
) -> Result<Lengths, AllocError>
    ensures { IfOk result (λ found. found ≡ spec.binary_lengths op one other) }
{
    match op {
        BinaryOp::Concatenate => concatenation(one, other),
        _ => Ok(other_operation(op, both_parts(one, other))),
    }
}

/// An expression in parentheses, which change nothing for a concatenation.
#[tactic(auto, unfolding(crate::specs::LengthsSeen::paren_lengths))]
pub(crate) fn paren_lengths(operand: Lengths) -> Lengths
    ensures { result ≡ spec.paren_lengths operand }
{
    Lengths {
        star: operand.star,
        parenthesised: operand.star || operand.parenthesised,
        joined: operand.joined,
        misused: operand.misused,
        longest: operand.longest,
        ..over(with_part(no_parts(), operand))
    }
}
