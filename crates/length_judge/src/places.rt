//! The lengths of substrings whose two places are constant. Section 5.7.
#![tactic(auto)]

ghost use Rattle.std.specs.Prelude.{◌≡◌, ◌-ℤ◌, suc, IfOk, nat_abs, option_map, pos, Some};
ghost use Rattle.declaration_rows.specs.LengthRows as rows;
ghost use Rattle.f_tree.specs.Attributes.{constant_value};
ghost use Rattle.name_facts.specs.GivenFacts.{datum_of};
ghost use Rattle.length_judge.specs.KnownNames.{AreKnown, constants_in};

use crate::lengths::Lengths;
use crate::names::Names;
use constant_values::constant_value;
use f_tree::Expr;
use name_facts::ConstantValue;
use plain_data::Boxed;
use std::alloc::{AllocError, Global};

/// The integer that a value is.
#[tactic(auto, unfolding(name_facts::specs::GivenFacts::datum_of, declaration_rows::specs::LengthRows::integer_at))]
fn integer_at(value: Option<ConstantValue>) -> Option<i64>
    ensures { result ≡ rows.integer_at (option_map datum_of value) }
{
    match value {
        Some(ConstantValue::Integer(number)) => Some(i64::from(number)),
        Some(ConstantValue::Logical(_)) => None,
        Some(ConstantValue::Text(_)) => None,
        Some(ConstantValue::Label(_)) => None,
        None => None,
    }
}

/// A place, where it is constant.
fn place_value(alloc: Global, names: &Names, e: &Expr) -> Result<Option<i64>, AllocError>
    requires { AreKnown names.now }
    ensures { IfOk result (λ place. place ≡ rows.integer_at (constant_value (constants_in names.now) e.now)) }
{
    Ok(integer_at(constant_value(alloc, names.constants, e)?))
}

/// The first place, which is 1 where it is left out.
#[tactic(auto, unfolding(declaration_rows::specs::LengthRows::place_value))]
fn first_place(
    alloc: Global,
    names: &Names,
    from: &Option<Boxed<Expr>>,
) -> Result<Option<i64>, AllocError>
    requires { AreKnown names.now }
    ensures { IfOk result (λ place. place ≡ rows.place_value (constants_in names.now) from.now (Some (pos 1))) }
{
    match from {
        Some(e) => place_value(alloc, names, e.get()),
        None => Ok(Some(1)),
    }
}

/// The last place of a whole text. An error where it is past 63 bits, for which no memory holds an expression.
fn text_end(characters: u64) -> Result<i64, AllocError>
    ensures { IfOk result (λ place. place ≡ pos characters) }
{
    if characters <= 9_223_372_036_854_775_807 {
        Ok(characters as i64)
    } else {
        Err(AllocError)
    }
}

/// The last place where it is left out: that of its base, if it has a constant length.
#[tactic(auto, unfolding(declaration_rows::specs::LengthRows::last_by))]
fn base_end(base: Lengths) -> Result<Option<i64>, AllocError>
    ensures { IfOk result (λ place. place ≡ rows.last_by base.star base.longest) }
{
    if base.star {
        Ok(None)
    } else {
        Ok(Some(text_end(base.longest)?))
    }
}

/// The last place.
#[tactic(auto, unfolding(declaration_rows::specs::LengthRows::place_value))]
fn last_place(
    alloc: Global,
    names: &Names,
    base: Lengths,
    to: &Option<Boxed<Expr>>,
) -> Result<Option<i64>, AllocError>
    requires { AreKnown names.now }
    ensures { IfOk result (λ place. place ≡ rows.place_value (constants_in names.now) to.now (rows.last_by base.star base.longest)) }
{
    match to {
        Some(e) => place_value(alloc, names, e.get()),
        None => base_end(base),
    }
}

/// The characters from one place to another one that is not before it. An error where they are past 64 bits.
fn characters_between(first: i64, last: i64) -> Result<u64, AllocError>
    ensures { IfOk result (λ characters. characters ≡ suc (nat_abs (last -ℤ first))) }
{
    match last.abs_diff(first).checked_add(1) {
        Some(characters) => Ok(characters),
        None => Err(AllocError),
    }
}

/// The characters from one place to another, none where that is before it.
fn characters_from(first: i64, last: i64) -> Result<u64, AllocError>
    ensures { IfOk result (λ characters. Some characters ≡ rows.span (Some first) (Some last)) }
{
    if last < first {
        Ok(0)
    } else {
        characters_between(first, last)
    }
}

/// The characters between two places, where both are constant.
#[tactic(auto, unfolding(declaration_rows::specs::LengthRows::span))]
fn span(first: Option<i64>, last: Option<i64>) -> Result<Option<u64>, AllocError>
    ensures { IfOk result (λ length. length ≡ rows.span first last) }
{
    match (first, last) {
        (Some(first), Some(last)) => Ok(Some(characters_from(first, last)?)),
        (None, _) | (_, None) => Ok(None),
    }
}

/// The length of a substring whose two places are constant. An error where memory ran out, or where the length is past 64 bits.
pub(crate) fn part_length(
    alloc: Global,
    names: &Names,
    base: Lengths,
    from: &Option<Boxed<Expr>>,
    to: &Option<Boxed<Expr>>,
) -> Result<Option<u64>, AllocError>
    requires { AreKnown names.now }
    ensures { IfOk result (λ length. length
        ≡ rows.span (rows.place_value (constants_in names.now) from.now (Some (pos 1))) (rows.place_value (constants_in names.now) to.now (rows.last_by base.star base.longest))) }
{
    let first = first_place(alloc, names, from)?;
    let last = last_place(alloc, names, base, to)?;
    span(first, last)
}
