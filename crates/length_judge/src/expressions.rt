//! What expressions say of lengths. Sections 5.7, 6.2, 6.3, 15.9.3 and 15.10.
#![tactic(auto)]

ghost use Rattle.std.specs.Prelude.{◌≡◌, IfOk, map, option_map};
ghost use Rattle.length_judge.specs.KnownNames.{AreKnown, length_of, naming_in};
ghost use Rattle.length_judge.specs.LengthsSeen as spec;

use crate::lengths::{
    Lengths, Parts, applied_lengths, binary_lengths, name_lengths, no_lengths, no_parts, over,
    paren_lengths, part_lengths, text_lengths, with_part,
};
use crate::names::{Names, name_length};
use crate::places::part_length;
use f_tree::Expr;
use plain_data::Boxed;
use std::alloc::{AllocError, Global};

/// What an expression says of lengths. An error where memory ran out, or where a length is past 64 bits, for which no memory holds an expression.
#[cycle(lengths)]
#[tactic(auto, using(crate::proofs::LengthForms::length_forms), unfolding(crate::specs::LengthsSeen::substring))]
pub(crate) fn lengths(alloc: Global, names: &Names, e: &Expr) -> Result<Lengths, AllocError>
    requires { AreKnown names.now }
    ensures { IfOk result (λ found. found ≡ spec.lengths_in names.now e.now) }
{
    match e {
        Expr::Int(_) | Expr::Logical(_) | Expr::AltReturn(_) | Expr::Bound(_) => Ok(no_lengths()),
        Expr::Text(text) => Ok(text_lengths(text.len() as u64)),
        Expr::Name(name) => Ok(name_lengths(name_length(names, name.as_slice()))),
        Expr::Apply(name, es) => applied(alloc, names, name.as_slice(), es.as_slice()),
        Expr::Part(base, from, to) => {
            let whole = lengths(alloc, names, base.get())?;
            let behind = with_place(alloc, names, with_part(no_parts(), whole), from)?;
            let parts = with_place(alloc, names, behind, to)?;
            let length = part_length(alloc, names, whole, from, to)?;
            Ok(part_lengths(length, whole, parts))
        }
        Expr::Minus(operand) | Expr::Plus(operand) => prefixed(alloc, names, operand.get()),
        Expr::Not(operand) => prefixed(alloc, names, operand.get()),
        Expr::Paren(operand) => Ok(paren_lengths(lengths(alloc, names, operand.get())?)),
        Expr::Binary(op, left, right) => {
            let one = lengths(alloc, names, left.get())?;
            let other = lengths(alloc, names, right.get())?;
            binary_lengths(*op, one, other)
        }
        Expr::Bind(es, body) => {
            let parts = list_parts(alloc, names, es.as_slice())?;
            Ok(over(with_part(parts, lengths(alloc, names, body.get())?)))
        }
    }
}

/// An operand behind an operator that gives no text.
#[cycle(lengths)]
fn prefixed(alloc: Global, names: &Names, operand: &Expr) -> Result<Lengths, AllocError>
    requires { AreKnown names.now }
    ensures { IfOk result (λ found. found ≡ spec.over (spec.with_part spec.no_parts (spec.lengths_in names.now operand.now))) }
{
    let found = lengths(alloc, names, operand)?;
    Ok(over(with_part(no_parts(), found)))
}

/// A name with a list.
#[cycle(lengths)]
fn applied(alloc: Global, names: &Names, name: &[u8], es: &[Expr]) -> Result<Lengths, AllocError>
    requires { AreKnown names.now }
    ensures { IfOk result (λ found. found
        ≡ spec.applied_lengths (length_of (naming_in names.now name.now)) (spec.onward spec.no_parts (map (spec.lengths_in names.now) es.now))) }
{
    let parts = list_parts(alloc, names, es)?;
    Ok(applied_lengths(name_length(names, name), parts))
}

/// Parts with the first or the last place of a substring behind them.
#[cycle(lengths)]
#[tactic(auto, unfolding(crate::specs::LengthsSeen::with_option))]
fn with_place(
    alloc: Global,
    names: &Names,
    parts: Parts,
    place: &Option<Boxed<Expr>>,
) -> Result<Parts, AllocError>
    requires { AreKnown names.now }
    ensures { IfOk result (λ found. found ≡ spec.with_option parts (option_map (spec.lengths_in names.now) place.now)) }
{
    match place {
        Some(e) => Ok(with_part(parts, lengths(alloc, names, e.get())?)),
        None => Ok(parts),
    }
}

/// Expressions as parts.
#[cycle(lengths)]
pub(crate) fn list_parts(alloc: Global, names: &Names, es: &[Expr]) -> Result<Parts, AllocError>
    requires { AreKnown names.now }
    ensures { IfOk result (λ found. found ≡ spec.onward spec.no_parts (map (spec.lengths_in names.now) es.now)) }
{
    let mut parts = no_parts();
    for e in es {
        parts = with_part(parts, lengths(alloc, names, e)?);
    }
    Ok(parts)
}
