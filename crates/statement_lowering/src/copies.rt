//! Values twice.

ghost use Rattle.std.specs.Prelude.{◌≡◌, IfOk};

use lowered_tree::{Literal, Pure, Text};
use plain_data::{Boxed, Items};
use std::alloc::{AllocError, Global};

/// The same text.
fn copy_text(alloc: Global, text: &Text) -> Result<Text, AllocError>
    ensures { IfOk result (λ copied. copied ≡ text.now) }
{
    Items::from_slice(alloc, text.as_slice())
}

/// The same constant.
fn copy_literal(alloc: Global, literal: &Literal) -> Result<Literal, AllocError>
    ensures { IfOk result (λ copied. copied ≡ literal.now) }
{
    match literal {
        Literal::Integer(number) => Ok(Literal::Integer(*number)),
        Literal::Logical(truth) => Ok(Literal::Logical(*truth)),
        Literal::Text(characters) => Ok(Literal::Text(copy_text(alloc, characters)?)),
        Literal::Label(at) => Ok(Literal::Label(*at)),
        Literal::Nothing => Ok(Literal::Nothing),
    }
}

/// The same values.
#[cycle(copy)]
fn copy_all(alloc: Global, values: &[Pure]) -> Result<Items<Pure>, AllocError>
    ensures { IfOk result (λ copied. copied ≡ values.now) }
{
    let mut copied = Items::new(alloc);
    for value in values {
        copied.push(copy(alloc, value)?)?;
    }
    Ok(copied)
}

/// The same value in a box.
#[cycle(copy)]
fn copy_boxed(alloc: Global, value: &Boxed<Pure>) -> Result<Boxed<Pure>, AllocError>
    ensures { IfOk result (λ copied. copied ≡ value.now) }
{
    let copied = copy(alloc, value.get())?;
    Boxed::new(alloc, copied)
}

/// The same value.
#[cycle(copy)]
pub(crate) fn copy(alloc: Global, value: &Pure) -> Result<Pure, AllocError>
    ensures { IfOk result (λ copied. copied ≡ value.now) }
{
    match value {
        Pure::Constant(literal) => Ok(Pure::Constant(copy_literal(alloc, literal)?)),
        Pure::Temporary(number) => Ok(Pure::Temporary(*number)),
        Pure::Load(place) => Ok(Pure::Load(copy_boxed(alloc, place)?)),
        Pure::Name(name) => Ok(Pure::Name(copy_text(alloc, name)?)),
        Pure::AllOf(name) => Ok(Pure::AllOf(copy_text(alloc, name)?)),
        Pure::ElementOf(name, values) => Ok(Pure::ElementOf(
            copy_text(alloc, name)?,
            copy_all(alloc, values.as_slice())?,
        )),
        Pure::FirstOf(place) => Ok(Pure::FirstOf(copy_boxed(alloc, place)?)),
        Pure::Substring(name, place, from, to) => {
            Ok(Pure::Substring(
                copy_text(alloc, name)?,
                copy_boxed(alloc, place)?,
                copy_boxed(alloc, from)?,
                copy_boxed(alloc, to)?,
            ))
        }
        Pure::Concatenated(values) => Ok(Pure::Concatenated(copy_all(alloc, values.as_slice())?)),
        Pure::Prefixed(op, operand) => Ok(Pure::Prefixed(*op, copy_boxed(alloc, operand)?)),
        Pure::Operated(op, left, right) => Ok(Pure::Operated(
            *op,
            copy_boxed(alloc, left)?,
            copy_boxed(alloc, right)?,
        )),
        Pure::Applied(function, values) => {
            Ok(Pure::Applied(*function, copy_all(alloc, values.as_slice())?))
        }
        Pure::Chosen(condition, one, other) => Ok(Pure::Chosen(
            copy_boxed(alloc, condition)?,
            copy_boxed(alloc, one)?,
            copy_boxed(alloc, other)?,
        )),
    }
}
