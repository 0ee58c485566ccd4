//! Expressions, made of their parts.

ghost use Rattle.std.specs.Prelude.{◌≡◌, ◌≤◌, pos, IfOk};
ghost use Rattle.c_tree.specs.declared.expression.CExpr.TheVariants as expr;
ghost use Rattle.c_readers.specs.ExpressionReader.{operand_of};
ghost use Rattle.c_expression_reader.specs.Leads.{seen_operand};

use crate::leads::Operand;
use c_tree::expression::{BinaryOp, CExpr, Extreme, Text, UnaryOp};
use c_tree::types::CastType;
use plain_data::{Boxed, Items};
use std::alloc::{AllocError, Global};

/// A copy of a text.
pub(crate) fn copied(alloc: Global, text: &[u8]) -> Result<Text, AllocError>
    ensures { IfOk result (λ made. made ≡ text.now) }
{
    Items::from_slice(alloc, text)
}

/// What stands alone, as an operand.
pub(crate) fn alone(tree: CExpr) -> Operand
    ensures { seen_operand result ≡ operand_of 9 tree }
{
    Operand { level: 9, tree }
}

/// A number.
pub(crate) fn number(value: u32) -> Operand
    requires { value ≤ 2147483647 }
    ensures { seen_operand result ≡ operand_of 9 (expr.Number (pos value)) }
{
    alone(CExpr::Number(value as i32))
}

/// A string.
pub(crate) fn string(alloc: Global, bytes: &[u8]) -> Result<Operand, AllocError>
    ensures { IfOk result (λ made. seen_operand made ≡ operand_of 9 (expr.Str bytes.now)) }
{
    Ok(alone(CExpr::Str(copied(alloc, bytes)?)))
}

/// A name.
pub(crate) fn name(alloc: Global, text: &[u8]) -> Result<Operand, AllocError>
    ensures { IfOk result (λ made. seen_operand made ≡ operand_of 9 (expr.Name text.now)) }
{
    Ok(alone(CExpr::Name(copied(alloc, text)?)))
}

/// The greater or the less of two values.
pub(crate) fn extreme(
    alloc: Global,
    which: Extreme,
    first: CExpr,
    second: CExpr,
) -> Result<Operand, AllocError>
    ensures { IfOk result (λ made. seen_operand made ≡ operand_of 9 (expr.MaxMin which first second)) }
{
    let first = Boxed::new(alloc, first)?;
    let second = Boxed::new(alloc, second)?;
    Ok(alone(CExpr::MaxMin(which, first, second)))
}

/// The magnitude of a value.
pub(crate) fn magnitude(alloc: Global, value: CExpr) -> Result<Operand, AllocError>
    ensures { IfOk result (λ made. seen_operand made ≡ operand_of 9 (expr.Abs value)) }
{
    Ok(alone(CExpr::Abs(Boxed::new(alloc, value)?)))
}

/// An operator and its operand.
pub(crate) fn unary(alloc: Global, op: UnaryOp, value: CExpr) -> Result<Operand, AllocError>
    ensures { IfOk result (λ made. seen_operand made ≡ operand_of 7 (expr.Unary op value)) }
{
    let tree = CExpr::Unary(op, Boxed::new(alloc, value)?);
    Ok(Operand { level: 7, tree })
}

/// A cast and its operand.
pub(crate) fn cast(alloc: Global, of: CastType, value: CExpr) -> Result<Operand, AllocError>
    ensures { IfOk result (λ made. seen_operand made ≡ operand_of 7 (expr.Cast of value)) }
{
    let tree = CExpr::Cast(of, Boxed::new(alloc, value)?);
    Ok(Operand { level: 7, tree })
}

/// Two operands with an operator between them.
pub(crate) fn binary(
    alloc: Global,
    op: BinaryOp,
    first: CExpr,
    second: CExpr,
) -> Result<CExpr, AllocError>
    ensures { IfOk result (λ made. made ≡ expr.Binary op first second) }
{
    let first = Boxed::new(alloc, first)?;
    let second = Boxed::new(alloc, second)?;
    Ok(CExpr::Binary(op, first, second))
}

/// An element.
pub(crate) fn element(alloc: Global, base: CExpr, at: CExpr) -> Result<CExpr, AllocError>
    ensures { IfOk result (λ made. made ≡ expr.Index base at) }
{
    let base = Boxed::new(alloc, base)?;
    let at = Boxed::new(alloc, at)?;
    Ok(CExpr::Index(base, at))
}

/// A field.
pub(crate) fn field(alloc: Global, base: CExpr, name: &[u8]) -> Result<CExpr, AllocError>
    ensures { IfOk result (λ made. made ≡ expr.Field base name.now) }
{
    let base = Boxed::new(alloc, base)?;
    Ok(CExpr::Field(base, copied(alloc, name)?))
}

/// A choice.
pub(crate) fn choice(
    alloc: Global,
    test: CExpr,
    first: CExpr,
    second: CExpr,
) -> Result<CExpr, AllocError>
    ensures { IfOk result (λ made. made ≡ expr.Choose test first second) }
{
    let test = Boxed::new(alloc, test)?;
    let first = Boxed::new(alloc, first)?;
    let second = Boxed::new(alloc, second)?;
    Ok(CExpr::Choose(test, first, second))
}
