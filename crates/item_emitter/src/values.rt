//! Values and places of numbers. ANSI X3.9-1978, sections 5.4, 6 and 15.10; C89, 3.3.

ghost use Rattle.std.specs.Prelude.{◌≡◌, ◌<◌, ◌^◌, Some, option_map, IfOk};
ghost use Rattle.c_tree.specs.declared.expression.CExpr.TheVariants as expr;
ghost use Rattle.c_structure.specs.Expressions.{with_two, with_three};
ghost use Rattle.c_emit.specs.c_image.Operations.{prefix_for, operator_for};
ghost use Rattle.lowered_tree.specs.Shapes.{datum_of, prefix_of, operator_of, pure_of, pures_of};
ghost use Rattle.item_emitter.specs.Knowing.{known_of};
ghost use Rattle.item_emission.specs.NamedEmission as spec;

use crate::arithmetic::{between, constant, prefixed};
use crate::elements::{element, number_object};
use crate::functions::applied;
use crate::known::Known;
use c_names::temporary_name;
use c_tree::expression::{BinaryOp, CExpr, UnaryOp};
use lowered_tree::{Literal, Operator, Prefix, Pure};
use plain_data::Boxed;
use std::alloc::{AllocError, Global};

/// A value that is written: `.TRUE.` is 1 and `.FALSE.` is 0.
#[tactic(auto, unfolding(item_emission::specs::NamedEmission::datum_expr))]
fn literal(alloc: Global, value: &Literal) -> Result<Option<CExpr>, AllocError>
    ensures { IfOk result (λ e. e ≡ spec.datum_expr (datum_of value.now)) }
{
    match value {
        Literal::Integer(number) => Ok(Some(constant(alloc, *number)?)),
        Literal::Logical(true) => Ok(Some(CExpr::Number(1))),
        Literal::Logical(false) => Ok(Some(CExpr::Number(0))),
        Literal::Text(_) | Literal::Label(_) | Literal::Nothing => Ok(None),
    }
}

/// A temporary as a name, by its number from 0.
#[tactic(auto, unfolding(item_emission::specs::NamedEmission::temporary_object))]
fn temporary_object(alloc: Global, number: usize) -> Result<CExpr, AllocError>
    requires { number < usize.MAX }
    ensures { IfOk result (λ e. e ≡ spec.temporary_object number) }
{
    Ok(CExpr::Name(temporary_name(alloc, number + 1)?))
}

/// A temporary that holds a number.
#[tactic(auto, unfolding(item_emission::specs::NamedEmission::temporary_expr, item_emission::specs::NamedEmission::expr_if))]
pub(crate) fn temporary(
    alloc: Global,
    known: &Known,
    number: usize,
) -> Result<Option<CExpr>, AllocError>
    ensures { IfOk result (λ e. e ≡ spec.temporary_expr (known_of known.now) number) }
{
    if number < known.temporaries {
        Ok(Some(temporary_object(alloc, number)?))
    } else {
        Ok(None)
    }
}

/// The operator before its operand.
fn sign_of(operator: Prefix) -> UnaryOp
    ensures { result ≡ prefix_for (prefix_of operator) }
{
    match operator {
        Prefix::Negate => UnaryOp::Minus,
        Prefix::Complement => UnaryOp::Not,
    }
}

/// The operator between its operands.
fn binary_of(operator: Operator) -> BinaryOp
    ensures { result ≡ operator_for (operator_of operator) }
{
    match operator {
        Operator::Add => BinaryOp::Add,
        Operator::Subtract => BinaryOp::Subtract,
        Operator::Multiply => BinaryOp::Multiply,
        Operator::Divide => BinaryOp::Divide,
        Operator::IsLess => BinaryOp::Less,
        Operator::IsLessOrEqual => BinaryOp::LessOrEqual,
        Operator::IsEqual | Operator::Same => BinaryOp::Equal,
        Operator::IsNotEqual | Operator::Different => BinaryOp::Unequal,
        Operator::IsGreater => BinaryOp::Greater,
        Operator::IsGreaterOrEqual => BinaryOp::GreaterOrEqual,
        Operator::Both => BinaryOp::And,
        Operator::Either => BinaryOp::Or,
    }
}

/// An operator and its operand, where that has an expression.
fn signed(
    alloc: Global,
    operator: Prefix,
    operand: Option<CExpr>,
) -> Result<Option<CExpr>, AllocError>
    ensures { IfOk result (λ e. e ≡ option_map (expr.Unary (prefix_for (prefix_of operator))) operand) }
{
    match operand {
        Some(operand) => Ok(Some(prefixed(alloc, sign_of(operator), operand)?)),
        None => Ok(None),
    }
}

/// An operator between two operands, where they have expressions.
#[tactic(auto, unfolding(c_structure::specs::Expressions::with_two))]
fn operated(
    alloc: Global,
    operator: Operator,
    left: Option<CExpr>,
    right: Option<CExpr>,
) -> Result<Option<CExpr>, AllocError>
    ensures { IfOk result (λ e. e ≡ with_two (expr.Binary (operator_for (operator_of operator))) left right) }
{
    match (left, right) {
        (Some(left), Some(right)) => { Ok(Some(between(alloc, binary_of(operator), left, right)?)) }
        (Some(_), None) => Ok(None),
        (None, _) => Ok(None),
    }
}

/// A choice.
fn choice(alloc: Global, test: CExpr, one: CExpr, other: CExpr) -> Result<CExpr, AllocError>
    ensures { IfOk result (λ e. e ≡ expr.Choose test one other) }
{
    Ok(CExpr::Choose(
        Boxed::new(alloc, test)?,
        Boxed::new(alloc, one)?,
        Boxed::new(alloc, other)?,
    ))
}

/// A choice, where its parts have expressions.
#[tactic(auto, unfolding(c_structure::specs::Expressions::with_three))]
fn chosen(
    alloc: Global,
    test: Option<CExpr>,
    one: Option<CExpr>,
    other: Option<CExpr>,
) -> Result<Option<CExpr>, AllocError>
    ensures { IfOk result (λ e. e ≡ with_three expr.Choose test one other) }
{
    match (test, one, other) {
        (Some(test), Some(one), Some(other)) => Ok(Some(choice(alloc, test, one, other)?)),
        (Some(_), Some(_), None) => Ok(None),
        (Some(_), None, _) => Ok(None),
        (None, _, _) => Ok(None),
    }
}

/// A variable of one number.
#[tactic(auto, unfolding(item_emission::specs::NamedEmission::expr_if))]
pub(crate) fn scalar(alloc: Global, known: &Known, name: &[u8]) -> Result<Option<CExpr>, AllocError>
    ensures { IfOk result (λ e. e ≡ spec.expr_if ((known_of known.now).is_scalar name.now) (Some (spec.scalar_expr ((known_of known.now).standing name.now) name.now))) }
{
    if known.is_scalar(name) {
        Ok(Some(number_object(alloc, known.standing(name), name)?))
    } else {
        Ok(None)
    }
}

/// An element of an array of numbers, by the expressions of its subscripts.
#[tactic(auto, unfolding(item_emission::specs::NamedEmission::expr_if))]
fn array_element(
    alloc: Global,
    known: &Known,
    name: &[u8],
    subscripts: Option<Vec<CExpr>>,
) -> Result<Option<CExpr>, AllocError>
    ensures { IfOk result (λ e. e ≡ spec.expr_if ((known_of known.now).is_array name.now) (spec.element_expr name.now ((known_of known.now).dimension name.now) (option_map (λ es. es.items) subscripts))) }
{
    if known.is_array(name) {
        element(alloc, name, known.dimensions(name), subscripts)
    } else {
        Ok(None)
    }
}

/// The value of a number or a truth value.
#[cycle(value)]
#[tactic(auto, using(crate::proofs::ValueForms::value_forms))]
pub fn value(alloc: Global, known: &Known, source: &Pure) -> Result<Option<CExpr>, AllocError>
    ensures { IfOk result (λ e. e ≡ spec.value_expr (known_of known.now) (pure_of source.now)) }
{
    match source {
        Pure::Constant(written) => literal(alloc, written),
        Pure::Temporary(number) => temporary(alloc, known, *number),
        Pure::Load(source) => place(alloc, known, source.get()),
        Pure::Prefixed(operator, operand) => {
            let operand = value(alloc, known, operand.get())?;
            signed(alloc, *operator, operand)
        }
        Pure::Operated(operator, left, right) => {
            let left = value(alloc, known, left.get())?;
            let right = value(alloc, known, right.get())?;
            operated(alloc, *operator, left, right)
        }
        Pure::Applied(function, operands) => {
            let operands = values(alloc, known, operands.as_slice())?;
            applied(alloc, *function, operands)
        }
        Pure::Chosen(test, one, other) => {
            let test = value(alloc, known, test.get())?;
            let one = value(alloc, known, one.get())?;
            let other = value(alloc, known, other.get())?;
            chosen(alloc, test, one, other)
        }
        Pure::Name(_) => Ok(None),
        Pure::AllOf(_) => Ok(None),
        Pure::ElementOf(_, _) => Ok(None),
        Pure::FirstOf(_) => Ok(None),
        Pure::Substring(_, _, _, _) => Ok(None),
        Pure::Concatenated(_) => Ok(None),
    }
}

/// The place of a number or a truth value.
#[cycle(value)]
#[tactic(auto, using(crate::proofs::ValueForms::place_forms))]
pub(crate) fn place(
    alloc: Global,
    known: &Known,
    source: &Pure,
) -> Result<Option<CExpr>, AllocError>
    ensures { IfOk result (λ e. e ≡ spec.place_expr (known_of known.now) (pure_of source.now)) }
{
    match source {
        Pure::Name(name) => scalar(alloc, known, name.as_slice()),
        Pure::ElementOf(name, subscripts) => {
            let subscripts = values(alloc, known, subscripts.as_slice())?;
            array_element(alloc, known, name.as_slice(), subscripts)
        }
        Pure::Constant(_) => Ok(None),
        Pure::Temporary(_) => Ok(None),
        Pure::Load(_) => Ok(None),
        Pure::AllOf(_) => Ok(None),
        Pure::FirstOf(_) => Ok(None),
        Pure::Substring(_, _, _, _) => Ok(None),
        Pure::Concatenated(_) => Ok(None),
        Pure::Prefixed(_, _) => Ok(None),
        Pure::Operated(_, _, _) => Ok(None),
        Pure::Applied(_, _) => Ok(None),
        Pure::Chosen(_, _, _) => Ok(None),
    }
}

/// Values one after the other, where all have expressions.
#[cycle(value)]
fn values(alloc: Global, known: &Known, sources: &[Pure]) -> Result<Option<Vec<CExpr>>, AllocError>
    ensures { IfOk result (λ es. option_map (λ es. es.items) es ≡ spec.value_exprs (known_of known.now) (pures_of sources.now)) }
{
    let mut exprs = Vec::new(alloc);
    for source in sources {
        match value(alloc, known, source)? {
            Some(e) => exprs.push(e)?,
            None => return Ok(None),
        }
    }
    Ok(Some(exprs))
}
