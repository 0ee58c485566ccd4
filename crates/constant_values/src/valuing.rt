//! Constant expressions, from their trees. Section 6.7.

ghost use Rattle.std.specs.Prelude.{◌≡◌, ◌∷◌, IfOk, option_map, slice_get, Some, []};
ghost use Rattle.std.specs.Option.{option_copied};
ghost use Rattle.constant_values.specs.KnownConstants as spec;
ghost use Rattle.f_tree.specs.Terms.{TextLength};
ghost use Rattle.f_tree.specs.Values.{IsText};
ghost use Rattle.name_table.specs.Named.{IsNameSet, names_in};
ghost use Rattle.name_facts.specs.GivenFacts.{datum_of};
ghost use Rattle.constant_values.specs.Folded.{folded, given, if_some, all_some, applied_folded, function_folded, asked};
ghost use Rattle.constant_values.specs.KnownConstants.{known_by, function_if, IsValueOf, IsBoundOf};
ghost use Rattle.constant_values.specs.FunctionNames.{function_of};
ghost use Rattle.constant_values.specs.Operands.{data_of, each_folded};

use crate::constants::Constants;
use crate::functions::{IntrinsicFunction, function_named};
use crate::intrinsics::apply;
use crate::operators::{binary, complemented, negated};
use crate::values::{copied_if, text_value};
use f_tree::Expr;
use name_facts::ConstantValue;
use name_table::NameSet;
use plain_data::Items;
use std::alloc::{AllocError, Global};

/// The value of an argument of a statement function, by its place.
fn argument(arguments: &[ConstantValue], place: usize) -> Option<&ConstantValue>
    ensures { option_copied result ≡ slice_get arguments.now place }
{
    arguments.get(place)
}

/// The value of an expression, given the constants of the unit, the names that are intrinsic functions, and the values of the arguments of the
/// statement function around it.
#[cycle(value)]
#[tactic(auto, unfolding(name_facts::specs::GivenFacts::datum_of, crate::specs::KnownConstants::known_by), using(crate::proofs::FoldedForms::folded_forms))]
fn value_in(
    alloc: Global,
    constants: &Constants,
    functions: &NameSet,
    arguments: &[ConstantValue],
    e: &Expr,
) -> Result<Option<ConstantValue>, AllocError>
    requires { IsNameSet functions.now }
    ensures { IfOk result (λ v. option_map datum_of v ≡ folded (known_by constants.now (names_in functions.now)) e.now (data_of arguments.now)) }
{
    match e {
        Expr::Int(number) => Ok(Some(ConstantValue::Integer(*number))),
        Expr::Logical(truth) => Ok(Some(ConstantValue::Logical(*truth))),
        Expr::Text(text) => text_value(alloc, text.as_slice()),
        Expr::Name(name) => copied_if(alloc, constants.value(name.as_slice())),
        Expr::Apply(name, es) => applied(
            alloc,
            constants,
            functions,
            arguments,
            name.as_slice(),
            es.as_slice(),
        ),
        Expr::Part(_, _, _) => Ok(None),
        Expr::Minus(operand) => Ok(negated(value_in(
            alloc,
            constants,
            functions,
            arguments,
            operand.get(),
        )?)),
        Expr::Plus(operand) | Expr::Paren(operand) => {
            value_in(alloc, constants, functions, arguments, operand.get())
        }
        Expr::Not(operand) => Ok(complemented(value_in(
            alloc,
            constants,
            functions,
            arguments,
            operand.get(),
        )?)),
        Expr::Binary(op, left, right) => {
            let one = value_in(alloc, constants, functions, arguments, left.get())?;
            let other = value_in(alloc, constants, functions, arguments, right.get())?;
            binary(alloc, *op, &one, &other)
        }
        Expr::AltReturn(label) => Ok(Some(ConstantValue::Label(*label))),
        Expr::Bind(es, body) => {
            let values = values_in(alloc, constants, functions, arguments, es.as_slice())?;
            value_over(alloc, constants, functions, values, body.get())
        }
        Expr::Bound(place) => copied_if(alloc, argument(arguments, *place)),
    }
}

/// The values of expressions, if each has one.
#[cycle(value)]
fn values_in(
    alloc: Global,
    constants: &Constants,
    functions: &NameSet,
    arguments: &[ConstantValue],
    es: &[Expr],
) -> Result<Option<Items<ConstantValue>>, AllocError>
    requires { IsNameSet functions.now }
    ensures { IfOk result (λ vs. option_map data_of vs ≡ all_some (each_folded (known_by constants.now (names_in functions.now)) es.now (data_of arguments.now))) }
{
    let mut values = Items::new(alloc);
    for e in es {
        match value_in(alloc, constants, functions, arguments, e)? {
            Some(value) => values.push(value)?,
            None => return Ok(None),
        }
    }
    Ok(Some(values))
}

/// The value of an expression over the values of arguments, if each has one.
#[cycle(value)]
#[tactic(auto, unfolding(crate::specs::Folded::if_some))]
fn value_over(
    alloc: Global,
    constants: &Constants,
    functions: &NameSet,
    values: Option<Items<ConstantValue>>,
    body: &Expr,
) -> Result<Option<ConstantValue>, AllocError>
    requires { IsNameSet functions.now }
    ensures { IfOk result (λ v. option_map datum_of v ≡ if_some (option_map data_of values) (folded (known_by constants.now (names_in functions.now)) body.now)) }
{
    match values {
        Some(values) => value_in(alloc, constants, functions, values.as_slice(), body),
        None => Ok(None),
    }
}

/// The length of a text, as a value; none where it is past the largest integer.
#[tactic(auto, unfolding(name_facts::specs::GivenFacts::datum_of), using(crate::proofs::LengthLemmas::length_forms))]
fn text_length(text: &[u8]) -> Option<ConstantValue>
    ensures { option_map datum_of result ≡ function_folded TextLength (Some (IsText text.now) ∷ []) }
{
    if text.len() <= 2147483647 {
        Some(ConstantValue::Integer(text.len() as i32))
    } else {
        None
    }
}

/// The length of an operand, as a value.
#[tactic(auto, unfolding(name_facts::specs::GivenFacts::datum_of), using(crate::proofs::LengthLemmas::length_forms))]
fn length(value: &Option<ConstantValue>) -> Option<ConstantValue>
    ensures { option_map datum_of result ≡ function_folded TextLength (option_map datum_of value.now ∷ []) }
{
    match value {
        Some(ConstantValue::Text(text)) => text_length(text.as_slice()),
        Some(ConstantValue::Integer(_)) => None,
        Some(ConstantValue::Logical(_)) => None,
        Some(ConstantValue::Label(_)) => None,
        None => None,
    }
}

/// LEN with its list, which has one operand. Section 15.10.
#[cycle(value)]
#[tactic(auto, unfolding(crate::specs::Operands::each_folded, crate::specs::Folded::asked), using(crate::proofs::LengthLemmas::length_forms))]
fn length_of(
    alloc: Global,
    constants: &Constants,
    functions: &NameSet,
    arguments: &[ConstantValue],
    es: &[Expr],
) -> Result<Option<ConstantValue>, AllocError>
    requires { IsNameSet functions.now }
    ensures { IfOk result (λ v. option_map datum_of v ≡ function_folded TextLength (asked TextLength (each_folded (known_by constants.now (names_in functions.now)) es.now (data_of arguments.now)))) }
{
    match es {
        [] => Ok(None),
        [e] => Ok(length(&value_in(alloc, constants, functions, arguments, e)?)),
        [_, _, ..] => Ok(None),
    }
}

/// An intrinsic function with its list.
#[cycle(value)]
#[tactic(auto, using(crate::proofs::LengthLemmas::function_forms))]
fn intrinsic(
    alloc: Global,
    constants: &Constants,
    functions: &NameSet,
    arguments: &[ConstantValue],
    function: IntrinsicFunction,
    es: &[Expr],
) -> Result<Option<ConstantValue>, AllocError>
    requires { IsNameSet functions.now }
    ensures { IfOk result (λ v. option_map datum_of v ≡ applied_folded (Some (function_of function)) (each_folded (known_by constants.now (names_in functions.now)) es.now (data_of arguments.now))) }
{
    if function.is_length() {
        return length_of(alloc, constants, functions, arguments, es);
    }
    match values_in(alloc, constants, functions, arguments, es)? {
        Some(values) => apply(alloc, function, values.as_slice()),
        None => Ok(None),
    }
}

/// A name with a list, which has a value where it is an intrinsic function.
#[cycle(value)]
#[tactic(auto, unfolding(crate::specs::KnownConstants::function_if, crate::specs::Folded::applied_folded))]
fn applied(
    alloc: Global,
    constants: &Constants,
    functions: &NameSet,
    arguments: &[ConstantValue],
    name: &[u8],
    es: &[Expr],
) -> Result<Option<ConstantValue>, AllocError>
    requires { IsNameSet functions.now }
    ensures { IfOk result (λ v. option_map datum_of v ≡ applied_folded (function_if name.now (names_in functions.now)) (each_folded (known_by constants.now (names_in functions.now)) es.now (data_of arguments.now))) }
{
    if !functions.has(name) {
        return Ok(None);
    }
    match function_named(name) {
        Some(function) => intrinsic(alloc, constants, functions, arguments, function, es),
        None => Ok(None),
    }
}

/// The value of a constant expression, given the constants of the statements before it; none where it has no value: one of its names is no
/// constant, or its operands are of the wrong types, or a value does not fit. An error where memory ran out. Section 6.7.
pub fn constant_value(
    alloc: Global,
    constants: &Constants,
    e: &Expr,
) -> Result<Option<ConstantValue>, AllocError>
    ensures { IfOk result (λ v. IsValueOf constants.now e.now v) }
{
    let functions = NameSet::new(alloc);
    value_in(alloc, constants, &functions, &[], e)
}

/// The integer that a value is.
#[tactic(auto, unfolding(name_facts::specs::GivenFacts::datum_of, crate::specs::KnownConstants::integer_of))]
fn integer_of(value: Option<ConstantValue>) -> Option<i32>
    ensures { result ≡ spec.integer_of (option_map datum_of value) }
{
    match value {
        Some(ConstantValue::Integer(number)) => Some(number),
        Some(ConstantValue::Logical(_)) => None,
        Some(ConstantValue::Text(_)) => None,
        Some(ConstantValue::Label(_)) => None,
        None => None,
    }
}

/// The value of an expression of a dimension, given the constants of the unit and the names that are intrinsic functions; none where it is no
/// constant integer. An error where memory ran out, or where a text has more characters than the largest integer says. Section 5.1.1.1.
pub fn bound_value(
    alloc: Global,
    constants: &Constants,
    functions: &NameSet,
    e: &Expr,
) -> Result<Option<i32>, AllocError>
    requires { IsNameSet functions.now }
    ensures { IfOk result (λ v. IsBoundOf constants.now (names_in functions.now) e.now v) }
{
    let value = value_in(alloc, constants, functions, &[], e)?;
    Ok(integer_of(value))
}
