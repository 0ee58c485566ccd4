//! What statements ask of expressions (C89, 3.3 and 3.6).

ghost use Rattle.std.specs.Prelude.{◌≡◌, IfOk};
ghost use Rattle.c_tree.specs.Faults.{after};
ghost use Rattle.c_tree.specs.Values as values;
ghost use Rattle.run_bytes.specs.Accesses.{typed_of};
ghost use Rattle.run_bytes.specs.Answers.{answered};
ghost use Rattle.linked_terms.specs.LinkedTerms.{term_of, terms_of, place_of};

use crate::direct::number_in;
use crate::numbers::{as_number, condition, number};
use crate::pointers::element;
use crate::terms::{place, typed};
use c_tree::outcome::{CFault, CValue};
use linked_terms::{LinkedPlace, LinkedTerm};
use run_bytes::{RunBytes, TypedValue};
use std::alloc::{AllocError, Global};

/// The value of an expression.
///
/// # Errors
/// The first fault in order of operands (C89, 3.3).
pub fn value_of(run: &RunBytes, term: &LinkedTerm) -> Result<CValue, CFault>
    ensures { answered (λ value. value) result ≡ values.value_of run.now (term_of term.now) }
{
    if let Some(number) = number_in(run, term) {
        return Ok(CValue::Number(number));
    }
    match typed(run, term) {
        Ok(typed) => Ok(typed.value),
        Err(fault) => Err(fault),
    }
}

/// The value of an expression with the type of accesses through it, by the short way where that finds a number.
fn valued(run: &RunBytes, term: &LinkedTerm) -> Result<TypedValue, CFault>
    ensures { answered typed_of result ≡ (values.seen run.now (term_of term.now)).value }
{
    match number_in(run, term) {
        Some(found) => Ok(number(found)),
        None => typed(run, term),
    }
}

/// The place of an element of an array (C89, 3.3.2.1).
fn element_named(
    run: &RunBytes,
    array: &LinkedTerm,
    index: &LinkedTerm,
) -> Result<LinkedPlace, CFault>
    ensures { answered place_of result ≡ after (values.seen run.now (term_of array.now)).value (λ start. after (values.seen run.now (term_of index.now)).value (λ count. values.element run.now start count)) }
{
    let start = typed(run, array)?;
    element(run, start, valued(run, index)?)
}

/// The place that is stored at (C89, 3.3.16).
///
/// # Errors
/// The first fault in order of operands, and `Kind` for an expression that names no place.
#[tactic(auto, using(crate::proofs::TermForms::term_forms))]
pub fn place_named(run: &RunBytes, term: &LinkedTerm) -> Result<LinkedPlace, CFault>
    ensures { answered place_of result ≡ values.place_named run.now (term_of term.now) }
{
    match term {
        LinkedTerm::Element(array, index) => element_named(run, array.get(), index.get()),
        _ => place(run, term),
    }
}

/// Whether a condition holds (C89, 3.6.4.1).
///
/// # Errors
/// The first fault in order of operands, and `Kind` for a pointer or a function.
pub fn test_of(run: &RunBytes, term: &LinkedTerm) -> Result<bool, CFault>
    ensures { answered (λ holds. holds) result ≡ values.test_of run.now (term_of term.now) }
{
    if let Some(number) = number_in(run, term) {
        return Ok(number != 0);
    }
    match typed(run, term) {
        Ok(typed) => condition(typed),
        Err(fault) => Err(fault),
    }
}

/// The number that a `switch` chooses by (C89, 3.6.4.2).
///
/// # Errors
/// The first fault in order of operands, and `Kind` for a pointer or a function.
pub fn number_of(run: &RunBytes, term: &LinkedTerm) -> Result<i32, CFault>
    ensures { answered (λ number. number) result ≡ values.number_of run.now (term_of term.now) }
{
    if let Some(number) = number_in(run, term) {
        return Ok(number);
    }
    match typed(run, term) {
        Ok(typed) => as_number(typed.value),
        Err(fault) => Err(fault),
    }
}

/// The values of expressions from the left, or the first fault; an error where memory ran out.
#[tactic(auto, using(crate::proofs::ValueLists::list_laws))]
pub fn values_of(
    alloc: Global,
    run: &RunBytes,
    terms: &[LinkedTerm],
) -> Result<Result<Vec<CValue>, CFault>, AllocError>
    ensures { IfOk result (λ found. answered (λ found. found.items) found ≡ values.values_of run.now (terms_of terms.now)) }
{
    let mut found = Vec::with_capacity(alloc, terms.len())?;
    for term in terms {
        match value_of(run, term) {
            Ok(value) => found.push(value)?,
            Err(fault) => return Ok(Err(fault)),
        }
    }
    Ok(Ok(found))
}
