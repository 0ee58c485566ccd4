//! The value of an expression, and the place that it names (C89, 3.3).

ghost use Rattle.std.specs.Prelude.{◌≡◌, Ok, false};
ghost use Rattle.c_tree.specs.Faults.{after};
ghost use Rattle.c_tree.specs.Values as values;
ghost use Rattle.c_tree.specs.Objects as objects;
ghost use Rattle.run_bytes.specs.Accesses.{typed_of};
ghost use Rattle.run_bytes.specs.Answers.{answered};
ghost use Rattle.linked_terms.specs.LinkedTerms.{term_of, place_of};

use crate::numbers::{condition, most_of, number, plain, truth};
use crate::operators::{absolute, cast, complement, minus, operation};
use crate::pointers::{element, field, place_at, pointer_to};
use c_tree::expression::{BinaryOp, UnaryOp};
use c_tree::outcome::{CFault, CValue};
use linked_terms::{LinkedPlace, LinkedTerm};
use run_bytes::{RunBytes, TypedValue};

/// The value of an expression, or the first fault in order of operands.
#[cycle(term)]
#[tactic(auto, using(crate::proofs::TermForms::term_forms))]
pub(crate) fn typed(run: &RunBytes, term: &LinkedTerm) -> Result<TypedValue, CFault>
    ensures { answered typed_of result ≡ (values.seen run.now (term_of term.now)).value }
{
    match term {
        LinkedTerm::Constant(value) => Ok(number(*value)),
        LinkedTerm::Array { object, access } => Ok(TypedValue {
            value: CValue::Pointer {
                object: *object,
                offset: 0,
            },
            through: *access,
        }),
        LinkedTerm::Routine(routine) => Ok(plain(CValue::Function(*routine))),
        LinkedTerm::Variable { .. } | LinkedTerm::Element(_, _) | LinkedTerm::Field { .. } => {
            fetch(run, place(run, term)?)
        }
        LinkedTerm::Prefixed(op, operand) => prefixed(run, *op, operand.get()),
        LinkedTerm::Cast(kind, operand) => cast(*kind, typed(run, operand.get())?),
        LinkedTerm::Between(op, left, right) => {
            between(run, *op, typed(run, left.get())?, right.get())
        }
        LinkedTerm::Choice(test, first, second) => {
            if condition(typed(run, test.get())?)? {
                typed(run, first.get())
            } else {
                typed(run, second.get())
            }
        }
        LinkedTerm::Size => Ok(number(4)),
        LinkedTerm::Most(which, left, right) => {
            let left = typed(run, left.get())?;
            most_of(*which, left, typed(run, right.get())?)
        }
        LinkedTerm::Magnitude(operand) => absolute(typed(run, operand.get())?),
    }
}

/// The place that an expression names, or the first fault in order of operands.
#[cycle(term)]
#[tactic(auto, using(crate::proofs::TermForms::term_forms, crate::proofs::ListPlaces::place_laws))]
pub(crate) fn place(run: &RunBytes, term: &LinkedTerm) -> Result<LinkedPlace, CFault>
    ensures { answered place_of result ≡ (values.seen run.now (term_of term.now)).place }
{
    match term {
        LinkedTerm::Variable { object, access } => Ok(LinkedPlace {
            at: CValue::Pointer {
                object: *object,
                offset: 0,
            },
            access: *access,
        }),
        LinkedTerm::Prefixed(op, operand) => place_by(run, *op, operand.get()),
        LinkedTerm::Element(array, index) => {
            let array = typed(run, array.get())?;
            element(run, array, typed(run, index.get())?)
        }
        LinkedTerm::Field { list, name } => field(run, place(run, list.get())?, name),
        LinkedTerm::Constant(_) | LinkedTerm::Array { .. } | LinkedTerm::Routine(_) => {
            Err(CFault::Kind)
        }
        LinkedTerm::Cast(_, _) | LinkedTerm::Between(_, _, _) => Err(CFault::Kind),
        LinkedTerm::Choice(_, _, _) | LinkedTerm::Size => Err(CFault::Kind),
        LinkedTerm::Most(_, _, _) | LinkedTerm::Magnitude(_) => Err(CFault::Kind),
    }
}

/// The value at a place.
fn fetch(run: &RunBytes, place: LinkedPlace) -> Result<TypedValue, CFault>
    ensures { answered typed_of result ≡ objects.fetched run.now (place_of place) }
{
    run.fetch(place.at, place.access)
}

/// The value of an operator and its operand.
#[cycle(term)]
fn prefixed(run: &RunBytes, op: UnaryOp, operand: &LinkedTerm) -> Result<TypedValue, CFault>
    ensures { answered typed_of result ≡ (values.prefixed run.now op (values.seen run.now (term_of operand.now))).value }
{
    match op {
        UnaryOp::Minus => minus(typed(run, operand)?),
        UnaryOp::Not => complement(typed(run, operand)?),
        UnaryOp::Deref => fetch(run, place_at(typed(run, operand)?)?),
        UnaryOp::Address => Ok(pointer_to(place(run, operand)?)),
    }
}

/// The place that an operator and its operand name.
#[cycle(term)]
fn place_by(run: &RunBytes, op: UnaryOp, operand: &LinkedTerm) -> Result<LinkedPlace, CFault>
    ensures { answered place_of result ≡ (values.prefixed run.now op (values.seen run.now (term_of operand.now))).place }
{
    match op {
        UnaryOp::Deref => place_at(typed(run, operand)?),
        UnaryOp::Minus | UnaryOp::Not | UnaryOp::Address => Err(CFault::Kind),
    }
}

/// Whether an operand is true, as a number.
#[cycle(term)]
fn truth_of(run: &RunBytes, operand: &LinkedTerm) -> Result<TypedValue, CFault>
    ensures { answered typed_of result ≡ values.unless_decided false false (values.seen run.now (term_of operand.now)).value }
{
    let operand = typed(run, operand)?;
    Ok(truth(condition(operand)?))
}

/// An operator between a value and an operand, which `&&` and `||` value only where the value does not decide (C89, 3.3.13 and 3.3.14).
#[cycle(term)]
fn between(
    run: &RunBytes,
    op: BinaryOp,
    left: TypedValue,
    right: &LinkedTerm,
) -> Result<TypedValue, CFault>
    ensures { answered typed_of result ≡ values.between run.now op (Ok (typed_of left)) (values.seen run.now (term_of right.now)).value }
{
    match op {
        BinaryOp::And => {
            if condition(left)? {
                truth_of(run, right)
            } else {
                Ok(truth(false))
            }
        }
        BinaryOp::Or => {
            if condition(left)? {
                Ok(truth(true))
            } else {
                truth_of(run, right)
            }
        }
        _ => operation(run, op, left, typed(run, right)?),
    }
}
