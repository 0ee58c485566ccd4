//! Numbers by a short way, which takes numbers alone and tells no faults: what it finds is what the general way finds, and where it finds none, that way tells
//! what a value is.

ghost use Rattle.std.specs.Prelude.{◌≡◌, ◌+ℤ◌, ◌-ℤ◌, ◌*ℤ◌, pos, neg_ℤ, List, Ok, slice_get, false};
ghost use Rattle.c_tree.specs.declared.outcome.CValue.TheVariants.{Number, Pointer};
ghost use Rattle.c_tree.specs.Access.{ToNumber};
ghost use Rattle.c_tree.specs.Faults.{Or, after};
ghost use Rattle.c_tree.specs.Objects as objects;
ghost use Rattle.c_tree.specs.Objects.{Object, Typed};
ghost use Rattle.c_tree.specs.Values as values;
ghost use Rattle.run_bytes.specs.Accesses.{access_of, typed_of};
ghost use Rattle.linked_terms.specs.LinkedTerms.{term_of};
ghost use Rattle.term_values.specs.Finds.{Finds, FindsPlace, IsNamed, pointer_of};

use crate::terms::typed;
use c_tree::expression::{BinaryOp, Extreme, UnaryOp};
use c_tree::outcome::CValue;
use c_tree::types::CastType;
use linked_terms::LinkedTerm;
use run_bytes::{AccessType, RunBytes, TypedValue};

/// A place of numbers.
#[derive(Clone, Copy, Debug, PartialEq, Eq)]
pub struct NumberPlace {
    /// The number of its object.
    pub object: usize,
    /// Its offset in the object.
    pub offset: usize,
}

/// A sum.
#[tactic(auto, using(crate::proofs::NumberLaws::checked_laws, crate::proofs::DirectLaws::found_laws))]
fn sum(left: i32, right: i32) -> Option<i32>
    ensures { Finds result (values.checked (left +ℤ right)) }
{
    left.checked_add(right)
}

/// A difference.
#[tactic(auto, using(crate::proofs::NumberLaws::checked_laws, crate::proofs::DirectLaws::found_laws))]
fn difference(left: i32, right: i32) -> Option<i32>
    ensures { Finds result (values.checked (left -ℤ right)) }
{
    left.checked_sub(right)
}

/// A product.
#[tactic(auto, using(crate::proofs::NumberLaws::checked_laws, crate::proofs::DirectLaws::found_laws))]
fn product(left: i32, right: i32) -> Option<i32>
    ensures { Finds result (values.checked (left *ℤ right)) }
{
    left.checked_mul(right)
}

/// A quotient, cut towards zero.
#[tactic(auto, using(crate::proofs::NumberLaws::checked_laws, crate::proofs::DirectLaws::found_laws))]
fn quotient(left: i32, right: i32) -> Option<i32>
    ensures { Finds result (values.quotient left right) }
{
    if right == 0 {
        return None;
    }
    left.checked_div(right)
}

/// The remainder of a quotient that has 32 bits.
#[tactic(auto, using(crate::proofs::NumberLaws::checked_laws, crate::proofs::DirectLaws::found_laws))]
fn remainder(left: i32, right: i32) -> Option<i32>
    ensures { Finds result (values.remainder left right) }
{
    if right == 0 {
        return None;
    }
    left.checked_rem(right)
}

/// A number with the other sign.
#[tactic(auto, using(crate::proofs::NumberLaws::checked_laws, crate::proofs::DirectLaws::found_laws))]
fn negated(number: i32) -> Option<i32>
    ensures { Finds result (values.checked (neg_ℤ number)) }
{
    number.checked_neg()
}

/// `abs`
#[tactic(auto, using(crate::proofs::NumberLaws::checked_laws, crate::proofs::DirectLaws::found_laws))]
fn magnitude(number: i32) -> Option<i32>
    ensures { Finds result (values.magnitude number) }
{
    number.checked_abs()
}

/// 1 for what holds, else 0.
fn truth(holds: bool) -> i32
    ensures { objects.plain (Number result) ≡ values.truth holds }
{
    if holds { 1 } else { 0 }
}

/// `max` or `min`
fn most(which: Extreme, left: i32, right: i32) -> i32
    ensures { Ok (objects.plain (Number result)) ≡ values.most which left right }
{
    match which {
        Extreme::Max => if left < right { right } else { left },
        Extreme::Min => if right < left { right } else { left },
    }
}

/// An operator that values both operands, between numbers.
fn operation(op: BinaryOp, left: i32, right: i32) -> Option<i32>
    ensures { (all : List Object) → Finds result (values.between all op (Ok (objects.plain (Number left))) (Ok (objects.plain (Number right)))) }
{
    match op {
        BinaryOp::Add => sum(left, right),
        BinaryOp::Subtract => difference(left, right),
        BinaryOp::Multiply => product(left, right),
        BinaryOp::Divide => quotient(left, right),
        BinaryOp::Remainder => remainder(left, right),
        BinaryOp::Equal => Some(truth(left == right)),
        BinaryOp::Unequal => Some(truth(left != right)),
        BinaryOp::Less => Some(truth(left < right)),
        BinaryOp::LessOrEqual => Some(truth(left <= right)),
        BinaryOp::Greater => Some(truth(left > right)),
        BinaryOp::GreaterOrEqual => Some(truth(left >= right)),
        BinaryOp::Or | BinaryOp::And => None,
    }
}

/// The number at an offset of an object.
fn number_at(run: &RunBytes, object: usize, offset: usize) -> Option<i32>
    ensures { Finds result (objects.read_object ToNumber offset (slice_get run.now object)) }
{
    match run.number_at(object, offset) {
        Ok(number) => Some(number),
        Err(_) => None,
    }
}

/// The number that a variable holds.
#[tactic(auto, using(crate::proofs::DirectLaws::fetch_laws))]
fn variable(run: &RunBytes, object: usize, access: AccessType) -> Option<i32>
    ensures { Finds result (objects.fetched run.now (record { at = Pointer object 0; access = access_of access })) }
{
    match access {
        AccessType::Number => number_at(run, object, 0),
        _ => None,
    }
}

/// The place of numbers that a value points to.
fn place_in(typed: TypedValue) -> Option<NumberPlace>
    ensures { FindsPlace result (Ok (typed_of typed)) }
{
    match (typed.value, typed.through) {
        (CValue::Pointer { object, offset }, AccessType::Number) => {
            Some(NumberPlace { object, offset })
        }
        _ => None,
    }
}

/// The place of numbers that an expression points to.
#[tactic(auto, using(crate::proofs::TermForms::term_forms))]
fn place_by(run: &RunBytes, term: &LinkedTerm) -> Option<NumberPlace>
    ensures { FindsPlace result (values.seen run.now (term_of term.now)).value }
{
    match term {
        LinkedTerm::Array { object, access } => place_in(TypedValue {
            value: CValue::Pointer {
                object: *object,
                offset: 0,
            },
            through: *access,
        }),
        _ => match typed(run, term) {
            Ok(found) => place_in(found),
            Err(_) => None,
        },
    }
}

/// By how many bytes a pointer to numbers moves.
fn distance_of(count: i32) -> isize
    ensures { result ≡ count *ℤ pos 4 }
{
    count as isize * 4
}

/// The number so many numbers behind a place.
#[tactic(auto, using(crate::proofs::DirectLaws::element_laws))]
fn element(run: &RunBytes, start: NumberPlace, count: i32) -> Option<i32>
    ensures { Finds result (after (values.element run.now (pointer_of start) (objects.plain (Number count))) (objects.fetched run.now)) }
{
    match start.offset.checked_add_signed(distance_of(count)) {
        Some(offset) => number_at(run, start.object, offset),
        None => None,
    }
}

/// The number that an expression is, where its operands are numbers.
#[cycle(direct)]
#[tactic(auto, using(crate::proofs::TermForms::term_forms, crate::proofs::DirectLaws::form_laws))]
pub(crate) fn number_in(run: &RunBytes, term: &LinkedTerm) -> Option<i32>
    ensures { Finds result (values.seen run.now (term_of term.now)).value }
{
    match term {
        LinkedTerm::Constant(number) => Some(*number),
        LinkedTerm::Size => Some(4),
        LinkedTerm::Variable { object, access } => variable(run, *object, *access),
        LinkedTerm::Element(array, index) => match place_by(run, array.get()) {
            Some(start) => element_in(run, start, index.get()),
            None => None,
        },
        LinkedTerm::Prefixed(op, operand) => prefixed(run, *op, operand.get()),
        LinkedTerm::Cast(kind, operand) => cast(run, *kind, operand.get()),
        LinkedTerm::Between(op, left, right) => match number_in(run, left.get()) {
            Some(first) => between(run, *op, first, right.get()),
            None => None,
        },
        LinkedTerm::Choice(test, first, second) => match number_in(run, test.get()) {
            Some(test) => {
                if test != 0 {
                    number_in(run, first.get())
                } else {
                    number_in(run, second.get())
                }
            }
            None => None,
        },
        LinkedTerm::Most(which, left, right) => {
            match (number_in(run, left.get()), number_in(run, right.get())) {
                (Some(left), Some(right)) => Some(most(*which, left, right)),
                _ => None,
            }
        }
        LinkedTerm::Magnitude(operand) => match number_in(run, operand.get()) {
            Some(number) => magnitude(number),
            None => None,
        },
        _ => None,
    }
}

/// The number that a cast keeps.
#[cycle(direct)]
fn cast(run: &RunBytes, kind: CastType, operand: &LinkedTerm) -> Option<i32>
    ensures { Finds result (after (values.seen run.now (term_of operand.now)).value (values.cast kind)) }
{
    match kind {
        CastType::Length | CastType::Number => number_in(run, operand),
        _ => None,
    }
}

/// The number that an element of an array is.
#[cycle(direct)]
fn element_in(run: &RunBytes, start: NumberPlace, index: &LinkedTerm) -> Option<i32>
    ensures { Finds result (after (after (values.seen run.now (term_of index.now)).value (λ count. values.element run.now (pointer_of start) count)) (objects.fetched run.now)) }
{
    match number_in(run, index) {
        Some(count) => element(run, start, count),
        None => None,
    }
}

/// The number that an operator makes of its operand.
#[cycle(direct)]
#[tactic(auto, using(crate::proofs::DirectLaws::form_laws))]
fn prefixed(run: &RunBytes, op: UnaryOp, operand: &LinkedTerm) -> Option<i32>
    ensures { Finds result (values.prefixed run.now op (values.seen run.now (term_of operand.now))).value }
{
    match op {
        UnaryOp::Minus => match number_in(run, operand) {
            Some(number) => negated(number),
            None => None,
        },
        UnaryOp::Not => match number_in(run, operand) {
            Some(number) => Some(truth(number == 0)),
            None => None,
        },
        UnaryOp::Deref => match place_by(run, operand) {
            Some(place) => number_at(run, place.object, place.offset),
            None => None,
        },
        UnaryOp::Address => None,
    }
}

/// Whether an operand is true, as a number.
#[cycle(direct)]
fn truth_in(run: &RunBytes, operand: &LinkedTerm) -> Option<i32>
    ensures { Finds result (values.unless_decided false false (values.seen run.now (term_of operand.now)).value) }
{
    match number_in(run, operand) {
        Some(number) => Some(truth(number != 0)),
        None => None,
    }
}

/// The number that an operator makes of a number and an operand, which `&&` and `||` value only where the number does not decide (C89,
/// 3.3.13 and 3.3.14).
#[cycle(direct)]
fn between(run: &RunBytes, op: BinaryOp, first: i32, right: &LinkedTerm) -> Option<i32>
    ensures { (left : Or Typed) → Ok (objects.plain (Number first)) ≡ left → Finds result (values.between run.now op left (values.seen run.now (term_of right.now)).value) }
{
    match op {
        BinaryOp::And => {
            if first != 0 {
                truth_in(run, right)
            } else {
                Some(0)
            }
        }
        BinaryOp::Or => {
            if first != 0 {
                Some(1)
            } else {
                truth_in(run, right)
            }
        }
        _ => match number_in(run, right) {
            Some(second) => operation(op, first, second),
            None => None,
        },
    }
}

/// The place of a variable of numbers.
fn variable_place(object: usize, access: AccessType) -> Option<NumberPlace>
    ensures { IsNamed result (Ok (record { at = Pointer object 0; access = access_of access })) }
{
    match access {
        AccessType::Number => Some(NumberPlace { object, offset: 0 }),
        _ => None,
    }
}

/// The place so many numbers behind one.
#[tactic(auto, using(crate::proofs::DirectLaws::place_laws))]
fn element_place(run: &RunBytes, start: NumberPlace, count: i32) -> Option<NumberPlace>
    ensures { IsNamed result (values.element run.now (pointer_of start) (objects.plain (Number count))) }
{
    let Some(extent) = run.extent(start.object) else {
        return None;
    };
    match start.offset.checked_add_signed(distance_of(count)) {
        Some(offset) if offset <= extent => Some(NumberPlace {
            object: start.object,
            offset,
        }),
        _ => None,
    }
}

/// The place of an element of an array.
fn indexed_place(run: &RunBytes, start: NumberPlace, index: &LinkedTerm) -> Option<NumberPlace>
    ensures { IsNamed result (after (values.seen run.now (term_of index.now)).value (λ count. values.element run.now (pointer_of start) count)) }
{
    match number_in(run, index) {
        Some(count) => element_place(run, start, count),
        None => None,
    }
}

/// The place that an operator and its operand name.
fn prefixed_place(run: &RunBytes, op: UnaryOp, operand: &LinkedTerm) -> Option<NumberPlace>
    ensures { IsNamed result (values.prefixed run.now op (values.seen run.now (term_of operand.now))).place }
{
    match op {
        UnaryOp::Deref => place_by(run, operand),
        UnaryOp::Minus | UnaryOp::Not | UnaryOp::Address => None,
    }
}

/// The place of numbers that an expression names, where the short way finds it (C89, 3.3.16). Where it finds none, `place_named` tells
/// the place, or the fault.
#[tactic(auto, using(crate::proofs::TermForms::term_forms))]
pub fn number_place(run: &RunBytes, term: &LinkedTerm) -> Option<NumberPlace>
    ensures { IsNamed result (values.place_named run.now (term_of term.now)) }
{
    match term {
        LinkedTerm::Variable { object, access } => variable_place(*object, *access),
        LinkedTerm::Element(array, index) => match place_by(run, array.get()) {
            Some(start) => indexed_place(run, start, index.get()),
            None => None,
        },
        LinkedTerm::Prefixed(op, operand) => prefixed_place(run, *op, operand.get()),
        _ => None,
    }
}
