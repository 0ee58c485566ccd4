//! Pointers, and the places that they point to (C89, 3.3.2, 3.3.3 and 3.3.6).

ghost use Rattle.std.specs.Prelude.{◌≡◌, ◌<◌, ◌≤◌, ◌+◌, ◌^◌, pos, ◌+ℤ◌, neg_ℤ, unsigned_abs, slice_get, length, Ok};
ghost use Rattle.c_tree.specs.Access as accesses;
ghost use Rattle.c_tree.specs.Values as values;
ghost use Rattle.run_bytes.specs.Accesses.{access_of, typed_of};
ghost use Rattle.run_bytes.specs.Answers.{answered};
ghost use Rattle.linked_terms.specs.FieldNames.{name_in};
ghost use Rattle.linked_terms.specs.LinkedTerms.{place_of};
ghost use Rattle.term_values.specs.Within.{StandsWithin, extent_of};

use crate::fields::field_named;
use crate::numbers::{as_number, difference, sum};
use c_tree::outcome::{CFault, CValue};
use c_tree::types::ListType;
use linked_terms::{FieldName, LinkedPlace};
use run_bytes::{AccessType, RunBytes, TypedValue};

/// By how much a pointer to a list moves to the next one.
fn field_count(list: ListType) -> u8
    ensures { result ≡ length (accesses.fields_of list) }
{
    match list {
        ListType::Transfer => 5,
        ListType::Internal => 6,
        ListType::Open => 9,
        ListType::Close => 3,
        ListType::Position => 2,
    }
}

/// By how much a pointer moves to the next element: bytes, or elements of an object that holds values.
fn stride(access: AccessType) -> Option<u8>
    ensures { result ≡ accesses.stride (access_of access) }
{
    match access {
        AccessType::Number => Some(4),
        AccessType::Char | AccessType::Byte => Some(1),
        AccessType::List(list) => Some(field_count(list)),
        AccessType::Pointer(_) | AccessType::Function => Some(1),
        AccessType::Field(_) | AccessType::Nothing => None,
    }
}

/// A pointer so many bytes or elements from an offset, which is in its object or just past its end.
#[tactic(auto, using(crate::proofs::PointerLaws::pointer_laws))]
fn pointer_at(
    run: &RunBytes,
    object: usize,
    offset: usize,
    distance: isize,
) -> Result<CValue, CFault>
    ensures { answered (λ value. value) result ≡ values.pointer_at object (pos offset +ℤ distance) (slice_get run.now object) }
{
    let Some(extent) = run.extent(object) else {
        return Err(CFault::Outside);
    };
    match offset.checked_add_signed(distance) {
        Some(offset) if offset <= extent => Ok(CValue::Pointer { object, offset }),
        _ => Err(CFault::Outside),
    }
}

/// A pointer once it has moved by a number of elements.
fn moved(
    run: &RunBytes,
    through: AccessType,
    from: CValue,
    count: isize,
) -> Result<TypedValue, CFault>
    requires { unsigned_abs count ≤ 2 ^ 31 }
    ensures { answered typed_of result ≡ values.moved run.now (access_of through) from count }
{
    match from {
        CValue::Pointer { object, offset } => match stride(through) {
            Some(width) => match pointer_at(run, object, offset, count * isize::from(width)) {
                Ok(value) => Ok(TypedValue { value, through }),
                Err(fault) => Err(fault),
            },
            None => Err(CFault::Kind),
        },
        CValue::Null => Err(CFault::Outside),
        CValue::Number(_) | CValue::Function(_) => Err(CFault::Kind),
    }
}

/// A number more than a number, or a pointer moved by a number of elements.
pub(crate) fn sum_of(
    run: &RunBytes,
    left: TypedValue,
    right: TypedValue,
) -> Result<TypedValue, CFault>
    ensures { answered typed_of result ≡ values.sum_of run.now (access_of left.through) left.value right.value }
{
    match (left.value, right.value) {
        (CValue::Number(left), CValue::Number(right)) => sum(left, right),
        (from, CValue::Number(count)) => moved(run, left.through, from, count as isize),
        _ => Err(CFault::Kind),
    }
}

/// How far a pointer moves that moves back.
fn back_by(count: i32) -> isize
    ensures moved { result ≡ neg_ℤ count }
    ensures small { unsigned_abs result ≤ 2 ^ 31 }
{
    -(count as isize)
}

/// A number less than a number, or a pointer moved back by a number of elements.
pub(crate) fn difference_of(
    run: &RunBytes,
    left: TypedValue,
    right: TypedValue,
) -> Result<TypedValue, CFault>
    ensures { answered typed_of result ≡ values.difference_of run.now (access_of left.through) left.value right.value }
{
    match (left.value, right.value) {
        (CValue::Number(left), CValue::Number(right)) => difference(left, right),
        (from, CValue::Number(count)) => moved(run, left.through, from, back_by(count)),
        _ => Err(CFault::Kind),
    }
}

/// Whether two numbers, or two of pointers, null and functions, are equal (C89, 3.3.9).
pub(crate) fn same(left: CValue, right: CValue) -> Result<bool, CFault>
    ensures { answered (λ equal. equal) result ≡ values.same left right }
{
    match (left, right) {
        (CValue::Number(left), CValue::Number(right)) => Ok(left == right),
        (CValue::Number(_), _) | (_, CValue::Number(_)) => Err(CFault::Kind),
        (
            CValue::Pointer { object, offset },
            CValue::Pointer {
                object: other,
                offset: place,
            },
        ) => Ok(object == other && offset == place),
        (CValue::Null, CValue::Null) => Ok(true),
        (CValue::Function(left), CValue::Function(right)) => Ok(left == right),
        _ => Ok(false),
    }
}

/// The place that a pointer points to. Null is a place at which every access is a fault.
pub(crate) fn place_at(typed: TypedValue) -> Result<LinkedPlace, CFault>
    ensures { answered place_of result ≡ values.place_of (typed_of typed) }
{
    match typed.value {
        CValue::Pointer { .. } | CValue::Null => Ok(LinkedPlace {
            at: typed.value,
            access: typed.through,
        }),
        CValue::Number(_) | CValue::Function(_) => Err(CFault::Kind),
    }
}

/// The pointer to a place.
pub(crate) fn pointer_to(place: LinkedPlace) -> TypedValue
    ensures { Ok (typed_of result) ≡ values.address_of (place_of place) }
{
    TypedValue {
        value: place.at,
        through: place.access,
    }
}

/// The element of an array (C89, 3.3.2.1).
pub(crate) fn element(
    run: &RunBytes,
    array: TypedValue,
    index: TypedValue,
) -> Result<LinkedPlace, CFault>
    ensures { answered place_of result ≡ values.element run.now (typed_of array) (typed_of index) }
{
    let start = place_at(array)?;
    let count = as_number(index.value)?;
    let found = moved(run, start.access, start.at, count as isize)?;
    place_at(found)
}

/// So many elements past an offset in an object. Where there is no object, the offset is 0.
#[tactic(auto, using(crate::proofs::PointerLaws::offset_laws))]
fn offset_past(run: &RunBytes, object: usize, offset: usize, count: usize) -> usize
    requires few { count < 9 }
    requires within { offset ≤ extent_of (slice_get run.now object) }
    ensures { result ≡ offset + count }
{
    match run.extent(object) {
        Some(_) => offset + count,
        None => count,
    }
}

/// A field of a list from an offset of an object on.
fn field_at(
    run: &RunBytes,
    object: usize,
    offset: usize,
    list: ListType,
    name: &FieldName,
) -> Result<LinkedPlace, CFault>
    requires { offset ≤ extent_of (slice_get run.now object) }
    ensures { answered place_of result ≡ values.field_at object offset (accesses.field_named (name_in name.now) list) }
{
    match field_named(list, name) {
        Some(field) => Ok(LinkedPlace {
            at: CValue::Pointer {
                object,
                offset: offset_past(run, object, offset, field.number),
            },
            access: AccessType::Field(field.holds),
        }),
        None => Err(CFault::Kind),
    }
}

/// The field of a list (C89, 3.3.2.3).
#[tactic(auto, using(crate::proofs::ListPlaces::place_laws))]
pub(crate) fn field(
    run: &RunBytes,
    place: LinkedPlace,
    name: &FieldName,
) -> Result<LinkedPlace, CFault>
    requires { StandsWithin run.now (place_of place) }
    ensures { answered place_of result ≡ values.field (name_in name.now) (place_of place) }
{
    match (place.at, place.access) {
        (CValue::Pointer { object, offset }, AccessType::List(list)) => {
            field_at(run, object, offset, list, name)
        }
        (CValue::Null, AccessType::List(_)) => Err(CFault::Outside),
        _ => Err(CFault::Kind),
    }
}
