//! A run with objects of each kind, and expressions over them.

use c_tree::expression::{BinaryOp, Extreme, UnaryOp};
use c_tree::outcome::CValue;
use c_tree::types::{CastType, ListType};
use linked_terms::{FieldName, LinkedTerm};
use plain_data::Boxed;
use run_bytes::{AccessType, ObjectKind, PointedType, RunBytes};
use std::alloc::{AllocError, Global};
use std::test::Fail;

/// The numbers 7 and -3, of eight bytes.
pub(crate) const NUMBERS: usize = 0;
/// Eight bytes that are not set.
pub(crate) const UNSET: usize = 1;
/// A list of a transfer.
pub(crate) const LIST: usize = 2;
/// A parameter that points to the second number.
pub(crate) const POINTER: usize = 3;

/// The objects.
const OBJECTS: [ObjectKind; 4] = [
    ObjectKind::Bytes { len: 8, set: true },
    ObjectKind::Bytes { len: 8, set: false },
    ObjectKind::Values {
        len: 5,
        holds: AccessType::List(ListType::Transfer),
    },
    ObjectKind::Values {
        len: 1,
        holds: AccessType::Pointer(PointedType::Number),
    },
];

/// A pointer.
pub(crate) fn pointer(object: usize, offset: usize) -> CValue {
    CValue::Pointer { object, offset }
}

/// The objects once the numbers and the parameter are stored.
pub(crate) fn sample(alloc: Global) -> Result<RunBytes, Fail> {
    let mut run = RunBytes::new(alloc, &OBJECTS)?;
    run.store(pointer(NUMBERS, 0), AccessType::Number, CValue::Number(7))?;
    run.store(pointer(NUMBERS, 4), AccessType::Number, CValue::Number(-3))?;
    let held = AccessType::Pointer(PointedType::Number);
    run.store(pointer(POINTER, 0), held, pointer(NUMBERS, 4))?;
    Ok(run)
}

/// A number.
pub(crate) fn constant(number: i32) -> LinkedTerm {
    LinkedTerm::Constant(number)
}

/// The array of the numbers.
pub(crate) fn numbers() -> LinkedTerm {
    LinkedTerm::Array {
        object: NUMBERS,
        access: AccessType::Number,
    }
}

/// A variable.
pub(crate) fn variable(object: usize, access: AccessType) -> LinkedTerm {
    LinkedTerm::Variable { object, access }
}

/// An operator and its operand.
pub(crate) fn prefixed(
    alloc: Global,
    op: UnaryOp,
    operand: LinkedTerm,
) -> Result<LinkedTerm, AllocError> {
    Ok(LinkedTerm::Prefixed(op, Boxed::new(alloc, operand)?))
}

/// A cast.
pub(crate) fn cast(
    alloc: Global,
    kind: CastType,
    operand: LinkedTerm,
) -> Result<LinkedTerm, AllocError> {
    Ok(LinkedTerm::Cast(kind, Boxed::new(alloc, operand)?))
}

/// An operator between two operands.
pub(crate) fn between(
    alloc: Global,
    left: LinkedTerm,
    op: BinaryOp,
    right: LinkedTerm,
) -> Result<LinkedTerm, AllocError> {
    let left = Boxed::new(alloc, left)?;
    Ok(LinkedTerm::Between(op, left, Boxed::new(alloc, right)?))
}

/// `test ? first : second`
pub(crate) fn choice(
    alloc: Global,
    test: LinkedTerm,
    first: LinkedTerm,
    second: LinkedTerm,
) -> Result<LinkedTerm, AllocError> {
    let test = Boxed::new(alloc, test)?;
    let first = Boxed::new(alloc, first)?;
    Ok(LinkedTerm::Choice(test, first, Boxed::new(alloc, second)?))
}

/// `array[index]`
pub(crate) fn element(
    alloc: Global,
    array: LinkedTerm,
    index: LinkedTerm,
) -> Result<LinkedTerm, AllocError> {
    let array = Boxed::new(alloc, array)?;
    Ok(LinkedTerm::Element(array, Boxed::new(alloc, index)?))
}

/// A field of the list.
pub(crate) fn field(alloc: Global, name: FieldName) -> Result<LinkedTerm, AllocError> {
    let list = variable(LIST, AccessType::List(ListType::Transfer));
    Ok(LinkedTerm::Field {
        list: Boxed::new(alloc, list)?,
        name,
    })
}

/// `max` or `min`
pub(crate) fn most(
    alloc: Global,
    which: Extreme,
    left: LinkedTerm,
    right: LinkedTerm,
) -> Result<LinkedTerm, AllocError> {
    let left = Boxed::new(alloc, left)?;
    Ok(LinkedTerm::Most(which, left, Boxed::new(alloc, right)?))
}

/// `abs`
pub(crate) fn magnitude(alloc: Global, operand: LinkedTerm) -> Result<LinkedTerm, AllocError> {
    Ok(LinkedTerm::Magnitude(Boxed::new(alloc, operand)?))
}
