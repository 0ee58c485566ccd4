//! What an object of values holds for an access, and in what form it is stored (C89, 3.2.2.3 and 3.3.16.1).

ghost use Rattle.std.specs.Prelude.{◌≡◌};
ghost use Rattle.c_tree.specs.declared.types.ListType.{ListType};
ghost use Rattle.c_tree.specs.Access.{ToField, ToList, NumberField};
ghost use Rattle.c_tree.specs.Objects as objects;
ghost use Rattle.run_bytes.specs.Accesses.{access_of, typed_of};
ghost use Rattle.run_bytes.specs.Answers.{answered};

use crate::access::{AccessType, FieldType, PointedType, TypedValue};
use c_tree::outcome::{CFault, CValue};

/// A value through which nothing is accessed.
pub(crate) fn plain(value: CValue) -> TypedValue
    ensures { typed_of result ≡ objects.plain value }
{
    TypedValue {
        value,
        through: AccessType::Nothing,
    }
}

/// A number.
fn as_number(value: CValue) -> Result<i32, CFault>
    ensures { answered (λ number. number) result ≡ objects.as_number value }
{
    match value {
        CValue::Number(number) => Ok(number),
        _ => Err(CFault::Kind),
    }
}

/// A pointer or null, with the type of accesses through it.
fn as_pointer(through: AccessType, value: CValue) -> Result<TypedValue, CFault>
    ensures { answered typed_of result ≡ objects.as_pointer (access_of through) value }
{
    match value {
        CValue::Pointer { .. } | CValue::Null => Ok(TypedValue { value, through }),
        _ => Err(CFault::Kind),
    }
}

/// A function or null.
fn as_function(value: CValue) -> Result<TypedValue, CFault>
    ensures { answered typed_of result ≡ objects.as_function value }
{
    match value {
        CValue::Function(_) | CValue::Null => Ok(plain(value)),
        _ => Err(CFault::Kind),
    }
}

/// What a held number is for an access to numbers.
fn number_value(value: CValue) -> Result<TypedValue, CFault>
    ensures { answered typed_of result ≡ objects.read_value (ToField NumberField) value }
{
    match as_number(value) {
        Ok(_) => Ok(plain(value)),
        Err(fault) => Err(fault),
    }
}

/// What a held value is for an access.
fn read_value(access: AccessType, value: CValue) -> Result<TypedValue, CFault>
    ensures { answered typed_of result ≡ objects.read_value (access_of access) value }
{
    match access {
        AccessType::Field(FieldType::Number) => number_value(value),
        AccessType::Field(FieldType::Text) => as_pointer(AccessType::Char, value),
        AccessType::Pointer(PointedType::Number) => as_pointer(AccessType::Number, value),
        AccessType::Pointer(PointedType::Char) => as_pointer(AccessType::Char, value),
        AccessType::Function => as_function(value),
        _ => Err(CFault::Kind),
    }
}

/// What a held value is for an access, if there is one and it is set.
pub(crate) fn read_held(
    access: AccessType,
    held: Option<Option<CValue>>,
) -> Result<TypedValue, CFault>
    ensures { answered typed_of result ≡ objects.read_held (access_of access) held }
{
    match held {
        None => Err(CFault::Outside),
        Some(None) => Err(CFault::Unset),
        Some(Some(value)) => read_value(access, value),
    }
}

/// Whether an access is to a field of a list.
fn is_to_field(access: AccessType) -> bool
    ensures { (list : ListType) → result ≡ objects.holds (ToList list) (access_of access) }
{
    matches!(access, AccessType::Field(_))
}

/// Whether an access is to pointers to what is told.
fn is_to_pointer(pointed: PointedType, access: AccessType) -> bool
    ensures { result ≡ objects.holds (access_of (AccessType.Pointer pointed)) (access_of access) }
{
    match access {
        AccessType::Pointer(other) => matches!(
            (pointed, other),
            (PointedType::Number, PointedType::Number) | (PointedType::Char, PointedType::Char)
        ),
        _ => false,
    }
}

/// Whether an access is by the type of what an object of values holds.
pub(crate) fn holds(held: AccessType, access: AccessType) -> bool
    ensures { result ≡ objects.holds (access_of held) (access_of access) }
{
    match held {
        AccessType::List(_) => is_to_field(access),
        AccessType::Pointer(pointed) => is_to_pointer(pointed, access),
        AccessType::Function => matches!(access, AccessType::Function),
        _ => false,
    }
}

/// A value where a pointer or a function is wanted: the number 0 is null.
fn null_for_zero(value: CValue) -> CValue
    ensures { result ≡ objects.null_for_zero value }
{
    match value {
        CValue::Number(0) => CValue::Null,
        other => other,
    }
}

/// The value in the form in which a place holds it.
pub(crate) fn converted(access: AccessType, value: CValue) -> Result<CValue, CFault>
    ensures { answered (λ held. held) result ≡ objects.converted (access_of access) value }
{
    match access {
        AccessType::Number | AccessType::Byte | AccessType::Field(FieldType::Number) => {
            match as_number(value) {
                Ok(_) => Ok(value),
                Err(fault) => Err(fault),
            }
        }
        AccessType::Field(FieldType::Text) | AccessType::Pointer(_) => {
            match as_pointer(AccessType::Char, null_for_zero(value)) {
                Ok(typed) => Ok(typed.value),
                Err(fault) => Err(fault),
            }
        }
        AccessType::Function => match as_function(null_for_zero(value)) {
            Ok(typed) => Ok(typed.value),
            Err(fault) => Err(fault),
        },
        _ => Err(CFault::Kind),
    }
}

/// Whether an access is to a type that has values of its own.
pub(crate) fn is_valued(access: AccessType) -> bool
    ensures { result ≡ objects.is_valued (access_of access) }
{
    !matches!(
        access,
        AccessType::Char | AccessType::List(_) | AccessType::Nothing
    )
}
