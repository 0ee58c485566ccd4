//! Objects by their places in all bytes and all values (C89, 3.3.2).

ghost use Rattle.std.specs.Prelude.{◌≡◌, replicate, ℕ, Bool, List, Option, Some, Ok, ◌<◌, ◌≤◌, ◌^◌, length, option_map, slice_get, slice_set, OnOk, IfErr};
ghost use Rattle.c_tree.specs.declared.outcome.CValue.{CValue};
ghost use Rattle.c_tree.specs.declared.outcome.CValue.TheVariants.{Number};
ghost use Rattle.c_tree.specs.declared.outcome.CFault.TheVariants.{Outside};
ghost use Rattle.c_tree.specs.Access.{ToNumber};
ghost use Rattle.c_tree.specs.Objects as objects;
ghost use Rattle.c_tree.specs.LibraryArguments as arguments;
ghost use Rattle.run_bytes.specs.Accesses.{access_of, typed_of};
ghost use Rattle.run_bytes.specs.Answers.{answered};
ghost use Rattle.run_bytes.specs.Cells.{marked, Changes};
ghost use Rattle.run_bytes.specs.Layout.{object_in, IsInside, IsWithinBytes, IsWithinValues, Writes, unset_object, held_type};

use crate::access::{AccessType, TypedValue};
use crate::{cells, held};
use c_tree::outcome::{CFault, CValue};

/// Where an object stands.
#[derive(Clone, Copy)]
pub(crate) enum StoredObject {
    /// So many bytes from one on.
    Bytes {
        from: usize,
        len: usize,
    },
    /// So many values from one on, each of a type, or the fields of a list.
    Values {
        from: usize,
        len: usize,
        holds: AccessType,
    },
}

/// Where the object of a number stands, if there is one.
pub(crate) fn place_at(places: &[StoredObject], object: usize) -> Option<StoredObject>
    ensures { result ≡ slice_get places.now object }
{
    places.get(object).copied()
}

/// What an access reads in an object of bytes.
fn read_bytes(
    bytes: &[u8],
    marks: &[bool],
    offset: usize,
    access: AccessType,
) -> Result<TypedValue, CFault>
    requires { length marks.now ≡ length bytes.now }
    ensures { answered typed_of result ≡ objects.read_bytes (access_of access) offset (marked bytes.now marks.now) }
{
    match access {
        AccessType::Number => match cells::number_at(bytes, marks, offset) {
            Ok(number) => Ok(held::plain(CValue::Number(number))),
            Err(fault) => Err(fault),
        },
        AccessType::Byte => match cells::byte_at(bytes, marks, offset) {
            Ok(byte) => Ok(held::plain(CValue::Number(i32::from(byte)))),
            Err(fault) => Err(fault),
        },
        _ => Err(CFault::Kind),
    }
}

/// Stores a value in an object of bytes.
fn write_bytes(
    bytes: &mut [u8],
    marks: &mut [bool],
    offset: usize,
    access: AccessType,
    value: CValue,
) -> Result<(), CFault>
    requires { length marks.old ≡ length bytes.old }
    ensures { Changes (objects.put_bytes (access_of access) offset value) bytes.old marks.old bytes.new marks.new result }
{
    match (access, value) {
        (AccessType::Number, CValue::Number(number)) => {
            cells::put_number(bytes, marks, offset, number)
        }
        (AccessType::Byte, CValue::Number(number)) => {
            cells::put_byte(bytes, marks, offset, number)
        }
        _ => Err(CFault::Kind),
    }
}

/// Stores a value in an object of values.
fn write_value(values: &mut [Option<CValue>], offset: usize, value: CValue) -> Result<(), CFault>
    ensures ok { OnOk result ((offset < length values.old) × (values.new ≡ slice_set values.old offset (Some value))) }
    ensures outside { IfErr result (λ fault. (fault ≡ Outside) × (length values.old ≤ offset) × (values.new ≡ values.old)) }
{
    if offset < values.len() {
        values[offset] = Some(value);
        Ok(())
    } else {
        Err(CFault::Outside)
    }
}

/// The value of a number, if there is one.
fn value_at(values: &[Option<CValue>], number: usize) -> Option<Option<CValue>>
    ensures { result ≡ slice_get values.now number }
{
    values.get(number).copied()
}

/// What an access reads at an offset of an object.
pub(crate) fn read(
    place: StoredObject,
    bytes: &[u8],
    marks: &[bool],
    values: &[Option<CValue>],
    offset: usize,
    access: AccessType,
) -> Result<TypedValue, CFault>
    requires same { length marks.now ≡ length bytes.now }
    requires inside { IsInside place bytes.now values.now }
    ensures { answered typed_of result ≡ objects.read_object (access_of access) offset (Some (object_in (marked bytes.now marks.now) values.now place)) }
{
    match place {
        StoredObject::Bytes { from, len } => {
            read_bytes(
                &bytes[from..from + len],
                &marks[from..from + len],
                offset,
                access,
            )
        }
        StoredObject::Values { from, len, holds } => {
            if held::holds(holds, access) {
                held::read_held(access, value_at(&values[from..from + len], offset))
            } else {
                Err(CFault::Kind)
            }
        }
    }
}

/// The number at an offset of an object.
#[tactic(auto, using(crate::proofs::PlaceLemmas::number_laws))]
pub(crate) fn number(
    place: StoredObject,
    bytes: &[u8],
    marks: &[bool],
    offset: usize,
) -> Result<i32, CFault>
    requires same { length marks.now ≡ length bytes.now }
    requires inside { IsWithinBytes place (length bytes.now) }
    ensures { (values : List (Option CValue)) → answered (λ number. objects.plain (Number number)) result ≡ objects.read_object ToNumber offset (Some (object_in (marked bytes.now marks.now) values place)) }
{
    match place {
        StoredObject::Bytes { from, len } => {
            cells::number_at(&bytes[from..from + len], &marks[from..from + len], offset)
        }
        StoredObject::Values { .. } => Err(CFault::Kind),
    }
}

/// Stores a value at an offset of an object.
pub(crate) fn write(
    place: StoredObject,
    bytes: &mut [u8],
    marks: &mut [bool],
    values: &mut [Option<CValue>],
    offset: usize,
    access: AccessType,
    value: CValue,
) -> Result<(), CFault>
    requires same { length marks.old ≡ length bytes.old }
    requires inside { IsInside place bytes.old values.old }
    ensures { Writes (λ object. objects.put_object (access_of access) offset value (Some object)) place bytes.old marks.old values.old bytes.new marks.new values.new result }
{
    match place {
        StoredObject::Bytes { from, len } => write_bytes(
            &mut bytes[from..from + len],
            &mut marks[from..from + len],
            offset,
            access,
            value,
        ),
        StoredObject::Values { from, len, holds } => {
            if held::holds(holds, access) {
                write_value(&mut values[from..from + len], offset, value)
            } else {
                Err(CFault::Kind)
            }
        }
    }
}

/// Stores a number at an offset of an object.
#[tactic(auto, using(crate::proofs::PlaceLemmas::number_laws))]
pub(crate) fn put_number(
    place: StoredObject,
    bytes: &mut [u8],
    marks: &mut [bool],
    offset: usize,
    number: i32,
) -> Result<(), CFault>
    requires same { length marks.old ≡ length bytes.old }
    requires inside { IsWithinBytes place (length bytes.old) }
    ensures { (values : List (Option CValue)) → (value : CValue) → value ≡ Number number →
        Writes (λ object. objects.put_object ToNumber offset value (Some object)) place bytes.old marks.old values bytes.new marks.new values result }
{
    match place {
        StoredObject::Bytes { from, len } => cells::put_number(
            &mut bytes[from..from + len],
            &mut marks[from..from + len],
            offset,
            number,
        ),
        StoredObject::Values { .. } => Err(CFault::Kind),
    }
}

/// The text of so many bytes from an offset of an object on.
pub(crate) fn text<'a>(
    place: StoredObject,
    bytes: &'a [u8],
    marks: &[bool],
    offset: usize,
    count: usize,
) -> Result<&'a [u8], CFault>
    requires same { length marks.now ≡ length bytes.now }
    requires inside { IsWithinBytes place (length bytes.now) }
    ensures { (values : List (Option CValue)) → answered (λ found. found.now) result ≡ arguments.text_in (Some (object_in (marked bytes.now marks.now) values place)) offset count }
{
    match place {
        StoredObject::Bytes { from, len } => cells::bytes_at(
            &bytes[from..from + len],
            &marks[from..from + len],
            offset,
            count,
        ),
        StoredObject::Values { .. } => Err(CFault::Kind),
    }
}

/// Stores a text from an offset of an object on.
pub(crate) fn put_text(
    place: StoredObject,
    bytes: &mut [u8],
    marks: &mut [bool],
    offset: usize,
    text: &[u8],
) -> Result<(), CFault>
    requires same { length marks.old ≡ length bytes.old }
    requires inside { IsWithinBytes place (length bytes.old) }
    ensures { (values : List (Option CValue)) → Writes (λ object. arguments.with_text offset text.now (Some object)) place bytes.old marks.old values bytes.new marks.new values result }
{
    match place {
        StoredObject::Bytes { from, len } => cells::put_bytes(
            &mut bytes[from..from + len],
            &mut marks[from..from + len],
            offset,
            text,
        ),
        StoredObject::Values { .. } => Err(CFault::Kind),
    }
}

/// Makes values ones that are not set.
fn clear(values: &mut [Option<CValue>])
    ensures { values.new ≡ replicate (length values.old) None }
{
    values.fill(None);
}

/// Makes an object one of which nothing is set.
pub(crate) fn unset(place: StoredObject, marks: &mut [bool], values: &mut [Option<CValue>])
    requires bytes { IsWithinBytes place (length marks.old) }
    requires values { IsWithinValues place (length values.old) }
    ensures { (bytes : List ℕ) → length marks.old ≡ length bytes → Writes (λ object. Ok (unset_object object)) place bytes marks.old values.old bytes marks.new values.new (Ok tt) }
{
    match place {
        StoredObject::Bytes { from, len } => marks[from..from + len].fill(false),
        StoredObject::Values { from, len, .. } => clear(&mut values[from..from + len]),
    }
}

/// How many bytes or values an object has, which stands within all bytes and all values.
pub(crate) fn extent(place: StoredObject, bytes: &[u8], values: &[Option<CValue>]) -> usize
    requires { IsInside place bytes.now values.now }
    ensures value { (marks : List Bool) → length marks ≡ length bytes.now → result ≡ objects.extent (object_in (marked bytes.now marks) values.now place) }
    ensures small { result < 2 ^ 63 }
{
    match place {
        StoredObject::Bytes { len, .. } => len,
        StoredObject::Values { len, .. } => len,
    }
}

/// The type of the values that an object holds, or of the list whose fields they are; none of an object of bytes.
pub(crate) fn held_type(place: StoredObject) -> Option<AccessType>
    ensures { (cells : List (Option ℕ)) → (values : List (Option CValue)) → option_map access_of result ≡ held_type (Some (object_in cells values place)) }
{
    match place {
        StoredObject::Bytes { .. } => None,
        StoredObject::Values { holds, .. } => Some(holds),
    }
}
