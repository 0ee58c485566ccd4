//! Room for the objects of a run, each behind those before it (C89, 3.1.2.4).

ghost use Rattle.std.specs.Prelude.{◌≡◌, ◌++◌, ◌∷◌, [], length, replicate, OnOk};
ghost use Rattle.run_bytes.specs.declared.places.StoredObject.TheVariants as stored;
ghost use Rattle.run_bytes.specs.Layout.{IsLaidOut, Adds};

use crate::access::{AccessType, ObjectKind};
use crate::places::StoredObject;
use c_tree::outcome::CValue;
use std::alloc::AllocError;

/// How many bytes and values some objects have, or the greatest number where that is less. It is only taken to make room at once.
pub(crate) fn room_of(objects: &[ObjectKind]) -> (usize, usize) {
    let mut bytes: usize = 0;
    let mut values: usize = 0;
    for object in objects {
        match object {
            ObjectKind::Bytes { len, .. } => bytes = bytes.saturating_add(*len),
            ObjectKind::Values { len, .. } => values = values.saturating_add(*len),
        }
    }
    (bytes, values)
}

/// So many times a value behind those that are there. An error where memory ran out.
fn grow<T: Copy + Drop>(elements: &mut Vec<T>, count: usize, value: T) -> Result<(), AllocError>
    ensures { OnOk result (elements.new.items ≡ elements.old.items ++ replicate count value) }
{
    match elements.len().checked_add(count) {
        Some(end) => elements.resize(end, value),
        None => Err(AllocError),
    }
}

/// An object of bytes behind the others: zero bytes where they are set. An error where memory ran out.
fn add_bytes(
    len: usize,
    set: bool,
    bytes: &mut Vec<u8>,
    marks: &mut Vec<bool>,
    places: &mut Vec<StoredObject>,
) -> Result<(), AllocError>
    ensures bytes { OnOk result (bytes.new.items ≡ bytes.old.items ++ replicate len 0) }
    ensures marks { OnOk result (marks.new.items ≡ marks.old.items ++ replicate len set) }
    ensures places { OnOk result (places.new.items ≡ places.old.items ++ stored.Bytes (length bytes.old.items) len ∷ []) }
{
    let from = bytes.len();
    grow(bytes, len, 0)?;
    grow(marks, len, set)?;
    places.push(StoredObject::Bytes { from, len })?;
    Ok(())
}

/// An object of values behind the others, of which none is set. An error where memory ran out.
fn add_values(
    len: usize,
    holds: AccessType,
    values: &mut Vec<Option<CValue>>,
    places: &mut Vec<StoredObject>,
) -> Result<(), AllocError>
    ensures values { OnOk result (values.new.items ≡ values.old.items ++ replicate len None) }
    ensures places { OnOk result (places.new.items ≡ places.old.items ++ stored.Values (length values.old.items) len holds ∷ []) }
{
    let from = values.len();
    grow(values, len, None)?;
    places.push(StoredObject::Values { from, len, holds })?;
    Ok(())
}

/// An object behind the others. An error where memory ran out.
pub(crate) fn add(
    kind: ObjectKind,
    bytes: &mut Vec<u8>,
    marks: &mut Vec<bool>,
    values: &mut Vec<Option<CValue>>,
    places: &mut Vec<StoredObject>,
) -> Result<(), AllocError>
    requires { IsLaidOut places.old.items bytes.old.items marks.old.items values.old.items }
    ensures { OnOk result (Adds kind places.old.items bytes.old.items marks.old.items values.old.items places.new.items bytes.new.items marks.new.items values.new.items) }
{
    match kind {
        ObjectKind::Bytes { len, set } => add_bytes(len, set, bytes, marks, places),
        ObjectKind::Values { len, holds } => add_values(len, holds, values, places),
    }
}
