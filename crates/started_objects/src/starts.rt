//! What objects start with (C89, 3.1.2.4 and 3.5.7).

ghost use Rattle.std.specs.Prelude.{◌≡◌, Some, Ok, length, map, slice_get, slice_set, IfOk};
ghost use Rattle.c_tree.specs.declared.outcome.CValue.TheVariants.{Pointer};
ghost use Rattle.c_tree.specs.declared.types.ListType.{ListType};
ghost use Rattle.c_tree.specs.Access.{ToField, ToList, NumberField};
ghost use Rattle.c_tree.specs.Declarations.{unset_values};
ghost use Rattle.c_tree.specs.LibraryArguments.{text_stored};
ghost use Rattle.c_tree.specs.Objects.{store_through, Values};
ghost use Rattle.linked_programs.specs.LinkedPrograms.{object_of};
ghost use Rattle.started_objects.specs.FirstObjects.{first_object, HasBytes, HasField};

use crate::kinds::kinds_of;
use c_tree::outcome::CValue;
use linked_programs::LinkedObject;
use run_bytes::{AccessType, FieldType, RunBytes};
use std::alloc::{AllocError, Global};

/// Stores bytes at the start of an object that has as many.
fn put_bytes(number: usize, bytes: &[u8], run: &mut RunBytes)
    requires { HasBytes run.old number (length bytes.now) }
    ensures { text_stored run.old (Pointer number 0) bytes.now ≡ Ok run.new }
{
    let start = CValue::Pointer {
        object: number,
        offset: 0,
    };
    match run.put_text(start, bytes) {
        Ok(()) => (),
        Err(_) => unreachable!(),
    }
}

/// Stores a value in a field of a list as it is, whether the field holds a number or a pointer.
fn put_field(number: usize, offset: usize, value: CValue, run: &mut RunBytes)
    requires { HasField run.old number offset }
    ensures { store_through run.old (Pointer number offset) (ToField NumberField) value ≡ Ok run.new }
{
    match run.write(number, offset, AccessType::Field(FieldType::Number), value) {
        Ok(()) => (),
        Err(_) => unreachable!(),
    }
}

/// Gives a list of which no field is set the values that its fields start with.
fn put_fields(number: usize, fields: &[Option<CValue>], run: &mut RunBytes)
    requires { (type : ListType) × (slice_get run.old number ≡ Some (unset_values (ToList type) (length fields.now))) }
    ensures { (type : ListType) → slice_get run.old number ≡ Some (unset_values (ToList type) (length fields.now)) →
        run.new ≡ slice_set run.old number (Values (record { type = ToList type; values = fields.now })) }
{
    for (offset, field) in fields.iter().enumerate() {
        if let Some(value) = field {
            put_field(number, offset, *value, run);
        }
    }
}

/// Gives an object, as it was made, what it starts with.
fn start(number: usize, object: &LinkedObject, run: &mut RunBytes)
    requires { slice_get run.old number ≡ Some (first_object object.now) }
    ensures { run.new ≡ slice_set run.old number (object_of object.now) }
{
    match object {
        LinkedObject::Plain(_) => (),
        LinkedObject::Image { bytes, .. } => put_bytes(number, bytes.as_slice(), run),
        LinkedObject::List { fields, .. } => put_fields(number, fields.as_slice(), run),
    }
}

/// Gives all objects, as they were made, what they start with.
fn start_all(objects: &[LinkedObject], run: &mut RunBytes)
    requires { run.old ≡ map first_object objects.now }
    ensures { run.new ≡ map object_of objects.now }
{
    for (number, object) in objects.iter().enumerate() {
        start(number, object, run);
    }
}

/// The objects of a run as they stand before its first step, one behind the other. An error where memory ran out.
pub fn objects_at_start(alloc: Global, objects: &[LinkedObject]) -> Result<RunBytes, AllocError>
    ensures { IfOk result (λ run. run ≡ map object_of objects.now) }
{
    let kinds = kinds_of(alloc, objects)?;
    let mut run = RunBytes::new(alloc, kinds.as_slice())?;
    start_all(objects, &mut run);
    Ok(run)
}
