//! How the objects of a linked program are made, before they are given what they start with (C89, 3.1.2.4).

ghost use Rattle.std.specs.Prelude.{◌≡◌, map, IfOk};
ghost use Rattle.run_bytes.specs.Accesses.{object_at_first};
ghost use Rattle.started_objects.specs.FirstObjects.{first_object};

use linked_programs::LinkedObject;
use run_bytes::{AccessType, ObjectKind};
use std::alloc::{AllocError, Global};

/// How an object is made: so many bytes or values that there is room for what it starts with.
fn kind_of(object: &LinkedObject) -> ObjectKind
    ensures { object_at_first result ≡ first_object object.now }
{
    match object {
        LinkedObject::Plain(kind) => *kind,
        LinkedObject::Image { size, bytes } => ObjectKind::Bytes {
            len: bytes.len().max(*size),
            set: true,
        },
        LinkedObject::List { holds, fields } => ObjectKind::Values {
            len: fields.len(),
            holds: AccessType::List(*holds),
        },
    }
}

/// How objects are made. An error where memory ran out.
pub(crate) fn kinds_of(
    alloc: Global,
    objects: &[LinkedObject],
) -> Result<Vec<ObjectKind>, AllocError>
    ensures { IfOk result (λ kinds. map object_at_first kinds.items ≡ map first_object objects.now) }
{
    let mut kinds = Vec::with_capacity(alloc, objects.len())?;
    for object in objects {
        kinds.push(kind_of(object))?;
    }
    Ok(kinds)
}
