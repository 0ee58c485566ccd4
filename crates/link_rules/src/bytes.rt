//! How many bytes a program may have.

ghost use Rattle.std.specs.Prelude.{◌≡◌, map, nat_lt};
ghost use Rattle.c_tree.specs.Linking as tree;
ghost use Rattle.linked_programs.specs.LinkedPrograms.{object_of, program_of};

use linked_programs::{LinkedObject, LinkedProgram};
use object_linker::bytes_in;

/// The bytes that a program may have.
const BYTE_LIMIT: usize = 268_435_456;

/// Whether objects have more bytes than a program may have.
#[tactic(auto, using(crate::proofs::ByteLaws::byte_laws))]
fn objects_are_too_large(objects: &[LinkedObject]) -> bool
    ensures { result ≡ nat_lt tree.byte_limit (tree.bytes_of_objects (map object_of objects.now)) }
{
    let mut left = BYTE_LIMIT;
    for object in objects {
        let bytes = bytes_in(object);
        if bytes > left {
            return true;
        }
        left -= bytes;
    }
    false
}

/// Whether the objects of a linked program have more bytes than it may have.
pub fn has_too_many_bytes(program: &LinkedProgram) -> bool
    ensures { result ≡ nat_lt tree.byte_limit (tree.bytes_of_objects (program_of program.now).objects) }
{
    objects_are_too_large(program.objects.as_slice())
}
