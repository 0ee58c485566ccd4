//! How many bytes objects have.

ghost use Rattle.std.specs.Prelude.{◌≡◌};
ghost use Rattle.c_tree.specs.Linking.{bytes_of_object};
ghost use Rattle.linked_programs.specs.LinkedPrograms.{object_of};

use linked_programs::LinkedObject;
use run_bytes::ObjectKind;

/// How many bytes an object has.
#[tactic(auto, using(crate::proofs::SizeLaws::size_laws))]
pub fn bytes_in(object: &LinkedObject) -> usize
    ensures { result ≡ bytes_of_object (object_of object.now) }
{
    match object {
        LinkedObject::Plain(ObjectKind::Bytes { len, .. }) => *len,
        LinkedObject::Image { size, bytes } if bytes.len() < *size => *size,
        LinkedObject::Image { bytes, .. } => bytes.len(),
        LinkedObject::Plain(ObjectKind::Values { .. }) | LinkedObject::List { .. } => 0,
    }
}
