//! The FORTRAN names of functions of C.

ghost use Rattle.std.specs.Prelude.{◌≡◌, IfOk};
ghost use Rattle.call_lines.specs.LineShapes.{named_so, without_end, fortran_name};

use c_names::external_name;
use f_tree::Text;
use plain_data::Items;
use std::alloc::{AllocError, Global};

/// A name, where C has the other one for it.
#[tactic(auto, unfolding(crate::specs::LineShapes::named_so))]
fn named_so(alloc: Global, given: &[u8], name: &[u8]) -> Result<Option<Text>, AllocError>
    ensures { IfOk result (λ found. found ≡ named_so given.now name.now) }
{
    let made = external_name(alloc, name)?;
    if made.as_slice() == given {
        Ok(Some(Items::from_slice(alloc, name)?))
    } else {
        Ok(None)
    }
}

/// A name without so many bytes at its end.
#[tactic(auto, unfolding(crate::specs::LineShapes::without_end))]
fn without_end(count: usize, given: &[u8]) -> &[u8]
    ensures { result.now ≡ without_end count given.now }
{
    &given[..given.len().saturating_sub(count)]
}

/// The FORTRAN name for which C has this one, if there is such a name.
#[tactic(auto, unfolding(crate::specs::LineShapes::fortran_name, f_tree::specs::Attributes::first_of_two))]
pub(crate) fn fortran_name(alloc: Global, given: &[u8]) -> Result<Option<Text>, AllocError>
    ensures { IfOk result (λ found. found ≡ fortran_name given.now) }
{
    match named_so(alloc, given, without_end(1, given))? {
        Some(name) => Ok(Some(name)),
        None => named_so(alloc, given, without_end(2, given)),
    }
}
