//! The names of the files of a source, as a refusal names them.

ghost use Rattle.std.specs.Prelude.{◌≡◌, IfOk};
ghost use Rattle.source_files.specs.SourceOnShelf.{name_of_place, name_of_file};

use f_tree::Text;
use f2c_outside::shelves::Place;
use plain_data::Items;
use std::alloc::{AllocError, Global};

/// The name of a place that is a file.
fn name_of_place(alloc: Global, place: &Place) -> Result<Option<Text>, AllocError>
    ensures { IfOk result (λ name. name ≡ name_of_place place.now) }
{
    match place {
        Place::File(name) => Ok(Some(Items::from_slice(alloc, name.as_bytes())?)),
        Place::Input | Place::Output | Place::Fault => Ok(None),
    }
}

/// The name of the file with this number: those of the places, and then those of the files that they include. A stream has no name.
///
/// # Errors
///
/// Want of memory.
pub fn name_of_file(
    alloc: Global,
    froms: &[Place],
    names: &[Text],
    file: usize,
) -> Result<Option<Text>, AllocError>
    ensures { IfOk result (λ name. name ≡ name_of_file froms.now names.now file) }
{
    if file < froms.len() {
        return name_of_place(alloc, &froms[file]);
    }
    match names.get(file - froms.len()) {
        None => Ok(None),
        Some(name) => Ok(Some(Items::from_slice(alloc, name.as_slice())?)),
    }
}
