//! Programs (C89, 3.1.2.2 and 3.7).

ghost use Rattle.c_tree.specs.Linking.{program};
ghost use Rattle.c_linker.specs.LinkedFiles.{LinksProgram};

use crate::files::link_each;
use c_tree::file::CFile;
use expression_linker::LinkFail;
use external_linker::{known_externals, put_external_objects};
use function_numbers::{defined_names, function_numbers};
use linked_programs::LinkedProgram;
use plain_data::Items;
use std::alloc::Global;

/// The program of files: their functions, and the external objects with those of each file behind them.
///
/// # Errors
/// A name in a function that stands for nothing, one that is no function's where a function is called, or a label that the function does not have; or want of
/// memory.
pub fn link_files(alloc: Global, files: &[CFile]) -> Result<LinkedProgram, LinkFail>
    ensures { LinksProgram result (program files.now) }
{
    let defined = defined_names(alloc, files)?;
    let numbers = function_numbers(alloc, defined.as_slice())?;
    let outside = known_externals(alloc, files)?;
    let mut objects = Items::new(alloc);
    put_external_objects(alloc, &mut objects, outside.objects.as_slice())?;
    let mut functions = Items::new(alloc);
    link_each(
        alloc,
        &numbers,
        &outside.numbers,
        files,
        &mut functions,
        &mut objects,
    )?;
    Ok(LinkedProgram { functions, objects })
}
