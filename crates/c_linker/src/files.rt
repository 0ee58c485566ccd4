//! Files, one behind the other (C89, 3.7).

ghost use Rattle.std.specs.Prelude.{ℕ, length};
ghost use Rattle.c_tree.specs.Linking as tree;
ghost use Rattle.first_names.specs.FirstNames.{first_of};
ghost use Rattle.c_linker.specs.LinkedParts.{LinksPart};

use crate::functions::link_functions;
use crate::names::link_names;
use c_tree::file::CFile;
use expression_linker::{LinkFail, NameScope};
use first_names::FirstNames;
use linked_programs::{LinkedFunction, LinkedObject};
use plain_data::Items;
use std::alloc::Global;

/// Links a file behind others.
fn link_file<'a>(
    alloc: Global,
    names: &mut NameScope<'a>,
    numbers: &FirstNames<'_, usize>,
    places: &FirstNames<'_, usize>,
    file: &'a CFile,
    functions: &mut Items<LinkedFunction>,
    objects: &mut Items<LinkedObject>,
) -> Result<(), LinkFail>
    ensures { (own : ℕ) → LinksPart own result (tree.linked_file (first_of numbers.now) (first_of places.now) own (length objects.old) file.now) functions.old functions.new objects.old objects.new }
{
    link_names(alloc, &mut names.file, numbers, places, objects, file)?;
    link_functions(
        alloc,
        names,
        numbers,
        file.functions.as_slice(),
        functions,
        objects,
    )
}

/// Links files behind others, each by its own names.
fn link_by_names<'a>(
    alloc: Global,
    names: &mut NameScope<'a>,
    numbers: &FirstNames<'_, usize>,
    places: &FirstNames<'_, usize>,
    files: &'a [CFile],
    functions: &mut Items<LinkedFunction>,
    objects: &mut Items<LinkedObject>,
) -> Result<(), LinkFail>
    ensures { (own : ℕ) → LinksPart own result (tree.linked_files (first_of numbers.now) (first_of places.now) own (length objects.old) files.now) functions.old functions.new objects.old objects.new }
{
    for file in files {
        link_file(alloc, names, numbers, places, file, functions, objects)?;
    }
    Ok(())
}

/// Links files behind others.
pub(crate) fn link_each(
    alloc: Global,
    numbers: &FirstNames<'_, usize>,
    places: &FirstNames<'_, usize>,
    files: &[CFile],
    functions: &mut Items<LinkedFunction>,
    objects: &mut Items<LinkedObject>,
) -> Result<(), LinkFail>
    ensures { (own : ℕ) → LinksPart own result (tree.linked_files (first_of numbers.now) (first_of places.now) own (length objects.old) files.now) functions.old functions.new objects.old objects.new }
{
    let mut names = NameScope::new(alloc);
    link_by_names(
        alloc, &mut names, numbers, places, files, functions, objects,
    )
}
