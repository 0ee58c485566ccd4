//! The functions of a file (C89, 3.7.1).

ghost use Rattle.std.specs.Prelude.{◌≡◌, ℕ, List, length};
ghost use Rattle.c_tree.specs.Linking as tree;
ghost use Rattle.first_names.specs.FirstNames.{first_of};
ghost use Rattle.function_linker.specs.LinkedFunctions.{file_names};
ghost use Rattle.c_linker.specs.LinkedParts.{LinksPart, alone};

use c_tree::file::CFunction;
use expression_linker::{LinkFail, NameScope};
use first_names::FirstNames;
use function_linker::link_function;
use linked_programs::{LinkedFunction, LinkedObject};
use plain_data::Items;
use std::alloc::Global;

/// Links a function behind others.
fn link_next<'a>(
    alloc: Global,
    names: &mut NameScope<'a>,
    numbers: &FirstNames<'_, usize>,
    function: &'a CFunction,
    functions: &mut Items<LinkedFunction>,
    objects: &mut Items<LinkedObject>,
) -> Result<(), LinkFail>
    ensures made { (own : ℕ) → LinksPart own result (alone (tree.linked_function (first_of numbers.now) own (file_names names.old) (length objects.old) function.now)) functions.old functions.new objects.old objects.new }
    ensures file { (q : List ℕ) → first_of names.new.file q ≡ first_of names.old.file q }
{
    let made = link_function(alloc, names, numbers, function, objects)?;
    functions.push(made)?;
    Ok(())
}

/// Links the functions of a file behind others.
pub(crate) fn link_functions<'a>(
    alloc: Global,
    names: &mut NameScope<'a>,
    numbers: &FirstNames<'_, usize>,
    list: &'a [CFunction],
    functions: &mut Items<LinkedFunction>,
    objects: &mut Items<LinkedObject>,
) -> Result<(), LinkFail>
    ensures { (own : ℕ) → LinksPart own result (tree.linked_functions (first_of numbers.now) own (file_names names.old) (length objects.old) list.now) functions.old functions.new objects.old objects.new }
{
    for function in list {
        link_next(alloc, names, numbers, function, functions, objects)?;
    }
    Ok(())
}
