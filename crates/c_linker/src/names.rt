//! The names of a file, and the objects of its constants (C89, 3.1.2.1 and 3.7).

ghost use Rattle.std.specs.Prelude.{◌≡◌, ◌++◌, ◌∷◌, [], ℕ, List, length, map, OnOk};
ghost use Rattle.c_tree.specs.Linking as tree;
ghost use Rattle.c_tree.specs.Terms.{Unknown};
ghost use Rattle.declared_names.specs.Hiding.{Hides};
ghost use Rattle.expression_linker.specs.NamesInScope.{term_or};
ghost use Rattle.first_names.specs.FirstNames.{first_of};
ghost use Rattle.linked_programs.specs.LinkedPrograms.{object_of};
ghost use Rattle.c_linker.specs.LinkedParts.{constant_object};

use c_tree::file::{CConstant, CFile, CFunction, CObject};
use declared_names::{give_constant, give_external, give_function};
use expression_linker::NamedThing;
use first_names::FirstNames;
use linked_programs::LinkedObject;
use object_linker::number_image;
use plain_data::Items;
use std::alloc::{AllocError, Global};

/// Puts the objects of constants behind others, and gives each its name.
fn link_constants<'a>(
    alloc: Global,
    names: &mut FirstNames<'a, NamedThing>,
    objects: &mut Items<LinkedObject>,
    constants: &'a [CConstant],
) -> Result<(), AllocError>
    ensures names { OnOk result (Hides names.old names.new (tree.known_objects (length objects.old) (tree.declared_constants constants.now))) }
    ensures objects { OnOk result (map object_of objects.new ≡ map object_of objects.old ++ map constant_object constants.now) }
{
    for constant in constants {
        give_constant(names, objects.len(), constant)?;
        objects.push(number_image(alloc, Some(constant.value))?)?;
    }
    Ok(())
}

/// Gives the external objects of a file their numbers.
fn give_externals<'a>(
    names: &mut FirstNames<'a, NamedThing>,
    places: &FirstNames<'_, usize>,
    objects: &'a [CObject],
) -> Result<(), AllocError>
    ensures { OnOk result (Hides names.old names.new (tree.known_externals (first_of places.now) objects.now)) }
{
    for object in objects {
        give_external(names, places, object)?;
    }
    Ok(())
}

/// Gives the functions of a file their numbers.
fn give_functions<'a>(
    names: &mut FirstNames<'a, NamedThing>,
    numbers: &FirstNames<'_, usize>,
    functions: &'a [CFunction],
) -> Result<(), AllocError>
    ensures { OnOk result (Hides names.old names.new (tree.known_functions (first_of numbers.now) (tree.function_names functions.now))) }
{
    for function in functions {
        give_function(names, numbers, function.name.as_slice())?;
    }
    Ok(())
}

/// Gives the names that the include line declares their values.
fn give_included(names: &mut FirstNames<'_, NamedThing>) -> Result<(), AllocError>
    ensures { OnOk result ((q : List ℕ) → term_or (first_of names.old q) (tree.included q) ≡ term_or (first_of names.new q) Unknown) }
{
    names.give(b"TRUE_", NamedThing::Constant(1))?;
    names.give(b"FALSE_", NamedThing::Constant(0))?;
    Ok(())
}

/// The names of a file in place of those that were there, and the objects of its constants behind others.
pub(crate) fn link_names<'a>(
    alloc: Global,
    names: &mut FirstNames<'a, NamedThing>,
    numbers: &FirstNames<'_, usize>,
    places: &FirstNames<'_, usize>,
    objects: &mut Items<LinkedObject>,
    file: &'a CFile,
) -> Result<(), AllocError>
    ensures names { OnOk result ((q : List ℕ) → term_or (first_of names.new q) Unknown ≡ tree.file_scope (first_of numbers.now) (first_of places.now) (length objects.old) file.now q) }
    ensures objects { OnOk result (map object_of objects.new ≡ map object_of objects.old ++ map constant_object file.now.constants) }
{
    names.clear();
    link_constants(alloc, names, objects, file.constants.as_slice())?;
    give_externals(names, places, file.objects.as_slice())?;
    give_functions(names, numbers, file.functions.as_slice())?;
    give_included(names)?;
    Ok(())
}
