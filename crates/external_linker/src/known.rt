//! External objects by their names (C89, 3.1.2.2).

ghost use Rattle.std.specs.Prelude.{◌≡◌, IfOk, OnOk};
ghost use Rattle.c_tree.specs.Linking as tree;
ghost use Rattle.external_linker.specs.Externals.{external_of, externals_of, AreNumbered};

use crate::starts::{ExternalObject, declared, merged};
use c_tree::file::{CFile, CObject};
use first_names::FirstNames;
use std::alloc::{AllocError, Global};

/// The external objects of files.
#[derive(Drop)]
pub struct Externals<'a> {
    /// The objects, in the order in which their names are first seen.
    pub objects: Vec<ExternalObject<'a>>,
    /// The number of each, by its name.
    pub numbers: FirstNames<'a, usize>,
}

/// Adds an object to those that are known.
fn add<'a>(
    objects: &mut Vec<ExternalObject<'a>>,
    numbers: &mut FirstNames<'a, usize>,
    new: ExternalObject<'a>,
) -> Result<(), AllocError>
    requires { AreNumbered numbers.old (externals_of objects.old.items) }
    ensures objects { OnOk result (externals_of objects.new.items ≡ tree.with_external (external_of new.entry) (externals_of objects.old.items)) }
    ensures numbers { OnOk result (AreNumbered numbers.new (externals_of objects.new.items)) }
{
    match numbers.get(new.name) {
        Some(number) => {
            let known = objects[number];
            objects[number] = merged(known, new);
            Ok(())
        }
        None => {
            numbers.give(new.name, objects.len())?;
            objects.push(new)?;
            Ok(())
        }
    }
}

/// Adds the objects of a file to those that are known.
fn add_all<'a>(
    objects: &mut Vec<ExternalObject<'a>>,
    numbers: &mut FirstNames<'a, usize>,
    list: &'a [CObject],
) -> Result<(), AllocError>
    requires { AreNumbered numbers.old (externals_of objects.old.items) }
    ensures objects { OnOk result (externals_of objects.new.items ≡ tree.with_externals (externals_of objects.old.items) list.now) }
    ensures numbers { OnOk result (AreNumbered numbers.new (externals_of objects.new.items)) }
{
    for object in list {
        add(objects, numbers, declared(object))?;
    }
    Ok(())
}

/// The external objects of files.
pub fn known_externals<'a>(alloc: Global, files: &'a [CFile]) -> Result<Externals<'a>, AllocError>
    ensures objects { IfOk result (λ made. externals_of made.objects.items ≡ tree.externals files.now) }
    ensures numbers { IfOk result (λ made. AreNumbered made.numbers (tree.externals files.now)) }
{
    let mut objects = Vec::new(alloc);
    let mut numbers = FirstNames::new(alloc);
    for file in files {
        add_all(&mut objects, &mut numbers, file.objects.as_slice())?;
    }
    Ok(Externals { objects, numbers })
}
