//! The names that a file declares (C89, 3.7).

ghost use Rattle.std.specs.Prelude.{◌∷◌, [], OnOk};
ghost use Rattle.c_tree.specs.Linking as tree;
ghost use Rattle.first_names.specs.FirstNames.{first_of};
ghost use Rattle.declared_names.specs.Hiding.{Hides};

use crate::things::{array_at, give, routine, variable};
use c_tree::file::{CConstant, CObject};
use expression_linker::NamedThing;
use first_names::FirstNames;
use run_bytes::AccessType;
use std::alloc::AllocError;

/// Gives a constant its object.
pub fn give_constant<'a>(
    names: &mut FirstNames<'a, NamedThing>,
    number: usize,
    constant: &'a CConstant,
) -> Result<(), AllocError>
    ensures { OnOk result (Hides names.old names.new (tree.known_objects number (tree.declared_constants (constant.now ∷ [])))) }
{
    let thing = variable(number, AccessType::Number);
    give(names, constant.name.as_slice(), thing)?;
    Ok(())
}

/// Gives an external object its number.
pub fn give_external<'a>(
    names: &mut FirstNames<'a, NamedThing>,
    numbers: &FirstNames<'_, usize>,
    object: &'a CObject,
) -> Result<(), AllocError>
    ensures { OnOk result (Hides names.old names.new (tree.known_externals (first_of numbers.now) (object.now ∷ []))) }
{
    match object {
        CObject::Integers(name, _, _) => {
            let number = numbers.get(name.as_slice());
            give(names, name.as_slice(), array_at(AccessType::Number, number))
        }
        CObject::Chars(name, _, _) => {
            let number = numbers.get(name.as_slice());
            give(names, name.as_slice(), array_at(AccessType::Char, number))
        }
    }
}

/// Gives a function of the file its number.
pub fn give_function<'a>(
    names: &mut FirstNames<'a, NamedThing>,
    numbers: &FirstNames<'_, usize>,
    name: &'a [u8],
) -> Result<(), AllocError>
    ensures { OnOk result (Hides names.old names.new (tree.known_functions (first_of numbers.now) (name.now ∷ []))) }
{
    give(names, name, routine(numbers.get(name)))?;
    Ok(())
}
