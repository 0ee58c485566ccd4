//! The names that a function declares (C89, 3.5 and 3.7.1).

ghost use Rattle.std.specs.Prelude.{◌∷◌, [], OnOk};
ghost use Rattle.c_tree.specs.Declarations as tree;
ghost use Rattle.c_tree.specs.Linking.{known_objects, known_functions};
ghost use Rattle.first_names.specs.FirstNames.{first_of};
ghost use Rattle.declared_names.specs.Hiding.{Hides};

use crate::things::{array, give, routine, variable};
use c_tree::declaration::{CLocal, CParam};
use expression_linker::NamedThing;
use first_names::FirstNames;
use object_linker::parameter_access;
use run_bytes::{AccessType, PointedType};
use std::alloc::AllocError;

/// Gives a parameter its object.
pub fn give_parameter<'a>(
    names: &mut FirstNames<'a, NamedThing>,
    number: usize,
    param: &'a CParam,
) -> Result<(), AllocError>
    ensures { OnOk result (Hides names.old names.new (known_objects number (tree.declared_parameters (param.now ∷ [])))) }
{
    let thing = variable(number, parameter_access(param.of));
    give(names, param.name.as_slice(), thing)?;
    Ok(())
}

/// Gives the name of a declaration its object, if that lasts for the whole run.
pub fn give_static<'a>(
    names: &mut FirstNames<'a, NamedThing>,
    number: usize,
    local: &'a CLocal,
) -> Result<(), AllocError>
    ensures { OnOk result (Hides names.old names.new (known_objects number (tree.declared_statics (local.now ∷ [])))) }
{
    match local {
        CLocal::StaticNumber(_, name, _) => {
            give(names, name.as_slice(), variable(number, AccessType::Number))
        }
        CLocal::StaticNumbers(_, name, _, _) => {
            give(names, name.as_slice(), array(number, AccessType::Number))
        }
        CLocal::StaticChars(name, _, _) => {
            give(names, name.as_slice(), array(number, AccessType::Char))
        }
        CLocal::StaticList(of, name, _) => {
            give(
                names,
                name.as_slice(),
                variable(number, AccessType::List(*of)),
            )
        }
        _ => Ok(()),
    }
}

/// Gives the name of a declaration its object, if each call makes that anew.
pub fn give_automatic<'a>(
    names: &mut FirstNames<'a, NamedThing>,
    number: usize,
    local: &'a CLocal,
) -> Result<(), AllocError>
    ensures { OnOk result (Hides names.old names.new (known_objects number (tree.declared_automatics (local.now ∷ [])))) }
{
    match local {
        CLocal::Number(_, name) => {
            give(names, name.as_slice(), variable(number, AccessType::Number))
        }
        CLocal::Numbers(_, name, _) => {
            give(names, name.as_slice(), array(number, AccessType::Number))
        }
        CLocal::Chars(name, _) => { give(names, name.as_slice(), array(number, AccessType::Char)) }
        CLocal::Addresses(name, _) => {
            let access = AccessType::Pointer(PointedType::Char);
            give(names, name.as_slice(), array(number, access))
        }
        _ => Ok(()),
    }
}

/// Gives the name of a declaration its function, if it is one's.
pub fn give_extern<'a>(
    names: &mut FirstNames<'a, NamedThing>,
    numbers: &FirstNames<'_, usize>,
    local: &'a CLocal,
) -> Result<(), AllocError>
    ensures { OnOk result (Hides names.old names.new (known_functions (first_of numbers.now) (tree.declared_externs (local.now ∷ [])))) }
{
    match local {
        CLocal::Extern(_, name, _) => {
            give(
                names,
                name.as_slice(),
                routine(numbers.get(name.as_slice())),
            )
        }
        _ => Ok(()),
    }
}
