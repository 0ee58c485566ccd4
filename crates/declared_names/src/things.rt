//! Names that are given what they stand for (C89, 3.1.2.1).

ghost use Rattle.std.specs.Prelude.{◌≡◌, OnOk};
ghost use Rattle.c_tree.specs.Declarations as tree;
ghost use Rattle.c_tree.specs.Linking as linking;
ghost use Rattle.expression_linker.specs.NamesInScope.{named_term};
ghost use Rattle.run_bytes.specs.Accesses.{access_of};
ghost use Rattle.declared_names.specs.Hiding.{Hides, with_name};

use expression_linker::NamedThing;
use first_names::FirstNames;
use run_bytes::AccessType;
use std::alloc::AllocError;

/// Gives a name what it stands for, unless it stands for something before.
pub(crate) fn give<'a>(
    names: &mut FirstNames<'a, NamedThing>,
    name: &'a [u8],
    thing: NamedThing,
) -> Result<(), AllocError>
    ensures { OnOk result (Hides names.old names.new (with_name name.now (named_term thing))) }
{
    names.give(name, thing)?;
    Ok(())
}

/// A variable.
pub(crate) fn variable(object: usize, access: AccessType) -> NamedThing
    ensures { named_term result ≡ tree.variable (access_of access) object }
{
    NamedThing::Variable { object, access }
}

/// An array.
pub(crate) fn array(object: usize, access: AccessType) -> NamedThing
    ensures { named_term result ≡ tree.array (access_of access) object }
{
    NamedThing::Array { object, access }
}

/// A function by its number, if it has one.
pub(crate) fn routine(number: Option<usize>) -> NamedThing
    ensures { named_term result ≡ linking.routine number }
{
    match number {
        Some(number) => NamedThing::Routine(number),
        None => NamedThing::Missing,
    }
}

/// An array by its number, if it has one.
pub(crate) fn array_at(access: AccessType, number: Option<usize>) -> NamedThing
    ensures { named_term result ≡ linking.array_at (access_of access) number }
{
    match number {
        Some(number) => array(number, access),
        None => NamedThing::Missing,
    }
}
