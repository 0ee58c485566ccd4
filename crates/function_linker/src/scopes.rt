//! The names of a function: its parameters, and then those that it declares (C89, 3.1.2.1 and 3.7.1).

ghost use Rattle.std.specs.Prelude.{◌≡◌, ℕ, List, ◌+◌, ◌++◌, [], length, map, OnOk, IfOk};
ghost use Rattle.c_tree.specs.Declarations as tree;
ghost use Rattle.c_tree.specs.Linking as linking;
ghost use Rattle.expression_linker.specs.NamesInScope.{scope_of};
ghost use Rattle.first_names.specs.FirstNames.{first_of};
ghost use Rattle.linked_programs.specs.LinkedPrograms.{object_of};
ghost use Rattle.declared_names.specs.Hiding.{Hides};
ghost use Rattle.function_linker.specs.LinkedFunctions.{file_names};

use crate::layouts::Places;
use crate::locals::put_locals;
use crate::numbers::NextNumbers;
use c_tree::declaration::CParam;
use c_tree::file::CFunction;
use declared_names::give_parameter;
use expression_linker::{NameScope, NamedThing};
use first_names::FirstNames;
use linked_programs::LinkedObject;
use plain_data::Items;
use std::alloc::{AllocError, Global};

/// Gives parameters their objects, and says the number behind these.
fn give_parameters<'a>(
    names: &mut FirstNames<'a, NamedThing>,
    first: usize,
    params: &'a [CParam],
) -> Result<usize, AllocError>
    ensures given { OnOk result (Hides names.old names.new (linking.known_objects first (tree.declared_parameters params.now))) }
    ensures behind { IfOk result (λ behind. behind ≡ first + length (tree.declared_parameters params.now)) }
{
    let mut next = first;
    for param in params {
        give_parameter(names, next, param)?;
        next = next.checked_add(1).ok_or(AllocError)?;
    }
    Ok(next)
}

/// Forgets the names of the function before.
fn forget_function(names: &mut NameScope<'_>)
    ensures lasting { (q : List ℕ) → first_of names.new.lasting q ≡ None }
    ensures frame { (q : List ℕ) → first_of names.new.frame q ≡ None }
    ensures functions { (q : List ℕ) → first_of names.new.functions q ≡ None }
    ensures file { (q : List ℕ) → first_of names.new.file q ≡ first_of names.old.file q }
{
    names.lasting.clear();
    names.frame.clear();
    names.functions.clear();
}

/// Gives the names of a function what they stand for, and puts its objects that last for the whole run behind others.
pub(crate) fn put_names<'a>(
    alloc: Global,
    names: &mut NameScope<'a>,
    numbers: &FirstNames<'_, usize>,
    base: usize,
    places: Places,
    function: &'a CFunction,
    objects: &mut Items<LinkedObject>,
) -> Result<(), AllocError>
    ensures objects { OnOk result (map object_of objects.new ≡ map object_of objects.old ++ linking.lasting (linking.local_scope (first_of numbers.now) base places.frame function.now.params (file_names names.old)) places.string [] function.now.locals) }
    ensures names { OnOk result (scope_of names.new ≡ linking.local_scope (first_of numbers.now) base places.frame function.now.params (file_names names.old) function.now.locals) }
    ensures file { (q : List ℕ) → first_of names.new.file q ≡ first_of names.old.file q }
{
    forget_function(names);
    let frame = give_parameters(&mut names.frame, places.frame, function.params.as_slice())?;
    let start = NextNumbers {
        lasting: base,
        string: places.string,
        frame,
    };
    put_locals(
        alloc,
        names,
        numbers,
        start,
        function.locals.as_slice(),
        objects,
    )
}
