//! The declarations at the head of a function, linked one after the other: each by the names that are declared before it (C89, 3.1.2.1 and 3.5).

ghost use Rattle.std.specs.Prelude.{◌≡◌, ℕ, List, ◌∷◌, ◌++◌, [], map, OnOk};
ghost use Rattle.c_tree.specs.Declarations as tree;
ghost use Rattle.c_tree.specs.Linking as linking;
ghost use Rattle.expression_linker.specs.NamesInScope.{scope_of};
ghost use Rattle.first_names.specs.FirstNames.{first_of};
ghost use Rattle.linked_programs.specs.LinkedPrograms.{object_of};
ghost use Rattle.function_linker.specs.NamesBehind.{scope_behind, GivesNames};

use crate::numbers::{NextNumbers, numbers_behind_one};
use c_tree::declaration::CLocal;
use declared_names::{give_automatic, give_extern, give_static};
use declared_objects::static_object;
use expression_linker::NameScope;
use first_names::FirstNames;
use linked_programs::LinkedObject;
use plain_data::Items;
use std::alloc::{AllocError, Global};

/// Puts the object of a declaration, if it lasts for the whole run, behind others.
#[tactic(auto, using(std::proofs::lemmas::Grind::common_steps))]
fn put_static(
    alloc: Global,
    names: &NameScope<'_>,
    first: usize,
    local: &CLocal,
    objects: &mut Items<LinkedObject>,
) -> Result<(), AllocError>
    ensures { OnOk result (map object_of objects.new ≡ map object_of objects.old ++ linking.objects_of (scope_of names.now) first (tree.declared_statics (local.now ∷ []))) }
{
    match static_object(alloc, names, first, local)? {
        Some(object) => objects.push(object),
        None => Ok(()),
    }
}

/// Gives the name of a declaration what it stands for.
fn give_local<'a>(
    names: &mut NameScope<'a>,
    numbers: &FirstNames<'_, usize>,
    at: NextNumbers,
    local: &'a CLocal,
) -> Result<(), AllocError>
    ensures given { OnOk result (GivesNames (first_of numbers.now) at (local.now ∷ []) names.old names.new) }
    ensures file { (q : List ℕ) → first_of names.new.file q ≡ first_of names.old.file q }
{
    give_static(&mut names.lasting, at.lasting, local)?;
    give_automatic(&mut names.frame, at.frame, local)?;
    give_extern(&mut names.functions, numbers, local)
}

/// Puts the objects of declarations that last for the whole run behind others, and gives the names what they stand for.
pub(crate) fn put_locals<'a>(
    alloc: Global,
    names: &mut NameScope<'a>,
    numbers: &FirstNames<'_, usize>,
    start: NextNumbers,
    locals: &'a [CLocal],
    objects: &mut Items<LinkedObject>,
) -> Result<(), AllocError>
    ensures objects { OnOk result (map object_of objects.new ≡ map object_of objects.old ++ linking.lasting (scope_behind (first_of numbers.now) names.old start) start.string [] locals.now) }
    ensures given { OnOk result (GivesNames (first_of numbers.now) start locals.now names.old names.new) }
    ensures file { (q : List ℕ) → first_of names.new.file q ≡ first_of names.old.file q }
{
    let mut at = start;
    for local in locals {
        put_static(alloc, names, at.string, local, objects)?;
        give_local(names, numbers, at, local)?;
        at = numbers_behind_one(at, local)?;
    }
    Ok(())
}
