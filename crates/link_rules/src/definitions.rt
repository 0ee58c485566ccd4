//! Functions that are defined twice, and objects with two images (C89, 3.7 and 3.7.2).

ghost use Rattle.std.specs.Prelude.{◌≡◌, ◌++◌, ◌||◌, bytes_eq, option_map, option_to_list, IfOk, OnOk};
ghost use Rattle.c_tree.specs.Builtins.{builtin_names};
ghost use Rattle.c_tree.specs.Linking as tree;
ghost use Rattle.expression_linker.specs.StringsSeen.{texts};
ghost use Rattle.link_rules.specs.Definitions.{imaged_name};

use crate::names::{add_seen, is_one, same};
use c_tree::file::{CFile, CObject};
use first_names::FirstNames;
use function_numbers::builtin_names;
use std::alloc::{AllocError, Global};

/// Whether one of some names stands twice.
fn repeats(alloc: Global, names: &[&[u8]]) -> Result<bool, AllocError>
    ensures { IfOk result (λ twice. twice ≡ tree.repeats (texts names.now)) }
{
    let mut seen = FirstNames::new(alloc);
    for name in names {
        if is_one(&seen, name) {
            return Ok(true);
        }
        add_seen(&mut seen, name)?;
    }
    Ok(false)
}

/// Whether a name is one of the library's.
fn is_builtin(name: &[u8]) -> bool
    ensures { result ≡ tree.any_of (bytes_eq name.now) builtin_names }
{
    for builtin in builtin_names() {
        if same(name, builtin) {
            return true;
        }
    }
    false
}

/// Whether one of some names is.
fn some_builtin(names: &[&[u8]]) -> bool
    ensures { result ≡ tree.any_of (λ name. tree.any_of (bytes_eq name) builtin_names) (texts names.now) }
{
    for name in names {
        if is_builtin(name) {
            return true;
        }
    }
    false
}

/// The name of an object that is given an image.
fn imaged_name(object: &CObject) -> Option<&[u8]>
    ensures { option_map (λ name. name.now) result ≡ imaged_name object.now }
{
    match object {
        CObject::Integers(name, _, Some(_)) => Some(name.as_slice()),
        CObject::Chars(name, _, Some(_)) => Some(name.as_slice()),
        CObject::Integers(_, _, None) => None,
        CObject::Chars(_, _, None) => None,
    }
}

/// Puts a name, if there is one, behind others.
#[tactic(auto, using(std::proofs::lemmas::Grind::common_steps))]
fn put_name<'a>(names: &mut Vec<&'a [u8]>, name: Option<&'a [u8]>) -> Result<(), AllocError>
    ensures { OnOk result (texts names.new.items ≡ texts names.old.items ++ option_to_list (option_map (λ name. name.now) name.entry)) }
{
    match name {
        Some(name) => {
            names.push(name)?;
            Ok(())
        }
        None => Ok(()),
    }
}

/// Puts the names of the objects of a file that are given images behind others.
#[tactic(auto, using(crate::proofs::RuleLaws::rule_laws, std::proofs::lemmas::Grind::common_steps))]
fn put_imaged<'a>(names: &mut Vec<&'a [u8]>, objects: &'a [CObject]) -> Result<(), AllocError>
    ensures { OnOk result (texts names.new.items ≡ texts names.old.items ++ tree.imaged_names objects.now) }
{
    for object in objects {
        put_name(names, imaged_name(object))?;
    }
    Ok(())
}

/// The names of the objects that files give images.
#[tactic(auto, using(crate::proofs::RuleLaws::rule_laws, std::proofs::lemmas::Grind::common_steps))]
fn imaged_names(alloc: Global, files: &[CFile]) -> Result<Vec<&[u8]>, AllocError>
    ensures { IfOk result (λ names. texts names.items ≡ tree.all_imaged files.now) }
{
    let mut names = Vec::new(alloc);
    for file in files {
        put_imaged(&mut names, file.objects.as_slice())?;
    }
    Ok(names)
}

/// Whether a function is defined twice or under a name of the library, or an object has two images.
pub(crate) fn defined_again(
    alloc: Global,
    defined: &[&[u8]],
    files: &[CFile],
) -> Result<bool, AllocError>
    ensures { IfOk result (λ again. again ≡ (tree.defined_again (texts defined.now) || tree.repeats (tree.all_imaged files.now))) }
{
    let functions = repeats(alloc, defined)? || some_builtin(defined);
    let imaged = imaged_names(alloc, files)?;
    let images = repeats(alloc, imaged.as_slice())?;
    Ok(functions || images)
}
