//! The names of the functions that files define (C89, 3.7.1).

ghost use Rattle.std.specs.Prelude.{◌≡◌, ◌++◌, IfOk, OnOk};
ghost use Rattle.c_tree.specs.Linking as tree;
ghost use Rattle.expression_linker.specs.StringsSeen.{texts};

use c_tree::file::{CFile, CFunction};
use std::alloc::{AllocError, Global};

/// Puts the names of functions behind others.
#[tactic(auto, using(crate::proofs::NameLaws::name_laws, std::proofs::lemmas::Grind::common_steps))]
fn put_names<'a>(names: &mut Vec<&'a [u8]>, functions: &'a [CFunction]) -> Result<(), AllocError>
    ensures { OnOk result (texts names.new.items ≡ texts names.old.items ++ tree.function_names functions.now) }
{
    for function in functions {
        names.push(function.name.as_slice())?;
    }
    Ok(())
}

/// The names of the functions that files define, in order: a function's number is its place.
#[tactic(auto, using(crate::proofs::NameLaws::name_laws, std::proofs::lemmas::Grind::common_steps))]
pub fn defined_names<'a>(alloc: Global, files: &'a [CFile]) -> Result<Vec<&'a [u8]>, AllocError>
    ensures { IfOk result (λ names. texts names.items ≡ tree.function_names (tree.all_functions files.now)) }
{
    let mut names = Vec::new(alloc);
    for file in files {
        put_names(&mut names, file.functions.as_slice())?;
    }
    Ok(names)
}
