//! The strings of a function, and the numbers of its objects (C89, 3.1.2.4 and 3.1.4).

ghost use Rattle.std.specs.Prelude.{◌≡◌, ◌++◌, OnOk, IfOk};
ghost use Rattle.c_tree.specs.Declarations as tree;
ghost use Rattle.c_tree.specs.Linking.{strings_of};
ghost use Rattle.expression_linker.specs.StringsSeen.{texts};
ghost use Rattle.function_linker.specs.FrameParts.{strings_in, first_string, body_string, first_of_call};

use crate::numbers::{NextNumbers, numbers_behind_all, so_many_behind};
use body_strings::put_body_strings;
use c_tree::declaration::CLocal;
use c_tree::file::CFunction;
use declared_objects::put_list_strings;
use std::alloc::{AllocError, Global};

/// Where the objects of a function stand.
#[derive(Clone, Copy)]
pub(crate) struct Places {
    /// The number of its first string.
    pub string: usize,
    /// That of the first string of its statements.
    pub body: usize,
    /// That of the first object of a call.
    pub frame: usize,
}

/// Puts the strings to which lists point behind others.
#[tactic(auto, using(crate::proofs::CountLaws::strings_laws, std::proofs::lemmas::Grind::common_steps))]
fn put_strings_of_lists<'a>(out: &mut Vec<&'a [u8]>, locals: &'a [CLocal]) -> Result<(), AllocError>
    ensures { OnOk result (texts out.new.items ≡ texts out.old.items ++ strings_of (tree.declared_statics locals.now)) }
{
    for local in locals {
        put_list_strings(out, local)?;
    }
    Ok(())
}

/// The strings of a function.
#[tactic(auto, unfolding(crate::specs::FrameParts::strings_in), using(std::proofs::lemmas::Grind::common_steps))]
pub(crate) fn strings_in(alloc: Global, function: &CFunction) -> Result<Vec<&[u8]>, AllocError>
    ensures { IfOk result (λ made. texts made.items ≡ strings_in function.now) }
{
    let mut out = Vec::new(alloc);
    put_strings_of_lists(&mut out, function.locals.as_slice())?;
    put_body_strings(&mut out, function.body.as_slice())?;
    Ok(out)
}

/// Where the objects of a function stand, from a number on, by its strings.
pub(crate) fn places_of(
    base: usize,
    function: &CFunction,
    strings: &[&[u8]],
) -> Result<Places, AllocError>
    requires { texts strings.now ≡ strings_in function.now }
    ensures string { IfOk result (λ places. places.string ≡ first_string base function.now) }
    ensures body { IfOk result (λ places. places.body ≡ body_string base function.now) }
    ensures frame { IfOk result (λ places. places.frame ≡ first_of_call base function.now) }
{
    let start = NextNumbers {
        lasting: base,
        string: 0,
        frame: 0,
    };
    let behind = numbers_behind_all(start, function.locals.as_slice())?;
    let body = so_many_behind(behind.lasting, behind.string)?;
    let frame = so_many_behind(behind.lasting, strings.len())?;
    Ok(Places {
        string: behind.lasting,
        body,
        frame,
    })
}
