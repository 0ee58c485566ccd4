//! The statement functions that are defined, with the types of their dummy arguments. Section 15.4.
#![tactic(auto)]

ghost use Rattle.std.specs.Prelude.{◌≡◌, OnOk, Some, List, ℕ, bytes_eq, option_map, if◌then◌else◌};
ghost use Rattle.std.specs.HashMap.{get_by};
ghost use Rattle.definition_judge.specs.KnownFunctions as spec;

use f_tree::Basic;
use indexmap::IndexMap;
use std::alloc::AllocError;

/// Notes the types of the dummy arguments of a function, in place of those that are known.
fn put_basics<'a>(
    functions: &mut IndexMap<&'a [u8], Vec<Basic>>,
    name: &'a [u8],
    basics: Vec<Basic>,
) -> Result<(), AllocError>
    ensures { OnOk result ((x : List ℕ)
        → get_by (λ k. bytes_eq x k.now) functions.new ≡ (if bytes_eq name.now x then Some basics else get_by (λ k. bytes_eq x k.now) functions.old)) }
{
    match functions.insert(name, basics) {
        Ok(_) => Ok(()),
        Err(_) => Err(AllocError),
    }
}

/// Notes a function, unless one of its name is defined already.
pub(crate) fn note_function<'a>(
    functions: &mut IndexMap<&'a [u8], Vec<Basic>>,
    name: &'a [u8],
    basics: Vec<Basic>,
) -> Result<(), AllocError>
    ensures { OnOk result ((x : List ℕ)
        → option_map (λ known. known.items) (get_by (λ k. bytes_eq x k.now) functions.new)
        ≡ spec.basics_or (option_map (λ known. known.items) (get_by (λ k. bytes_eq x k.now) functions.old)) (bytes_eq name.now x) basics.items) }
{
    match functions.get(name) {
        Some(_) => Ok(()),
        None => put_basics(functions, name, basics),
    }
}
