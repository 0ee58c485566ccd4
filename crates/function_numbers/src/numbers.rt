//! The number of each function of a program and of the library, by its name (C89, 3.1.2.2).

ghost use Rattle.std.specs.Prelude.{◌≡◌, ◌++◌, ℕ, List, position, bytes_eq, IfOk};
ghost use Rattle.c_tree.specs.Builtins as tree;
ghost use Rattle.c_tree.specs.Linking.{routines};
ghost use Rattle.expression_linker.specs.StringsSeen.{texts};
ghost use Rattle.first_names.specs.FirstNames.{first_of};

use crate::builtins::builtin_names;
use first_names::FirstNames;
use std::alloc::{AllocError, Global};

/// Numbers names by their places; the first of equal names counts.
fn give_numbers<'a>(alloc: Global, names: &[&'a [u8]]) -> Result<FirstNames<'a, usize>, AllocError>
    ensures { IfOk result (λ numbers. (q : List ℕ) → first_of numbers q ≡ position (bytes_eq q) (texts names.now)) }
{
    let mut numbers = FirstNames::new(alloc);
    for (number, name) in names.iter().enumerate() {
        numbers.give(name, number)?;
    }
    Ok(numbers)
}

/// The names that are defined, and behind them those of the library.
#[tactic(auto, using(crate::proofs::NumberLaws::number_laws))]
fn all_names<'a>(alloc: Global, defined: &[&'a [u8]]) -> Result<Vec<&'a [u8]>, AllocError>
    ensures { IfOk result (λ names. texts names.items ≡ texts defined.now ++ tree.builtin_names) }
{
    let mut names = Vec::from_slice(alloc, defined)?;
    names.extend_from_slice(builtin_names())?;
    Ok(names)
}

/// The number of each function, by its name: those that are defined, and behind them those of the library.
pub fn function_numbers<'a>(
    alloc: Global,
    defined: &[&'a [u8]],
) -> Result<FirstNames<'a, usize>, AllocError>
    ensures { IfOk result (λ numbers. (q : List ℕ) → first_of numbers q ≡ routines (texts defined.now) q) }
{
    let names = all_names(alloc, defined)?;
    give_numbers(alloc, names.as_slice())
}
