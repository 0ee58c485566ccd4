//! The main program.

ghost use Rattle.std.specs.Prelude.{◌≡◌, ◌&&◌};
ghost use Rattle.c_tree.specs.Linking as tree;
ghost use Rattle.link_rules.specs.Mains.{takes_as_main};

use crate::names::same;
use c_tree::file::{CFile, CFunction};

/// Whether a function is the main program.
fn is_main(function: &CFunction) -> bool
    ensures { result ≡ tree.named tree.main_name function.now }
{
    same(b"MAIN__", function.name.as_slice())
}

/// Whether a function has parameters.
fn takes_some(function: &CFunction) -> bool
    ensures { result ≡ tree.has_parameters function.now }
{
    function.params.len() > 0
}

/// Whether two things hold.
fn both(first: bool, second: bool) -> bool
    ensures { result ≡ (first && second) }
{
    first && second
}

/// Whether it is the main program and has parameters.
fn main_takes(function: &CFunction) -> bool
    ensures { result ≡ takes_as_main function.now }
{
    both(is_main(function), takes_some(function))
}

/// Whether one of some functions is the main program.
fn has_main(functions: &[CFunction]) -> bool
    ensures { result ≡ tree.any_of (tree.named tree.main_name) functions.now }
{
    for function in functions {
        if is_main(function) {
            return true;
        }
    }
    false
}

/// Whether one of some files has it.
#[tactic(auto, using(crate::proofs::AnyLaws::both, std::proofs::lemmas::Grind::common_steps))]
fn some_main(files: &[CFile]) -> bool
    ensures { result ≡ tree.any_of (tree.named tree.main_name) (tree.all_functions files.now) }
{
    for file in files {
        if has_main(file.functions.as_slice()) {
            return true;
        }
    }
    false
}

/// Whether one of some functions is the main program and has parameters.
fn has_taking_main(functions: &[CFunction]) -> bool
    ensures { result ≡ tree.any_of takes_as_main functions.now }
{
    for function in functions {
        if main_takes(function) {
            return true;
        }
    }
    false
}

/// Whether one of some files has it with parameters.
#[tactic(auto, using(crate::proofs::AnyLaws::both, std::proofs::lemmas::Grind::common_steps))]
fn some_taking_main(files: &[CFile]) -> bool
    ensures { result ≡ tree.any_of takes_as_main (tree.all_functions files.now) }
{
    for file in files {
        if has_taking_main(file.functions.as_slice()) {
            return true;
        }
    }
    false
}

/// Whether there is no main program, or one with parameters.
pub(crate) fn lacks_main(files: &[CFile]) -> bool
    ensures { result ≡ tree.lacks_main (tree.all_functions files.now) }
{
    !some_main(files) || some_taking_main(files)
}
