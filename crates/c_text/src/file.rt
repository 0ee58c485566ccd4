//! Functions and files.
ghost use Rattle.std.specs.Prelude.{◌≡◌, ◌++◌, OnOk, IfOk, codes};
ghost use Rattle.c_text.specs.Printed.{kind_of_result, function_kind, function_front, function_head, function_end, printed_function, printed_functions, printed};

use crate::local::{print_constants, print_locals, print_objects, print_params};
use crate::phrase::{Phrase, letters};
use crate::statement::print_body;
use crate::types::result_word;
use c_tree::file::{CFile, CFunction};
use c_tree::types::ResultType;
use std::alloc::{AllocError, Global};

/// What a function is of by its result, where the house form says it.
#[tactic(auto, unfolding(crate::specs::Printed::kind_of_result))]
fn kind_of_result(of: ResultType) -> &'static [u8]
    ensures { result.now ≡ kind_of_result of }
{
    match of {
        ResultType::Int => b"/* Subroutine */ ",
        ResultType::Integer | ResultType::Logical => b"",
        ResultType::Void => b"/* Character */ ",
    }
}

/// What a function is of, where the house form says it.
#[tactic(auto, unfolding(crate::specs::Printed::function_kind))]
fn function_kind(name: &[u8], of: ResultType) -> &'static [u8]
    ensures { result.now ≡ function_kind name.now of }
{
    if name == b"MAIN__".as_slice() {
        b"/* Main program */ "
    } else {
        kind_of_result(of)
    }
}

/// Appends the first line of a function up to its name.
#[tactic(auto, unfolding(crate::specs::Printed::function_front))]
fn print_function_front(function: &CFunction, out: &mut Vec<u8>) -> Result<(), AllocError>
    ensures { OnOk result (out.new.items ≡ out.old.items ++ function_front function.now) }
{
    out.extend_from_slice(function_kind(function.name.as_slice(), function.result))?;
    out.extend_from_slice(result_word(function.result))?;
    out.extend_from_slice(b" ")
}

/// Appends the first line of a function, without its end.
#[tactic(auto, unfolding(crate::specs::Printed::function_head))]
fn print_function_head(function: &CFunction, out: &mut Vec<u8>) -> Result<(), AllocError>
    ensures { OnOk result (out.new.items ≡ out.old.items ++ function_head function.now) }
{
    print_function_front(function, out)?;
    out.extend_from_slice(function.name.as_slice())?;
    out.push(b'(')?;
    print_params(function.params.as_slice(), out)?;
    out.extend_from_slice(b")")
}

/// Appends the last line of a function.
#[tactic(auto, unfolding(crate::specs::Printed::function_end))]
fn print_function_end(function: &CFunction, out: &mut Vec<u8>) -> Result<(), AllocError>
    ensures { OnOk result (out.new.items ≡ out.old.items ++ function_end function.now) }
{
    out.extend_from_slice(b"} /* ")?;
    out.extend_from_slice(function.name.as_slice())?;
    out.extend_from_slice(b" */\n")
}

/// Appends a function, with the empty line before it.
#[tactic(auto, unfolding(crate::specs::Printed::printed_function))]
fn print_function(function: &CFunction, out: &mut Vec<u8>) -> Result<(), AllocError>
    ensures { OnOk result (out.new.items ≡ out.old.items ++ printed_function function.now) }
{
    out.extend_from_slice(b"\n")?;
    print_function_head(function, out)?;
    out.extend_from_slice(b"\n{\n")?;
    print_locals(function.locals.as_slice(), out)?;
    print_body(function.body.as_slice(), out)?;
    print_function_end(function, out)
}

/// Appends the functions of a file.
#[tactic(auto, using(std::proofs::lemmas::Grind::common_steps))]
fn print_functions(functions: &[CFunction], out: &mut Vec<u8>) -> Result<(), AllocError>
    ensures { OnOk result (out.new.items ≡ out.old.items ++ printed_functions functions.now) }
{
    for function in functions {
        print_function(function, out)?;
    }
    Ok(())
}

/// The text of a C tree in the house form. An error says that there is no memory for it.
pub fn print_c(alloc: Global, file: &CFile) -> Result<Vec<u8>, AllocError>
    ensures { IfOk result (λ text. text.items ≡ printed file.now) }
{
    let mut out = Vec::new(alloc);
    out.extend_from_slice(letters(Phrase::Head))?;
    print_objects(file.objects.as_slice(), &mut out)?;
    print_constants(file.constants.as_slice(), &mut out)?;
    print_functions(file.functions.as_slice(), &mut out)?;
    Ok(out)
}
