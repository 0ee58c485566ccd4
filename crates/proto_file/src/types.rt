//! The words of types (C89, 3.5.2).

ghost use Rattle.std.specs.Prelude.{◌≡◌};
ghost use Rattle.c_text.specs.Types.{result_word, parameter_front};
ghost use Rattle.prototype_laws.specs.Reading as spec;

use c_tree::types::{FunctionType, ParameterType, ResultType};

/// The word of what a function gives.
pub(crate) fn result_word(of: ResultType) -> &'static [u8]
    ensures { result.now ≡ result_word of }
{
    match of {
        ResultType::Int => b"int",
        ResultType::Integer => b"integer",
        ResultType::Logical => b"logical",
        ResultType::Void => b"VOID",
    }
}

/// A parameter's type, with what stands before its name.
pub(crate) fn parameter_front(of: ParameterType) -> &'static [u8]
    ensures { result.now ≡ parameter_front of }
{
    match of {
        ParameterType::Integers => b"integer *",
        ParameterType::Logicals => b"logical *",
        ParameterType::Chars => b"char *",
        ParameterType::Length => b"ftnlen ",
        ParameterType::Int => b"int ",
        ParameterType::Function(FunctionType::Subroutine) => b"S_fp ",
        ParameterType::Function(FunctionType::Integer) => b"I_fp ",
        ParameterType::Function(FunctionType::Logical) => b"L_fp ",
        ParameterType::Function(FunctionType::Unknown) => b"U_fp ",
    }
}

/// What a function gives, by its word.
#[tactic(auto, unfolding(prototype_laws::specs::Reading::result_named))]
pub(crate) fn result_named(word: &[u8]) -> Option<ResultType>
    ensures { result ≡ spec.result_named word.now }
{
    if word == b"int".as_slice() {
        Some(ResultType::Int)
    } else if word == b"integer".as_slice() {
        Some(ResultType::Integer)
    } else if word == b"logical".as_slice() {
        Some(ResultType::Logical)
    } else if word == b"VOID".as_slice() {
        Some(ResultType::Void)
    } else {
        None
    }
}

/// A pointer to a function, by its word.
#[tactic(auto, unfolding(prototype_laws::specs::Reading::function_named))]
fn function_named(word: &[u8]) -> Option<ParameterType>
    ensures { result ≡ spec.function_named word.now }
{
    if word == b"S_fp".as_slice() {
        Some(ParameterType::Function(FunctionType::Subroutine))
    } else if word == b"I_fp".as_slice() {
        Some(ParameterType::Function(FunctionType::Integer))
    } else if word == b"L_fp".as_slice() {
        Some(ParameterType::Function(FunctionType::Logical))
    } else if word == b"U_fp".as_slice() {
        Some(ParameterType::Function(FunctionType::Unknown))
    } else {
        None
    }
}

/// The type of a parameter, by its word.
#[tactic(auto, unfolding(prototype_laws::specs::Reading::type_named))]
pub(crate) fn type_named(word: &[u8]) -> Option<ParameterType>
    ensures { result ≡ spec.type_named word.now }
{
    if word == b"integer".as_slice() {
        Some(ParameterType::Integers)
    } else if word == b"logical".as_slice() {
        Some(ParameterType::Logicals)
    } else if word == b"char".as_slice() {
        Some(ParameterType::Chars)
    } else if word == b"ftnlen".as_slice() {
        Some(ParameterType::Length)
    } else if word == b"int".as_slice() {
        Some(ParameterType::Int)
    } else {
        function_named(word)
    }
}
