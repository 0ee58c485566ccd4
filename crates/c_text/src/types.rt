//! The words of types.
ghost use Rattle.std.specs.Prelude.{◌≡◌};
ghost use Rattle.c_text.specs.Types.{number_word, result_word, function_word, block_word, parameter_front, parameter_word, argument_word, cast_word};

use c_tree::types::{
    ArgumentType, CastType, FunctionType, ListType, NumberType, ParameterType, ResultType,
};

/// The word of a type of numbers.
pub(crate) fn number_word(of: NumberType) -> &'static [u8]
    ensures { result.now ≡ number_word of }
{
    match of {
        NumberType::Integer => b"integer",
        NumberType::Logical => b"logical",
    }
}

/// The word of what a function gives.
pub(crate) fn result_word(of: ResultType) -> &'static [u8]
    ensures { result.now ≡ result_word of }
{
    match of {
        ResultType::Int => b"int",
        ResultType::Integer => b"integer",
        ResultType::Logical => b"logical",
        ResultType::Void => b"VOID",
    }
}

/// The word of a pointer to a function.
pub(crate) fn function_word(of: FunctionType) -> &'static [u8]
    ensures { result.now ≡ function_word of }
{
    match of {
        FunctionType::Subroutine => b"S_fp",
        FunctionType::Integer => b"I_fp",
        FunctionType::Logical => b"L_fp",
        FunctionType::Unknown => b"U_fp",
    }
}

/// The word of a list of the library.
pub(crate) fn list_word(of: ListType) -> &'static [u8]
    ensures { result.now ≡ block_word of }
{
    match of {
        ListType::Transfer => b"cilist",
        ListType::Internal => b"icilist",
        ListType::Open => b"olist",
        ListType::Close => b"cllist",
        ListType::Position => b"alist",
    }
}

/// A parameter's type, with what stands before its name.
pub(crate) fn parameter_front(of: ParameterType) -> &'static [u8]
    ensures { result.now ≡ parameter_front of }
{
    match of {
        ParameterType::Integers => b"integer *",
        ParameterType::Logicals => b"logical *",
        ParameterType::Chars => b"char *",
        ParameterType::Length => b"ftnlen ",
        ParameterType::Int => b"int ",
        ParameterType::Function(FunctionType::Subroutine) => b"S_fp ",
        ParameterType::Function(FunctionType::Integer) => b"I_fp ",
        ParameterType::Function(FunctionType::Logical) => b"L_fp ",
        ParameterType::Function(FunctionType::Unknown) => b"U_fp ",
    }
}

/// A parameter's type where no name follows.
pub(crate) fn parameter_word(of: ParameterType) -> &'static [u8]
    ensures { result.now ≡ parameter_word of }
{
    match of {
        ParameterType::Integers => b"integer *",
        ParameterType::Logicals => b"logical *",
        ParameterType::Chars => b"char *",
        ParameterType::Length => b"ftnlen",
        ParameterType::Int => b"int",
        ParameterType::Function(of) => function_word(of),
    }
}

/// The type of an argument in a declaration.
pub(crate) fn argument_word(of: ArgumentType) -> &'static [u8]
    ensures { result.now ≡ argument_word of }
{
    match of {
        ArgumentType::Parameter(of) => parameter_word(of),
        ArgumentType::List(ListType::Transfer) => b"cilist *",
        ArgumentType::List(ListType::Internal) => b"icilist *",
        ArgumentType::List(ListType::Open) => b"olist *",
        ArgumentType::List(ListType::Close) => b"cllist *",
        ArgumentType::List(ListType::Position) => b"alist *",
        ArgumentType::Addresses => b"address *",
    }
}

/// What stands between the parentheses of a cast.
pub(crate) fn cast_word(of: CastType) -> &'static [u8]
    ensures { result.now ≡ cast_word of }
{
    match of {
        CastType::Chars => b"char *",
        CastType::UnsignedChars => b"unsigned char *",
        CastType::Integers => b"integer *",
        CastType::Logicals => b"logical *",
        CastType::Length => b"ftnlen",
        CastType::Number => b"ftnint",
        CastType::Function(of) => function_word(of),
    }
}
