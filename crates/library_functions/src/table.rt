//! The table of the functions.

ghost use Rattle.std.specs.Prelude.{◌≡◌, map, option_map};
ghost use Rattle.c_emit.specs.LibraryFunctions as spec;
ghost use Rattle.lowered_tree.specs.Shapes.{function_of};
ghost use Rattle.library_functions.specs.Described.{described};

use f_tree::Basic;
use lowered_tree::Function;

/// A function of the library that gives a number for numbers.
#[derive(Clone, Copy)]
pub struct LibraryFunction {
    /// Its name in C.
    pub name: &'static [u8],
    /// How many numbers it takes, each by its address.
    pub takes: usize,
    /// The type of what it gives.
    pub gives: Basic,
}

const POW_II: LibraryFunction = LibraryFunction {
    name: b"pow_ii",
    takes: 2,
    gives: Basic::Integer,
};

const I_SIGN: LibraryFunction = LibraryFunction {
    name: b"i_sign",
    takes: 2,
    gives: Basic::Integer,
};

const I_DIM: LibraryFunction = LibraryFunction {
    name: b"i_dim",
    takes: 2,
    gives: Basic::Integer,
};

const I_OR: LibraryFunction = LibraryFunction {
    name: b"i_or",
    takes: 2,
    gives: Basic::Integer,
};

const I_AND: LibraryFunction = LibraryFunction {
    name: b"i_and",
    takes: 2,
    gives: Basic::Integer,
};

const I_EOR: LibraryFunction = LibraryFunction {
    name: b"i_eor",
    takes: 2,
    gives: Basic::Integer,
};

const I_NOT: LibraryFunction = LibraryFunction {
    name: b"i_not",
    takes: 1,
    gives: Basic::Integer,
};

const I_SHFT: LibraryFunction = LibraryFunction {
    name: b"i_shft",
    takes: 2,
    gives: Basic::Integer,
};

const B_TEST: LibraryFunction = LibraryFunction {
    name: b"b_test",
    takes: 2,
    gives: Basic::Logical,
};

const B_SET: LibraryFunction = LibraryFunction {
    name: b"b_set",
    takes: 2,
    gives: Basic::Integer,
};

const B_CLR: LibraryFunction = LibraryFunction {
    name: b"b_clr",
    takes: 2,
    gives: Basic::Integer,
};

/// The functions, in the order of the library.
static LIBRARY: [LibraryFunction; 11] = [
    POW_II, I_SIGN, I_DIM, I_OR, I_AND, I_EOR, I_NOT, I_SHFT, B_TEST, B_SET, B_CLR,
];

/// The functions, in the order of the library.
pub fn library_functions() -> &'static [LibraryFunction]
    ensures { map described result.now ≡ spec.library_functions }
{
    &LIBRARY
}

/// The function of the library for one of FORTRAN; none for one that C writes with operators, and for one over texts.
#[tactic(auto, unfolding(c_emit::specs::LibraryFunctions::library_function))]
pub fn library_function(function: Function) -> Option<LibraryFunction>
    ensures { option_map described result ≡ spec.library_function (function_of function) }
{
    match function {
        Function::Power => Some(POW_II),
        Function::SignTransfer => Some(I_SIGN),
        Function::PositiveDifference => Some(I_DIM),
        Function::InclusiveOr => Some(I_OR),
        Function::LogicalProduct => Some(I_AND),
        Function::ExclusiveOr => Some(I_EOR),
        Function::BitComplement => Some(I_NOT),
        Function::BitShift => Some(I_SHFT),
        Function::BitTest => Some(B_TEST),
        Function::BitSet => Some(B_SET),
        Function::BitClear => Some(B_CLR),
        Function::Truncation | Function::Magnitude | Function::Remainder => None,
        Function::Largest | Function::Smallest => None,
        Function::CharacterCode | Function::CharacterOfCode | Function::TextLength => None,
        Function::IndexOf => None,
        Function::LexicallyGreaterOrEqual | Function::LexicallyGreater => None,
        Function::LexicallyLessOrEqual | Function::LexicallyLess => None,
        Function::Front(_) | Function::Fitted(_) => None,
    }
}

/// The type of what the function of the library for one of FORTRAN gives.
#[tactic(auto, unfolding(c_emit::specs::LibraryFunctions::library_type))]
pub fn library_type(function: Function) -> Option<Basic>
    ensures { result ≡ spec.library_type (function_of function) }
{
    match library_function(function) {
        Some(one) => Some(one.gives),
        None => None,
    }
}
