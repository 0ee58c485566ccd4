//! The intrinsic functions by their names. Section 15.10, and MIL-STD-1753.

ghost use Rattle.std.specs.Prelude.{◌≡◌, option_map};
ghost use Rattle.f_tree.specs.Reading as reading;
ghost use Rattle.lowering.specs.Expressions as low;
ghost use Rattle.lowered_tree.specs.Shapes.{function_of};
ghost use Rattle.expression_lowering.specs.FunctionTable.{named_in};

use lowered_tree::Function;

/// An intrinsic function with its name.
struct NamedFunction {
    name: &'static [u8],
    function: Function,
}

/// The intrinsic functions.
static FUNCTIONS: [NamedFunction; 28] = [
    NamedFunction {
        name: b"int",
        function: Function::Truncation,
    },
    NamedFunction {
        name: b"abs",
        function: Function::Magnitude,
    },
    NamedFunction {
        name: b"iabs",
        function: Function::Magnitude,
    },
    NamedFunction {
        name: b"mod",
        function: Function::Remainder,
    },
    NamedFunction {
        name: b"sign",
        function: Function::SignTransfer,
    },
    NamedFunction {
        name: b"isign",
        function: Function::SignTransfer,
    },
    NamedFunction {
        name: b"dim",
        function: Function::PositiveDifference,
    },
    NamedFunction {
        name: b"idim",
        function: Function::PositiveDifference,
    },
    NamedFunction {
        name: b"max",
        function: Function::Largest,
    },
    NamedFunction {
        name: b"max0",
        function: Function::Largest,
    },
    NamedFunction {
        name: b"min",
        function: Function::Smallest,
    },
    NamedFunction {
        name: b"min0",
        function: Function::Smallest,
    },
    NamedFunction {
        name: b"ichar",
        function: Function::CharacterCode,
    },
    NamedFunction {
        name: b"char",
        function: Function::CharacterOfCode,
    },
    NamedFunction {
        name: b"len",
        function: Function::TextLength,
    },
    NamedFunction {
        name: b"index",
        function: Function::IndexOf,
    },
    NamedFunction {
        name: b"lge",
        function: Function::LexicallyGreaterOrEqual,
    },
    NamedFunction {
        name: b"lgt",
        function: Function::LexicallyGreater,
    },
    NamedFunction {
        name: b"lle",
        function: Function::LexicallyLessOrEqual,
    },
    NamedFunction {
        name: b"llt",
        function: Function::LexicallyLess,
    },
    NamedFunction {
        name: b"ior",
        function: Function::InclusiveOr,
    },
    NamedFunction {
        name: b"iand",
        function: Function::LogicalProduct,
    },
    NamedFunction {
        name: b"not",
        function: Function::BitComplement,
    },
    NamedFunction {
        name: b"ieor",
        function: Function::ExclusiveOr,
    },
    NamedFunction {
        name: b"ishft",
        function: Function::BitShift,
    },
    NamedFunction {
        name: b"btest",
        function: Function::BitTest,
    },
    NamedFunction {
        name: b"ibset",
        function: Function::BitSet,
    },
    NamedFunction {
        name: b"ibclr",
        function: Function::BitClear,
    },
];

/// The one of these functions that has a name.
#[tactic(auto, unfolding(crate::specs::FunctionTable::named_in))]
fn function_in(table: &[NamedFunction], name: &[u8]) -> Option<Function>
    ensures { option_map function_of result ≡ named_in table.now name.now }
{
    match table {
        [] => None,
        [first, ..] if first.name == name => Some(first.function),
        [_, rest @ ..] => function_in(rest, name),
    }
}

/// The intrinsic function with a name.
#[tactic(auto, unfolding(crate::specs::FunctionTable::named_in, f_tree::specs::Reading::intrinsics, f_tree::specs::Reading::function_in, f_tree::specs::Reading::function_named))]
pub fn function_named(name: &[u8]) -> Option<Function>
    ensures { option_map function_of result ≡ reading.function_named name.now }
{
    function_in(&FUNCTIONS, name)
}

/// Whether a function is called from C's library, which reads its operands by address.
#[tactic(auto, unfolding(lowering::specs::Expressions::is_library))]
pub(crate) fn is_library(function: Function) -> bool
    ensures { result ≡ low.is_library (function_of function) }
{
    match function {
        Function::Power | Function::SignTransfer | Function::PositiveDifference => true,
        Function::IndexOf => true,
        Function::LexicallyGreaterOrEqual | Function::LexicallyGreater => true,
        Function::LexicallyLessOrEqual | Function::LexicallyLess => true,
        Function::InclusiveOr | Function::LogicalProduct | Function::ExclusiveOr => true,
        Function::BitComplement | Function::BitShift | Function::BitTest => true,
        Function::BitSet | Function::BitClear => true,
        Function::Truncation | Function::Magnitude | Function::Remainder => false,
        Function::Largest | Function::Smallest => false,
        Function::CharacterCode | Function::CharacterOfCode | Function::TextLength => false,
        Function::Front(_) | Function::Fitted(_) => false,
    }
}
