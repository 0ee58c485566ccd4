//! The intrinsic functions by their names. Section 15.10, and MIL-STD-1753.

ghost use Rattle.std.specs.Prelude.{◌≡◌, option_map};
ghost use Rattle.f_tree.specs.Reading as reading;
ghost use Rattle.constant_values.specs.FunctionNames as spec;
ghost use Rattle.constant_values.specs.FunctionNames.{function_of};

/// An intrinsic function. Section 15.10, table 5.
#[derive(Clone, Copy, Debug, PartialEq, Eq)]
pub enum IntrinsicFunction {
    /// INT
    Truncation,
    /// ABS and IABS
    Magnitude,
    /// MOD
    Remainder,
    /// SIGN and ISIGN
    SignTransfer,
    /// DIM and IDIM
    PositiveDifference,
    /// MAX and MAX0
    Largest,
    /// MIN and MIN0
    Smallest,
    /// ICHAR
    CharacterCode,
    /// CHAR
    CharacterOfCode,
    /// LEN
    TextLength,
    /// INDEX
    IndexOf,
    /// LGE
    LexicallyGreaterOrEqual,
    /// LGT
    LexicallyGreater,
    /// LLE
    LexicallyLessOrEqual,
    /// LLT
    LexicallyLess,
    /// IOR
    InclusiveOr,
    /// IAND
    LogicalProduct,
    /// IEOR
    ExclusiveOr,
    /// NOT
    BitComplement,
    /// ISHFT
    BitShift,
    /// BTEST
    BitTest,
    /// IBSET
    BitSet,
    /// IBCLR
    BitClear,
}

impl IntrinsicFunction {
    /// Whether the function is LEN, which asks for the length of its operand and not for its value.
    #[tactic(auto, unfolding(crate::specs::FunctionNames::is_length))]
    pub fn is_length(self) -> bool
        ensures { result ≡ spec.is_length self }
    {
        matches!(self, IntrinsicFunction::TextLength)
    }
}

/// An intrinsic function with its name.
struct NamedFunction {
    name: &'static [u8],
    function: IntrinsicFunction,
}

/// The intrinsic functions.
static FUNCTIONS: [NamedFunction; 28] = [
    NamedFunction {
        name: b"int",
        function: IntrinsicFunction::Truncation,
    },
    NamedFunction {
        name: b"abs",
        function: IntrinsicFunction::Magnitude,
    },
    NamedFunction {
        name: b"iabs",
        function: IntrinsicFunction::Magnitude,
    },
    NamedFunction {
        name: b"mod",
        function: IntrinsicFunction::Remainder,
    },
    NamedFunction {
        name: b"sign",
        function: IntrinsicFunction::SignTransfer,
    },
    NamedFunction {
        name: b"isign",
        function: IntrinsicFunction::SignTransfer,
    },
    NamedFunction {
        name: b"dim",
        function: IntrinsicFunction::PositiveDifference,
    },
    NamedFunction {
        name: b"idim",
        function: IntrinsicFunction::PositiveDifference,
    },
    NamedFunction {
        name: b"max",
        function: IntrinsicFunction::Largest,
    },
    NamedFunction {
        name: b"max0",
        function: IntrinsicFunction::Largest,
    },
    NamedFunction {
        name: b"min",
        function: IntrinsicFunction::Smallest,
    },
    NamedFunction {
        name: b"min0",
        function: IntrinsicFunction::Smallest,
    },
    NamedFunction {
        name: b"ichar",
        function: IntrinsicFunction::CharacterCode,
    },
    NamedFunction {
        name: b"char",
        function: IntrinsicFunction::CharacterOfCode,
    },
    NamedFunction {
        name: b"len",
        function: IntrinsicFunction::TextLength,
    },
    NamedFunction {
        name: b"index",
        function: IntrinsicFunction::IndexOf,
    },
    NamedFunction {
        name: b"lge",
        function: IntrinsicFunction::LexicallyGreaterOrEqual,
    },
    NamedFunction {
        name: b"lgt",
        function: IntrinsicFunction::LexicallyGreater,
    },
    NamedFunction {
        name: b"lle",
        function: IntrinsicFunction::LexicallyLessOrEqual,
    },
    NamedFunction {
        name: b"llt",
        function: IntrinsicFunction::LexicallyLess,
    },
    NamedFunction {
        name: b"ior",
        function: IntrinsicFunction::InclusiveOr,
    },
    NamedFunction {
        name: b"iand",
        function: IntrinsicFunction::LogicalProduct,
    },
    NamedFunction {
        name: b"not",
        function: IntrinsicFunction::BitComplement,
    },
    NamedFunction {
        name: b"ieor",
        function: IntrinsicFunction::ExclusiveOr,
    },
    NamedFunction {
        name: b"ishft",
        function: IntrinsicFunction::BitShift,
    },
    NamedFunction {
        name: b"btest",
        function: IntrinsicFunction::BitTest,
    },
    NamedFunction {
        name: b"ibset",
        function: IntrinsicFunction::BitSet,
    },
    NamedFunction {
        name: b"ibclr",
        function: IntrinsicFunction::BitClear,
    },
];

/// The one of these functions that has a name.
#[tactic(auto, unfolding(crate::specs::FunctionNames::named_in))]
fn named_in(table: &[NamedFunction], name: &[u8]) -> Option<IntrinsicFunction>
    ensures { result ≡ spec.named_in table.now name.now }
{
    match table {
        [] => None,
        [first, ..] if first.name == name => Some(first.function),
        [_, rest @ ..] => named_in(rest, name),
    }
}

/// The intrinsic function with a name.
pub fn function_named(name: &[u8]) -> Option<IntrinsicFunction>
    ensures { option_map function_of result ≡ reading.function_named name.now }
{
    named_in(&FUNCTIONS, name)
}
