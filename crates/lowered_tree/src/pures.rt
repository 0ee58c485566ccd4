//! Pure values: what a step computes from the store and the temporaries. Sections 5.4, 5.7, 6 and 15.10.

use f_tree::Basic;
use plain_data::{Boxed, Items};

/// The bytes of a name, in lower case, or of a text.
pub type Text = Items<u8>;

/// A value that is written.
#[derive(Drop)]
pub enum Literal {
    /// An integer. Section 4.3.
    Integer(i32),
    /// `.TRUE.` or `.FALSE.`. Section 4.7.
    Logical(bool),
    /// The characters of a text. Section 4.8.
    Text(Text),
    /// A statement label, as an actual argument. Section 15.9.3.5.
    Label(u32),
    /// No value: a place in a substring that is not written.
    Nothing,
}

/// An operator before its operand. Sections 6.1.3 and 6.4.2.
#[derive(Clone, Copy, Debug, PartialEq, Eq)]
pub enum Prefix {
    /// `-`
    Negate,
    /// `.NOT.`
    Complement,
}

/// An operator between two operands. Sections 6.1, 6.3 and 6.4.
#[derive(Clone, Copy, Debug, PartialEq, Eq)]
pub enum Operator {
    /// `+`
    Add,
    /// `-`
    Subtract,
    /// `*`
    Multiply,
    /// `/`
    Divide,
    /// `.LT.`
    IsLess,
    /// `.LE.`
    IsLessOrEqual,
    /// `.EQ.`
    IsEqual,
    /// `.NE.`
    IsNotEqual,
    /// `.GT.`
    IsGreater,
    /// `.GE.`
    IsGreaterOrEqual,
    /// `.AND.`
    Both,
    /// `.OR.`
    Either,
    /// `.EQV.`
    Same,
    /// `.NEQV.`
    Different,
}

/// A function over a list of operands: an intrinsic function (section 15.10, MIL-STD-1753 for those of bits), or the power (6.1.1).
#[derive(Clone, Copy, Debug, PartialEq, Eq)]
pub enum Function {
    /// `**`
    Power,
    /// INT
    Truncation,
    /// ABS
    Magnitude,
    /// MOD
    Remainder,
    /// SIGN
    SignTransfer,
    /// DIM
    PositiveDifference,
    /// MAX
    Largest,
    /// MIN
    Smallest,
    /// ICHAR
    CharacterCode,
    /// CHAR
    CharacterOfCode,
    /// LEN
    TextLength,
    /// INDEX
    IndexOf,
    /// LGE
    LexicallyGreaterOrEqual,
    /// LGT
    LexicallyGreater,
    /// LLE
    LexicallyLessOrEqual,
    /// LLT
    LexicallyLess,
    /// The first characters of a text, so many: a dummy argument of a statement function.
    Front(u32),
    /// A text cut or filled to a length, in characters: the value of a statement function.
    Fitted(u32),
    /// IOR
    InclusiveOr,
    /// IAND
    LogicalProduct,
    /// IEOR
    ExclusiveOr,
    /// NOT
    BitComplement,
    /// ISHFT
    BitShift,
    /// BTEST
    BitTest,
    /// IBSET
    BitSet,
    /// IBCLR
    BitClear,
}

/// A value that takes no step.
#[derive(Drop)]
pub enum Pure {
    /// A value that is written.
    Constant(Literal),
    /// What a temporary holds, by its number from 0.
    Temporary(usize),
    /// The value at a place.
    Load(Boxed<Pure>),
    /// A whole variable or array, or a procedure.
    Name(Text),
    /// All elements of an array.
    AllOf(Text),
    /// An element, by its subscripts.
    ElementOf(Text, Items<Pure>),
    /// A place, without the elements behind it.
    FirstOf(Boxed<Pure>),
    /// A substring of a place of a variable, by its first character and its last.
    Substring(Text, Boxed<Pure>, Boxed<Pure>, Boxed<Pure>),
    /// A concatenation of places and values.
    Concatenated(Items<Pure>),
    /// An operator and its operand.
    Prefixed(Prefix, Boxed<Pure>),
    /// An operator between two operands; the right one is valued where the left one leaves it open.
    Operated(Operator, Boxed<Pure>, Boxed<Pure>),
    /// A function of its operands.
    Applied(Function, Items<Pure>),
    /// The second where the first holds, else the third.
    Chosen(Boxed<Pure>, Boxed<Pure>, Boxed<Pure>),
}

/// What a reference wants of the procedure that it names.
#[derive(Clone, Copy, Debug, PartialEq, Eq)]
pub enum Wanted {
    /// A subroutine.
    Subroutine,
    /// A function of this type, and of this length in characters where it is CHARACTER.
    Function(Basic, u32),
}
