//! Expressions. Section 6 of the standard, ANSI X3.9-1978.
#![tactic(auto)]

use plain_data::{Boxed, Items};

/// The bytes of a name, in lower case, or of a character constant.
pub type Text = Items<u8>;

/// An operator between two operands.
#[derive(Clone, Copy, Debug, PartialEq, Eq)]
pub enum BinaryOp {
    /// `**`
    Power,
    /// `*`
    Times,
    /// `/`
    Divide,
    /// `+`
    Plus,
    /// `-`
    Minus,
    /// `//`
    Concatenate,
    /// `.LT.`
    Less,
    /// `.LE.`
    LessOrEqual,
    /// `.EQ.`
    Equal,
    /// `.NE.`
    NotEqual,
    /// `.GT.`
    Greater,
    /// `.GE.`
    GreaterOrEqual,
    /// `.AND.`
    And,
    /// `.OR.`
    Or,
    /// `.EQV.`
    Equivalent,
    /// `.NEQV.`
    NotEquivalent,
}

/// An expression, or an actual argument.
#[derive(Drop)]
pub enum Expr {
    /// An unsigned integer constant. Section 4.3.
    Int(i32),
    /// `.TRUE.` or `.FALSE.`. Section 4.7.
    Logical(bool),
    /// A character constant, by the characters between its apostrophes. Section 4.8.
    Text(Text),
    /// A variable, array, constant or procedure by its name alone.
    Name(Text),
    /// A name with a list in parentheses: an array element, or a reference to a function, a
    /// statement function or an intrinsic. The declarations of the unit tell which.
    Apply(Text, Items<Expr>),
    /// A substring: the variable or element, the first place and the last. Section 5.7.
    Part(Boxed<Expr>, Option<Boxed<Expr>>, Option<Boxed<Expr>>),
    /// `-` before an operand.
    Minus(Boxed<Expr>),
    /// `+` before an operand.
    Plus(Boxed<Expr>),
    /// `.NOT.` before an operand.
    Not(Boxed<Expr>),
    /// An expression in parentheses.
    Paren(Boxed<Expr>),
    /// Two operands with an operator between them.
    Binary(BinaryOp, Boxed<Expr>, Boxed<Expr>),
    /// `*` and a label: where an alternate return goes. Section 15.9.3.5.
    AltReturn(u32),
    /// A reference to a statement function, expanded: the arguments are valued once from the left,
    /// and then the body. Section 15.4.
    Bind(Items<Expr>, Boxed<Expr>),
    /// The value of an argument, counted from 0, of the innermost `Bind` in whose body this stands.
    Bound(usize),
}
