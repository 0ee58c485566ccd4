//! Expressions and calls (C89, 3.3). An expression holds no call.
use crate::types::CastType;
use plain_data::{Boxed, Items};

/// A name, or the bytes of a string.
pub type Text = Items<u8>;

/// An operator before its operand.
#[derive(Clone, Copy, Debug, PartialEq, Eq)]
pub enum UnaryOp {
    /// `-`
    Minus,
    /// `!`
    Not,
    /// `*`
    Deref,
    /// `&`
    Address,
}

/// An operator between two operands.
#[derive(Clone, Copy, Debug, PartialEq, Eq)]
pub enum BinaryOp {
    /// `||`
    Or,
    /// `&&`
    And,
    /// `==`
    Equal,
    /// `!=`
    Unequal,
    /// `<`
    Less,
    /// `<=`
    LessOrEqual,
    /// `>`
    Greater,
    /// `>=`
    GreaterOrEqual,
    /// `+`
    Add,
    /// `-`
    Subtract,
    /// `*`
    Multiply,
    /// `/`
    Divide,
    /// `%`
    Remainder,
}

/// Which of two values `max` and `min` give.
#[derive(Clone, Copy, Debug, PartialEq, Eq)]
pub enum Extreme {
    /// `max`
    Max,
    /// `min`
    Min,
}

/// An expression. `TRUE_` and `FALSE_` are names.
#[derive(Drop)]
pub enum CExpr {
    /// A number from 0 to 2147483647.
    Number(i32),
    /// A string, by its bytes and without the zero byte behind them.
    Str(Text),
    /// A name.
    Name(Text),
    /// An operator and its operand.
    Unary(UnaryOp, Boxed<CExpr>),
    /// A cast and its operand.
    Cast(CastType, Boxed<CExpr>),
    /// An operator with its left and right operands.
    Binary(BinaryOp, Boxed<CExpr>, Boxed<CExpr>),
    /// `e ? a : b`
    Choose(Boxed<CExpr>, Boxed<CExpr>, Boxed<CExpr>),
    /// `e[i]`
    Index(Boxed<CExpr>, Boxed<CExpr>),
    /// `e.name`
    Field(Boxed<CExpr>, Text),
    /// `sizeof(integer)`
    SizeInt,
    /// `max(a, b)` or `min(a, b)`
    MaxMin(Extreme, Boxed<CExpr>, Boxed<CExpr>),
    /// `abs(e)`
    Abs(Boxed<CExpr>),
}

/// A call of a function.
#[derive(Drop)]
pub struct CCall {
    /// Whether the call is `(*name)(..)`, through a parameter that points to a function.
    pub through: bool,
    /// The function's name, or the parameter's.
    pub name: Text,
    /// The arguments from the left.
    pub arguments: Items<CExpr>,
}
