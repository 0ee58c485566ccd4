//! How closely the parts of an expression bind (C89, 3.3).
ghost use Rattle.std.specs.Prelude.{◌≡◌, nat_le};
ghost use Rattle.c_text.specs.Operators.{rank, op_level, right_level, op_word, prefix_word, extreme_word};

use c_tree::expression::{BinaryOp, Extreme, UnaryOp};

/// A level of the grammar of expressions, the least closely binding first.
#[derive(Clone, Copy)]
pub(crate) enum Level {
    /// `e ? a : b`
    Choice,
    /// `||`
    Disjunction,
    /// `&&`
    Conjunction,
    /// `==` and `!=`
    Equality,
    /// `<` and its like
    Relation,
    /// `+` and `-` between operands
    Sum,
    /// `*`, `/` and `%` between operands
    Term,
    /// Signs and casts before an operand
    Unary,
    /// Subscripts and fields behind an operand
    Postfix,
    /// Everything that stands alone
    Primary,
}

impl Level {
    /// The number of a level: the greater, the closer it binds.
    fn rank(self) -> u8
        ensures { result ≡ rank self }
    {
        self as u8
    }

    /// Whether an expression of level `inner` may stand at a place of this level without
    /// parentheses.
    pub(crate) fn admits(self, inner: Level) -> bool
        ensures { result ≡ nat_le (rank self) (rank inner) }
    {
        self.rank() <= inner.rank()
    }
}

/// The sign of an operator between operands, with a blank on each side.
#[tactic(auto, unfolding(crate::specs::Operators::op_word))]
pub(crate) fn op_word(op: BinaryOp) -> &'static [u8]
    ensures { result.now ≡ op_word op }
{
    match op {
        BinaryOp::Or => b" || ",
        BinaryOp::And => b" && ",
        BinaryOp::Equal => b" == ",
        BinaryOp::Unequal => b" != ",
        BinaryOp::Less => b" < ",
        BinaryOp::LessOrEqual => b" <= ",
        BinaryOp::Greater => b" > ",
        BinaryOp::GreaterOrEqual => b" >= ",
        BinaryOp::Add => b" + ",
        BinaryOp::Subtract => b" - ",
        BinaryOp::Multiply => b" * ",
        BinaryOp::Divide => b" / ",
        BinaryOp::Remainder => b" % ",
    }
}

/// The level of an operator between operands, which its left operand may have too.
#[tactic(auto, unfolding(crate::specs::Operators::op_level))]
pub(crate) fn op_level(op: BinaryOp) -> Level
    ensures { result ≡ op_level op }
{
    match op {
        BinaryOp::Or => Level::Disjunction,
        BinaryOp::And => Level::Conjunction,
        BinaryOp::Equal | BinaryOp::Unequal => Level::Equality,
        BinaryOp::Less | BinaryOp::LessOrEqual | BinaryOp::Greater | BinaryOp::GreaterOrEqual =>
            Level::Relation,
        BinaryOp::Add | BinaryOp::Subtract => Level::Sum,
        BinaryOp::Multiply | BinaryOp::Divide | BinaryOp::Remainder => Level::Term,
    }
}

/// The least level of the right operand of an operator.
#[tactic(auto, unfolding(crate::specs::Operators::right_level))]
pub(crate) fn right_level(op: BinaryOp) -> Level
    ensures { result ≡ right_level op }
{
    match op {
        BinaryOp::Or => Level::Conjunction,
        BinaryOp::And => Level::Equality,
        BinaryOp::Equal | BinaryOp::Unequal => Level::Relation,
        BinaryOp::Less | BinaryOp::LessOrEqual | BinaryOp::Greater | BinaryOp::GreaterOrEqual =>
            Level::Sum,
        BinaryOp::Add | BinaryOp::Subtract => Level::Term,
        BinaryOp::Multiply | BinaryOp::Divide | BinaryOp::Remainder => Level::Unary,
    }
}

/// The sign of an operator before its operand.
pub(crate) fn prefix_word(op: UnaryOp) -> &'static [u8]
    ensures { result.now ≡ prefix_word op }
{
    match op {
        UnaryOp::Minus => b"-",
        UnaryOp::Not => b"!",
        UnaryOp::Deref => b"*",
        UnaryOp::Address => b"&",
    }
}

/// The word of `max` or `min`, with its parenthesis.
pub(crate) fn extreme_word(which: Extreme) -> &'static [u8]
    ensures { result.now ≡ extreme_word which }
{
    match which {
        Extreme::Max => b"max(",
        Extreme::Min => b"min(",
    }
}
