//! What goes on behind an operand (C89, 3.3.2 and 3.3.5 to 3.3.15).

ghost use Rattle.std.specs.Prelude.{◌≡◌, option_map};
ghost use Rattle.c_tree.specs.CWords.{infix_level};
ghost use Rattle.c_lexer.specs.SeenTokens.{sign_codes};
ghost use Rattle.c_readers.specs.Readers.{lookup};
ghost use Rattle.c_readers.specs.ExpressionReader as reader;
ghost use Rattle.c_expression_reader.specs.Leads.{seen_operator};

use c_lexer::CSign;
use c_tree::expression::BinaryOp;

/// What goes on behind an operand.
#[derive(Clone, Copy)]
pub(crate) enum Operator {
    /// An operator between two operands.
    Infix(BinaryOp),
    /// `[`
    Subscript,
    /// `.`
    Member,
    /// `?`
    Choice,
}

/// The level of what an operator makes: the closer it binds, the higher.
pub(crate) fn infix_level(op: BinaryOp) -> u8
    ensures { result ≡ infix_level op }
{
    match op {
        BinaryOp::Or => 1,
        BinaryOp::And => 2,
        BinaryOp::Equal | BinaryOp::Unequal => 3,
        BinaryOp::Less | BinaryOp::LessOrEqual | BinaryOp::Greater | BinaryOp::GreaterOrEqual => 4,
        BinaryOp::Add | BinaryOp::Subtract => 5,
        BinaryOp::Multiply | BinaryOp::Divide | BinaryOp::Remainder => 6,
    }
}

/// The operator that a sign is, if it is one.
#[tactic(auto, unfolding(crate::specs::Leads::seen_operator, c_lexer::specs::SeenTokens::sign_codes))]
fn listed_operator(sign: CSign) -> Option<Operator>
    ensures { option_map seen_operator result ≡ lookup (sign_codes sign) reader.operators }
{
    match sign {
        CSign::OpenBracket => Some(Operator::Subscript),
        CSign::Period => Some(Operator::Member),
        CSign::Question => Some(Operator::Choice),
        CSign::Or => Some(Operator::Infix(BinaryOp::Or)),
        CSign::And => Some(Operator::Infix(BinaryOp::And)),
        CSign::Equal => Some(Operator::Infix(BinaryOp::Equal)),
        CSign::Unequal => Some(Operator::Infix(BinaryOp::Unequal)),
        CSign::Less => Some(Operator::Infix(BinaryOp::Less)),
        CSign::LessOrEqual => Some(Operator::Infix(BinaryOp::LessOrEqual)),
        CSign::Greater => Some(Operator::Infix(BinaryOp::Greater)),
        CSign::GreaterOrEqual => Some(Operator::Infix(BinaryOp::GreaterOrEqual)),
        CSign::Plus => Some(Operator::Infix(BinaryOp::Add)),
        CSign::Minus => Some(Operator::Infix(BinaryOp::Subtract)),
        CSign::Star => Some(Operator::Infix(BinaryOp::Multiply)),
        CSign::Slash => Some(Operator::Infix(BinaryOp::Divide)),
        CSign::Percent => Some(Operator::Infix(BinaryOp::Remainder)),
        _ => None,
    }
}

/// Whether a place takes an operator behind an operand of a level.
#[tactic(auto, unfolding(crate::specs::Leads::seen_operator))]
fn takes(place: u8, level: u8, operator: Operator) -> bool
    ensures { result ≡ reader.takes place level (seen_operator operator) }
{
    match operator {
        Operator::Infix(op) => place <= infix_level(op) && infix_level(op) <= level,
        Operator::Subscript | Operator::Member => place <= 8 && 8 <= level,
        Operator::Choice => place == 0 && 1 <= level,
    }
}

/// The operator that a sign is, where the place takes it behind an operand of a level.
#[tactic(auto, unfolding(c_readers::specs::ExpressionReader::operator_of))]
pub(crate) fn operator_of(place: u8, level: u8, sign: CSign) -> Option<Operator>
    ensures { option_map seen_operator result ≡ reader.operator_of place level (sign_codes sign) }
{
    match listed_operator(sign) {
        Some(operator) if takes(place, level, operator) => Some(operator),
        _ => None,
    }
}
