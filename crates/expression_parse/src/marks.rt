//! What stands first in tokens: marks and operators.

ghost use Rattle.std.specs.Prelude.{◌≡◌, ℕ, List, option_map};
ghost use Rattle.fortran_grammar.specs.ExpressionSpelling.{level, right};
ghost use Rattle.grammar_laws.specs.ExpressionReading.{behind_open, behind_close, behind_comma, behind_colon, behind_empty, operator_at};
ghost use Rattle.stmt_lex.specs.SeenTokens.{seen};

use f_tree::BinaryOp;
use fortran_lexemes::Sign;
use fortran_text::Character;
use stmt_lex::Token;

/// The tokens behind a `(` that stands first.
#[tactic(auto, unfolding(grammar_laws::specs::ExpressionReading::behind_open, stmt_lex::specs::SeenTokens::seen, stmt_lex::specs::SeenTokens::lexeme_of))]
pub(super) fn behind_open<'a>(text: &[Character], tokens: &'a [Token]) -> Option<&'a [Token]>
    ensures { option_map (λ rest. seen text.now rest.now) result ≡ behind_open (seen text.now tokens.now) }
{
    match tokens {
        [Token::Mark(Sign::Open), rest @ ..] => Some(rest),
        _ => None,
    }
}

/// The tokens behind a `)` that stands first.
#[tactic(auto, unfolding(grammar_laws::specs::ExpressionReading::behind_close, stmt_lex::specs::SeenTokens::seen, stmt_lex::specs::SeenTokens::lexeme_of))]
pub(super) fn behind_close<'a>(text: &[Character], tokens: &'a [Token]) -> Option<&'a [Token]>
    ensures { option_map (λ rest. seen text.now rest.now) result ≡ behind_close (seen text.now tokens.now) }
{
    match tokens {
        [Token::Mark(Sign::Close), rest @ ..] => Some(rest),
        _ => None,
    }
}

/// The tokens behind a `,` that stands first.
#[tactic(auto, unfolding(grammar_laws::specs::ExpressionReading::behind_comma, stmt_lex::specs::SeenTokens::seen, stmt_lex::specs::SeenTokens::lexeme_of))]
pub(super) fn behind_comma<'a>(text: &[Character], tokens: &'a [Token]) -> Option<&'a [Token]>
    ensures { option_map (λ rest. seen text.now rest.now) result ≡ behind_comma (seen text.now tokens.now) }
{
    match tokens {
        [Token::Mark(Sign::Comma), rest @ ..] => Some(rest),
        _ => None,
    }
}

/// The tokens behind a `:` that stands first.
#[tactic(auto, unfolding(grammar_laws::specs::ExpressionReading::behind_colon, stmt_lex::specs::SeenTokens::seen, stmt_lex::specs::SeenTokens::lexeme_of))]
pub(super) fn behind_colon<'a>(text: &[Character], tokens: &'a [Token]) -> Option<&'a [Token]>
    ensures { option_map (λ rest. seen text.now rest.now) result ≡ behind_colon (seen text.now tokens.now) }
{
    match tokens {
        [Token::Mark(Sign::Colon), rest @ ..] => Some(rest),
        _ => None,
    }
}

/// The tokens behind a `()` that stands first.
pub(super) fn behind_empty<'a>(text: &[Character], tokens: &'a [Token]) -> Option<&'a [Token]>
    ensures { option_map (λ rest. seen text.now rest.now) result ≡ behind_empty (seen text.now tokens.now) }
{
    match behind_open(text, tokens) {
        Some(rest) => behind_close(text, rest),
        None => None,
    }
}

/// The operator that stands first, if it has the level or a higher one, and the tokens behind it.
#[tactic(auto, unfolding(grammar_laws::specs::ExpressionReading::operator_at, stmt_lex::specs::SeenTokens::seen, stmt_lex::specs::SeenTokens::lexeme_of))]
pub(super) fn operator_at<'a>(
    text: &[Character],
    wanted: u8,
    tokens: &'a [Token],
) -> Option<(BinaryOp, &'a [Token])>
    ensures { option_map (λ p. (p.0, seen text.now p.1.now)) result ≡ operator_at wanted (seen text.now tokens.now) }
{
    match tokens {
        [Token::Infix(op), rest @ ..] if wanted <= level(*op) => Some((*op, rest)),
        _ => None,
    }
}

/// The level of what an operator makes. Section 6.5.
#[tactic(auto, unfolding(fortran_grammar::specs::ExpressionSpelling::level))]
pub(super) fn level(op: BinaryOp) -> u8
    ensures { result ≡ level op }
{
    match op {
        BinaryOp::Power => 9,
        BinaryOp::Times | BinaryOp::Divide => 8,
        BinaryOp::Plus | BinaryOp::Minus => 7,
        BinaryOp::Concatenate => 6,
        BinaryOp::Less
        | BinaryOp::LessOrEqual
        | BinaryOp::Equal
        | BinaryOp::NotEqual
        | BinaryOp::Greater
        | BinaryOp::GreaterOrEqual => 5,
        BinaryOp::And => 3,
        BinaryOp::Or => 2,
        BinaryOp::Equivalent | BinaryOp::NotEquivalent => 1,
    }
}

/// The least level of a right operand. Section 6.1.2.
#[tactic(auto, unfolding(fortran_grammar::specs::ExpressionSpelling::level, fortran_grammar::specs::ExpressionSpelling::right))]
pub(super) fn right_level(op: BinaryOp) -> u8
    ensures { result ≡ right op }
{
    match op {
        BinaryOp::Power => 9,
        BinaryOp::Times | BinaryOp::Divide => 9,
        BinaryOp::Plus | BinaryOp::Minus => 8,
        BinaryOp::Concatenate => 7,
        BinaryOp::Less
        | BinaryOp::LessOrEqual
        | BinaryOp::Equal
        | BinaryOp::NotEqual
        | BinaryOp::Greater
        | BinaryOp::GreaterOrEqual => 6,
        BinaryOp::And => 4,
        BinaryOp::Or => 3,
        BinaryOp::Equivalent | BinaryOp::NotEquivalent => 2,
    }
}
