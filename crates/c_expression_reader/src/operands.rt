//! Operands (C89, 3.3.1 to 3.3.4).

ghost use Rattle.std.specs.Prelude.{◌≡◌, [], Some, drop};
ghost use Rattle.c_tree.specs.CWords.{cast_tokens};
ghost use Rattle.c_readers.specs.Readers.{all_stand};
ghost use Rattle.c_readers.specs.ExpressionReader as reader;
ghost use Rattle.c_scope.specs.ScopeSeen.{scope_of};
ghost use Rattle.c_expression_reader.specs.Readings.{shown, Gives};
ghost use Rattle.c_expression_reader.specs.Leads.{seen_operand, seen_sign_lead, seen_word_lead};

use crate::expressions::read_expression;
use crate::failure::Failure;
use crate::leads::{Operand, SignLead, WordLead, cast_of, sign_lead, word_lead};
use crate::nodes::{alone, cast, extreme, magnitude, name, number, string, unary};
use crate::wanted::{a_sign, a_word};
use c_lexer::{CSign, CToken, PlacedCToken};
use c_scope::CScope;
use c_tree::expression::{CExpr, Extreme, UnaryOp};
use c_tree::types::CastType;
use std::alloc::Global;

/// The greatest number (C89, 3.1.3.2).
const GREATEST: u32 = 2_147_483_647;

/// An operand at a place, with its level, and the tokens behind it.
#[cycle(expression)]
#[tactic(auto, unfolding(crate::specs::Readings::shown, c_lexer::specs::SeenTokens::seen, c_readers::specs::ExpressionReader::operand, c_readers::specs::ExpressionReader::by_word, c_readers::specs::ExpressionReader::by_sign, c_readers::specs::ExpressionReader::number))]
pub(crate) fn operand<'a>(
    alloc: Global,
    scope: &CScope,
    tokens: &'a [PlacedCToken],
    place: u8,
    nests: usize,
) -> Result<(Operand, &'a [PlacedCToken]), Failure<'a>>
    ensures { Gives (λ p. (seen_operand p.0, shown p.1.now)) result (reader.operand (scope_of scope.now) (reader.expression (scope_of scope.now) nests) place (shown tokens.now)) }
{
    let [first, rest @ ..] = tokens else {
        return Err(Failure::NotC(tokens));
    };
    match &first.token {
        CToken::Word(text) => match word_lead(scope, text.as_slice()) {
            Some(lead) => by_word(alloc, scope, text.as_slice(), lead, rest, nests),
            None => Err(Failure::NotC(tokens)),
        },
        CToken::Digits(value) if *value <= GREATEST => Ok((number(*value), rest)),
        CToken::Quoted(bytes) => Ok((string(alloc, bytes.as_slice())?, rest)),
        CToken::Sign(sign) => match sign_lead(place, *sign) {
            Some(lead) => by_sign(alloc, scope, lead, rest, place, nests),
            None => Err(Failure::NotC(tokens)),
        },
        _ => Err(Failure::NotC(tokens)),
    }
}

/// The operand behind a word that begins one.
#[cycle(expression)]
#[tactic(auto, unfolding(c_readers::specs::ExpressionReader::by_word, crate::specs::Leads::seen_word_lead))]
fn by_word<'a>(
    alloc: Global,
    scope: &CScope,
    text: &[u8],
    lead: WordLead,
    tokens: &'a [PlacedCToken],
    nests: usize,
) -> Result<(Operand, &'a [PlacedCToken]), Failure<'a>>
    ensures { Gives (λ p. (seen_operand p.0, shown p.1.now)) result (reader.by_word (reader.expression (scope_of scope.now) nests) text.now (shown tokens.now) (Some (seen_word_lead lead))) }
{
    match lead {
        WordLead::Sized => sized(tokens),
        WordLead::Extremal(which) => extremal(alloc, scope, which, tokens, nests),
        WordLead::Absolute => absolute(alloc, scope, tokens, nests),
        WordLead::Named => Ok((name(alloc, text)?, tokens)),
    }
}

/// Behind `sizeof` (C89, 3.3.3.4).
#[tactic(auto, unfolding(c_readers::specs::ExpressionReader::sized, c_lexer::specs::SeenTokens::sign_codes, c_readers::specs::Readers::all_stand))]
fn sized<'a>(tokens: &'a [PlacedCToken]) -> Result<(Operand, &'a [PlacedCToken]), Failure<'a>>
    ensures { Gives (λ p. (seen_operand p.0, shown p.1.now)) result (reader.sized (shown tokens.now)) }
{
    let rest = a_sign(CSign::OpenParenthesis, tokens)?;
    let rest = a_word(b"integer", rest)?;
    let rest = a_sign(CSign::CloseParenthesis, rest)?;
    Ok((alone(CExpr::SizeInt), rest))
}

/// Behind `max` or `min`.
#[cycle(expression)]
#[tactic(auto, unfolding(c_readers::specs::ExpressionReader::extremal, c_lexer::specs::SeenTokens::sign_codes))]
fn extremal<'a>(
    alloc: Global,
    scope: &CScope,
    which: Extreme,
    tokens: &'a [PlacedCToken],
    nests: usize,
) -> Result<(Operand, &'a [PlacedCToken]), Failure<'a>>
    ensures { Gives (λ p. (seen_operand p.0, shown p.1.now)) result (reader.extremal (reader.expression (scope_of scope.now) nests) which (shown tokens.now)) }
{
    let rest = a_sign(CSign::OpenParenthesis, tokens)?;
    both(alloc, scope, which, rest, nests)
}

/// The values of `max` or `min`, behind the opening parenthesis.
#[cycle(expression)]
#[tactic(auto, unfolding(c_readers::specs::ExpressionReader::both, c_lexer::specs::SeenTokens::sign_codes))]
fn both<'a>(
    alloc: Global,
    scope: &CScope,
    which: Extreme,
    tokens: &'a [PlacedCToken],
    nests: usize,
) -> Result<(Operand, &'a [PlacedCToken]), Failure<'a>>
    ensures { Gives (λ p. (seen_operand p.0, shown p.1.now)) result (reader.both (reader.expression (scope_of scope.now) nests) which (shown tokens.now)) }
{
    let (first, rest) = read_expression(alloc, scope, tokens, 0, nests)?;
    let rest = a_sign(CSign::Comma, rest)?;
    second(alloc, scope, which, first, rest, nests)
}

/// The second value of `max` or `min`, behind the comma.
#[cycle(expression)]
#[tactic(auto, unfolding(c_readers::specs::ExpressionReader::second, c_lexer::specs::SeenTokens::sign_codes))]
fn second<'a>(
    alloc: Global,
    scope: &CScope,
    which: Extreme,
    first: CExpr,
    tokens: &'a [PlacedCToken],
    nests: usize,
) -> Result<(Operand, &'a [PlacedCToken]), Failure<'a>>
    ensures { Gives (λ p. (seen_operand p.0, shown p.1.now)) result (reader.second (reader.expression (scope_of scope.now) nests) which first (shown tokens.now)) }
{
    let (other, rest) = read_expression(alloc, scope, tokens, 0, nests)?;
    let rest = a_sign(CSign::CloseParenthesis, rest)?;
    Ok((extreme(alloc, which, first, other)?, rest))
}

/// Behind `abs`.
#[cycle(expression)]
#[tactic(auto, unfolding(c_readers::specs::ExpressionReader::absolute, c_lexer::specs::SeenTokens::sign_codes))]
fn absolute<'a>(
    alloc: Global,
    scope: &CScope,
    tokens: &'a [PlacedCToken],
    nests: usize,
) -> Result<(Operand, &'a [PlacedCToken]), Failure<'a>>
    ensures { Gives (λ p. (seen_operand p.0, shown p.1.now)) result (reader.absolute (reader.expression (scope_of scope.now) nests) (shown tokens.now)) }
{
    let rest = a_sign(CSign::OpenParenthesis, tokens)?;
    one_value(alloc, scope, rest, nests)
}

/// The value of `abs`, behind the opening parenthesis.
#[cycle(expression)]
#[tactic(auto, unfolding(c_readers::specs::ExpressionReader::one_value, c_lexer::specs::SeenTokens::sign_codes))]
fn one_value<'a>(
    alloc: Global,
    scope: &CScope,
    tokens: &'a [PlacedCToken],
    nests: usize,
) -> Result<(Operand, &'a [PlacedCToken]), Failure<'a>>
    ensures { Gives (λ p. (seen_operand p.0, shown p.1.now)) result (reader.one_value (reader.expression (scope_of scope.now) nests) (shown tokens.now)) }
{
    let (value, rest) = read_expression(alloc, scope, tokens, 0, nests)?;
    let rest = a_sign(CSign::CloseParenthesis, rest)?;
    Ok((magnitude(alloc, value)?, rest))
}

/// The operand behind a sign that begins one.
#[cycle(expression)]
#[tactic(auto, unfolding(c_readers::specs::ExpressionReader::by_sign, crate::specs::Leads::seen_sign_lead))]
fn by_sign<'a>(
    alloc: Global,
    scope: &CScope,
    lead: SignLead,
    tokens: &'a [PlacedCToken],
    place: u8,
    nests: usize,
) -> Result<(Operand, &'a [PlacedCToken]), Failure<'a>>
    ensures { Gives (λ p. (seen_operand p.0, shown p.1.now)) result (reader.by_sign (reader.expression (scope_of scope.now) nests) place [] (shown tokens.now) (Some (seen_sign_lead lead))) }
{
    match lead {
        SignLead::Opening => opened(alloc, scope, tokens, place, nests),
        SignLead::Before(op) => prefixed(alloc, scope, op, tokens, nests),
    }
}

/// Behind an operator before its operand: the operand (C89, 3.3.3).
#[cycle(expression)]
#[tactic(auto, unfolding(c_readers::specs::ExpressionReader::prefixed))]
fn prefixed<'a>(
    alloc: Global,
    scope: &CScope,
    op: UnaryOp,
    tokens: &'a [PlacedCToken],
    nests: usize,
) -> Result<(Operand, &'a [PlacedCToken]), Failure<'a>>
    ensures { Gives (λ p. (seen_operand p.0, shown p.1.now)) result (reader.prefixed (reader.expression (scope_of scope.now) nests) op (shown tokens.now)) }
{
    let (value, rest) = read_expression(alloc, scope, tokens, 7, nests)?;
    Ok((unary(alloc, op, value)?, rest))
}

/// Behind an opening parenthesis: a cast or an expression.
#[cycle(expression)]
#[tactic(auto, unfolding(crate::specs::Readings::shown, c_lexer::specs::SeenTokens::seen, c_readers::specs::ExpressionReader::opened, c_readers::specs::ExpressionReader::by_cast))]
fn opened<'a>(
    alloc: Global,
    scope: &CScope,
    tokens: &'a [PlacedCToken],
    place: u8,
    nests: usize,
) -> Result<(Operand, &'a [PlacedCToken]), Failure<'a>>
    ensures { Gives (λ p. (seen_operand p.0, shown p.1.now)) result (reader.opened (reader.expression (scope_of scope.now) nests) place (shown tokens.now)) }
{
    match tokens {
        [
            PlacedCToken {
                token: CToken::Word(text),
                ..
            },
            rest @ ..,
        ] => match cast_of(place, text.as_slice()) {
            Some(of) => casted(alloc, scope, of, rest, nests),
            None => parenthesised(alloc, scope, tokens, nests),
        },
        _ => parenthesised(alloc, scope, tokens, nests),
    }
}

/// An expression and the closing parenthesis, behind the opening one.
#[cycle(expression)]
#[tactic(auto, unfolding(c_readers::specs::ExpressionReader::parenthesised, c_lexer::specs::SeenTokens::sign_codes))]
fn parenthesised<'a>(
    alloc: Global,
    scope: &CScope,
    tokens: &'a [PlacedCToken],
    nests: usize,
) -> Result<(Operand, &'a [PlacedCToken]), Failure<'a>>
    ensures { Gives (λ p. (seen_operand p.0, shown p.1.now)) result (reader.parenthesised (reader.expression (scope_of scope.now) nests) (shown tokens.now)) }
{
    let (value, rest) = read_expression(alloc, scope, tokens, 0, nests)?;
    let rest = a_sign(CSign::CloseParenthesis, rest)?;
    Ok((alone(value), rest))
}

/// Behind the first word of a cast: the rest of its type, the closing parenthesis and the operand (C89, 3.3.4).
#[cycle(expression)]
#[tactic(auto, unfolding(c_readers::specs::ExpressionReader::casted, c_lexer::specs::SeenTokens::sign_codes))]
fn casted<'a>(
    alloc: Global,
    scope: &CScope,
    of: CastType,
    tokens: &'a [PlacedCToken],
    nests: usize,
) -> Result<(Operand, &'a [PlacedCToken]), Failure<'a>>
    ensures { Gives (λ p. (seen_operand p.0, shown p.1.now)) result (reader.casted (reader.expression (scope_of scope.now) nests) of (shown tokens.now)) }
{
    let rest = behind_type(of, tokens)?;
    let rest = a_sign(CSign::CloseParenthesis, rest)?;
    cast_operand(alloc, scope, of, rest, nests)
}

/// The tokens behind the type of a cast, given those behind its first word.
#[tactic(auto, unfolding(c_readers::specs::Readers::all_stand, c_lexer::specs::SeenTokens::sign_codes))]
fn behind_type<'a>(
    of: CastType,
    tokens: &'a [PlacedCToken],
) -> Result<&'a [PlacedCToken], Failure<'a>>
    ensures { Gives (λ rest. (tt, shown rest.now)) result (all_stand (drop 1 (cast_tokens of)) (shown tokens.now)) }
{
    match of {
        CastType::UnsignedChars => {
            let rest = a_word(b"char", tokens)?;
            a_sign(CSign::Star, rest)
        }
        CastType::Chars | CastType::Integers | CastType::Logicals => a_sign(CSign::Star, tokens),
        CastType::Length | CastType::Number | CastType::Function(_) => Ok(tokens),
    }
}

/// Behind a cast: the operand.
#[cycle(expression)]
#[tactic(auto, unfolding(c_readers::specs::ExpressionReader::cast_operand))]
fn cast_operand<'a>(
    alloc: Global,
    scope: &CScope,
    of: CastType,
    tokens: &'a [PlacedCToken],
    nests: usize,
) -> Result<(Operand, &'a [PlacedCToken]), Failure<'a>>
    ensures { Gives (λ p. (seen_operand p.0, shown p.1.now)) result (reader.cast_operand (reader.expression (scope_of scope.now) nests) of (shown tokens.now)) }
{
    let (value, rest) = read_expression(alloc, scope, tokens, 7, nests)?;
    Ok((cast(alloc, of, value)?, rest))
}
