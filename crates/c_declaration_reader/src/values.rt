//! Values (C89, 3.5.7).

ghost use Rattle.std.specs.Prelude.{◌≡◌, ◌≤◌, [], Some};
ghost use Rattle.c_readers.specs.ValueReader as reader;
ghost use Rattle.c_expression_reader.specs.Readings.{shown, Gives};
ghost use Rattle.c_declaration_reader.specs.Endings.{seen_value_lead};

use crate::endings::{ValueLead, value_lead};
use crate::wanted::{a_number, this_number};
use c_expression_reader::{Failure, a_sign};
use c_lexer::{CSign, CToken, PlacedCToken};

/// The greatest number (C89, 3.1.3.2).
const GREATEST: u32 = 2_147_483_647;

/// A number with its sign turned.
fn negative(value: u32) -> i32
    requires { value ≤ 2147483647 }
    ensures { result ≡ reader.negative value }
{
    -(value as i32)
}

/// Behind a sign: the number.
#[tactic(auto, unfolding(c_readers::specs::ValueReader::negated))]
fn negated<'a>(tokens: &'a [PlacedCToken]) -> Result<(i32, &'a [PlacedCToken]), Failure<'a>>
    ensures { Gives (λ p. (p.0, shown p.1.now)) result (reader.negated (shown tokens.now)) }
{
    let (value, rest) = a_number(tokens)?;
    Ok((negative(value), rest))
}

/// Behind the opening parenthesis of the least value: the rest of it.
#[tactic(auto, unfolding(c_readers::specs::ValueReader::least, c_lexer::specs::SeenTokens::sign_codes))]
fn least<'a>(tokens: &'a [PlacedCToken]) -> Result<(i32, &'a [PlacedCToken]), Failure<'a>>
    ensures { Gives (λ p. (p.0, shown p.1.now)) result (reader.least (shown tokens.now)) }
{
    let rest = a_sign(CSign::Minus, tokens)?;
    let (_, rest) = this_number(GREATEST, rest)?;
    let rest = a_sign(CSign::Minus, rest)?;
    let (_, rest) = this_number(1, rest)?;
    let rest = a_sign(CSign::CloseParenthesis, rest)?;
    Ok((i32::MIN, rest))
}

/// The value behind a sign that begins one.
#[tactic(auto, unfolding(c_readers::specs::ValueReader::by_value_sign, crate::specs::Endings::seen_value_lead))]
fn by_value_sign<'a>(
    lead: ValueLead,
    tokens: &'a [PlacedCToken],
) -> Result<(i32, &'a [PlacedCToken]), Failure<'a>>
    ensures { Gives (λ p. (p.0, shown p.1.now)) result (reader.by_value_sign [] (shown tokens.now) (Some (seen_value_lead lead))) }
{
    match lead {
        ValueLead::Negation => negated(tokens),
        ValueLead::Least => least(tokens),
    }
}

/// A value, and the tokens behind it: a number with a sign or without one, or the least value, which no number with a sign is (C89, 3.5.7).
///
/// # Errors
///
/// The tokens from the first one on with which nothing goes on.
#[tactic(auto, unfolding(c_expression_reader::specs::Readings::shown, c_lexer::specs::SeenTokens::seen, c_readers::specs::ValueReader::value, c_readers::specs::ValueReader::by_value_sign))]
pub fn read_value<'a>(tokens: &'a [PlacedCToken]) -> Result<(i32, &'a [PlacedCToken]), Failure<'a>>
    ensures { Gives (λ p. (p.0, shown p.1.now)) result (reader.value (shown tokens.now)) }
{
    let [first, rest @ ..] = tokens else {
        return Err(Failure::NotC(tokens));
    };
    match &first.token {
        CToken::Digits(value) if *value <= GREATEST => Ok((*value as i32, rest)),
        CToken::Sign(sign) => match value_lead(*sign) {
            Some(lead) => by_value_sign(lead, rest),
            None => Err(Failure::NotC(tokens)),
        },
        _ => Err(Failure::NotC(tokens)),
    }
}
