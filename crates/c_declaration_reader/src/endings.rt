//! What signs begin in a declaration (C89, 3.5).

ghost use Rattle.std.specs.Prelude.{◌≡◌, option_map};
ghost use Rattle.c_lexer.specs.SeenTokens.{sign_codes};
ghost use Rattle.c_readers.specs.Readers.{lookup};
ghost use Rattle.c_readers.specs.ValueReader as value;
ghost use Rattle.c_readers.specs.ValueReader.{a_sign_of};
ghost use Rattle.c_readers.specs.DeclarationReader as reader;
ghost use Rattle.c_expression_reader.specs.Readings.{shown, Gives};
ghost use Rattle.c_declaration_reader.specs.Endings.{seen_value_lead, seen_array_end, seen_number_end, seen_plain_end};

use c_expression_reader::Failure;
use c_lexer::{CSign, CToken, PlacedCToken};

/// What a sign begins, where a value is wanted.
#[derive(Clone, Copy)]
pub(crate) enum ValueLead {
    /// `-`, before a number.
    Negation,
    /// `(`, before the least value.
    Least,
}

/// What stands behind an array.
#[derive(Clone, Copy)]
pub(crate) enum ArrayEnd {
    /// `;`
    Ends,
    /// `=`, before what the array starts with.
    Starts,
}

/// What stands behind the name of a number that lasts.
#[derive(Clone, Copy)]
pub(crate) enum NumberEnd {
    /// `;`
    Bare,
    /// `=`, before the value that the number starts with.
    Valued,
    /// `[`, before the number of elements of an array.
    Many,
}

/// What stands behind the name of a number that does not last.
#[derive(Clone, Copy)]
pub(crate) enum PlainEnd {
    /// `;`
    Alone,
    /// `[`, before the number of elements of an array.
    Several,
}

/// What a sign begins where a value is wanted, if it begins one.
#[tactic(auto, unfolding(crate::specs::Endings::seen_value_lead, c_lexer::specs::SeenTokens::sign_codes))]
pub(crate) fn value_lead(sign: CSign) -> Option<ValueLead>
    ensures { option_map seen_value_lead result ≡ lookup (sign_codes sign) value.value_leads }
{
    match sign {
        CSign::Minus => Some(ValueLead::Negation),
        CSign::OpenParenthesis => Some(ValueLead::Least),
        _ => None,
    }
}

/// What a sign is behind an array.
#[tactic(auto, unfolding(crate::specs::Endings::seen_array_end, c_lexer::specs::SeenTokens::sign_codes))]
fn listed_array_end(sign: CSign) -> Option<ArrayEnd>
    ensures { option_map seen_array_end result ≡ lookup (sign_codes sign) reader.array_ends }
{
    match sign {
        CSign::Semicolon => Some(ArrayEnd::Ends),
        CSign::Assign => Some(ArrayEnd::Starts),
        _ => None,
    }
}

/// What a sign is behind the name of a number that lasts.
#[tactic(auto, unfolding(crate::specs::Endings::seen_number_end, c_lexer::specs::SeenTokens::sign_codes))]
fn listed_number_end(sign: CSign) -> Option<NumberEnd>
    ensures { option_map seen_number_end result ≡ lookup (sign_codes sign) reader.number_ends }
{
    match sign {
        CSign::Semicolon => Some(NumberEnd::Bare),
        CSign::Assign => Some(NumberEnd::Valued),
        CSign::OpenBracket => Some(NumberEnd::Many),
        _ => None,
    }
}

/// What a sign is behind the name of a number that does not last.
#[tactic(auto, unfolding(crate::specs::Endings::seen_plain_end, c_lexer::specs::SeenTokens::sign_codes))]
fn listed_plain_end(sign: CSign) -> Option<PlainEnd>
    ensures { option_map seen_plain_end result ≡ lookup (sign_codes sign) reader.plain_ends }
{
    match sign {
        CSign::Semicolon => Some(PlainEnd::Alone),
        CSign::OpenBracket => Some(PlainEnd::Several),
        _ => None,
    }
}

/// What stands behind an array.
#[tactic(auto, unfolding(c_expression_reader::specs::Readings::shown, c_lexer::specs::SeenTokens::seen, c_readers::specs::ValueReader::a_sign_of))]
pub(crate) fn array_end<'a>(
    tokens: &'a [PlacedCToken],
) -> Result<(ArrayEnd, &'a [PlacedCToken]), Failure<'a>>
    ensures { Gives (λ p. (seen_array_end p.0, shown p.1.now)) result (a_sign_of reader.array_ends (shown tokens.now)) }
{
    match tokens {
        [
            PlacedCToken {
                token: CToken::Sign(sign),
                ..
            },
            rest @ ..,
        ] => match listed_array_end(*sign) {
            Some(end) => Ok((end, rest)),
            None => Err(Failure::NotC(tokens)),
        },
        _ => Err(Failure::NotC(tokens)),
    }
}

/// What stands behind the name of a number that lasts.
#[tactic(auto, unfolding(c_expression_reader::specs::Readings::shown, c_lexer::specs::SeenTokens::seen, c_readers::specs::ValueReader::a_sign_of))]
pub(crate) fn number_end<'a>(
    tokens: &'a [PlacedCToken],
) -> Result<(NumberEnd, &'a [PlacedCToken]), Failure<'a>>
    ensures { Gives (λ p. (seen_number_end p.0, shown p.1.now)) result (a_sign_of reader.number_ends (shown tokens.now)) }
{
    match tokens {
        [
            PlacedCToken {
                token: CToken::Sign(sign),
                ..
            },
            rest @ ..,
        ] => match listed_number_end(*sign) {
            Some(end) => Ok((end, rest)),
            None => Err(Failure::NotC(tokens)),
        },
        _ => Err(Failure::NotC(tokens)),
    }
}

/// What stands behind the name of a number that does not last.
#[tactic(auto, unfolding(c_expression_reader::specs::Readings::shown, c_lexer::specs::SeenTokens::seen, c_readers::specs::ValueReader::a_sign_of))]
pub(crate) fn plain_end<'a>(
    tokens: &'a [PlacedCToken],
) -> Result<(PlainEnd, &'a [PlacedCToken]), Failure<'a>>
    ensures { Gives (λ p. (seen_plain_end p.0, shown p.1.now)) result (a_sign_of reader.plain_ends (shown tokens.now)) }
{
    match tokens {
        [
            PlacedCToken {
                token: CToken::Sign(sign),
                ..
            },
            rest @ ..,
        ] => match listed_plain_end(*sign) {
            Some(end) => Ok((end, rest)),
            None => Err(Failure::NotC(tokens)),
        },
        _ => Err(Failure::NotC(tokens)),
    }
}
