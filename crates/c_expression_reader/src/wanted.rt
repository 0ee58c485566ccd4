//! Tokens that are wanted: signs, words and names.

ghost use Rattle.std.specs.Prelude.{◌≡◌, bytes_eq};
ghost use Rattle.c_lexer.specs.SeenTokens.{sign_codes};
ghost use Rattle.c_tree.specs.CWords.{is_name, is_among};
ghost use Rattle.c_readers.specs.Readers as reader;
ghost use Rattle.c_scope.specs.ScopeSeen.{scope_of};
ghost use Rattle.c_expression_reader.specs.Readings.{shown, Gives};
ghost use Rattle.c_expression_reader.specs.Lists.{is_closed};

use crate::failure::Failure;
use c_lexer::{CSign, CToken, PlacedCToken};
use c_scope::{CScope, is_name};

/// Whether a sign is the one that is wanted.
pub(crate) fn is_same(sign: CSign, wanted: CSign) -> bool
    ensures { result ≡ bytes_eq (sign_codes sign) (sign_codes wanted) }
{
    sign == wanted
}

/// The tokens behind a sign that is wanted.
#[tactic(auto, unfolding(crate::specs::Readings::shown, c_lexer::specs::SeenTokens::seen, c_readers::specs::Readers::a_sign))]
pub fn a_sign<'a>(
    wanted: CSign,
    tokens: &'a [PlacedCToken],
) -> Result<&'a [PlacedCToken], Failure<'a>>
    ensures { Gives (λ rest. (tt, shown rest.now)) result (reader.a_sign (sign_codes wanted) (shown tokens.now)) }
{
    match tokens {
        [
            PlacedCToken {
                token: CToken::Sign(sign),
                ..
            },
            rest @ ..,
        ] if is_same(*sign, wanted) => Ok(rest),
        _ => Err(Failure::NotC(tokens)),
    }
}

/// The tokens behind a word that is wanted.
#[tactic(auto, unfolding(crate::specs::Readings::shown, c_lexer::specs::SeenTokens::seen, c_readers::specs::Readers::a_word))]
pub fn a_word<'a>(
    wanted: &[u8],
    tokens: &'a [PlacedCToken],
) -> Result<&'a [PlacedCToken], Failure<'a>>
    ensures { Gives (λ rest. (tt, shown rest.now)) result (reader.a_word wanted.now (shown tokens.now)) }
{
    match tokens {
        [
            PlacedCToken {
                token: CToken::Word(text),
                ..
            },
            rest @ ..,
        ] if text.as_slice() == wanted => Ok(rest),
        _ => Err(Failure::NotC(tokens)),
    }
}

/// A name, and the tokens behind it (C89, 3.1.2).
#[tactic(auto, unfolding(crate::specs::Readings::shown, c_lexer::specs::SeenTokens::seen, c_readers::specs::Readers::a_name))]
pub fn a_name<'a>(tokens: &'a [PlacedCToken]) -> Result<(&'a [u8], &'a [PlacedCToken]), Failure<'a>>
    ensures { Gives (λ p. (p.0.now, shown p.1.now)) result (reader.a_name is_name (shown tokens.now)) }
{
    match tokens {
        [
            PlacedCToken {
                token: CToken::Word(text),
                ..
            },
            rest @ ..,
        ] if is_name(text.as_slice()) => Ok((text.as_slice(), rest)),
        _ => Err(Failure::NotC(tokens)),
    }
}

/// The name of a parameter that points to a function, and the tokens behind it.
#[tactic(auto, unfolding(crate::specs::Readings::shown, c_lexer::specs::SeenTokens::seen, c_readers::specs::Readers::a_name))]
pub(crate) fn a_pointer<'a>(
    scope: &CScope,
    tokens: &'a [PlacedCToken],
) -> Result<(&'a [u8], &'a [PlacedCToken]), Failure<'a>>
    ensures { Gives (λ p. (p.0.now, shown p.1.now)) result (reader.a_name (λ name. is_among name (scope_of scope.now).pointers) (shown tokens.now)) }
{
    match tokens {
        [
            PlacedCToken {
                token: CToken::Word(text),
                ..
            },
            rest @ ..,
        ] if scope.is_pointer(text.as_slice()) => Ok((text.as_slice(), rest)),
        _ => Err(Failure::NotC(tokens)),
    }
}

/// Whether a list is closed behind an item, by the sign that is wanted, or goes on behind a comma, and the tokens behind that.
#[tactic(auto, unfolding(crate::specs::Readings::shown, crate::specs::Lists::is_closed, crate::specs::Lists::closing_by, c_lexer::specs::SeenTokens::seen, c_lexer::specs::SeenTokens::sign_codes))]
pub fn is_closed<'a>(
    closing: CSign,
    tokens: &'a [PlacedCToken],
) -> Result<(bool, &'a [PlacedCToken]), Failure<'a>>
    ensures { Gives (λ p. (p.0, shown p.1.now)) result (is_closed (sign_codes closing) (shown tokens.now)) }
{
    match tokens {
        [
            PlacedCToken {
                token: CToken::Sign(sign),
                ..
            },
            rest @ ..,
        ] => {
            if is_same(*sign, closing) {
                Ok((true, rest))
            } else if is_same(*sign, CSign::Comma) {
                Ok((false, rest))
            } else {
                Err(Failure::NotC(tokens))
            }
        }
        _ => Err(Failure::NotC(tokens)),
    }
}
