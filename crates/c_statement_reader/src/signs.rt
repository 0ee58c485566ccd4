//! Signs and calls that stand first in tokens.

ghost use Rattle.std.specs.Prelude.{◌≡◌, bytes_eq, codes};
ghost use Rattle.c_lexer.specs.SeenTokens.{sign_codes};
ghost use Rattle.c_scope.specs.ScopeSeen.{scope_of};
ghost use Rattle.c_expression_reader.specs.Readings.{shown};
ghost use Rattle.c_statement_readers.specs.PartReader as reader;
ghost use Rattle.c_statement_reader.specs.Signs.{closes_and_opens};

use c_lexer::{CSign, CToken, PlacedCToken};
use c_scope::CScope;

/// Whether a sign is a semicolon.
#[tactic(auto, unfolding(c_lexer::specs::SeenTokens::sign_codes))]
pub(crate) fn is_semicolon(sign: CSign) -> bool
    ensures { result ≡ bytes_eq (sign_codes sign) (codes ";") }
{
    matches!(sign, CSign::Semicolon)
}

/// Whether a sign is a closing brace.
#[tactic(auto, unfolding(c_lexer::specs::SeenTokens::sign_codes))]
pub(crate) fn is_closing_brace(sign: CSign) -> bool
    ensures { result ≡ bytes_eq (sign_codes sign) (codes "}") }
{
    matches!(sign, CSign::CloseBrace)
}

/// Whether a sign is an opening parenthesis.
#[tactic(auto, unfolding(c_lexer::specs::SeenTokens::sign_codes))]
fn is_opening(sign: CSign) -> bool
    ensures { result ≡ bytes_eq (sign_codes sign) (codes "(") }
{
    matches!(sign, CSign::OpenParenthesis)
}

/// Whether a sign is a closing parenthesis.
#[tactic(auto, unfolding(c_lexer::specs::SeenTokens::sign_codes))]
fn is_closing(sign: CSign) -> bool
    ensures { result ≡ bytes_eq (sign_codes sign) (codes ")") }
{
    matches!(sign, CSign::CloseParenthesis)
}

/// Whether a sign is a star.
#[tactic(auto, unfolding(c_lexer::specs::SeenTokens::sign_codes))]
fn is_star(sign: CSign) -> bool
    ensures { result ≡ bytes_eq (sign_codes sign) (codes "*") }
{
    matches!(sign, CSign::Star)
}

/// Whether a sign is a colon.
#[tactic(auto, unfolding(c_lexer::specs::SeenTokens::sign_codes))]
fn is_colon(sign: CSign) -> bool
    ensures { result ≡ bytes_eq (sign_codes sign) (codes ":") }
{
    matches!(sign, CSign::Colon)
}

/// Whether an opening parenthesis stands first.
#[tactic(auto, unfolding(c_expression_reader::specs::Readings::shown, c_lexer::specs::SeenTokens::seen))]
fn starts_with_opening(tokens: &[PlacedCToken]) -> bool
    ensures { result ≡ reader.starts_with (codes "(") (shown tokens.now) }
{
    match tokens {
        [
            PlacedCToken {
                token: CToken::Sign(sign),
                ..
            },
            ..
        ] => is_opening(*sign),
        _ => false,
    }
}

/// Whether a colon stands first.
#[tactic(auto, unfolding(c_expression_reader::specs::Readings::shown, c_lexer::specs::SeenTokens::seen))]
pub(crate) fn starts_with_colon(tokens: &[PlacedCToken]) -> bool
    ensures { result ≡ reader.starts_with (codes ":") (shown tokens.now) }
{
    match tokens {
        [
            PlacedCToken {
                token: CToken::Sign(sign),
                ..
            },
            ..
        ] => is_colon(*sign),
        _ => false,
    }
}

/// Whether a closing parenthesis and an opening one stand first.
#[tactic(auto, unfolding(c_expression_reader::specs::Readings::shown, c_lexer::specs::SeenTokens::seen))]
fn closes_and_opens(tokens: &[PlacedCToken]) -> bool
    ensures { result ≡ closes_and_opens (shown tokens.now) }
{
    match tokens {
        [
            PlacedCToken {
                token: CToken::Sign(sign),
                ..
            },
            rest @ ..,
        ] => is_closing(*sign) && starts_with_opening(rest),
        _ => false,
    }
}

/// Whether a parameter that points to a function, a closing parenthesis and an opening one stand first.
#[tactic(auto, using(crate::proofs::FirstSigns::first_signs), unfolding(c_expression_reader::specs::Readings::shown, c_lexer::specs::SeenTokens::seen))]
fn points_and_opens(scope: &CScope, tokens: &[PlacedCToken]) -> bool
    ensures { result ≡ reader.points_and_opens (scope_of scope.now) (shown tokens.now) }
{
    match tokens {
        [
            PlacedCToken {
                token: CToken::Word(name),
                ..
            },
            rest @ ..,
        ] => scope.is_pointer(name.as_slice()) && closes_and_opens(rest),
        _ => false,
    }
}

/// Whether a star stands first, and such a parameter behind it.
#[tactic(auto, unfolding(c_expression_reader::specs::Readings::shown, c_lexer::specs::SeenTokens::seen))]
fn starred_and_opens(scope: &CScope, tokens: &[PlacedCToken]) -> bool
    ensures { result ≡ reader.starred_and_opens (scope_of scope.now) (shown tokens.now) }
{
    match tokens {
        [
            PlacedCToken {
                token: CToken::Sign(sign),
                ..
            },
            rest @ ..,
        ] => is_star(*sign) && points_and_opens(scope, rest),
        _ => false,
    }
}

/// Whether a call begins: the name of a function with an opening parenthesis behind it, or a parenthesis, a star and a parameter that points to
/// a function, with a closing parenthesis and an opening one behind it (C89, 3.3.2.2).
#[tactic(auto, unfolding(c_expression_reader::specs::Readings::shown, c_lexer::specs::SeenTokens::seen))]
pub(crate) fn begins_call(scope: &CScope, tokens: &[PlacedCToken]) -> bool
    ensures { result ≡ reader.begins_call (scope_of scope.now) (shown tokens.now) }
{
    let [first, rest @ ..] = tokens else {
        return false;
    };
    match &first.token {
        CToken::Word(name) => scope.is_function(name.as_slice()) && starts_with_opening(rest),
        CToken::Sign(sign) => is_opening(*sign) && starred_and_opens(scope, rest),
        _ => false,
    }
}
