//! Tokens that are wanted: new names, numbers and strings.

ghost use Rattle.std.specs.Prelude.{◌≡◌, ◌≤◌, false, true, IfOk, length, nat_eq, nat_le};
ghost use Rattle.c_tree.specs.CWords.{is_among};
ghost use Rattle.c_lexer.specs.SeenTokens.{sign_codes};
ghost use Rattle.c_readers.specs.Readers as reader;
ghost use Rattle.c_readers.specs.ValueReader.{a_number, a_quoted, is_within, is_length};
ghost use Rattle.c_readers.specs.DeclarationReader.{is_new};
ghost use Rattle.c_scope.specs.ScopeSeen.{here_of, file_here_of};
ghost use Rattle.c_expression_reader.specs.Readings.{shown, Gives};
ghost use Rattle.c_declaration_reader.specs.Items.{is_closed_within};

use c_expression_reader::{Failure, a_sign, is_closed};
use c_lexer::{CSign, CToken, PlacedCToken};
use c_scope::{CScope, is_name};

/// The greatest number (C89, 3.1.3.2).
const GREATEST: u32 = 2_147_483_647;

/// A name that the function does not declare yet, and the tokens behind it (C89, 3.1.2.1).
///
/// # Errors
///
/// The tokens, where no such name stands first.
#[tactic(auto, unfolding(c_expression_reader::specs::Readings::shown, c_lexer::specs::SeenTokens::seen, c_readers::specs::Readers::a_name))]
pub fn a_name_of_the_function<'a>(
    scope: &CScope,
    tokens: &'a [PlacedCToken],
) -> Result<(&'a [u8], &'a [PlacedCToken]), Failure<'a>>
    ensures read { Gives (λ p. (p.0.now, shown p.1.now)) result (reader.a_name (is_new (here_of scope.now)) (shown tokens.now)) }
    ensures fresh { IfOk result (λ p. is_among p.0.now (here_of scope.now) ≡ false) }
{
    match tokens {
        [
            PlacedCToken {
                token: CToken::Word(text),
                ..
            },
            rest @ ..,
        ] if is_name(text.as_slice()) && !scope.is_here(text.as_slice()) => {
            Ok((text.as_slice(), rest))
        }
        _ => Err(Failure::NotC(tokens)),
    }
}

/// A name that the file does not declare yet, outside functions, and the tokens behind it (C89, 3.1.2.1).
///
/// # Errors
///
/// The tokens, where no such name stands first.
#[tactic(auto, unfolding(c_expression_reader::specs::Readings::shown, c_lexer::specs::SeenTokens::seen, c_readers::specs::Readers::a_name))]
pub fn a_name_of_the_file<'a>(
    scope: &CScope,
    tokens: &'a [PlacedCToken],
) -> Result<(&'a [u8], &'a [PlacedCToken]), Failure<'a>>
    ensures read { Gives (λ p. (p.0.now, shown p.1.now)) result (reader.a_name (is_new (file_here_of scope.now)) (shown tokens.now)) }
    ensures fresh { IfOk result (λ p. is_among p.0.now (file_here_of scope.now) ≡ false) }
{
    match tokens {
        [
            PlacedCToken {
                token: CToken::Word(text),
                ..
            },
            rest @ ..,
        ] if is_name(text.as_slice()) && !scope.is_in_file(text.as_slice()) => {
            Ok((text.as_slice(), rest))
        }
        _ => Err(Failure::NotC(tokens)),
    }
}

/// A number of the subset, and the tokens behind it (C89, 3.1.3.2).
#[tactic(auto, unfolding(c_expression_reader::specs::Readings::shown, c_lexer::specs::SeenTokens::seen, c_readers::specs::ValueReader::a_number))]
pub(crate) fn a_number<'a>(
    tokens: &'a [PlacedCToken],
) -> Result<(u32, &'a [PlacedCToken]), Failure<'a>>
    ensures read { Gives (λ p. (p.0, shown p.1.now)) result (a_number is_within (shown tokens.now)) }
    ensures within { IfOk result (λ p. p.0 ≤ 2147483647) }
{
    match tokens {
        [
            PlacedCToken {
                token: CToken::Digits(value),
                ..
            },
            rest @ ..,
        ] if *value <= GREATEST => Ok((*value, rest)),
        _ => Err(Failure::NotC(tokens)),
    }
}

/// Whether a number is one that an array may have of elements.
pub(crate) fn is_length(count: u32) -> bool
    ensures { result ≡ is_length count }
{
    1 <= count && count <= GREATEST
}

/// The number of elements of an array, and the tokens behind it (C89, 3.5.4.2).
#[tactic(auto, unfolding(c_expression_reader::specs::Readings::shown, c_lexer::specs::SeenTokens::seen, c_readers::specs::ValueReader::a_number))]
pub(crate) fn a_length<'a>(
    tokens: &'a [PlacedCToken],
) -> Result<(u32, &'a [PlacedCToken]), Failure<'a>>
    ensures { Gives (λ p. (p.0, shown p.1.now)) result (a_number is_length (shown tokens.now)) }
{
    match tokens {
        [
            PlacedCToken {
                token: CToken::Digits(value),
                ..
            },
            rest @ ..,
        ] if is_length(*value) => Ok((*value, rest)),
        _ => Err(Failure::NotC(tokens)),
    }
}

/// The number that is wanted, and the tokens behind it.
#[tactic(auto, unfolding(c_expression_reader::specs::Readings::shown, c_lexer::specs::SeenTokens::seen, c_readers::specs::ValueReader::a_number))]
pub(crate) fn this_number<'a>(
    wanted: u32,
    tokens: &'a [PlacedCToken],
) -> Result<(u32, &'a [PlacedCToken]), Failure<'a>>
    ensures { Gives (λ p. (p.0, shown p.1.now)) result (a_number (nat_eq wanted) (shown tokens.now)) }
{
    match tokens {
        [
            PlacedCToken {
                token: CToken::Digits(value),
                ..
            },
            rest @ ..,
        ] if wanted == *value => Ok((*value, rest)),
        _ => Err(Failure::NotC(tokens)),
    }
}

/// A string, and the tokens behind it (C89, 3.1.4).
#[tactic(auto, unfolding(c_expression_reader::specs::Readings::shown, c_lexer::specs::SeenTokens::seen, c_readers::specs::ValueReader::a_quoted))]
pub(crate) fn a_string<'a>(
    tokens: &'a [PlacedCToken],
) -> Result<(&'a [u8], &'a [PlacedCToken]), Failure<'a>>
    ensures { Gives (λ p. (p.0.now, shown p.1.now)) result (a_quoted (λ bytes. true) (shown tokens.now)) }
{
    match tokens {
        [
            PlacedCToken {
                token: CToken::Quoted(bytes),
                ..
            },
            rest @ ..,
        ] => Ok((bytes.as_slice(), rest)),
        _ => Err(Failure::NotC(tokens)),
    }
}

/// A string of so many bytes at most, and the tokens behind it.
#[tactic(auto, unfolding(c_expression_reader::specs::Readings::shown, c_lexer::specs::SeenTokens::seen, c_readers::specs::ValueReader::a_quoted))]
pub(crate) fn a_string_within<'a>(
    most: u32,
    tokens: &'a [PlacedCToken],
) -> Result<(&'a [u8], &'a [PlacedCToken]), Failure<'a>>
    ensures { Gives (λ p. (p.0.now, shown p.1.now)) result (a_quoted (λ bytes. nat_le (length bytes) most) (shown tokens.now)) }
{
    match tokens {
        [
            PlacedCToken {
                token: CToken::Quoted(bytes),
                ..
            },
            rest @ ..,
        ] if bytes.len() <= most as usize => Ok((bytes.as_slice(), rest)),
        _ => Err(Failure::NotC(tokens)),
    }
}

/// Whether a list is closed behind an item, by the sign that is wanted, or goes on behind a comma, where so many items may still follow, and the
/// tokens behind that.
#[tactic(auto, using(crate::proofs::BoundedSteps::closed_more), unfolding(crate::specs::Items::is_closed_within))]
pub(crate) fn is_closed_within<'a>(
    left: u32,
    closing: CSign,
    tokens: &'a [PlacedCToken],
) -> Result<(bool, &'a [PlacedCToken]), Failure<'a>>
    ensures { Gives (λ p. (p.0, shown p.1.now)) result (is_closed_within left (sign_codes closing) (shown tokens.now)) }
{
    if left == 0 {
        let rest = a_sign(closing, tokens)?;
        Ok((true, rest))
    } else {
        is_closed(closing, tokens)
    }
}
