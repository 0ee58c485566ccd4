//! Words and numbers (C89, 3.1.2 and 3.1.3.2).

ghost use Rattle.std.specs.Prelude.{◌≡◌, true, min, IfOk};
ghost use Rattle.std.specs.List.{list_all};
ghost use Rattle.std.specs.Char.{is_ascii_digit};
ghost use Rattle.std.specs.Str.Parse.{digits_value};
ghost use Rattle.c_tree.specs.Tokens.{word_or_number, is_short};
ghost use Rattle.c_lexer.specs.SeenTokens.{seen};
ghost use Rattle.c_lexer.specs.Parts.{as_number};

use crate::classes::is_letter;
use crate::spans::begins_with;
use crate::token::CToken;
use c_tree::expression::Text;
use std::alloc::{AllocError, Global};

/// One more than the greatest number.
const PAST_GREATEST: u64 = 2_147_483_648;

/// Whether all bytes are digits.
fn are_digits(text: &[u8]) -> bool
    ensures { result ≡ list_all is_ascii_digit text.now }
{
    text.iter().all(|byte| byte.is_ascii_digit())
}

/// Whether no zero stands needlessly before the digits.
#[tactic(auto, using(std::proofs::lemmas::Bool::Decides::nat_tests))]
fn is_short(text: &[u8]) -> bool
    ensures { result ≡ is_short text.now }
{
    text.len() <= 1 || !begins_with(b'0', text)
}

/// The value of digits; past the greatest number it is one more than that.
#[tactic(auto, using(crate::proofs::NumberLemmas::digit_at, crate::proofs::NumberLemmas::digit_bounds, crate::proofs::NumberLemmas::one_digit_more))]
fn capped_value(digits: &[u8]) -> u64
    requires { list_all is_ascii_digit digits.now ≡ true }
    ensures { result ≡ min (digits_value 10 digits.now) 2147483648 }
{
    let mut value = 0;
    for digit in digits {
        value = (value * 10 + u64::from(*digit - b'0')).min(PAST_GREATEST);
    }
    value
}

/// The value of a number of the subset.
#[tactic(auto, using(crate::proofs::NumberLemmas::number_not_digits, crate::proofs::NumberLemmas::number_not_short, crate::proofs::NumberLemmas::number_too_large, crate::proofs::NumberLemmas::number_is))]
fn number_of(text: &[u8]) -> Option<u32>
    ensures { result ≡ as_number text.now }
{
    if !are_digits(text) || !is_short(text) {
        return None;
    }
    let value = capped_value(text);
    if value < PAST_GREATEST {
        Some(value as u32)
    } else {
        None
    }
}

/// The token of a run of letters, digits and underscores, of which the first is given: a word, a number, or none that a file has.
#[tactic(auto, using(crate::proofs::NumberLemmas::word_token, crate::proofs::NumberLemmas::digits_token, crate::proofs::NumberLemmas::bad_token), unfolding(crate::specs::SeenTokens::seen))]
pub(crate) fn word_or_number(alloc: Global, first: u8, text: &[u8]) -> Result<CToken, AllocError>
    ensures { IfOk result (λ token. seen token ≡ word_or_number first text.now) }
{
    if is_letter(first) {
        return Ok(CToken::Word(Text::from_slice(alloc, text)?));
    }
    match number_of(text) {
        Some(value) => Ok(CToken::Digits(value)),
        None => Ok(CToken::Bad),
    }
}
