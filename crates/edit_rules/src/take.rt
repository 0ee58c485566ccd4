//! Values from fields: the edit descriptors I, L and A on input (ANSI X3.9-1978, sections 13.5.8 to 13.5.11).
ghost use Rattle.std.specs.Prelude.{◌≡◌, ◌-◌, ◌^◌, ◌==◌, ◌||◌, length, not, min, fold, IsTrue};
ghost use Rattle.std.specs.List.{list_any, list_all, position_or_len};
ghost use Rattle.std.specs.Char.{is_ascii_digit};
ghost use Rattle.std.specs.Str.Parse.{digits_value};
ghost use Rattle.edit_meaning.specs.TakenFields.{behind_blanks, with_blanks_as, is_number, signed_int, int_of, int_in, logical_in, truth_of, text_in, next_size};
ghost use Rattle.edit_rules.specs.TakeErrors.{error_number, numbered};

use crate::columns::{fill, place};
use thiserror::Error;

/// Why a field has no value.
#[derive(Clone, Copy, Debug, PartialEq, Eq, Error)]
pub enum TakeError {
    /// No integer: number 1.
    #[error("not an integer")]
    BadInteger,
    /// No logical: number 2.
    #[error("not a logical")]
    BadLogical,
    /// An integer past 32 bits: number 3.
    #[error("an integer past 32 bits")]
    TooLarge,
}

impl TakeError {
    /// The number of the error, as IOSTAT= gives it.
    pub fn number(self) -> u8
        ensures { result ≡ error_number self }
    {
        match self {
            TakeError::BadInteger => 1,
            TakeError::BadLogical => 2,
            TakeError::TooLarge => 3,
        }
    }
}

#[tactic(auto, unfolding(edit_meaning::specs::TakenFields::int_in))]
/// The integer in a field: blanks, an optional sign, digits. Inner and trailing blanks are zeros under `zero_blanks`, and else nothing.
pub fn take_int(field: &[u8], zero_blanks: bool) -> Result<i32, TakeError>
    ensures { numbered result ≡ int_in field.now zero_blanks }
{
    let rest = without_leading_blanks(field);
    match rest {
        [] => Ok(0),
        [b'-', digits @ ..] => number_in(true, digits, zero_blanks),
        [b'+', digits @ ..] => number_in(false, digits, zero_blanks),
        _ => number_in(false, rest, zero_blanks),
    }
}

#[tactic(auto, unfolding(edit_meaning::specs::TakenFields::logical_in))]
/// The logical in a field: blanks, an optional point, T or F, and then anything.
pub fn take_logical(field: &[u8]) -> Result<bool, TakeError>
    ensures { numbered result ≡ logical_in field.now }
{
    let rest = without_leading_blanks(field);
    match rest {
        [b'.', letters @ ..] => letter(letters),
        _ => letter(rest),
    }
}

#[tactic(auto, unfolding(edit_meaning::specs::TakenFields::text_in))]
/// The text in a field: the rightmost bytes of a field that is longer than `into`, blanks behind a shorter one.
pub fn take_text(field: &[u8], into: &mut [u8])
    ensures { into.new ≡ text_in field.now (length into.old) }
{
    let size = into.len();
    if field.len() < size {
        place(field, into, 0);
        fill(into, field.len(), size, b' ');
    } else {
        place(&field[field.len() - size..], into, 0);
    }
}

/// The place of the first character that is no blank, or the length.
fn leading_blanks(field: &[u8]) -> usize
    ensures { result ≡ position_or_len (λ c. not (c == 32)) field.now }
{
    field.iter().take_while(|c| **c == b' ').count()
}

/// A field without the blanks at its front.
#[tactic(auto, using(crate::proofs::TakeSteps::behind_blanks_is, crate::proofs::TakeSteps::position_within))]
fn without_leading_blanks(field: &[u8]) -> &[u8]
    ensures { result.now ≡ behind_blanks field.now }
{
    &field[leading_blanks(field)..]
}

/// T or F in front.
fn letter(letters: &[u8]) -> Result<bool, TakeError>
    ensures { numbered result ≡ truth_of letters.now }
{
    match letters {
        [b'T', ..] => Ok(true),
        [b'F', ..] => Ok(false),
        _ => Err(TakeError::BadLogical),
    }
}

/// The number of the digits, with its sign.
#[tactic(auto, using(crate::proofs::TakeSteps::signed_int_capped))]
pub fn number_in(negative: bool, digits: &[u8], zero_blanks: bool) -> Result<i32, TakeError>
    ensures { numbered result ≡ int_of negative (with_blanks_as zero_blanks digits.now) }
{
    if !has_number(digits, zero_blanks) {
        return Err(TakeError::BadInteger);
    }
    with_sign(negative, size_in(digits, zero_blanks))
}

/// Whether there are digits, and nothing but digits and blanks.
fn has_number(digits: &[u8], zero_blanks: bool) -> bool
    ensures { result ≡ is_number (with_blanks_as zero_blanks digits.now) }
{
    has_digit(digits, zero_blanks) && all_digits(digits)
}

/// Whether there is a digit that counts.
fn has_digit(digits: &[u8], zero_blanks: bool) -> bool
    ensures { result ≡ list_any (λ c. zero_blanks || not (c == 32)) digits.now }
{
    digits.iter().any(|c| zero_blanks || *c != b' ')
}

/// Whether there are digits and blanks alone.
fn all_digits(digits: &[u8]) -> bool
    ensures { result ≡ list_all (λ c. c == 32 || is_ascii_digit c) digits.now }
{
    digits.iter().all(|c| *c == b' ' || c.is_ascii_digit())
}

/// The size of the number, or the greatest u64 where it is past that.
#[tactic(auto, using(crate::proofs::TakeSteps::size_is))]
fn size_in(digits: &[u8], zero_blanks: bool) -> u64
    requires { IsTrue (is_number (with_blanks_as zero_blanks digits.now)) }
    ensures { result ≡ min (digits_value 10 (with_blanks_as zero_blanks digits.now)) (2 ^ 64 - 1) }
{
    folded(digits, zero_blanks)
}

/// The number that digits give, which stays at a bound past 32 bits.
pub fn folded(digits: &[u8], zero_blanks: bool) -> u64
    ensures { result ≡ fold (λ size c. next_size zero_blanks size c) 0 digits.now }
{
    digits
        .iter()
        .fold(0, |size, c| with_digit(size, *c, zero_blanks))
}

/// The size with one more character.
fn with_digit(size: u64, character: u8, zero_blanks: bool) -> u64
    ensures { result ≡ next_size zero_blanks size character }
{
    if character == b' ' && !zero_blanks {
        return size;
    }
    size.saturating_mul(10)
        .saturating_add(character.saturating_sub(b'0') as u64)
}

/// A number with its sign, where it has 32 bits.
fn with_sign(negative: bool, size: u64) -> Result<i32, TakeError>
    ensures { numbered result ≡ signed_int negative size }
{
    match (negative, size) {
        (true, 0..=0x8000_0000) => Ok(-(size as i64) as i32),
        (false, 0..0x8000_0000) => Ok(size as i32),
        _ => Err(TakeError::TooLarge),
    }
}
