//! What stands in a record of list-directed input (ANSI X3.9-1978, section 13.6.1): separators, words, repeat counts, ends of texts.
ghost use Rattle.std.specs.Prelude.{◌≡◌, ◌+◌, ◌-◌, ◌<◌, ◌≤◌, ◌==◌, ◌&&◌, length, take, drop, not, false, fold, min, IsTrue, Bool};
ghost use Rattle.std.specs.List.{position_or_len, list_all};
ghost use Rattle.std.specs.Char.{is_ascii_digit};
ghost use Rattle.std.specs.Str.{all_ascii_digits};
ghost use Rattle.std.specs.Str.Parse.{digits_value};
ghost use Rattle.edit_meaning.specs.ListInput.{is_separator, sought, digit_count, begins_with, count_of, count_before, word_length, truth_letter, logical_word, ending, run_length};
ghost use Rattle.edit_rules.specs.ListPlaces.{sought_at, SoughtWithin, ending_of, int_word_of_blanks};
ghost use Rattle.edit_rules.specs.TakeErrors.{numbered};

use crate::take::{TakeError, folded, number_in};

/// What stands behind the separators before an item, with its place from where they were sought.
#[derive(Clone, Copy, Debug)]
pub enum Sought {
    End { valued: bool },
    Null(usize),
    Slash,
    Value(usize),
}

/// How the rest of a text in apostrophes ends in its record.
#[derive(Clone, Copy, Debug)]
pub enum TextEnd {
    Open,
    Well,
    Badly,
}

/// Whether a character ends a value: a blank, a comma or a slash.
pub fn separates(character: u8) -> bool
    ensures { result ≡ is_separator character }
{
    character == b' ' || character == b',' || character == b'/'
}

/// Passes blanks, and one comma behind a value.
pub fn seek(rest: &[u8], valued: bool) -> Sought
    ensures found { sought_at rest.now result ≡ sought valued rest.now }
    ensures within { SoughtWithin (length rest.now) result }
{
    let mut valued = valued;
    for (place, character) in rest.iter().enumerate() {
        match *character {
            b' ' => {}
            b',' if valued => valued = false,
            b',' => return Sought::Null(place + 1),
            b'/' => return Sought::Slash,
            _ => return Sought::Value(place),
        }
    }
    Sought::End { valued }
}

/// The length of the characters up to the next separator.
pub fn word_len(rest: &[u8]) -> usize
    ensures value { result ≡ word_length rest.now }
    ensures within { result ≤ length rest.now }
{
    rest.iter().take_while(|c| !separates(**c)).count()
}

/// The length of the characters up to the next apostrophe.
pub fn run_len(rest: &[u8]) -> usize
    ensures value { result ≡ run_length rest.now }
    ensures within { result ≤ length rest.now }
{
    rest.iter().take_while(|c| **c != b'\'').count()
}

/// Whether an apostrophe stands in front.
pub fn is_quoted(rest: &[u8]) -> bool
    ensures value { result ≡ begins_with 39 rest.now }
    ensures some { IsTrue result → 0 < length rest.now }
{
    match rest {
        [first, ..] => *first == b'\'',
        [] => false,
    }
}

/// The number of digits at the front.
pub fn digits_len(rest: &[u8]) -> usize
    ensures value { result ≡ digit_count rest.now }
    ensures within { result ≤ length rest.now }
{
    rest.iter().take_while(|c| c.is_ascii_digit()).count()
}

/// How a text in apostrophes ends.
pub fn text_end(rest: &[u8]) -> TextEnd
    ensures { ending_of result ≡ ending false rest.now }
{
    let mut quoted = false;
    for character in rest {
        if quoted && *character != b'\'' {
            return if separates(*character) {
                TextEnd::Well
            } else {
                TextEnd::Badly
            };
        }
        quoted = *character == b'\'' && !quoted;
    }
    if quoted { TextEnd::Well } else { TextEnd::Open }
}

/// An integer: an optional sign and digits.
pub fn read_int(word: &[u8]) -> Result<i32, TakeError>
    ensures { numbered result ≡ int_word_of_blanks word.now }
{
    match word {
        [b'-', digits @ ..] => number_in(true, digits, false),
        [b'+', digits @ ..] => number_in(false, digits, false),
        _ => number_in(false, word, false),
    }
}

/// A logical: an optional point, T or F in either case, and then anything.
pub fn read_logical(word: &[u8]) -> Result<bool, TakeError>
    ensures { numbered result ≡ logical_word word.now }
{
    match word {
        [b'.', letters @ ..] => read_letter(letters),
        _ => read_letter(word),
    }
}

/// The logical that a first letter means.
fn read_letter(letters: &[u8]) -> Result<bool, TakeError>
    ensures { numbered result ≡ truth_letter letters.now }
{
    match letters {
        [b'T' | b't', ..] => Ok(true),
        [b'F' | b'f', ..] => Ok(false),
        _ => Err(TakeError::BadLogical),
    }
}

#[tactic(auto, using(crate::proofs::ListScans::digit_characters))]
/// The repeat count before an asterisk, where one stands in front.
pub fn repeat_count(rest: &[u8]) -> Option<usize>
    ensures { result ≡ count_before rest.now }
{
    let digits = digits_len(rest);
    match &rest[digits..] {
        [b'*', ..] => as_count(&rest[..digits]),
        _ => None,
    }
}

/// The number of the digits, from 1 to 32,767.
fn as_count(digits: &[u8]) -> Option<usize>
    requires { IsTrue (all_ascii_digits digits.now) }
    ensures { result ≡ count_of (digits_value 10 digits.now) }
{
    within_counts(folded(digits, false))
}

/// A number as a repeat count, where it is from 1 to 32,767.
fn within_counts(count: u64) -> Option<usize>
    ensures { result ≡ count_of count }
{
    if 0 < count && count <= 32_767 {
        Some(count as usize)
    } else {
        None
    }
}
