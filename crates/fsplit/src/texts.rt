//! The text of a statement without blanks, and the name in it. Sections 2.2, 3.1 and 3.3.

ghost use Rattle.std.specs.Prelude.{◌≡◌, ◌<◌, ◌≤◌, ◌+◌, ◌==◌, ◌&&◌, ◌++◌, ◌∷◌, [], nat_eq, codes, length, drop, IfOk, if◌then◌else◌};
ghost use Rattle.std.specs.List.{prefix_len, starts_with};
ghost use Rattle.fortran_lexemes.specs.KindsOfStatements.{outside_constants, nesting_behind};
ghost use Rattle.split_pieces.specs.WantedNames.{is_in_name, run_of, is_name, behind_function, marks_of};

use fortran_text::Character;
use plain_data::Items;
use std::alloc::{AllocError, Global};
use stmt_lex::squeezed;

/// The most characters of a name.
const LONGEST_NAME: usize = 31;
/// How many characters FUNCTION has.
const FUNCTION_LENGTH: usize = 8;

/// Marks, and behind them a character, where it stands outside constants.
fn with_mark(marks: Items<u8>, character: Character) -> Result<Items<u8>, AllocError>
    ensures { IfOk result (λ longer. longer ≡ marks ++ (if character.quoted then [] else character.code ∷ [])) }
{
    let mut longer = marks;
    if !character.quoted {
        longer.push(character.code)?;
    }
    Ok(longer)
}

/// The characters that stand outside constants.
fn outside_constants(alloc: Global, text: &[Character]) -> Result<Items<u8>, AllocError>
    ensures { IfOk result (λ marks. marks ≡ outside_constants text.now) }
{
    let mut marks = Items::new(alloc);
    for character in text {
        marks = with_mark(marks, *character)?;
    }
    Ok(marks)
}

/// The text of a statement that is no FORMAT, without blanks and what stands inside constants, in lower case.
#[tactic(auto, unfolding(split_pieces::specs::WantedNames::marks_of, fortran_text::specs::CharactersOfText::characters, fortran_text::specs::CharactersOfText::has_counted))]
pub(crate) fn marks_of(alloc: Global, text: &[u8]) -> Result<Items<u8>, AllocError>
    ensures { IfOk result (λ marks. marks ≡ marks_of text.now) }
{
    let characters = squeezed(alloc, false, text)?;
    outside_constants(alloc, characters.as_slice())
}

/// Whether a character may stand in a name behind its first letter.
fn is_in_name(c: u8) -> bool
    ensures { result ≡ is_in_name c }
{
    c.is_ascii_lowercase() || c.is_ascii_digit() || c == b'_'
}

/// How many characters at the beginning of a text may stand in a name.
fn run_length(text: &[u8]) -> usize
    ensures value { result ≡ prefix_len is_in_name text.now }
    ensures within { result ≤ length text.now }
{
    let mut passed = 0;
    let mut rest = text;
    while let [first, behind @ ..] = rest {
        if !is_in_name(*first) {
            return passed;
        }
        passed += 1;
        rest = behind;
    }
    passed
}

/// The longest run of letters, digits and underscores that begins a text.
#[tactic(auto, unfolding(split_pieces::specs::WantedNames::run_of))]
pub(crate) fn run_of(text: &[u8]) -> &[u8]
    ensures { result.now ≡ run_of text.now }
{
    &text[..run_length(text)]
}

/// Whether such a run is a name. Section 2.2.
#[tactic(auto, unfolding(split_pieces::specs::WantedNames::is_name, fortran_lexemes::specs::KindsOfStatements::begins_with))]
pub(crate) fn is_name(run: &[u8]) -> bool
    ensures { result ≡ is_name run.now }
{
    match run {
        [first, ..] => first.is_ascii_lowercase() && run.len() <= LONGEST_NAME,
        [] => false,
    }
}

/// What stands behind so many characters of a text.
pub(crate) fn behind(text: &[u8], count: usize) -> &[u8]
    ensures { result.now ≡ drop count text.now }
{
    &text[count.min(text.len())..]
}

/// How many parentheses are open behind a character, of so many before it.
#[tactic(auto, unfolding(fortran_lexemes::specs::KindsOfStatements::nesting_behind))]
fn nesting_behind(depth: usize, c: u8) -> usize
    requires { depth < 18446744073709551615 }
    ensures value { result ≡ nesting_behind depth c }
    ensures within { result ≤ depth + 1 }
{
    match c {
        b'(' => depth + 1,
        b')' => depth.saturating_sub(1),
        _ => depth,
    }
}

/// Whether FUNCTION begins a text, outside parentheses, of which so many are open before it.
fn begins_function(depth: usize, text: &[u8]) -> bool
    ensures { result ≡ (depth == 0 && starts_with nat_eq text.now (codes "function")) }
{
    depth == 0 && text.starts_with(b"function")
}

/// What follows the first FUNCTION outside parentheses. Section 15.5.1.
pub(crate) fn behind_function(text: &[u8]) -> &[u8]
    ensures { result.now ≡ behind_function 0 text.now }
{
    let mut depth = 0;
    let mut rest = text;
    while let [first, more @ ..] = rest {
        if begins_function(depth, rest) {
            return behind(rest, FUNCTION_LENGTH);
        }
        depth = nesting_behind(depth, *first);
        rest = more;
    }
    rest
}
