//! Characters by their class, and the words that begin a text. Section 3.1.

ghost use Rattle.std.specs.Prelude.{◌≡◌, ◌≤◌, length, IsTrue};
ghost use Rattle.std.specs.List.{prefix_len};
ghost use Rattle.fortran_lexemes.specs.PiecesOfText.{is_mark, is_letter, is_digit, is_in_name, begins};

use fortran_text::Character;

/// Whether a character stands outside constants and is this one.
pub(crate) fn is_mark(code: u8, c: Character) -> bool
    ensures { result ≡ is_mark code c }
{
    !c.quoted && c.code == code
}

/// Whether a character is a letter outside constants.
pub(crate) fn is_letter(c: Character) -> bool
    ensures { result ≡ is_letter c }
{
    !c.quoted && c.code.is_ascii_lowercase()
}

/// Whether a character is a digit outside constants.
pub(crate) fn is_digit(c: Character) -> bool
    ensures { result ≡ is_digit c }
{
    !c.quoted && c.code.is_ascii_digit()
}

/// Whether a character may stand in a name behind its first letter.
pub(crate) fn is_in_name(c: Character) -> bool
    ensures { result ≡ is_in_name c }
{
    !c.quoted && (c.code.is_ascii_lowercase() || c.code.is_ascii_digit() || c.code == b'_')
}

/// How many characters at the beginning of a text go on with a name.
pub(crate) fn name_len(text: &[Character]) -> usize
    ensures value { result ≡ prefix_len is_in_name text.now }
    ensures within { result ≤ length text.now }
{
    let mut passed = 0;
    let mut rest = text;
    while let [first, behind @ ..] = rest {
        if !is_in_name(*first) {
            return passed;
        }
        passed += 1;
        rest = behind;
    }
    passed
}

/// How many digits a text begins with.
pub(crate) fn digits_len(text: &[Character]) -> usize
    ensures value { result ≡ prefix_len is_digit text.now }
    ensures within { result ≤ length text.now }
{
    let mut passed = 0;
    let mut rest = text;
    while let [first, behind @ ..] = rest {
        if !is_digit(*first) {
            return passed;
        }
        passed += 1;
        rest = behind;
    }
    passed
}

/// Whether a word stands at the beginning of a text.
#[tactic(auto, unfolding(fortran_lexemes::specs::PiecesOfText::begins))]
pub(crate) fn begins(word: &[u8], text: &[Character]) -> bool
    ensures value { result ≡ begins word.now text.now }
    ensures fits { IsTrue result → length word.now ≤ length text.now }
{
    let [code, more @ ..] = word else {
        return true;
    };
    let [c, rest @ ..] = text else {
        return false;
    };
    is_mark(*code, *c) && begins(more, rest)
}
