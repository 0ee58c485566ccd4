//! The characters of formats outside texts (ANSI X3.9-1978, section 13.1).
ghost use Rattle.std.specs.Prelude.{◌≡◌, ◌-◌};
ghost use Rattle.edit_meaning.specs.FormatTexts.{letter_of, mark_of, upper_sign, sign_of};
ghost use Rattle.edit_rules.specs.FormatPlaces.{sign_in};

/// A character of a format outside texts that is no blank, a letter in either case.
#[derive(Clone, Copy)]
pub enum Sign {
    LeftParen,
    RightParen,
    Comma,
    Slash,
    Period,
    Colon,
    Quote,
    PlusMinus,
    Digit(u8),
    LetterA,
    LetterB,
    LetterH,
    LetterI,
    LetterL,
    LetterN,
    LetterP,
    LetterR,
    LetterS,
    LetterT,
    LetterX,
    LetterZ,
    Unknown,
}

/// The sign that a character is.
pub fn read_sign(character: u8) -> Sign
    ensures { sign_in result ≡ sign_of character }
{
    upper(character.to_ascii_uppercase())
}

/// What a capital letter is in a format.
fn upper(character: u8) -> Sign
    ensures { sign_in result ≡ upper_sign character }
{
    if character.is_ascii_digit() {
        Sign::Digit(character.saturating_sub(b'0'))
    } else {
        mark(character)
    }
}

/// What a character that is no letter and no digit is in a format.
fn mark(character: u8) -> Sign
    ensures { sign_in result ≡ mark_of character }
{
    match character {
        b'(' => Sign::LeftParen,
        b')' => Sign::RightParen,
        b',' => Sign::Comma,
        b'/' => Sign::Slash,
        b'.' => Sign::Period,
        b':' => Sign::Colon,
        b'\'' => Sign::Quote,
        b'+' | b'-' => Sign::PlusMinus,
        _ => letter(character),
    }
}

/// What a letter is in a format.
fn letter(character: u8) -> Sign
    ensures { sign_in result ≡ letter_of character }
{
    match character {
        b'A' => Sign::LetterA,
        b'B' => Sign::LetterB,
        b'H' => Sign::LetterH,
        b'I' => Sign::LetterI,
        b'L' => Sign::LetterL,
        b'N' => Sign::LetterN,
        b'P' => Sign::LetterP,
        b'R' => Sign::LetterR,
        b'S' => Sign::LetterS,
        b'T' => Sign::LetterT,
        b'X' => Sign::LetterX,
        b'Z' => Sign::LetterZ,
        _ => Sign::Unknown,
    }
}
