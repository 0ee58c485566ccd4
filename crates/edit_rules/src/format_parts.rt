//! The text of a format, part by part (ANSI X3.9-1978, sections 13.1 and 13.5).
ghost use Rattle.std.specs.Prelude.{◌≡◌, ℕ, ◌≤◌, ◌<◌, max, length, drop, false, List, ◌∷◌};
ghost use Rattle.edit_meaning.specs.FormatGrammar.{seen};
ghost use Rattle.edit_rules.specs.FormatParts.{with_digit as number_with, number_of, number_from, sign_of, next_sign, int_part, logical_part, text_part, width_if as width_by, plus_part, blanks_part, tab_part, quoted_part, verbatim_part, letter_part, part_by, part_of, written_size};
ghost use Rattle.edit_rules.specs.declared.format_parts.Part.TheVariants as part;
ghost use Rattle.edit_rules.specs.PartPlaces.{number_in, sign_in, parted_in, part_in};

use crate::edits::Edit;

/// A part of a list of items.
#[derive(Clone, Copy, Debug)]
pub enum Part {
    /// A comma, a scale factor, or a sign of one.
    Joint,
    /// A group opens, with its repeat.
    Open(usize),
    /// A list ends.
    Close,
    Colon,
    /// An edit with its repeat.
    Give { times: usize, edit: Edit },
}

/// A number and the place behind it.
#[derive(Clone, Copy, Debug)]
pub struct Counted {
    number: usize,
    behind: usize,
}

/// A character and the place behind it.
#[derive(Clone, Copy, Debug)]
pub struct Sign {
    character: u8,
    behind: usize,
}

/// A part and the place behind it.
#[derive(Clone, Copy, Debug)]
pub struct Parted {
    pub part: Part,
    pub behind: usize,
}

/// The number at the front, zero where there is none, and the length of its characters.
fn number(rest: &[u8]) -> Counted
    ensures value { number_in rest.now result ≡ number_from 0 rest.now rest.now }
    ensures within { result.behind ≤ length rest.now }
    ensures below { result.number ≤ 65535 }
{
    let mut number = 0;
    let mut behind = 0;
    for (place, character) in rest.iter().enumerate() {
        if *character != b' ' {
            if !character.is_ascii_digit() {
                return Counted { number, behind };
            }
            number = with_digit(number, *character);
            behind = place + 1;
        }
    }
    Counted { number, behind }
}

/// A number with one digit more.
fn with_digit(number: usize, character: u8) -> usize
    requires { number ≤ 65535 }
    ensures value { result ≡ number_with number character }
    ensures below { result ≤ 65535 }
{
    (number * 10 + character.saturating_sub(b'0') as usize).min(65_535)
}

/// The next character that is no blank, a letter in upper case, and the length up to and with it.
fn character(rest: &[u8]) -> Sign
    ensures value { sign_in rest.now result ≡ next_sign rest.now }
    ensures within { result.behind ≤ length rest.now }
    ensures passed { 0 < length rest.now → 0 < result.behind }
{
    for (place, character) in rest.iter().enumerate() {
        if *character != b' ' {
            return Sign {
                character: character.to_ascii_uppercase(),
                behind: place + 1,
            };
        }
    }
    Sign {
        character: 0,
        behind: rest.len(),
    }
}

/// The number at a place.
fn number_at(text: &[u8], at: usize) -> Counted
    requires { at ≤ length text.now }
    ensures value { number_in text.now result ≡ number_of (drop at text.now) }
    ensures within { result.behind ≤ length text.now }
    ensures below { result.number ≤ 65535 }
    ensures later { at ≤ result.behind }
{
    let counted = number(&text[at..]);
    Counted {
        number: counted.number,
        behind: at + counted.behind,
    }
}

/// The next character from a place on.
fn sign_at(text: &[u8], at: usize) -> Sign
    requires { at ≤ length text.now }
    ensures value { sign_in text.now result ≡ sign_of (drop at text.now) }
    ensures within { result.behind ≤ length text.now }
    ensures passed { at < length text.now → at < result.behind }
    ensures later { at ≤ result.behind }
{
    let sign = character(&text[at..]);
    Sign {
        character: sign.character,
        behind: at + sign.behind,
    }
}

/// Iw and Iw.m, behind the letter.
fn int(text: &[u8], times: usize, at: usize) -> Parted
    requires { at ≤ length text.now }
    ensures value { parted_in text.now result ≡ int_part times (drop at text.now) }
    ensures within { result.behind ≤ length text.now }
    ensures later { at ≤ result.behind }
{
    let counted = number_at(text, at);
    let point = sign_at(text, counted.behind);
    let width = counted.number;
    if point.character == b'.' {
        let least = number_at(text, point.behind);
        let edit = Edit::Int {
            width,
            least: Some(least.number),
        };
        return Parted {
            part: Part::Give { times, edit },
            behind: least.behind,
        };
    }
    let edit = Edit::Int { width, least: None };
    Parted {
        part: Part::Give { times, edit },
        behind: counted.behind,
    }
}

/// Lw, behind the letter.
fn logical(text: &[u8], times: usize, at: usize) -> Parted
    requires { at ≤ length text.now }
    ensures value { parted_in text.now result ≡ logical_part times (drop at text.now) }
    ensures within { result.behind ≤ length text.now }
    ensures later { at ≤ result.behind }
{
    let counted = number_at(text, at);
    let edit = Edit::Logical {
        width: counted.number,
    };
    Parted {
        part: Part::Give { times, edit },
        behind: counted.behind,
    }
}

/// A and Aw, behind the letter.
fn characters_of(text: &[u8], times: usize, at: usize) -> Parted
    requires { at ≤ length text.now }
    ensures value { parted_in text.now result ≡ text_part times (drop at text.now) }
    ensures within { result.behind ≤ length text.now }
    ensures later { at ≤ result.behind }
{
    let counted = number_at(text, at);
    let edit = Edit::Text {
        width: width_if(counted.number),
    };
    Parted {
        part: Part::Give { times, edit },
        behind: counted.behind,
    }
}

/// A width, where the number is one.
fn width_if(number: usize) -> Option<usize>
    ensures { result ≡ width_by number }
{
    if number == 0 { None } else { Some(number) }
}

/// One control edit.
fn once(edit: Edit, behind: usize) -> Parted
    ensures { result ≡ record { part = part.Give 1 edit; behind = behind } }
{
    Parted {
        part: Part::Give { times: 1, edit },
        behind,
    }
}

/// S, SS and SP, behind the letter.
fn plus(text: &[u8], at: usize) -> Parted
    requires { at ≤ length text.now }
    ensures value { parted_in text.now result ≡ plus_part (drop at text.now) }
    ensures within { result.behind ≤ length text.now }
    ensures later { at ≤ result.behind }
{
    let sign = sign_at(text, at);
    if sign.character == b'P' {
        return once(Edit::ShowPlus(true), sign.behind);
    }
    if sign.character == b'S' {
        return once(Edit::ShowPlus(false), sign.behind);
    }
    once(Edit::ShowPlus(false), at)
}

/// BN and BZ, behind the letter.
fn blanks(text: &[u8], at: usize) -> Parted
    requires { at ≤ length text.now }
    ensures value { parted_in text.now result ≡ blanks_part (drop at text.now) }
    ensures within { result.behind ≤ length text.now }
    ensures later { at ≤ result.behind }
{
    let sign = sign_at(text, at);
    once(Edit::ZeroBlanks(sign.character == b'Z'), sign.behind)
}

/// Tn, TLn and TRn, behind the letter.
fn tab(text: &[u8], at: usize) -> Parted
    requires { at ≤ length text.now }
    ensures value { parted_in text.now result ≡ tab_part (drop at text.now) }
    ensures within { result.behind ≤ length text.now }
    ensures later { at ≤ result.behind }
{
    let sign = sign_at(text, at);
    if sign.character == b'L' {
        let columns = number_at(text, sign.behind);
        return once(Edit::Left(columns.number), columns.behind);
    }
    if sign.character == b'R' {
        let columns = number_at(text, sign.behind);
        return once(Edit::Right(columns.number), columns.behind);
    }
    let column = number_at(text, at);
    once(Edit::Column(column.number), column.behind)
}

/// The size of a text in apostrophes as it is written, up to the apostrophe that ends it.
fn written_len(rest: &[u8]) -> usize
    ensures value { result ≡ written_size false rest.now }
    ensures within { result ≤ length rest.now }
{
    let mut quoted = false;
    let mut size = 0;
    for (place, character) in rest.iter().enumerate() {
        if quoted && *character != b'\'' {
            return size;
        }
        quoted = *character == b'\'' && !quoted;
        if !quoted {
            size = place + 1;
        }
    }
    size
}

/// A text in apostrophes, behind the first of them.
fn quoted(text: &[u8], at: usize) -> Parted
    requires { at ≤ length text.now }
    ensures value { parted_in text.now result ≡ quoted_part (drop at text.now) }
    ensures within { result.behind ≤ length text.now }
    ensures later { at ≤ result.behind }
{
    let to = at + written_len(&text[at..]);
    let edit = Edit::Literal {
        from: at,
        to,
        doubled: true,
    };
    once(edit, (to + 1).min(text.len()))
}

/// nH, behind the letter.
fn verbatim(text: &[u8], size: usize, at: usize) -> Parted
    requires at { at ≤ length text.now }
    requires size { size ≤ 65535 }
    ensures value { parted_in text.now result ≡ verbatim_part size (drop at text.now) }
    ensures within { result.behind ≤ length text.now }
    ensures later { at ≤ result.behind }
{
    let to = at + size.min(text.len() - at);
    let edit = Edit::Literal {
        from: at,
        to,
        doubled: false,
    };
    once(edit, to)
}

/// The part by the letter behind a number, or behind none.
#[tactic(auto, unfolding(crate::specs::FormatParts::letter_part))]
fn letter(text: &[u8], number: usize, sign: Sign) -> Parted
    requires at { sign.behind ≤ length text.now }
    requires number { number ≤ 65535 }
    ensures value { parted_in text.now result ≡ letter_part number sign.character (drop sign.behind text.now) }
    ensures within { result.behind ≤ length text.now }
    ensures later { sign.behind ≤ result.behind }
{
    let at = sign.behind;
    match sign.character {
        b'I' => int(text, number.max(1), at),
        b'L' => logical(text, number.max(1), at),
        b'A' => characters_of(text, number.max(1), at),
        b'H' => verbatim(text, number, at),
        b'X' => once(Edit::Right(number), at),
        b'S' => plus(text, at),
        b'B' => blanks(text, at),
        b'T' => tab(text, at),
        _ => Parted {
            part: Part::Joint,
            behind: at,
        },
    }
}

/// The part by the character behind a number, or behind none.
fn mark(text: &[u8], number: usize, sign: Sign) -> Parted
    requires at { sign.behind ≤ length text.now }
    requires number { number ≤ 65535 }
    ensures value { parted_in text.now result ≡ part_by number (sign_in text.now sign) }
    ensures within { result.behind ≤ length text.now }
    ensures later { sign.behind ≤ result.behind }
{
    let behind = sign.behind;
    let times = number.max(1);
    let part = match sign.character {
        b'(' => Part::Open(times),
        b')' => Part::Close,
        b':' => Part::Colon,
        b'/' => Part::Give {
            times,
            edit: Edit::NextRecord,
        },
        b'\'' => return quoted(text, behind),
        _ => return letter(text, number, sign),
    };
    Parted { part, behind }
}

/// The part of a list of items at a place of the format's text, in bytes.
pub fn part_at(text: &[u8], at: usize) -> Parted
    requires { at ≤ length text.now }
    ensures value { parted_in text.now result ≡ part_of (drop at text.now) }
    ensures within { result.behind ≤ length text.now }
    ensures passed { at < length text.now → at < result.behind }
    ensures later { at ≤ result.behind }
{
    let counted = number_at(text, at);
    mark(text, counted.number, sign_at(text, counted.behind))
}

/// The place behind the first character of a text, in bytes.
pub fn begin(text: &[u8]) -> usize
    ensures value { (character : ℕ) → (rest : List ℕ) → seen text.now ≡ character ∷ rest → drop result text.now ≡ rest }
    ensures within { result ≤ length text.now }
{
    sign_at(text, 0).behind
}
