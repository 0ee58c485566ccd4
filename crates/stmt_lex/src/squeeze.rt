//! The characters of a text, without the blanks outside constants. Sections 3.1 and 3.3.

ghost use Rattle.std.specs.Prelude.{◌≡◌, ◌++◌, IfOk, None};
ghost use Rattle.fortran_text.specs.CharactersOfText.{after, shown, mark, behind, counting, characters_from, characters};
ghost use Rattle.fortran_text.specs.declared.characters.Standing.TheVariants.{Outside};
ghost use Rattle.stmt_lex.specs.Standings.{capped};

use crate::cursor::has_counted;
use fortran_text::{Character, Standing};
use plain_data::Items;
use std::alloc::{AllocError, Global};

/// At the beginning of the characters after nH.
#[tactic(auto, unfolding(fortran_text::specs::CharactersOfText::counting))]
fn counting(count: u64) -> Standing
    ensures { result ≡ counting count }
{
    if count == 0 {
        Standing::Outside(None)
    } else {
        Standing::Counted(count - 1)
    }
}

/// Behind a character outside constants that is neither blank nor an apostrophe. A number past the greatest counts as that.
#[tactic(auto, unfolding(fortran_text::specs::CharactersOfText::behind, crate::specs::Standings::capped))]
fn behind(counts: bool, digits: Option<u64>, c: u8) -> Standing
    ensures { result ≡ capped (behind counts digits c) }
{
    if c.is_ascii_digit() {
        let before = digits.unwrap_or(0);
        return Standing::Outside(Some(
            before
                .saturating_mul(10)
                .saturating_add(u64::from(c - b'0')),
        ));
    }
    match digits {
        Some(count) if counts && c.to_ascii_lowercase() == b'h' => counting(count),
        _ => Standing::Outside(None),
    }
}

/// Behind a character.
#[tactic(auto, unfolding(fortran_text::specs::CharactersOfText::after, crate::specs::Standings::capped))]
pub(crate) fn after(counts: bool, standing: Standing, c: u8) -> Standing
    ensures { result ≡ capped (after counts standing c) }
{
    match standing {
        Standing::Outside(digits) => {
            if c == b' ' {
                Standing::Outside(digits)
            } else if c == b'\'' {
                Standing::Inside
            } else {
                behind(counts, digits, c)
            }
        }
        Standing::Inside => {
            if c == b'\'' {
                Standing::Closed
            } else {
                Standing::Inside
            }
        }
        Standing::Closed | Standing::Parted => {
            if c == b' ' {
                Standing::Parted
            } else if c == b'\'' {
                Standing::Inside
            } else {
                behind(counts, None, c)
            }
        }
        Standing::Counted(count) => counting(count),
    }
}

/// A character outside constants, in lower case.
fn mark(c: u8) -> Character
    ensures { result ≡ mark c }
{
    Character {
        code: c.to_ascii_lowercase(),
        quoted: false,
    }
}

/// What a text has of a character, behind what it has so far.
#[tactic(auto, unfolding(fortran_text::specs::CharactersOfText::shown))]
fn with_shown(
    found: Items<Character>,
    standing: Standing,
    c: u8,
) -> Result<Items<Character>, AllocError>
    ensures { IfOk result (λ longer. longer ≡ found ++ shown standing c) }
{
    let mut longer = found;
    let is_blank = c == b' ';
    let is_apostrophe = c == b'\'';
    match standing {
        Standing::Outside(_) | Standing::Closed if is_blank => {}
        Standing::Parted if is_blank => {}
        Standing::Outside(_) | Standing::Closed => longer.push(mark(c))?,
        Standing::Inside if is_apostrophe => longer.push(mark(c))?,
        Standing::Parted if is_apostrophe => {
            longer.push(mark(b' '))?;
            longer.push(mark(c))?;
        }
        Standing::Parted => longer.push(mark(c))?,
        Standing::Inside | Standing::Counted(_) => longer.push(Character {
            code: c,
            quoted: true,
        })?,
    }
    Ok(longer)
}

/// The characters of a text, each with whether it stands in a constant, where it is told whether nH counts characters: blanks outside
/// constants are left out. Sections 3.1 and 3.3. Takes bytes. The only error is want of memory.
pub fn squeezed(alloc: Global, counts: bool, text: &[u8]) -> Result<Items<Character>, AllocError>
    ensures { IfOk result (λ found. found ≡ characters_from counts (Outside None) text.now) }
{
    let mut found = Items::new(alloc);
    let mut standing = Standing::Outside(None);
    for c in text {
        found = with_shown(found, standing, *c)?;
        standing = after(counts, standing, *c);
    }
    Ok(found)
}

/// The characters of the text of a statement.
#[tactic(auto, unfolding(fortran_text::specs::CharactersOfText::characters))]
pub(crate) fn characters(
    alloc: Global,
    labelled: bool,
    text: &[u8],
) -> Result<Items<Character>, AllocError>
    ensures { IfOk result (λ found. found ≡ characters labelled text.now) }
{
    squeezed(alloc, has_counted(labelled, text), text)
}
