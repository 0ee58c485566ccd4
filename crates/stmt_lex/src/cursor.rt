//! Places in the text of a statement, and the characters outside constants behind them. Sections 3.1 and 3.3.

ghost use Rattle.std.specs.Prelude.{◌≡◌, ◌<◌, [], length, nat_eq, drop, None, if◌then◌else◌};
ghost use Rattle.std.specs.List.{starts_with};
ghost use Rattle.fortran_text.specs.CharactersOfText.{after, has_counted};
ghost use Rattle.fortran_text.specs.declared.characters.Standing.TheVariants.{Outside, Closed};
ghost use Rattle.fortran_lexemes.specs.KindsOfStatements.{outside_constants, is_empty};
ghost use Rattle.stmt_lex.specs.Cursors.{left_in, outside_from, with_source, shown_code, shows_two};

use crate::squeeze::after;
use fortran_text::{Character, Standing};

/// Where the characters of a text come from.
#[derive(Clone, Copy)]
pub(crate) enum Source<'a> {
    /// Its bytes, of which it is told whether nH counts characters, and what stands before them.
    Written(bool, Standing, &'a [u8]),
    /// Its characters without the blanks outside constants.
    Squeezed(&'a [Character]),
}

/// A place in a text.
#[derive(Clone, Copy)]
pub(crate) struct Cursor<'a> {
    source: Source<'a>,
    ghost short: { length (left_in source) < 18446744073709551615 },
}

/// The character that a byte shows outside constants; the first, where it shows two.
#[tactic(auto, unfolding(crate::specs::Cursors::shown_code))]
fn shown_code(standing: Standing, c: u8) -> Option<u8>
    ensures { result ≡ shown_code standing c }
{
    let code = c.to_ascii_lowercase();
    match standing {
        Standing::Outside(_) | Standing::Closed if c != b' ' => Some(code),
        Standing::Inside if c == b'\'' => Some(code),
        Standing::Parted if c == b'\'' => Some(b' '),
        Standing::Parted if c != b' ' => Some(code),
        _ => None,
    }
}

/// Whether a byte shows two characters: the blank that parts two constants, and the apostrophe of the second.
#[tactic(auto, unfolding(crate::specs::Cursors::shows_two))]
fn shows_two(standing: Standing, c: u8) -> bool
    ensures { result ≡ shows_two standing c }
{
    match standing {
        Standing::Parted => c == b'\'',
        _ => false,
    }
}

/// What is left behind the first character that a byte shows, which is given with the text that it begins and with that behind it.
fn behind_code<'a>(
    counts: bool,
    standing: Standing,
    c: u8,
    text: &'a [u8],
    behind: &'a [u8],
) -> Source<'a>
    ensures { left_in result ≡ (if shows_two standing c then outside_from counts Closed text.now else outside_from counts (after counts standing c) behind.now) }
{
    if shows_two(standing, c) {
        Source::Written(counts, Standing::Closed, text)
    } else {
        Source::Written(counts, after(counts, standing, c), behind)
    }
}

/// The first character outside constants that bytes show, and what is left behind it.
fn first_written<'a>(counts: bool, standing: Standing, text: &'a [u8]) -> Option<(u8, Source<'a>)>
    ensures { with_source result ≡ outside_from counts standing text.now }
{
    let mut standing = standing;
    let mut rest = text;
    while let [c, behind @ ..] = rest {
        if let Some(code) = shown_code(standing, *c) {
            return Some((code, behind_code(counts, standing, *c, rest, behind)));
        }
        standing = after(counts, standing, *c);
        rest = behind;
    }
    None
}

/// The first of the characters that stands outside constants, and what is left behind it.
fn first_squeezed(text: &[Character]) -> Option<(u8, Source<'_>)>
    ensures { with_source result ≡ outside_constants text.now }
{
    let mut rest = text;
    while let [c, behind @ ..] = rest {
        rest = behind;
        if !c.quoted {
            return Some((c.code, Source::Squeezed(rest)));
        }
    }
    None
}

/// The first character outside constants, and what is left behind it.
#[tactic(auto, unfolding(crate::specs::Cursors::left_in))]
fn first_of(source: Source) -> Option<(u8, Source)>
    ensures { with_source result ≡ left_in source.entry }
{
    match source {
        Source::Written(counts, standing, text) => first_written(counts, standing, text),
        Source::Squeezed(text) => first_squeezed(text),
    }
}

impl<'a> Cursor<'a> {
    ghost use Rattle.stmt_lex.specs.CursorWalks.{left, with_rest};

    /// The beginning of a text, of which it is told whether nH counts characters.
    pub(crate) fn of_text(counts: bool, text: &'a [u8]) -> Cursor<'a>
        ensures { left result ≡ outside_from counts (Outside None) text.now }
    {
        Cursor {
            source: Source::Written(counts, Standing::Outside(None), text),
        }
    }

    /// The beginning of characters.
    pub(crate) fn of_characters(text: &'a [Character]) -> Cursor<'a>
        ensures { left result ≡ outside_constants text.now }
    {
        Cursor {
            source: Source::Squeezed(text),
        }
    }

    /// The end of a text.
    pub(crate) fn end() -> Cursor<'a>
        ensures { left result ≡ [] }
    {
        Cursor::of_text(false, b"")
    }

    /// The next character, and the place behind it; nothing at the end.
    pub(crate) fn next(self) -> Option<(u8, Cursor<'a>)>
        ensures { with_rest result ≡ left self.entry }
    {
        match first_of(self.source) {
            Some((code, source)) => Some((code, Cursor { source })),
            None => None,
        }
    }

    /// Whether no character is left.
    #[tactic(auto, unfolding(fortran_lexemes::specs::KindsOfStatements::is_empty))]
    pub(crate) fn is_at_end(self) -> bool
        ensures { result ≡ is_empty (left self.entry) }
    {
        match self.next() {
            Some(_) => false,
            None => true,
        }
    }

    /// The place so many characters on, or the end.
    pub(crate) fn behind(self, n: usize) -> Cursor<'a>
        ensures { left result ≡ drop n (left self.entry) }
    {
        let mut rest = self;
        for _ in 0..n {
            let Some((_, behind)) = rest.next() else {
                return rest;
            };
            rest = behind;
        }
        rest
    }

    /// Whether a word begins here.
    pub(crate) fn starts_with(self, word: &[u8]) -> bool
        ensures { result ≡ starts_with nat_eq (left self.entry) word.now }
    {
        let [code, more @ ..] = word else {
            return true;
        };
        match self.next() {
            Some((c, behind)) => c == *code && behind.starts_with(more),
            None => false,
        }
    }
}

/// Whether the text of a statement has nH, which takes the n characters behind it: a labelled statement that begins with `FORMAT(`.
#[tactic(auto, unfolding(fortran_text::specs::CharactersOfText::has_counted))]
pub(crate) fn has_counted(labelled: bool, text: &[u8]) -> bool
    ensures { result ≡ has_counted labelled text.now }
{
    labelled && Cursor::of_text(false, text).starts_with(b"format(")
}
