//! What a card is, and its parts. Sections 3.2 and 3.4.

ghost use Rattle.std.specs.Prelude.{◌≡◌, ◌≤◌, [], ◌∷◌, length, MatchOption};
ghost use Rattle.std.specs.List.{list_all};
ghost use Rattle.std.specs.Str.{bytes_eq};
ghost use Rattle.fortran_text.specs.Cards.{columns_of};
ghost use Rattle.fortran_text.specs.CharactersOfText.{is_blank, is_end};
ghost use Rattle.fortran_text.specs.KindsOfCards.{is_comment, has_ampersand, begins_statement, kind_of, field_of, text_of, label_of};
ghost use Rattle.cards.specs.Squeezed.{squeezed};

use crate::columns::card_of;
use fortran_text::CardKind;

/// The columns of the label field.
const LABEL: usize = 5;
/// A label field that is blank.
const BLANK_FIELD: &[u8] = b"     ";

/// What a card is, by its line, which may come with its end or without it.
pub fn card_kind(card: &[u8]) -> CardKind
    ensures { result ≡ kind_of (columns_of card.now) }
{
    kind_of(&card_of(card).columns)
}

/// Whether the text of a card is END, by its line, which may come with its end or without it.
pub fn says_end(card: &[u8]) -> bool
    ensures { result ≡ is_end (text_of (columns_of card.now)) }
{
    is_end(text_of(&card_of(card).columns))
}

/// Whether a text is blank.
pub(crate) fn is_all_blank(text: &[u8]) -> bool
    ensures { result ≡ list_all is_blank text.now }
{
    text.iter().all(|b| *b == b' ')
}

/// Whether a card is a comment.
#[tactic(auto, unfolding(fortran_text::specs::KindsOfCards::is_comment))]
pub(crate) fn is_comment(columns: &[u8]) -> bool
    requires { length columns.now ≡ 72 }
    ensures { result ≡ is_comment columns.now }
{
    columns[0] == b'C' || columns[0] == b'c' || columns[0] == b'*' || is_all_blank(columns)
}

/// What a card is, by its columns 1 to 72.
#[tactic(auto, unfolding(fortran_text::specs::KindsOfCards::kind_of, fortran_text::specs::KindsOfCards::kind_by, fortran_text::specs::KindsOfCards::has_ampersand, fortran_text::specs::KindsOfCards::begins_statement))]
pub(crate) fn kind_of(columns: &[u8]) -> CardKind
    requires { length columns.now ≡ 72 }
    ensures { result ≡ kind_of columns.now }
{
    if is_comment(columns) {
        CardKind::Comment
    } else if columns[0] == b'&' {
        CardKind::Continuation
    } else if columns[LABEL] == b' ' || columns[LABEL] == b'0' {
        CardKind::Initial
    } else {
        CardKind::Continuation
    }
}

/// The label field of a card: columns 1 to 5, which a card with & in column 1 has not.
#[tactic(auto, unfolding(fortran_text::specs::KindsOfCards::field_of, fortran_text::specs::KindsOfCards::has_ampersand))]
pub(crate) fn field_of(columns: &[u8]) -> &[u8]
    requires { length columns.now ≡ 72 }
    ensures value { result.now ≡ field_of columns.now }
    ensures short { length result.now ≤ 5 }
{
    if columns[0] == b'&' {
        BLANK_FIELD
    } else {
        &columns[..LABEL]
    }
}

/// The text of a card: columns 7 to 72, or 2 to 72 behind an & in column 1.
#[tactic(auto, unfolding(fortran_text::specs::KindsOfCards::text_of, fortran_text::specs::KindsOfCards::has_ampersand))]
pub(crate) fn text_of(columns: &[u8]) -> &[u8]
    requires { length columns.now ≡ 72 }
    ensures { result.now ≡ text_of columns.now }
{
    if columns[0] == b'&' {
        &columns[1..]
    } else {
        &columns[LABEL + 1..]
    }
}

/// The label in a label field. A blank field, and one that is no label, give none.
pub(crate) fn label_of(field: &[u8]) -> Option<u32>
    requires { length field.now ≤ 5 }
    ensures { result ≡ label_of field.now }
{
    let mut value = 0;
    for b in field {
        if *b != b' ' {
            if !b.is_ascii_digit() {
                return None;
            }
            value = value * 10 + u32::from(*b - b'0');
        }
    }
    if value == 0 { None } else { Some(value) }
}

/// Whether a text is END: without its blanks it is the word.
#[tactic(auto, using(crate::proofs::EndLemmas::end_by_blanks))]
pub fn is_end(text: &[u8]) -> bool
    ensures { result ≡ is_end text.now }
{
    is_word(text, b"end")
}

/// Whether a text is a word in lower case, blanks and the case of letters aside.
fn is_word(text: &[u8], word: &[u8]) -> bool
    ensures { result ≡ bytes_eq (squeezed text.now) word.now }
{
    let mut rest = text;
    for letter in word {
        let Some((first, behind)) = next_character(rest) else {
            return false;
        };
        if first != *letter {
            return false;
        }
        rest = behind;
    }
    next_character(rest).is_none()
}

/// The first character of a text that is no blank, in lower case, and what follows it.
fn next_character(text: &[u8]) -> Option<(u8, &[u8])>
    ensures { MatchOption result (squeezed text.now ≡ []) (λ p. squeezed text.now ≡ p.0 ∷ squeezed p.1.now) }
{
    let mut rest = text;
    while let [first, behind @ ..] = rest {
        rest = behind;
        if *first != b' ' {
            return Some((first.to_ascii_lowercase(), rest));
        }
    }
    None
}
