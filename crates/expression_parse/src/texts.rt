//! The characters of a token.

ghost use Rattle.std.specs.Prelude.{◌≡◌, ◌≤◌, length, IfOk, take, drop};
ghost use Rattle.fortran_lexemes.specs.PiecesOfText.{codes_of, is_mark, undoubled};
ghost use Rattle.stmt_lex.specs.SeenTokens.{spanned};
ghost use Rattle.expression_parse.specs.Readings.{behind_doubled, only_one};

use fortran_text::Character;
use plain_data::Items;
use std::alloc::{AllocError, Global};
use stmt_lex::Span;

/// The characters of a name.
pub fn name_text(alloc: Global, text: &[Character], span: Span) -> Result<Items<u8>, AllocError>
    ensures { IfOk result (λ found. found ≡ codes_of (spanned text.now span)) }
{
    Ok(Items::from_vec(codes(alloc, characters(text, span))?))
}

/// The characters of a span of a text, where they stand.
pub fn characters(text: &[Character], span: Span) -> &[Character]
    ensures { result.now ≡ spanned text.now span }
{
    front(behind(text, span.from), span.len)
}

/// The bytes of characters.
fn codes(alloc: Global, text: &[Character]) -> Result<Vec<u8>, AllocError>
    ensures { IfOk result (λ found. found.items ≡ codes_of text.now) }
{
    text.iter().map(|c| c.code).collect(alloc)
}

/// The characters of a constant, of which a doubled apostrophe stands once.
pub fn constant_text(alloc: Global, text: &[Character], span: Span) -> Result<Items<u8>, AllocError>
    ensures { IfOk result (λ found. found ≡ undoubled (spanned text.now span)) }
{
    once(alloc, characters(text, span))
}

/// Characters, of which a doubled apostrophe stands once.
#[tactic(auto, using(crate::proofs::ConstantTexts::undoubled_steps))]
fn once(alloc: Global, text: &[Character]) -> Result<Items<u8>, AllocError>
    ensures { IfOk result (λ found. found ≡ undoubled text.now) }
{
    let mut found = Items::new(alloc);
    let mut rest = text;
    while let [first, more @ ..] = rest {
        found.push(first.code)?;
        rest = behind_doubled(*first, more);
    }
    Ok(found)
}

/// What stands behind a character, and behind the other one where it is a doubled apostrophe.
#[tactic(auto, unfolding(crate::specs::Readings::behind_doubled))]
fn behind_doubled(first: Character, more: &[Character]) -> &[Character]
    ensures value { result.now ≡ behind_doubled first more.now }
    ensures within { length result.now ≤ length more.now }
{
    match more {
        [second, rest @ ..] if is_apostrophe(first) && is_apostrophe(*second) => rest,
        _ => more,
    }
}

/// Whether a character is an apostrophe outside constants.
fn is_apostrophe(c: Character) -> bool
    ensures { result ≡ is_mark 39 c }
{
    !c.quoted && c.code == b'\''
}

/// The first characters of a text, up to a count.
fn front(text: &[Character], count: usize) -> &[Character]
    ensures { result.now ≡ take count text.now }
{
    &text[..text.len().min(count)]
}

/// What stands behind the first characters of a text.
fn behind(text: &[Character], count: usize) -> &[Character]
    ensures { result.now ≡ drop count text.now }
{
    &text[text.len().min(count)..]
}

/// The character that stands alone, if one does.
#[tactic(auto, unfolding(crate::specs::Readings::only_one))]
pub fn only_one(text: &[Character]) -> Option<u8>
    ensures { result ≡ only_one (codes_of text.now) }
{
    match text {
        [letter] => Some(letter.code),
        _ => None,
    }
}
