//! Where the tokens of a statement stand in its text. Sections 3.1 and 3.3 of the standard, ANSI X3.9-1978.

ghost use Rattle.std.specs.Prelude.{◌≡◌, ◌++◌, ◌+◌, ◌-◌, ◌<◌, IfOk, map, get_or, is_some};
ghost use Rattle.fortran_text.specs.CharactersOfText.{shown, has_counted, characters};
ghost use Rattle.fortran_text.specs.declared.characters.Standing.TheVariants.{Outside};
ghost use Rattle.std.specs.Prelude.{None};
ghost use Rattle.stmt_lex.specs.PlacesOfTokens as spec;
ghost use Rattle.stmt_lex.specs.PlacesOfTokens.{ArePlaces, AreWithin};

use crate::cursor::has_counted;
use crate::squeeze::{after, characters};
use crate::steps::step_past_blank;
use crate::token::{Span, Token};
use fortran_lexemes::{Mode, StmtKind};
use fortran_text::{Character, Standing};
use plain_data::Items;
use std::alloc::{AllocError, Global};

/// Bytes of the text of a statement as it is written: which one is the first, and how many there are.
#[derive(Clone, Copy, Debug, PartialEq, Eq)]
pub struct Place {
    pub from: usize,
    pub len: usize,
}

/// Places of characters, with those of what a text has of one more.
#[tactic(auto, unfolding(fortran_text::specs::CharactersOfText::shown, crate::specs::PlacesOfTokens::placed))]
fn with_places(
    found: Items<usize>,
    standing: Standing,
    at: usize,
    c: u8,
) -> Result<Items<usize>, AllocError>
    ensures { IfOk result (λ longer. longer ≡ found ++ spec.placed at (shown standing c)) }
{
    let mut longer = found;
    let is_blank = c == b' ';
    match standing {
        Standing::Outside(_) | Standing::Closed | Standing::Parted if is_blank => {}
        Standing::Parted if c == b'\'' => {
            longer.push(at.saturating_sub(1))?;
            longer.push(at)?;
        }
        _ => longer.push(at)?,
    }
    Ok(longer)
}

/// Where the characters of a text stand in it.
fn places_counting(alloc: Global, counts: bool, text: &[u8]) -> Result<Items<usize>, AllocError>
    ensures { IfOk result (λ found. found ≡ spec.places_from counts (Outside None) 0 text.now) }
{
    let mut found = Items::new(alloc);
    let mut standing = Standing::Outside(None);
    for (at, c) in text.iter().enumerate() {
        found = with_places(found, standing, at, *c)?;
        standing = after(counts, standing, *c);
    }
    Ok(found)
}

/// Where the characters of the text of a statement stand in it.
#[tactic(auto, unfolding(crate::specs::PlacesOfTokens::character_places))]
fn character_places(alloc: Global, labelled: bool, text: &[u8]) -> Result<Items<usize>, AllocError>
    ensures { IfOk result (λ found. found ≡ spec.character_places labelled text.now) }
{
    places_counting(alloc, has_counted(labelled, text), text)
}

/// Characters that tokens take, with those of one more, if there is one.
#[tactic(auto, unfolding(crate::specs::PlacesOfTokens::extent))]
fn with_extent(
    found: Items<Span>,
    at: usize,
    len: usize,
    token: Option<Token>,
) -> Result<Items<Span>, AllocError>
    ensures { IfOk result (λ longer. longer ≡ found ++ spec.extent (is_some token) at len) }
{
    let mut longer = found;
    if let Some(_) = token {
        longer.push(Span { from: at, len })?;
    }
    Ok(longer)
}

/// The characters that each token takes.
fn extents(alloc: Global, kind: StmtKind, text: &[Character]) -> Result<Items<Span>, AllocError>
    ensures { IfOk result (λ found. found ≡ spec.extents kind text.now) }
{
    let mut found = Items::new(alloc);
    let mut mode = Mode::Begins(kind);
    let mut at = 0;
    for _ in 0..text.len() {
        let [first, rest @ ..] = &text[at..] else {
            return Ok(found);
        };
        let step = step_past_blank(alloc, mode, &text[at..], *first, rest)?;
        found = with_extent(found, at, step.len, step.token)?;
        at += step.len;
        mode = step.next;
    }
    Ok(found)
}

/// The place of a character.
#[tactic(auto, using(crate::proofs::PlaceLemmas::none_there))]
fn place_at(places: &[usize], at: usize) -> usize
    ensures { result ≡ get_or places.now at 0 }
{
    if at < places.len() { places[at] } else { 0 }
}

/// The place of a token, of which the characters are told.
#[tactic(auto, unfolding(crate::specs::PlacesOfTokens::place_of))]
fn place_of(places: &[usize], extent: Span) -> Place
    requires within { extent.from + extent.len < 18446744073709551616 }
    requires rises { get_or places.now (extent.from + extent.len - 1) 0 < 18446744073709551615 }
    ensures { result ≡ spec.place_of places.now extent }
{
    let first = place_at(places, extent.from);
    let last = place_at(places, (extent.from + extent.len).saturating_sub(1));
    Place {
        from: first,
        len: (last + 1).saturating_sub(first),
    }
}

/// The places of tokens.
fn places_of(alloc: Global, places: &[usize], extents: &[Span]) -> Result<Items<Place>, AllocError>
    requires { AreWithin places.now extents.now }
    ensures { IfOk result (λ found. found ≡ map (spec.place_of places.now) extents.now) }
{
    let mut found = Items::new(alloc);
    for extent in extents {
        found.push(place_of(places, *extent))?;
    }
    Ok(found)
}

/// Where the tokens of the text of a statement of a kind stand in it: one place for each token of `tokens`, in their order. The text may have
/// a label, or none.
#[tactic(auto, unfolding(crate::specs::PlacesOfTokens::token_places), using(crate::proofs::PlaceLaws::are_places, crate::proofs::PlaceLaws::are_within))]
pub fn token_places(
    alloc: Global,
    kind: StmtKind,
    labelled: bool,
    text: &[u8],
) -> Result<Items<Place>, AllocError>
    ensures defined { IfOk result (λ found. found ≡ spec.token_places kind labelled text.now) }
    ensures places { IfOk result (ArePlaces kind labelled text.now) }
{
    let characters = characters(alloc, labelled, text)?;
    let extents = extents(alloc, kind, characters.as_slice())?;
    let places = character_places(alloc, labelled, text)?;
    places_of(alloc, places.as_slice(), extents.as_slice())
}
