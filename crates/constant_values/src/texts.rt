//! Texts: their order, the place of one in another, and a text at a length. Sections 6.3.5, 8.6 and 15.10.

ghost use Rattle.std.specs.Prelude.{◌≡◌, ◌≤◌, IfOk, replicate, drop, length};
ghost use Rattle.f_tree.specs.Store as store;
ghost use Rattle.f_tree.specs.Valuing as valuing;
ghost use Rattle.constant_values.specs.TextSteps as spec;

use plain_data::Items;
use std::alloc::{AllocError, Global};

/// The first character of a text, which is as if blanks followed it.
#[tactic(auto, unfolding(f_tree::specs::Valuing::first_character))]
pub(crate) fn first_character(text: &[u8]) -> u8
    ensures { result ≡ valuing.first_character text.now }
{
    match text {
        [first, ..] => *first,
        [] => b' ',
    }
}

/// The characters behind the first.
#[tactic(auto, unfolding(crate::specs::TextSteps::later))]
fn later(text: &[u8]) -> &[u8]
    ensures { result.now ≡ spec.later text.now }
{
    match text {
        [_, rest @ ..] => rest,
        [] => text,
    }
}

/// Whether the first text is before the second by the values of their bytes. Section 6.3.5.
#[tactic(auto, using(crate::proofs::TextLemmas::before_laws))]
pub(crate) fn is_before(one: &[u8], other: &[u8]) -> bool
    ensures { result ≡ valuing.is_before one.now other.now }
{
    let mut left = one;
    let mut right = other;
    'compared: while !left.is_empty() || !right.is_empty() {
        let a = first_character(left);
        let b = first_character(right);
        if a != b {
            return a < b;
        }
        left = later(left);
        right = later(right);
    }
    false
}

/// Whether a text begins with another.
#[tactic(auto, using(crate::proofs::TextLemmas::begins_laws))]
pub(crate) fn begins_with(text: &[u8], part: &[u8]) -> bool
    ensures { result ≡ valuing.begins_with text.now part.now }
{
    text.starts_with(part)
}

/// Whether another text stands at a place of a text, counted from 0.
#[tactic(auto, using(crate::proofs::TextLemmas::rest_laws))]
fn stands_at(text: &[u8], at: usize, part: &[u8]) -> bool
    requires { at ≤ length text.now }
    ensures { result ≡ valuing.begins_with (drop at text.now) part.now }
{
    begins_with(&text[at..], part)
}

/// The first place, from 1, at which a text stands in another; 0 where it does not. Section 15.10.
#[tactic(auto, using(crate::proofs::TextLemmas::index_laws))]
pub(crate) fn index(text: &[u8], part: &[u8]) -> usize
    ensures { result ≡ valuing.index_from 1 text.now part.now }
{
    for at in 0..text.len() {
        if stands_at(text, at, part) {
            return at + 1;
        }
    }
    if part.is_empty() { text.len() + 1 } else { 0 }
}

/// So many blanks. An error where memory ran out.
fn blanks(alloc: Global, count: usize) -> Result<Items<u8>, AllocError>
    ensures { IfOk result (λ made. made ≡ replicate count 32) }
{
    let mut spaces = Items::new(alloc);
    for made in 0..count {
        spaces.push(b' ')?;
    }
    Ok(spaces)
}

/// A text cut or filled with blanks to a length. An error where memory ran out.
#[tactic(auto, using(crate::proofs::TextLemmas::fitted_laws))]
pub fn fitted(alloc: Global, size: usize, text: &[u8]) -> Result<Items<u8>, AllocError>
    ensures { IfOk result (λ filled. filled ≡ store.fitted size text.now) }
{
    if size <= text.len() {
        return Items::from_slice(alloc, &text[..size]);
    }
    let mut filled = Items::from_slice(alloc, text)?;
    filled.append(blanks(alloc, size - text.len())?)?;
    Ok(filled)
}
