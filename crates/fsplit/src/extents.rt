//! Where a piece ends: behind an END card. Sections 3.2 and 11.14.

ghost use Rattle.std.specs.Prelude.{◌≡◌, ◌<◌, ◌≤◌, ◌∷◌, length, take, drop};
ghost use Rattle.std.specs.List.{list_any};
ghost use Rattle.fortran_text.specs.Lines.{lines};
ghost use Rattle.split_pieces.specs.Pieces.{is_initial, is_end_card, texts_of};

use cards::{card_kind, line_length, says_end};
use fortran_text::CardKind;

/// Whether a card begins a statement, by its line.
#[tactic(auto, unfolding(split_pieces::specs::Pieces::is_initial))]
fn is_initial(line: &[u8]) -> bool
    ensures { result ≡ is_initial line.now }
{
    match card_kind(line) {
        CardKind::Initial => true,
        CardKind::Comment | CardKind::Continuation => false,
    }
}

/// Whether a card is an END card, by its line.
#[tactic(auto, unfolding(split_pieces::specs::Pieces::is_end_card))]
fn is_end_card(line: &[u8]) -> bool
    ensures { result ≡ is_end_card line.now }
{
    is_initial(line) && says_end(line)
}

/// Whether a card of a text begins a statement.
fn has_statement(text: &[u8]) -> bool
    ensures { result ≡ list_any is_initial (lines text.now) }
{
    let mut rest = text;
    while !rest.is_empty() {
        let length = line_length(rest);
        if is_initial(&rest[..length]) {
            return true;
        }
        rest = &rest[length..];
    }
    false
}

/// The length in bytes of the first piece of a text that is not empty.
pub(crate) fn piece_length(text: &[u8]) -> usize
    requires { 0 < length text.now }
    ensures some { 0 < result }
    ensures within { result ≤ length text.now }
    ensures first { texts_of text.now ≡ take result text.now ∷ texts_of (drop result text.now) }
{
    let mut passed = 0;
    while passed < text.len() {
        let rest = &text[passed..];
        let length = line_length(rest);
        passed += length;
        if is_end_card(&rest[..length]) {
            return if has_statement(&text[passed..]) {
                passed
            } else {
                text.len()
            };
        }
    }
    passed
}
