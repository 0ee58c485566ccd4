//! The parts of a source. Sections 3.2 and 3.3 of the standard, ANSI X3.9-1978.
#![tactic(auto)]

use plain_data::Items;

/// What a card is. Section 3.2.
#[derive(Clone, Copy, Debug, PartialEq, Eq)]
pub enum CardKind {
    /// A comment, which may stand anywhere.
    Comment,
    /// The first card of a statement.
    Initial,
    /// A card that goes on with the statement of the cards before it.
    Continuation,
}

/// A statement as it is written: its label, if it has one, the text of its cards, blanks and all, the
/// number of its file, from 0, and the number of its initial card in the file, from 1. Section 3.3.
#[derive(Drop)]
pub struct Statement {
    pub label: Option<u32>,
    pub text: Items<u8>,
    pub file: usize,
    pub card: u32,
}
