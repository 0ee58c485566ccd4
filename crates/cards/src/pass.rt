//! One pass over the cards of a text.

ghost use Rattle.std.specs.Prelude.{◌≡◌, IfOk};
ghost use Rattle.cards.specs.Passes.{has_next, IsPass};

use crate::columns::card_of;
use crate::faults::{Fault, fault_or, placed, row_of};
use crate::grouping::{Group, counted, group_after};
use crate::lines::line_length;
use plain_data::Items;
use std::alloc::{AllocError, Global};

/// The longest file, in cards.
pub(crate) const MOST_CARDS: u32 = 65_536;

/// What a pass over a text finds.
#[derive(Drop)]
pub(crate) struct Pass {
    pub(crate) group: Group,
    /// The first fault of the cards.
    pub(crate) fault: Option<Fault>,
    /// How many cards were read.
    pub(crate) cards: u32,
    /// Whether the text has more cards.
    pub(crate) more: bool,
}

/// The statements of the cards of a text and their first fault, up to the limit on cards.
pub(crate) fn pass_over(
    alloc: Global,
    bytes: &[u8],
    file: usize,
    refused: bool,
) -> Result<Pass, AllocError>
    ensures { IfOk result (IsPass file refused bytes.now) }
{
    let mut group = Group {
        done: Items::new(alloc),
        current: None,
    };
    let mut fault = None;
    let mut cards = 0;
    let mut rest = bytes;
    while has_next(cards, rest) {
        let length = line_length(rest);
        let card = card_of(&rest[..length]);
        fault = fault_or(
            fault,
            placed(cards + 1, row_of(refused, counted(&group.current), &card)),
        );
        group = group_after(alloc, file, cards + 1, group, &card.columns)?;
        rest = &rest[length..];
        cards += 1;
    }
    Ok(Pass {
        group,
        fault,
        cards,
        more: !rest.is_empty(),
    })
}

/// Whether another card is read, where so many were read and a text is left.
#[tactic(auto, unfolding(crate::specs::Passes::has_next, fortran_text::specs::FirstFault::most_cards))]
fn has_next(cards: u32, rest: &[u8]) -> bool
    ensures { result ≡ has_next cards rest.now }
{
    cards < MOST_CARDS && !rest.is_empty()
}
