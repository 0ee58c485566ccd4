//! The files that are included. MIL-STD-1753: INCLUDE.

ghost use Rattle.std.specs.Prelude.{◌≡◌, ◌∷◌, ◌++◌, [], IfOk};
ghost use Rattle.std.specs.Option.{option_to_list};
ghost use Rattle.source_reader.specs.PartReading.{ends_or_includes, first_ending, IsPartRead, IsPartsRead, or_else, count_of};

use crate::mentions::included_name;
use cards::{Cards, is_end, read_included};
use f_tree::{Fail, Kind, Options, Refusal, Text};
use fortran_text::Statement;
use plain_data::Items;
use std::alloc::{AllocError, Global};

/// What is read of an included file: its cards, and none where they have a fault; and the first row that refuses it.
#[derive(Drop)]
pub(crate) struct PartRead {
    pub(crate) cards: Option<Cards>,
    pub(crate) refused: Option<Refusal>,
}

/// What is read of included files: how many cards each counts, the cards of those that have no fault of cards, and the first row that refuses
/// one of them.
#[derive(Drop)]
pub(crate) struct PartsRead {
    pub(crate) counts: Items<u32>,
    pub(crate) cards: Items<Cards>,
    pub(crate) refused: Option<Refusal>,
}

/// What is read of included files, of which the first has a number.
pub(crate) fn read_parts(
    alloc: Global,
    included: &[Text],
    first: usize,
    options: &Options,
) -> Result<PartsRead, AllocError>
    ensures { IfOk result (IsPartsRead options.now.long_cards first included.now) }
{
    let mut parts = PartsRead {
        counts: Items::new(alloc),
        cards: Items::new(alloc),
        refused: None,
    };
    for (place, bytes) in included.iter().enumerate() {
        // No memory holds so many files.
        let Some(file) = first.checked_add(place) else {
            return Err(AllocError);
        };
        parts = with_part(parts, read_part(alloc, bytes.as_slice(), file, options)?)?;
    }
    Ok(parts)
}

/// What is read of included files, and of one more.
fn with_part(parts: PartsRead, part: PartRead) -> Result<PartsRead, AllocError>
    ensures { IfOk result (λ more. (more.counts ≡ parts.counts ++ count_of part.cards ∷ []) × (more.cards ≡ parts.cards ++ option_to_list part.cards) × (more.refused ≡ or_else parts.refused part.refused)) }
{
    let PartsRead {
        mut counts,
        mut cards,
        refused,
    } = parts;
    let PartRead {
        cards: part,
        refused: row,
    } = part;
    counts.push(count_of(&part))?;
    if let Some(part) = part {
        cards.push(part)?;
    }
    Ok(PartsRead {
        counts,
        cards,
        refused: or_else(refused, row),
    })
}

/// How many cards are read.
fn count_of(cards: &Option<Cards>) -> u32
    ensures { result ≡ count_of cards.now }
{
    match cards {
        Some(cards) => cards.cards(),
        None => 0,
    }
}

/// The first of two refusals, of which the second stands behind.
pub(crate) fn or_else(one: Option<Refusal>, other: Option<Refusal>) -> Option<Refusal>
    ensures { result ≡ or_else one other }
{
    match one {
        Some(refusal) => Some(refusal),
        None => other,
    }
}

/// What is read of an included file with a number.
fn read_part(
    alloc: Global,
    bytes: &[u8],
    file: usize,
    options: &Options,
) -> Result<PartRead, AllocError>
    ensures { IfOk result (IsPartRead options.now.long_cards file bytes.now) }
{
    match read_included(alloc, bytes, file, options) {
        Ok(cards) => {
            let refused = end_or_include(alloc, file, cards.statements())?;
            Ok(PartRead {
                cards: Some(cards),
                refused,
            })
        }
        Err(Fail::Refused(refusal)) => Ok(PartRead {
            cards: None,
            refused: Some(refusal),
        }),
        Err(Fail::NoMemory) => Err(AllocError),
    }
}

/// F47: the first END or INCLUDE among the statements of an included file.
fn end_or_include(
    alloc: Global,
    file: usize,
    statements: &[Statement],
) -> Result<Option<Refusal>, AllocError>
    ensures { IfOk result (λ refusal. refusal ≡ first_ending file statements.now) }
{
    for statement in statements {
        if ends_or_includes(alloc, statement)? {
            return Ok(Some(Refusal {
                file,
                card: statement.card,
                kind: Kind::EndOrIncludeInAnIncludedFile,
            }));
        }
    }
    Ok(None)
}

/// Whether a statement is END or INCLUDE.
#[tactic(auto, unfolding(crate::specs::PartReading::ends_or_includes))]
fn ends_or_includes(alloc: Global, statement: &Statement) -> Result<bool, AllocError>
    ensures { IfOk result (λ is. is ≡ ends_or_includes statement.now) }
{
    if is_end(statement.text.as_slice()) {
        return Ok(true);
    }
    Ok(included_name(alloc, statement)?.is_some())
}
