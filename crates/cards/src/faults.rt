//! The rows by which a card is refused, and the first fault of a file.

ghost use Rattle.std.specs.Prelude.{◌≡◌, ◌≤◌, length};
ghost use Rattle.std.specs.List.{list_all};
ghost use Rattle.fortran_text.specs.CardRows.{is_in_set, has_character_outside, has_bad_field, is_bad_field, is_twentieth, is_unopened, has_text_past};
ghost use Rattle.fortran_text.specs.CharactersOfText.{is_end};
ghost use Rattle.fortran_text.specs.FirstFault.{unended};
ghost use Rattle.cards.specs.Passes.{seen, row_of, placed, fault_or, at_limit, first_of_included, sooner, first_of_file};

use crate::columns::{CardBytes, is_blank_past};
use crate::kinds::{field_of, is_all_blank, is_comment, is_end, kind_of, label_of};
use f_tree::Kind;
use fortran_text::{CardKind, Statement};

/// The continuation cards that a statement may have.
const MOST_CONTINUATIONS: u32 = 19;

/// A row that holds at a card, by the number of the card from 1.
#[derive(Clone, Copy)]
pub(crate) struct Fault {
    pub(crate) card: u32,
    pub(crate) kind: Kind,
}

/// F01: a character outside the set on a card that is no comment.
#[tactic(auto, unfolding(fortran_text::specs::CardRows::has_character_outside))]
fn has_character_outside(columns: &[u8]) -> bool
    requires { length columns.now ≡ 72 }
    ensures { result ≡ has_character_outside columns.now }
{
    !is_comment(columns) && !is_all_in_set(columns)
}

/// Whether a text has no character outside the set.
fn is_all_in_set(text: &[u8]) -> bool
    ensures { result ≡ list_all is_in_set text.now }
{
    text.iter().all(|b| is_in_set(*b))
}

/// Whether a character is in the set.
fn is_in_set(b: u8) -> bool
    ensures { result ≡ is_in_set b }
{
    32 <= b && b <= 126
}

/// F02: a label field that its card may not have.
#[tactic(auto, unfolding(fortran_text::specs::CardRows::has_bad_field))]
fn has_bad_field(columns: &[u8]) -> bool
    requires { length columns.now ≡ 72 }
    ensures { result ≡ has_bad_field columns.now }
{
    is_bad_field(kind_of(columns), field_of(columns))
}

/// Whether a card of a kind may not have a label field.
#[tactic(auto, unfolding(fortran_text::specs::CardRows::is_bad_field))]
fn is_bad_field(kind: CardKind, field: &[u8]) -> bool
    requires { length field.now ≤ 5 }
    ensures { result ≡ is_bad_field kind field.now }
{
    match kind {
        CardKind::Comment => false,
        CardKind::Initial => !(is_all_blank(field) || label_of(field).is_some()),
        CardKind::Continuation => !is_all_blank(field),
    }
}

/// F03: the twentieth continuation card of the statement that is open before it.
#[tactic(auto, unfolding(fortran_text::specs::CardRows::is_twentieth))]
fn is_twentieth(kind: CardKind, before: Option<u32>) -> bool
    ensures { result ≡ is_twentieth kind before }
{
    match kind {
        CardKind::Comment | CardKind::Initial => false,
        CardKind::Continuation => match before {
            Some(count) => count == MOST_CONTINUATIONS,
            None => false,
        },
    }
}

/// F04: a continuation card before which no statement is open.
#[tactic(auto, unfolding(fortran_text::specs::CardRows::is_unopened))]
fn is_unopened(kind: CardKind, before: Option<u32>) -> bool
    ensures { result ≡ is_unopened kind before }
{
    match kind {
        CardKind::Comment | CardKind::Initial => false,
        CardKind::Continuation => before.is_none(),
    }
}

/// F05: text past column 72, where that is refused.
#[tactic(auto, using(crate::proofs::ColumnLemmas::blank_past), unfolding(fortran_text::specs::CardRows::has_text_past))]
fn has_text_past(refused: bool, card: &CardBytes) -> bool
    ensures { result ≡ has_text_past refused (seen card.now) }
{
    refused && !is_comment(&card.columns) && !is_blank_past(card.past)
}

/// The least row that holds at a card.
#[tactic(auto, unfolding(crate::specs::Passes::row_of))]
pub(crate) fn row_of(refused: bool, before: Option<u32>, card: &CardBytes) -> Option<Kind>
    ensures { result ≡ row_of refused before (seen card.now) }
{
    let kind = kind_of(&card.columns);
    if has_character_outside(&card.columns) {
        Some(Kind::CharacterOutsideSet)
    } else if has_bad_field(&card.columns) {
        Some(Kind::BadLabelField)
    } else if is_twentieth(kind, before) {
        Some(Kind::TooManyContinuations)
    } else if is_unopened(kind, before) {
        Some(Kind::ContinuationWithoutStatement)
    } else if has_text_past(refused, card) {
        Some(Kind::TextPastColumn72)
    } else {
        None
    }
}

/// A row at a card.
pub(crate) fn placed(number: u32, row: Option<Kind>) -> Option<Fault>
    ensures { result ≡ placed number row }
{
    match row {
        Some(kind) => Some(Fault { card: number, kind }),
        None => None,
    }
}

/// The first of two faults, of which the second stands at no earlier card.
pub(crate) fn fault_or(fault: Option<Fault>, later: Option<Fault>) -> Option<Fault>
    ensures { result ≡ fault_or fault later }
{
    match fault {
        Some(fault) => Some(fault),
        None => later,
    }
}

/// F07 at a card.
pub(crate) fn at_limit(card: Option<u32>) -> Option<Fault>
    ensures { result ≡ at_limit card }
{
    match card {
        Some(card) => Some(Fault {
            card,
            kind: Kind::FileTooLong,
        }),
        None => None,
    }
}

/// The first fault of an included file, from that of its cards and the card past a limit.
pub(crate) fn first_of_included(fault: Option<Fault>, limit: Option<u32>) -> Option<Fault>
    ensures { result ≡ first_of_included fault limit }
{
    fault_or(fault, at_limit(limit))
}

/// F06: the initial card of the last statement, where that is not END.
pub(crate) fn unended(statements: &[Statement]) -> Option<u32>
    ensures { result ≡ unended statements.now }
{
    match statements {
        [.., last] => {
            if is_end(last.text.as_slice()) {
                None
            } else {
                Some(last.card)
            }
        }
        [] => None,
    }
}

/// The first of a fault of the cards and of F06 at a card.
fn sooner(fault: Option<Fault>, unended: Option<u32>) -> Option<Fault>
    ensures { result ≡ sooner fault unended }
{
    let Some(card) = unended else {
        return fault;
    };
    let end = Fault {
        card,
        kind: Kind::NoEnd,
    };
    let Some(fault) = fault else {
        return Some(end);
    };
    Some(if card < fault.card { end } else { fault })
}

/// The first fault of a file, from that of its cards, the card past a limit, and the card that F06
/// stands at if the file is not too long.
pub(crate) fn first_of_file(
    fault: Option<Fault>,
    limit: Option<u32>,
    unended: Option<u32>,
) -> Option<Fault>
    ensures { result ≡ first_of_file fault limit unended }
{
    match limit {
        Some(_) => fault_or(fault, at_limit(limit)),
        None => sooner(fault, unended),
    }
}
