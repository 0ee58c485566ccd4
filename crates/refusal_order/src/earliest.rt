//! The earlier of two refusals, and the lesser of two rows.

ghost use Rattle.std.specs.Prelude.{◌≡◌, map};
ghost use Rattle.declaration_rows.specs.Verdicts.{is_before as before};
ghost use Rattle.refusal_order.specs.Earliest.{earliest, least, refusal_of};

use f_tree::{Kind, Refusal};

/// Whether a refusal comes before another: by file, then card, then number.
#[tactic(auto, unfolding(declaration_rows::specs::Verdicts::is_before))]
pub fn is_before(refusal: Refusal, other: Refusal) -> bool
    ensures { result ≡ before refusal other }
{
    refusal.file < other.file
        || refusal.file == other.file
            && (refusal.card < other.card
                || refusal.card == other.card && refusal.kind.number() < other.kind.number())
}

/// The earlier of two refusals that may be there; of two at one place with one number the first.
#[tactic(auto, unfolding(crate::specs::Earliest::earliest, declaration_rows::specs::Verdicts::earlier))]
pub fn earlier_of(refusal: Option<Refusal>, other: Option<Refusal>) -> Option<Refusal>
    ensures { result ≡ earliest refusal other }
{
    match (refusal, other) {
        (None, _) => other,
        (Some(_), None) => refusal,
        (Some(one), Some(two)) => Some(if is_before(two, one) { two } else { one }),
    }
}

/// The row with the lesser number of two that may be there; of two alike the first.
#[tactic(auto, unfolding(crate::specs::Earliest::least, crate::specs::Earliest::less))]
pub fn lesser_of(row: Option<Kind>, other: Option<Kind>) -> Option<Kind>
    ensures { result ≡ least row other }
{
    match (row, other) {
        (None, _) => other,
        (Some(_), None) => row,
        (Some(one), Some(two)) => Some(if two.number() < one.number() {
            two
        } else {
            one
        }),
    }
}

/// The refusal by a row that may be there, at a card of a file.
#[tactic(auto, unfolding(crate::specs::Earliest::refusal_of))]
pub fn refused_at(file: usize, card: u32, row: Option<Kind>) -> Option<Refusal>
    ensures { result ≡ refusal_of file card row }
{
    match row {
        None => None,
        Some(kind) => Some(Refusal { file, card, kind }),
    }
}
