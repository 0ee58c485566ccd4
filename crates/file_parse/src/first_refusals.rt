//! The first of some refusals: by the file, the card and the number.

ghost use Rattle.std.specs.Prelude.{◌≡◌, ◌++◌, List, true, false};
ghost use Rattle.f_tree.specs.declared.refusals.Refusal.{Refusal};
ghost use Rattle.f_tree.specs.RefusalRows.{IsNotAfter};
ghost use Rattle.file_parse.specs.FirstRefusals.{IsFirstAmong};

use f_tree::Refusal;

/// Whether a refusal stands before another or at the same place, by the file, the card and the number.
pub fn is_not_after(one: Refusal, other: Refusal) -> bool
    ensures is { result ≡ true → IsNotAfter one other }
    ensures is_not { result ≡ false → IsNotAfter other one }
{
    if one.file != other.file {
        one.file < other.file
    } else if one.card != other.card {
        one.card < other.card
    } else {
        one.kind.number() <= other.kind.number()
    }
}

/// The first of two refusals, each of which may be none.
pub fn first_of(one: Option<Refusal>, other: Option<Refusal>) -> Option<Refusal>
    ensures { (rows more : List Refusal) → IsFirstAmong rows one → IsFirstAmong more other → IsFirstAmong (rows ++ more) result }
{
    let Some(found) = one else {
        return other;
    };
    let Some(next) = other else {
        return one;
    };
    if is_not_after(found, next) {
        one
    } else {
        other
    }
}
