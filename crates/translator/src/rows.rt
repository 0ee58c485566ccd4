//! Where files have a form that is not translated: the rows F99.

ghost use Rattle.std.specs.Prelude.{◌≡◌};
ghost use Rattle.declaration_rows.specs.Verdicts.{first_of};
ghost use Rattle.translated_files.specs.TranslatedFiles as spec;

use crate::forms::is_translated_form;
use f_tree::{File, Kind, Refusal, Unit};
use refusal_order::earlier_of;

/// The row at a card of a file.
pub(crate) fn row_at(file: usize, card: u32) -> Refusal
    ensures { result ≡ record { file = file; card = card; kind = Kind.NotBuiltYet } }
{
    Refusal {
        file,
        card,
        kind: Kind::NotBuiltYet,
    }
}

/// The row of a unit that is not translated: at its first statement of a form that is not, else where the unit begins.
pub(crate) fn form_row(unit: &Unit) -> Refusal
    ensures { result ≡ spec.form_row unit.now unit.now.statements }
{
    let statements = unit.statements.as_slice();
    for statement in statements {
        if !is_translated_form(&statement.body) {
            return row_at(statement.file, statement.card);
        }
    }
    row_at(unit.file, unit.card)
}

/// The row of a file without units, by its number, if it is one.
#[tactic(auto, unfolding(translated_files::specs::TranslatedFiles::row_of_none, declaration_rows::specs::Verdicts::first_of, declaration_rows::specs::Verdicts::earlier))]
fn row_of_none(number: usize, file: &File) -> Option<Refusal>
    ensures { result ≡ first_of (spec.row_of_none number file.now.units) }
{
    match file.units.as_slice() {
        [] => Some(row_at(number, 1)),
        _ => None,
    }
}

/// The first of the rows of files without units.
pub(crate) fn without_units(files: &[File]) -> Option<Refusal>
    ensures { result ≡ first_of (spec.files_without_units 0 files.now) }
{
    let mut refusal = None;
    for (number, file) in files.iter().enumerate() {
        refusal = earlier_of(refusal, row_of_none(number, file));
    }
    refusal
}
