//! Where a row of the table of refusals stands: at a statement, or at the first statement of the unit.
#![tactic(auto)]

ghost use Rattle.std.specs.Prelude.{◌≡◌, ◌++◌, OnOk, option_copied};
ghost use Rattle.declaration_rows.specs.Judgement.{unless};
ghost use Rattle.name_places.specs.FirstPlaces as spec;

use f_tree::{Kind, Refusal, Stmt, Unit};
use std::alloc::AllocError;

/// The file and the card of the initial line of a statement.
#[derive(Clone, Copy, Debug, PartialEq, Eq)]
pub struct Place {
    pub file: usize,
    pub card: u32,
}

/// The place of a statement, or of the first statement of a unit where there is none.
#[tactic(auto, unfolding(crate::specs::FirstPlaces::statement_place, crate::specs::FirstPlaces::unit_place))]
fn statement_place(unit: &Unit, statement: Option<&Stmt>) -> Place
    ensures { result ≡ spec.statement_place unit.now (option_copied statement.entry) }
{
    match statement {
        Some(statement) => Place {
            file: statement.file,
            card: statement.card,
        },
        None => Place {
            file: unit.file,
            card: unit.card,
        },
    }
}

/// The place of a statement of a unit by its number, or of the first statement of the unit where none is given.
#[tactic(auto, unfolding(crate::specs::FirstPlaces::placed, crate::specs::FirstPlaces::statement_place))]
pub fn place_of(unit: &Unit, at: Option<usize>) -> Place
    ensures { result ≡ spec.placed unit.now unit.now.statements at }
{
    match at {
        Some(at) => statement_place(unit, unit.statements.as_slice().get(at)),
        None => statement_place(unit, None),
    }
}

/// Adds a row at a place unless a condition holds.
#[tactic(auto, unfolding(crate::specs::FirstPlaces::rows_at, declaration_rows::specs::Judgement::unless))]
pub fn add_at(
    found: &mut Vec<Refusal>,
    place: Place,
    holds: bool,
    kind: Kind,
) -> Result<(), AllocError>
    ensures { OnOk result (found.new.items ≡ found.old.items ++ spec.rows_at place (unless holds kind)) }
{
    if holds {
        return Ok(());
    }
    found.push(Refusal {
        file: place.file,
        card: place.card,
        kind,
    })?;
    Ok(())
}
