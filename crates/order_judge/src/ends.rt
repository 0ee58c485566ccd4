//! The last statement of a unit (F11). Section 3.5.
#![tactic(auto)]

ghost use Rattle.std.specs.Prelude.{◌≡◌, ◌++◌, OnOk};
ghost use Rattle.declaration_rows.specs.UnitRows.{is_end, ends_by_end, end_rows};

use f_tree::{Body, Kind, Refusal, Stmt, Unit};
use std::alloc::AllocError;

/// Whether a statement is END.
#[tactic(auto, unfolding(declaration_rows::specs::UnitRows::is_end, f_tree::specs::Folds::layer_of))]
fn is_end(body: &Body) -> bool
    ensures { result ≡ is_end body.now }
{
    match body {
        Body::End => true,
        _ => false,
    }
}

/// Whether the last of statements is END.
fn ends_by_end(statements: &[Stmt]) -> bool
    ensures { result ≡ ends_by_end statements.now }
{
    match statements {
        [.., last] => is_end(&last.body),
        [] => false,
    }
}

/// Adds the row of a unit that does not end by END.
#[tactic(auto, unfolding(declaration_rows::specs::UnitRows::end_rows))]
pub fn add_end_row(found: &mut Vec<Refusal>, unit: &Unit) -> Result<(), AllocError>
    ensures { OnOk result (found.new.items ≡ found.old.items ++ end_rows unit.now (ends_by_end unit.now.statements)) }
{
    if ends_by_end(unit.statements.as_slice()) {
        return Ok(());
    }
    found.push(Refusal {
        file: unit.file,
        card: unit.card,
        kind: Kind::SyntaxError,
    })?;
    Ok(())
}
