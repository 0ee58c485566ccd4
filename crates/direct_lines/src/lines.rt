//! The statements of a unit.

ghost use Rattle.std.specs.Prelude.{◌≡◌, ◌&&◌};
ghost use Rattle.f_tree.specs.declared.names.Options.{Options as GivenOptions};
ghost use Rattle.f_tree.specs.Lines.{unit_read};
ghost use Rattle.name_facts.specs.declaration_rows.NameRows.{given_names};
ghost use Rattle.lowering_laws.specs.Layout.{are_direct, has_end};
ghost use Rattle.name_facts.specs.GivenFacts.{AreNameFacts};
ghost use Rattle.direct_lines.specs.DirectStatements as spec;

use crate::statements::{is_direct_line, is_end};
use f_tree::{Stmt, Unit};
use name_facts::NameFacts;

/// Whether each of statements is lowered as the law asks.
#[tactic(auto, unfolding(crate::specs::DirectStatements::are_direct_lines))]
fn are_direct_lines(unit: &Unit, table: &NameFacts, statements: &[Stmt]) -> bool
    requires { AreNameFacts unit.now table.now }
    ensures { result ≡ spec.are_direct_lines (given_names unit.now) statements.now }
{
    for statement in statements {
        if !is_direct_line(unit, table, &statement.body) {
            return false;
        }
    }
    true
}

/// Whether the last of statements is END.
fn end_last(statements: &[Stmt]) -> bool
    ensures { result ≡ spec.end_last statements.now }
{
    match statements.last() {
        Some(statement) => is_end(statement),
        None => false,
    }
}

/// Whether the statements of a unit are lowered as the law asks, and the last one is END. The table tells what the names of the unit are.
pub fn are_lines_direct(unit: &Unit, table: &NameFacts) -> bool
    requires { AreNameFacts unit.now table.now }
    ensures { (options : GivenOptions) → result ≡ (are_direct (unit_read options unit.now).lines && has_end (unit_read options unit.now).lines) }
{
    let statements = unit.statements.as_slice();
    are_direct_lines(unit, table, statements) && end_last(statements)
}
