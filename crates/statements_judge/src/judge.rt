//! The judge.

ghost use Rattle.std.specs.Prelude.{◌≡◌, IfOk};
ghost use Rattle.declaration_rows.specs.NameRows.{known_in};
ghost use Rattle.declaration_rows.specs.UnitRows.{statements_rows};
ghost use Rattle.declaration_rows.specs.Verdicts.{first_of};
ghost use Rattle.expression_judge.specs.SeenNames.{AreSeen};
ghost use Rattle.f_tree.specs.declared.names.Options.{Options as GivenOptions};
ghost use Rattle.f_tree.specs.Lines.{unit_read};
ghost use Rattle.refusal_order.specs.Earliest.{refusal_of};
ghost use Rattle.statement_judge.specs.StatementSteps.{broken_by};

use crate::labels::unit_labels;
use crate::loops::range_ends;
use expression_judge::Names;
use f_tree::{Refusal, Stmt, Unit};
use loop_ranges::terminal_places;
use refusal_order::{earlier_of, refused_at};
use statement_judge::{Site, judge_statement};
use std::alloc::{AllocError, Global};

/// The first of the rows that a statement breaks, given what is known where it stands.
fn statement_fault(site: &Site, statement: &Stmt) -> Option<Refusal>
    ensures { result ≡ refusal_of statement.now.file statement.now.card (broken_by site.now statement.now.body).rows }
{
    let broken = judge_statement(site, &statement.body);
    refused_at(statement.file, statement.card, broken.rows)
}

/// The first of the rows that the statements of a unit break, given what is known of its names.
///
/// # Errors
///
/// Want of memory.
pub fn statements_fault(
    alloc: Global,
    unit: &Unit,
    names: &Names,
) -> Result<Option<Refusal>, AllocError>
    requires { AreSeen (known_in unit.now) names.now }
    ensures { IfOk result (λ found. (options : GivenOptions) → found ≡ first_of (statements_rows unit.now (unit_read options unit.now) 0 unit.now.statements)) }
{
    let statements = unit.statements.as_slice();
    let labels = unit_labels(alloc, statements)?;
    let terminals = terminal_places(alloc, unit)?;
    let mut first = None;
    for (place, statement) in statements.iter().enumerate() {
        let site = Site {
            names,
            branches: &labels.branches,
            formats: &labels.formats,
            ends_loop: range_ends(statements, &statement.body, place, terminals[place]),
        };
        first = earlier_of(first, statement_fault(&site, statement));
    }
    Ok(first)
}
