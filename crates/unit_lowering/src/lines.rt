//! The steps of statements, in their order. Sections 3.5, 10 to 12 and 15.

ghost use Rattle.std.specs.Prelude.{◌≡◌, ◌&&◌, false, Some, Err, IfOk, OnOk, length};
ghost use Rattle.f_tree.specs.Lines.{Naming};
ghost use Rattle.lowered_tree.specs.Shapes.{steps_of};
ghost use Rattle.expression_lowering.specs.declared.answers.LowerError.TheVariants.{NotLowered};
ghost use Rattle.expression_lowering.specs.TableNames.{AreFactsOf};
ghost use Rattle.statement_lowering.specs.LoweredStatements.{is_lowered_statement};
ghost use Rattle.statement_lowering.specs.StatementOutcomes.{AreAdded};
ghost use Rattle.statement_places.specs.StatementPlaces.{statements_lower};
ghost use Rattle.unit_lowering.specs.LineSteps as spec;

use crate::numbered::{place_at, statement_at};
use crate::steps::{add_skip, add_step};
use crate::turns::add_turns;
use expression_lowering::LowerError;
use f_tree::Stmt;
use lowered_tree::Step;
use name_facts::NameFacts;
use statement_lowering::{Around, lower_statement};
use statement_places::StatementPlace;
use std::alloc::Global;

/// Appends the steps of a statement itself, given the labels that ASSIGN statements name. One that takes no step has one where a branch goes to it.
fn lower_own(
    alloc: Global,
    once: bool,
    table: &NameFacts,
    assigned: &[u32],
    statement: &Stmt,
    place: &StatementPlace,
    steps: &mut Vec<Step>,
) -> Result<(), LowerError>
    ensures added { OnOk result ((names : Naming) → AreFactsOf names table.now → AreAdded (spec.own_steps once assigned.now names statement.now place.now) steps.old.items steps.new.items) }
    ensures refused { result ≡ Err NotLowered → is_lowered_statement table.now statement.now.body ≡ false }
{
    let before = steps.len();
    let around = Around {
        once,
        free: place.free,
        room: place.room,
    };
    lower_statement(alloc, table, around, assigned, &statement.body, steps)?;
    if place.is_named && steps.len() == before {
        add_step(steps, Step::Pass)
    } else {
        Ok(())
    }
}

/// Appends the steps of a statement, with those that pass the other arms, and those of the loops that end with it.
fn lower_line(
    alloc: Global,
    once: bool,
    table: &NameFacts,
    assigned: &[u32],
    statements: &[Stmt],
    places: &[StatementPlace],
    statement: &Stmt,
    place: &StatementPlace,
    steps: &mut Vec<Step>,
) -> Result<(), LowerError>
    ensures added { OnOk result ((names : Naming) → AreFactsOf names table.now
        → AreAdded (spec.line_steps once assigned.now names statements.now places.now statement.now place.now) steps.old.items steps.new.items) }
    ensures refused { result ≡ Err NotLowered → (is_lowered_statement table.now statement.now.body && statements_lower table.now statements.now) ≡ false }
{
    add_skip(&statement.body, place.skip, steps)?;
    lower_own(alloc, once, table, assigned, statement, place, steps)?;
    add_turns(
        alloc,
        once,
        table,
        statements,
        places,
        place.turns.as_slice(),
        steps,
    )
}

/// Appends the steps of a statement by its number in the unit, if there is such a statement with a place.
fn lower_line_at(
    alloc: Global,
    once: bool,
    table: &NameFacts,
    assigned: &[u32],
    statements: &[Stmt],
    places: &[StatementPlace],
    at: usize,
    steps: &mut Vec<Step>,
) -> Result<(), LowerError>
    ensures added { OnOk result ((names : Naming) → AreFactsOf names table.now
        → AreAdded (spec.line_at once assigned.now names statements.now places.now at) steps.old.items steps.new.items) }
    ensures refused { result ≡ Err NotLowered → statements_lower table.now statements.now ≡ false }
{
    match (statement_at(statements, at), place_at(places, at)) {
        (Some(statement), Some(place)) => {
            lower_line(
                alloc, once, table, assigned, statements, places, statement, place, steps,
            )
        }
        (Some(_), None) => Ok(()),
        (None, _) => Ok(()),
    }
}

/// The steps of statements, given the labels that ASSIGN statements name.
pub(crate) fn lower_lines(
    alloc: Global,
    once: bool,
    table: &NameFacts,
    assigned: &[u32],
    statements: &[Stmt],
    places: &[StatementPlace],
) -> Result<Vec<Step>, LowerError>
    ensures lowered { IfOk result (λ steps. (names : Naming) → AreFactsOf names table.now
        → spec.lines_steps once assigned.now names statements.now places.now (length statements.now) ≡ Some (steps_of steps.items)) }
    ensures refused { result ≡ Err NotLowered → statements_lower table.now statements.now ≡ false }
{
    let mut steps = Vec::new(alloc);
    for at in 0..statements.len() {
        lower_line_at(
            alloc, once, table, assigned, statements, places, at, &mut steps,
        )?;
    }
    Ok(steps)
}
