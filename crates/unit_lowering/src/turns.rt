//! The ends of loops. Section 11.10.

ghost use Rattle.std.specs.Prelude.{◌≡◌, ◌++◌, false, Err, OnOk};
ghost use Rattle.f_tree.specs.Lines.{Naming};
ghost use Rattle.lowered_tree.specs.Shapes.{steps_of};
ghost use Rattle.expression_lowering.specs.declared.answers.LowerError.TheVariants.{NotLowered};
ghost use Rattle.expression_lowering.specs.TableNames.{AreFactsOf};
ghost use Rattle.statement_places.specs.StatementPlaces.{statements_lower};
ghost use Rattle.unit_lowering.specs.LineSteps.{turn_steps, turns_steps};

use crate::forms::control_at;
use crate::numbered::place_at;
use crate::steps::add_step;
use expression_lowering::LowerError;
use f_tree::Stmt;
use lowered_tree::Step;
use name_facts::NameFacts;
use statement_lowering::lower_turn;
use statement_places::{StatementPlace, Turn};
use std::alloc::Global;

/// Appends the steps of the end of a loop.
fn add_turn(
    alloc: Global,
    once: bool,
    table: &NameFacts,
    statements: &[Stmt],
    places: &[StatementPlace],
    turn: Turn,
    steps: &mut Vec<Step>,
) -> Result<(), LowerError>
    ensures added { OnOk result ((names : Naming) → AreFactsOf names table.now
        → steps_of steps.new.items ≡ steps_of steps.old.items ++ turn_steps once names statements.now places.now turn) }
    ensures refused { result ≡ Err NotLowered → statements_lower table.now statements.now ≡ false }
{
    match (
        control_at(statements, turn.first),
        place_at(places, turn.first),
    ) {
        (Some(control), Some(place)) => {
            lower_turn(alloc, table, once, place.free, turn.back, control, steps)
        }
        (Some(_), None) => add_step(steps, Step::Again(turn.back)),
        (None, _) => add_step(steps, Step::Again(turn.back)),
    }
}

/// Appends the steps of the ends of loops.
pub(crate) fn add_turns(
    alloc: Global,
    once: bool,
    table: &NameFacts,
    statements: &[Stmt],
    places: &[StatementPlace],
    turns: &[Turn],
    steps: &mut Vec<Step>,
) -> Result<(), LowerError>
    ensures added { OnOk result ((names : Naming) → AreFactsOf names table.now
        → steps_of steps.new.items ≡ steps_of steps.old.items ++ turns_steps once names statements.now places.now turns.now) }
    ensures refused { result ≡ Err NotLowered → statements_lower table.now statements.now ≡ false }
{
    for turn in turns {
        add_turn(alloc, once, table, statements, places, *turn, steps)?;
    }
    Ok(())
}
