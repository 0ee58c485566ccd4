//! Units.

ghost use Rattle.std.specs.Prelude.{◌≡◌, ℕ, nat_eq, map, length, false, Err, IfOk};
ghost use Rattle.std.specs.HashMap.{get_by};
ghost use Rattle.expression_lowering.specs.declared.answers.LowerError.TheVariants.{NotLowered};
ghost use Rattle.lowered_text.specs.Texts.{marked_of};
ghost use Rattle.statement_places.specs.StatementPlaces.{statements_lower};
ghost use Rattle.unit_lowering.specs.LabelStarts.{label_start};
ghost use Rattle.unit_lowering.specs.LineMarks.{lines_marks};
ghost use Rattle.unit_lowering.specs.LoweredUnits.{IsLoweredUnit, UnitsAreLoweredToTheirSteps};

use crate::assigned::assigned_labels;
use crate::labels::label_starts;
use crate::lines::lower_lines;
use crate::marks::lines_marks;
use expression_lowering::LowerError;
use f_tree::Stmt;
use f_tree::units::Unit;
use lowered_text::LoweredText;
use lowered_tree::Step;
use name_facts::NameFacts;
use statement_places::{StatementPlace, statement_places};
use std::alloc::{AllocError, Global};

/// The text of these steps, with the labels and the marks of their statements.
fn with_marks(
    alloc: Global,
    once: bool,
    statements: &[Stmt],
    places: &[StatementPlace],
    steps: Vec<Step>,
) -> Result<LoweredText, AllocError>
    ensures steps { IfOk result (λ text. text.steps.items ≡ steps.items) }
    ensures labels { IfOk result (λ text. (l : ℕ) → get_by (nat_eq l) text.labels ≡ label_start l statements.now places.now (length statements.now)) }
    ensures marks { IfOk result (λ text. map marked_of text.marks.items ≡ lines_marks once statements.now places.now (length statements.now)) }
{
    let labels = label_starts(alloc, statements, places)?;
    let marks = lines_marks(alloc, once, statements, places)?;
    Ok(LoweredText {
        steps,
        labels,
        marks,
    })
}

/// The lowered text of a unit, given what its names are; `once` where the ranges of DO loops are run at least once.
///
/// # Errors
///
/// `NotLowered` where a statement is not lowered. `NoMemory` where memory has run out, or no number is left for a temporary or a step.
pub fn lower_unit(
    alloc: Global,
    once: bool,
    table: &NameFacts,
    unit: &Unit,
) -> Result<LoweredText, LowerError>
    ensures text { IfOk result (λ text. IsLoweredUnit table.now once unit.now.statements text) }
    ensures refused { result ≡ Err NotLowered → statements_lower table.now unit.now.statements ≡ false }
{
    let statements = unit.statements.as_slice();
    let labels = match assigned_labels(alloc, statements) {
        Ok(labels) => labels,
        Err(AllocError) => return Err(LowerError::NoMemory),
    };
    let assigned = labels.as_slice();
    let places = statement_places(alloc, once, table, assigned, unit)?;
    let steps = lower_lines(alloc, once, table, assigned, statements, places.as_slice())?;
    match with_marks(alloc, once, statements, places.as_slice(), steps) {
        Ok(text) => Ok(text),
        Err(AllocError) => Err(LowerError::NoMemory),
    }
}

/// A unit whose statements are lowered is lowered to their steps. This function does nothing; its contract is the law.
pub fn units_are_lowered_to_their_steps()
    ensures { UnitsAreLoweredToTheirSteps }
{}
