//! The loops around each statement.

ghost use Rattle.std.specs.Prelude.{◌≡◌, false, Err, IfOk};
ghost use Rattle.expression_lowering.specs.declared.answers.LowerError.TheVariants.{NotLowered};
ghost use Rattle.open_loops.specs.LoopPlaces.{ArePlacesOf, loops_lower};

use crate::walk::places_between;
use expression_lowering::LowerError;
use f_tree::Unit;
use loop_ranges::terminal_places;
use name_facts::NameFacts;
use std::alloc::{AllocError, Global};

/// What the loops of a unit make of one of its statements.
#[derive(Drop)]
pub struct LoopPlace {
    /// The first temporary that no loop keeps in whose range the statement stands.
    pub free: usize,
    /// The places from 0 of the DO and DO WHILE statements whose loops end with the statement, the innermost first.
    pub ended: Vec<usize>,
}

/// What the loops of a unit make of each of its statements, in their order. A loop without a terminal statement has no range.
///
/// # Errors
///
/// `NotLowered` where the control of a DO statement has an expression that is not lowered. `NoMemory` where memory has run out, or no number is
/// left for a temporary.
pub fn loop_places(
    alloc: Global,
    once: bool,
    table: &NameFacts,
    unit: &Unit,
) -> Result<Vec<LoopPlace>, LowerError>
    ensures places { IfOk result (λ places. ArePlacesOf table.now once unit.now.statements places.items) }
    ensures refused { result ≡ Err NotLowered → loops_lower table.now unit.now.statements ≡ false }
{
    match terminal_places(alloc, unit) {
        Ok(ends) => places_between(alloc, table, unit.statements.as_slice(), ends.as_slice()),
        Err(AllocError) => Err(LowerError::NoMemory),
    }
}
