//! The temporaries that open loops keep. Section 11.10.

ghost use Rattle.std.specs.Prelude.{◌≡◌, false, Err, IfOk, option_copied, slice_get};
ghost use Rattle.expression_lowering.specs.declared.answers.LowerError.TheVariants.{NotLowered};
ghost use Rattle.open_loops.specs.LoopPlaces.{loop_lowers, loops_lower};
ghost use Rattle.open_loops.specs.OpenRanges.{innermost_first};
ghost use Rattle.open_loops.specs.KeptTemporaries.{IsFreeInside, IsFreeAtLoop, IsFreeAmong};

use crate::ranges::OpenLoop;
use expression_lowering::LowerError;
use f_tree::{Body, Stmt};
use name_facts::NameFacts;
use statement_lowering::free_inside;
use std::alloc::Global;

/// The first temporary that is free in the range of the loop that a statement begins, given the first that is free at the statement. A DO WHILE
/// keeps none.
fn free_behind(
    alloc: Global,
    table: &NameFacts,
    free: usize,
    body: &Body,
) -> Result<usize, LowerError>
    ensures free { IfOk result (λ inside. IsFreeInside table.now free body.now inside) }
    ensures refused { result ≡ Err NotLowered → loop_lowers table.now body.now ≡ false }
{
    match body {
        Body::Do(_, control) => free_inside(alloc, table, free, control),
        _ => Ok(free),
    }
}

/// The statement at a place, if there is one.
fn statement_at(statements: &[Stmt], place: usize) -> Option<&Stmt>
    ensures { option_copied result ≡ slice_get statements.now place }
{
    statements.get(place)
}

/// The same for a loop by the place of its statement.
fn free_at_loop(
    alloc: Global,
    table: &NameFacts,
    statements: &[Stmt],
    free: usize,
    first: usize,
) -> Result<usize, LowerError>
    ensures free { IfOk result (λ inside. IsFreeAtLoop table.now free (slice_get statements.now first) inside) }
    ensures refused { result ≡ Err NotLowered → loops_lower table.now statements.now ≡ false }
{
    match statement_at(statements, first) {
        Some(statement) => free_behind(alloc, table, free, &statement.body),
        None => Ok(free),
    }
}

/// The first temporary that none of some open loops keeps.
pub(crate) fn free_among(
    alloc: Global,
    table: &NameFacts,
    statements: &[Stmt],
    loops: &[OpenLoop],
) -> Result<usize, LowerError>
    ensures free { IfOk result (λ free. IsFreeAmong table.now statements.now (innermost_first loops.now) free) }
    ensures refused { result ≡ Err NotLowered → loops_lower table.now statements.now ≡ false }
{
    let mut free = 0;
    for range in loops {
        free = free_at_loop(alloc, table, statements, free, range.first)?;
    }
    Ok(free)
}
