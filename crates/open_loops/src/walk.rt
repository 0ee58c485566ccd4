//! One walk over the statements of a unit, with the loops that are open.

ghost use Rattle.std.specs.Prelude.{◌≡◌, false, Err, List, OnOk, IfOk, length};
ghost use Rattle.f_tree.specs.Nests.{Range};
ghost use Rattle.expression_lowering.specs.declared.answers.LowerError.TheVariants.{NotLowered, NoMemory};
ghost use Rattle.open_loops.specs.LoopPlaces.{loops_lower};
ghost use Rattle.open_loops.specs.OpenRanges.{open_behind, ended_among, innermost_first};
ghost use Rattle.open_loops.specs.PlacesAmong.{AreAround, IsPlaceAdded, ArePlacesUpTo};

use crate::places::LoopPlace;
use crate::ranges::{OpenLoop, ended_loops, pass_statement};
use crate::temporaries::free_among;
use expression_lowering::LowerError;
use f_tree::Stmt;
use name_facts::NameFacts;
use std::alloc::{AllocError, Global};

/// The loops around a statement.
#[derive(Drop)]
pub(crate) struct Around {
    /// The loops that are open at the statement, the outermost first.
    loops: Vec<OpenLoop>,
    /// The first temporary that none of them keeps.
    free: usize,
}

/// Memory has run out.
fn no_memory(_: AllocError) -> LowerError
    ensures { result ≡ NoMemory }
{
    LowerError::NoMemory
}

/// Appends what the loops around a statement make of it.
fn add_place(
    alloc: Global,
    around: &Around,
    place: usize,
    places: &mut Vec<LoopPlace>,
) -> Result<(), AllocError>
    ensures { OnOk result (IsPlaceAdded around.now.free (ended_among place (innermost_first around.now.loops.items)) places.old.items places.new.items) }
{
    let ended = ended_loops(alloc, around.loops.as_slice(), place)?;
    places.push(LoopPlace {
        free: around.free,
        ended,
    })?;
    Ok(())
}

/// Passes a statement, given where the loop ends that it begins.
fn pass(
    alloc: Global,
    table: &NameFacts,
    statements: &[Stmt],
    around: &mut Around,
    place: usize,
    end: Option<usize>,
) -> Result<(), LowerError>
    ensures passed { OnOk result ((rs : List Range) → AreAround table.now statements.now rs around.old → AreAround table.now statements.now (open_behind place end rs) around.new) }
    ensures refused { result ≡ Err NotLowered → loops_lower table.now statements.now ≡ false }
{
    let changed = pass_statement(&mut around.loops, place, end).map_err(no_memory)?;
    if changed {
        around.free = free_among(alloc, table, statements, around.loops.as_slice())?;
    }
    Ok(())
}

/// What the loops of a unit make of its statements, given where the loops end.
pub(crate) fn places_between(
    alloc: Global,
    table: &NameFacts,
    statements: &[Stmt],
    ends: &[Option<usize>],
) -> Result<Vec<LoopPlace>, LowerError>
    ensures places { IfOk result (λ places. ArePlacesUpTo table.now statements.now ends.now (length ends.now) places.items) }
    ensures refused { result ≡ Err NotLowered → loops_lower table.now statements.now ≡ false }
{
    let mut around = Around {
        loops: Vec::new(alloc),
        free: 0,
    };
    let mut places = Vec::new(alloc);
    for (place, end) in ends.iter().enumerate() {
        add_place(alloc, &around, place, &mut places).map_err(no_memory)?;
        pass(alloc, table, statements, &mut around, place, *end)?;
    }
    Ok(places)
}
