//! Places of statements among the steps of their unit.

ghost use Rattle.std.specs.Prelude.{◌≡◌, false, Err, IfOk};
ghost use Rattle.expression_lowering.specs.declared.answers.LowerError.TheVariants.{NotLowered};
ghost use Rattle.statement_places.specs.LaidOut.{IsLaidOut, ArePlacesIn};
ghost use Rattle.statement_places.specs.StatementPlaces.{AreAllPlaces, statements_lower};
ghost use Rattle.statement_places.specs.StepWays.{IsPlaceIn};

use crate::arms::next_arms;
use crate::labels::{branch_labels, is_named};
use crate::layout::Layout;
use crate::loops::{ended_at, free_at};
use crate::positions::positions_of;
use crate::sizes::{Size, statement_sizes};
use crate::turns::turns;
use crate::ways::{room, skip};
use expression_lowering::LowerError;
use f_tree::Stmt;
use f_tree::units::Unit;
use loop_ranges::terminal_places;
use name_facts::NameFacts;
use name_table::LabelTable;
use open_loops::{LoopPlace, loop_places};
use order_judge::marks::mark_of;
use std::alloc::{AllocError, Global};

/// The end of a loop. Section 11.10.
#[derive(Clone, Copy, Debug, PartialEq, Eq)]
pub struct Turn {
    /// The place of its DO or DO WHILE statement among the statements, from 0.
    pub first: usize,
    /// The position of the first step behind its terminal statement.
    pub at: usize,
    /// How many steps its way back goes.
    pub back: usize,
}

/// Where the steps of a statement stand, and what it needs to know for them. Positions are counted from 0.
#[derive(Drop)]
pub struct StatementPlace {
    /// The first temporary that is free.
    pub free: usize,
    /// Whether a branch names the label of the statement.
    pub is_named: bool,
    /// Where its steps begin.
    pub start: usize,
    /// Where they begin behind those that pass the other arms.
    pub own_start: usize,
    /// Where they end, before those of loops that end with it.
    pub own_end: usize,
    /// How many steps are passed where its condition does not hold.
    pub room: usize,
    /// How many steps are passed before an ELSE IF or ELSE; 0 before others.
    pub skip: usize,
    /// The loops that end with it, the innermost first.
    pub turns: Vec<Turn>,
}

/// Where the steps of a statement stand.
fn statement_place(
    alloc: Global,
    statements: &[Stmt],
    layout: &Layout,
    place: usize,
    statement: &Stmt,
) -> Result<StatementPlace, AllocError>
    ensures { IfOk result (IsPlaceIn statements.now layout.now place statement.now) }
{
    let mark = mark_of(&statement.body);
    let loops = layout.loops.as_slice();
    let position = layout.positions.get(place);
    let from = position.own_end;
    let ended = ended_at(loops, place);
    Ok(StatementPlace {
        free: free_at(loops, place),
        is_named: is_named(&layout.named, statement.label),
        start: position.start,
        own_start: position.own_start,
        own_end: from,
        room: room(statements, layout, mark, place)?,
        skip: skip(layout, mark, place),
        turns: turns(
            alloc,
            layout.once,
            statements,
            &layout.positions,
            from,
            ended,
        )?,
    })
}

/// Where the steps of all statements stand.
fn all_places(
    alloc: Global,
    statements: &[Stmt],
    layout: &Layout,
) -> Result<Vec<StatementPlace>, AllocError>
    ensures { IfOk result (λ places. ArePlacesIn statements.now layout.now places.items) }
{
    let mut places = Vec::new(alloc);
    for place in 0..statements.len() {
        let known = statement_place(alloc, statements, layout, place, &statements[place])?;
        places.push(known)?;
    }
    Ok(places)
}

/// What is known of the statements of a unit, given how many steps each takes.
fn laid_out(
    alloc: Global,
    once: bool,
    unit: &Unit,
    loops: Vec<LoopPlace>,
    named: LabelTable<()>,
    sizes: &[Size],
) -> Result<Layout, AllocError>
    ensures { IfOk result (IsLaidOut once unit.now loops.items named sizes.now) }
{
    let positions = positions_of(alloc, sizes)?;
    let arms = next_arms(alloc, unit.statements.as_slice())?;
    let ends = terminal_places(alloc, unit)?;
    Ok(Layout {
        once,
        loops,
        named,
        positions,
        arms,
        ends,
    })
}

/// Where the steps of each statement of a unit stand, in their order, given the labels that its ASSIGN statements name; `once` where the ranges of DO
/// loops are run at least once.
///
/// # Errors
///
/// `NotLowered` where a statement is not lowered. `NoMemory` where memory has run out, or no number is left for a temporary or a step.
pub fn statement_places(
    alloc: Global,
    once: bool,
    table: &NameFacts,
    assigned: &[u32],
    unit: &Unit,
) -> Result<Vec<StatementPlace>, LowerError>
    ensures places { IfOk result (λ places. AreAllPlaces table.now once assigned.now unit.now.statements places.items) }
    ensures refused { result ≡ Err NotLowered → statements_lower table.now unit.now.statements ≡ false }
{
    let statements = unit.statements.as_slice();
    let loops = loop_places(alloc, once, table, unit)?;
    let named = match branch_labels(alloc, table, statements) {
        Ok(named) => named,
        Err(AllocError) => return Err(LowerError::NoMemory),
    };
    let sizes = statement_sizes(
        alloc,
        once,
        table,
        assigned,
        &named,
        statements,
        loops.as_slice(),
    )?;
    let layout = match laid_out(alloc, once, unit, loops, named, sizes.as_slice()) {
        Ok(layout) => layout,
        Err(AllocError) => return Err(LowerError::NoMemory),
    };
    match all_places(alloc, statements, &layout) {
        Ok(places) => Ok(places),
        Err(AllocError) => Err(LowerError::NoMemory),
    }
}
