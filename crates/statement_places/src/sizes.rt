//! How many steps statements take. That does not depend on where they stand.

ghost use Rattle.std.specs.Prelude.{◌≡◌, ℕ, List, false, Err, IfOk};
ghost use Rattle.lowering.specs.Units as unit;
ghost use Rattle.order_judge.specs.NestSteps.{mark_in};
ghost use Rattle.expression_lowering.specs.declared.answers.LowerError.TheVariants.{NotLowered};
ghost use Rattle.statement_lowering.specs.LoweredStatements.{is_lowered_statement};
ghost use Rattle.statement_places.specs.NamedLabels.{IsLabelSet};
ghost use Rattle.statement_places.specs.StatementPlaces.{statements_lower};
ghost use Rattle.statement_places.specs.StatementSizes as spec;
ghost use Rattle.statement_places.specs.StatementSizes.{IsCodeSize, IsSize, AreSizes};

use crate::labels::is_named;
use crate::loops::{ended_at, free_at, turn_sizes};
use expression_lowering::LowerError;
use f_tree::{Body, Stmt};
use name_facts::NameFacts;
use name_table::LabelTable;
use open_loops::LoopPlace;
use order_judge::marks::{BlockMark, mark_of};
use statement_lowering::{Around, lower_statement};
use std::alloc::{AllocError, Global};

/// How many steps a statement takes.
#[derive(Clone, Copy, Debug, PartialEq, Eq)]
pub(crate) struct Size {
    /// Those that pass the other arms of its block.
    pub skip: usize,
    /// Those of its form, or the one that a branch goes to.
    pub form: usize,
    /// Those of the loops that end with it.
    pub turns: usize,
}

/// How many steps the form of a statement takes, given the labels that ASSIGN statements name.
fn code_size(
    alloc: Global,
    once: bool,
    table: &NameFacts,
    assigned: &[u32],
    free: usize,
    body: &Body,
) -> Result<usize, LowerError>
    ensures size { IfOk result (IsCodeSize table.now once assigned.now free body.now) }
    ensures refused { result ≡ Err NotLowered → is_lowered_statement table.now body.now ≡ false }
{
    let mut steps = Vec::new(alloc);
    let around = Around {
        once,
        free,
        room: 0,
    };
    lower_statement(alloc, table, around, assigned, body, &mut steps)?;
    Ok(steps.len())
}

/// So many steps, or one where there is none and a branch goes there.
#[tactic(auto, unfolding(crate::specs::StatementSizes::with_pass))]
fn with_pass(named: bool, steps: usize) -> usize
    ensures { result ≡ spec.with_pass named steps }
{
    if named && steps == 0 { 1 } else { steps }
}

/// How many steps pass the other arms of a block.
#[tactic(auto, unfolding(lowering::specs::Units::skip_size, order_judge::specs::NestSteps::mark_in))]
fn skip_size(mark: BlockMark) -> usize
    ensures { result ≡ unit.skip_size (mark_in mark) }
{
    match mark {
        BlockMark::Arm => 1,
        BlockMark::Plain | BlockMark::Opens | BlockMark::Closes => 0,
    }
}

/// How many steps a statement takes, given the labels that ASSIGN statements name, the first temporary that is free, the loops that end with it, and
/// whether a branch names its label.
fn statement_size(
    alloc: Global,
    once: bool,
    table: &NameFacts,
    assigned: &[u32],
    statements: &[Stmt],
    free: usize,
    ended: &[usize],
    named: bool,
    body: &Body,
) -> Result<Size, LowerError>
    ensures size { IfOk result (IsSize table.now once assigned.now statements.now free ended.now named body.now) }
    ensures refused { result ≡ Err NotLowered → is_lowered_statement table.now body.now ≡ false }
{
    let code = code_size(alloc, once, table, assigned, free, body)?;
    match turn_sizes(statements, ended) {
        Ok(turns) => Ok(Size {
            skip: skip_size(mark_of(body)),
            form: with_pass(named, code),
            turns,
        }),
        Err(AllocError) => Err(LowerError::NoMemory),
    }
}

/// How many steps each of the statements of a unit takes, given the labels that its ASSIGN statements name.
pub(crate) fn statement_sizes(
    alloc: Global,
    once: bool,
    table: &NameFacts,
    assigned: &[u32],
    named: &LabelTable<()>,
    statements: &[Stmt],
    loops: &[LoopPlace],
) -> Result<Vec<Size>, LowerError>
    ensures sizes { IfOk result (λ sizes. (labels : List ℕ) → IsLabelSet labels named.now → AreSizes table.now once assigned.now labels statements.now loops.now sizes.items) }
    ensures refused { result ≡ Err NotLowered → statements_lower table.now statements.now ≡ false }
{
    let mut sizes = Vec::new(alloc);
    for place in 0..statements.len() {
        let statement = &statements[place];
        let size = statement_size(
            alloc,
            once,
            table,
            assigned,
            statements,
            free_at(loops, place),
            ended_at(loops, place),
            is_named(named, statement.label),
            &statement.body,
        )?;
        if sizes.push(size).is_err() {
            return Err(LowerError::NoMemory);
        }
    }
    Ok(sizes)
}
