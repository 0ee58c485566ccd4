//! The first refusal of a unit by branches into blocks and by the places of its ENTRY statements.
#![tactic(auto)]

ghost use Rattle.std.specs.Prelude.{◌≡◌, ◌<◌, ◌++◌, List, OnOk, IfOk, length};
ghost use Rattle.f_tree.specs.declared.names.Options.{Options};
ghost use Rattle.f_tree.specs.declared.statements.Stmt as stmt;
ghost use Rattle.f_tree.specs.Lines.{unit_read};
ghost use Rattle.declaration_rows.specs.Verdicts.{first_of};
ghost use Rattle.declaration_rows.specs.NameRows.{stood};
ghost use Rattle.declaration_rows.specs.BlockRows.{unit_block_rows};
ghost use Rattle.block_judge.specs.Blocks.{IsSound, AreBlocks};
ghost use Rattle.block_judge.specs.BlockSteps.{branch_rows_in, rows_in, TellsSharing};

use crate::blocks::{Blocks, unit_blocks};
use crate::branches::add_branches;
use crate::entries::add_entry_rows;
use f_tree::{Kind, Refusal, Stmt, Unit, UnitKind};
use found_rows::{add_unless, first_of};
use std::alloc::{AllocError, Global};

/// Adds the row of a statement that branches into a block from outside.
fn add_branch_row(
    alloc: Global,
    found: &mut Vec<Refusal>,
    blocks: &Blocks,
    place: usize,
    statement: &Stmt,
) -> Result<(), AllocError>
    requires sound { IsSound blocks.now }
    requires place { place < length blocks.now.arms.items }
    ensures { OnOk result ((ss : List stmt.Stmt) → AreBlocks ss blocks.now
        → found.new.items ≡ found.old.items ++ stood statement.now (branch_rows_in ss place statement.now.body)) }
{
    let mut labels = Vec::new(alloc);
    add_branches(&mut labels, &statement.body)?;
    let stays_out = !blocks.enters_any(place, labels.as_slice());
    add_unless(found, statement, stays_out, Kind::BranchIntoBlock)
}

/// Adds the rows of a statement.
fn add_statement_rows(
    alloc: Global,
    found: &mut Vec<Refusal>,
    kind: &UnitKind,
    blocks: &Blocks,
    shares: bool,
    place: usize,
    statement: &Stmt,
) -> Result<(), AllocError>
    requires sound { IsSound blocks.now }
    requires place { place < length blocks.now.arms.items }
    ensures { OnOk result ((ss : List stmt.Stmt) → AreBlocks ss blocks.now
        → found.new.items ≡ found.old.items ++ rows_in ss kind.now shares place statement.now) }
{
    add_branch_row(alloc, found, blocks, place, statement)?;
    add_entry_rows(found, kind, blocks, shares, place, statement)
}

/// Adds the rows of the statements of a unit that branch into a block from outside, and of its ENTRY statements that stand where none may.
/// `shares` tells of each ENTRY, at its place among the statements, whether its name is of the type and the length of the function's own
/// (sections 15.7.3 and 15.7.4), as `entry_sharing` does; what it tells of other statements does not count. An error where memory ran out.
pub fn add_block_rows(
    alloc: Global,
    found: &mut Vec<Refusal>,
    unit: &Unit,
    shares: &[bool],
) -> Result<(), AllocError>
    requires { TellsSharing unit.now shares.now }
    ensures { OnOk result ((options : Options) → found.new.items ≡ found.old.items ++ unit_block_rows unit.now (unit_read options unit.now)) }
{
    let statements = unit.statements.as_slice();
    let blocks = unit_blocks(alloc, statements)?;
    for place in 0..statements.len() {
        add_statement_rows(
            alloc,
            found,
            &unit.kind,
            &blocks,
            shares[place],
            place,
            &statements[place],
        )?;
    }
    Ok(())
}

/// The first refusal of a unit by branches into blocks and by the places of its ENTRY statements; `shares` as for `add_block_rows`. An error
/// where memory ran out.
pub fn block_fault(
    alloc: Global,
    unit: &Unit,
    shares: &[bool],
) -> Result<Option<Refusal>, AllocError>
    requires { TellsSharing unit.now shares.now }
    ensures { IfOk result (λ found. (options : Options) → found ≡ first_of (unit_block_rows unit.now (unit_read options unit.now))) }
{
    let mut found = Vec::new(alloc);
    add_block_rows(alloc, &mut found, unit, shares)?;
    Ok(first_of(found.as_slice()))
}
