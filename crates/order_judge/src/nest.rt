//! The nest of IF blocks (F30). Sections 11.6 to 11.9.
#![tactic(auto)]

ghost use Rattle.std.specs.Prelude.{◌≡◌, ◌++◌, ◌∷◌, [], OnOk, reverse};
ghost use Rattle.f_tree.specs.Lines.{mark_of as mark_read};
ghost use Rattle.f_tree.specs.Facts as facts;
ghost use Rattle.declaration_rows.specs.UnitRows.{nest_rows};
ghost use Rattle.order_judge.specs.NestSteps.{Nests, unended};

use crate::marks::{BlockMark, mark_of};
use f_tree::{Kind, Refusal, Stmt};
use found_rows::add_row;
use std::alloc::{AllocError, Global};

/// Notes that a block begins, with the refusal that stands there where it is never closed.
#[tactic(auto, unfolding(crate::specs::NestSteps::unended))]
fn open_block(open_blocks: &mut Vec<Refusal>, statement: &Stmt) -> Result<(), AllocError>
    ensures { OnOk result (open_blocks.new.items ≡ open_blocks.old.items ++ unended statement.now ∷ []) }
{
    open_blocks.push(Refusal {
        file: statement.file,
        card: statement.card,
        kind: Kind::BadIfNest,
    })?;
    Ok(())
}

/// Adds the row of an ELSE IF or ELSE outside blocks.
fn add_arm_row(
    found: &mut Vec<Refusal>,
    open_blocks: &[Refusal],
    statement: &Stmt,
) -> Result<(), AllocError>
    ensures { OnOk result (Nests facts.Arm statement.now found.old.items found.new.items open_blocks.now open_blocks.now) }
{
    if open_blocks.is_empty() {
        return add_row(found, statement, Kind::BadIfNest);
    }
    Ok(())
}

/// Ends the innermost block, or adds the row of an END IF outside blocks.
fn close_block(
    found: &mut Vec<Refusal>,
    open_blocks: &mut Vec<Refusal>,
    statement: &Stmt,
) -> Result<(), AllocError>
    ensures { OnOk result (Nests facts.Closes statement.now found.old.items found.new.items open_blocks.old.items open_blocks.new.items) }
{
    match open_blocks.pop() {
        Some(_) => Ok(()),
        None => add_row(found, statement, Kind::BadIfNest),
    }
}

/// Adds the row of a statement in the nest of blocks, and notes the blocks that are open behind it.
fn add_nest_row(
    found: &mut Vec<Refusal>,
    open_blocks: &mut Vec<Refusal>,
    statement: &Stmt,
) -> Result<(), AllocError>
    ensures { OnOk result (Nests (mark_read statement.now.body) statement.now found.old.items found.new.items open_blocks.old.items open_blocks.new.items) }
{
    match mark_of(&statement.body) {
        BlockMark::Plain => Ok(()),
        BlockMark::Opens => open_block(open_blocks, statement),
        BlockMark::Arm => add_arm_row(found, open_blocks.as_slice(), statement),
        BlockMark::Closes => close_block(found, open_blocks, statement),
    }
}

/// Adds the rows of the blocks that are never closed, the innermost first.
fn add_unended_rows(found: &mut Vec<Refusal>, open_blocks: &[Refusal]) -> Result<(), AllocError>
    ensures { OnOk result (found.new.items ≡ found.old.items ++ reverse open_blocks.now) }
{
    for behind in 0..open_blocks.len() {
        found.push(open_blocks[open_blocks.len() - 1 - behind])?;
    }
    Ok(())
}

/// Adds the rows of the nest of the IF blocks of a unit.
pub fn add_nest_rows(
    alloc: Global,
    found: &mut Vec<Refusal>,
    statements: &[Stmt],
) -> Result<(), AllocError>
    ensures { OnOk result (found.new.items ≡ found.old.items ++ nest_rows [] statements.now) }
{
    let mut open_blocks = Vec::new(alloc);
    for statement in statements {
        add_nest_row(found, &mut open_blocks, statement)?;
    }
    add_unended_rows(found, open_blocks.as_slice())
}
