//! ENTRY statements that stand where none may (F41). Section 15.7.
#![tactic(auto)]

ghost use Rattle.std.specs.Prelude.{◌≡◌, ◌<◌, ◌++◌, ◌&&◌, List, OnOk, length};
ghost use Rattle.f_tree.specs.declared.statements.Stmt as stmt;
ghost use Rattle.declaration_rows.specs.NameRows.{stood};
ghost use Rattle.declaration_rows.specs.BlockRows.{has_entries as has_entries_written};
ghost use Rattle.block_judge.specs.Blocks.{IsSound, AreBlocks, is_outside_in};
ghost use Rattle.block_judge.specs.BlockSteps.{entry_rows_in, is_entry as is_entry_written};

use crate::blocks::Blocks;
use f_tree::{Body, Kind, Refusal, Stmt, UnitKind};
use found_rows::add_unless;
use std::alloc::AllocError;

/// Whether a unit may have entries: subroutines and functions.
#[tactic(auto, unfolding(declaration_rows::specs::BlockRows::has_entries))]
fn has_entries(kind: &UnitKind) -> bool
    ensures { result ≡ has_entries_written kind.now }
{
    match kind {
        UnitKind::Subroutine | UnitKind::Function(_) => true,
        UnitKind::Main | UnitKind::BlockData => false,
    }
}

/// Whether a statement is ENTRY.
#[tactic(auto, using(crate::proofs::EntryForms::entry_forms))]
fn is_entry(body: &Body) -> bool
    ensures { result ≡ is_entry_written body.now }
{
    match body {
        Body::Entry(..) => true,
        _ => false,
    }
}

/// Whether an ENTRY may stand at a place: in a subroutine or function, outside blocks and DO ranges.
fn has_its_place(kind: &UnitKind, blocks: &Blocks, place: usize) -> bool
    requires sound { IsSound blocks.now }
    requires place { place < length blocks.now.arms.items }
    ensures { (ss : List stmt.Stmt) → AreBlocks ss blocks.now → result ≡ (has_entries_written kind.now && is_outside_in ss place) }
{
    let is_procedure = has_entries(kind);
    let is_outside = blocks.is_outside(place);
    is_procedure && is_outside
}

/// Adds the rows of a statement that is an ENTRY: it stands in a subroutine or function, outside blocks and DO ranges, and it shares the result
/// of its function.
pub(crate) fn add_entry_rows(
    found: &mut Vec<Refusal>,
    kind: &UnitKind,
    blocks: &Blocks,
    shares: bool,
    place: usize,
    statement: &Stmt,
) -> Result<(), AllocError>
    requires sound { IsSound blocks.now }
    requires place { place < length blocks.now.arms.items }
    ensures { OnOk result ((ss : List stmt.Stmt) → AreBlocks ss blocks.now
        → found.new.items ≡ found.old.items ++ stood statement.now (entry_rows_in ss kind.now shares place statement.now.body)) }
{
    if !is_entry(&statement.body) {
        return Ok(());
    }
    let stands_well = has_its_place(kind, blocks, place);
    add_unless(found, statement, stands_well, Kind::BadEntry)?;
    add_unless(found, statement, shares, Kind::BadEntry)
}
