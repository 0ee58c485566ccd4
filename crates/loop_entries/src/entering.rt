//! Whether no branch and no ENTRY goes into the range of a loop from outside. Sections 11.10.8 and 15.7.4.

ghost use Rattle.std.specs.Prelude.{◌≡◌, ◌&&◌, ℕ, suc, not, IfOk};
ghost use Rattle.std.specs.List.{list_all, list_any};
ghost use Rattle.f_tree.specs.Facts.{ProgramUnit};
ghost use Rattle.f_tree.specs.Lines.{Naming, entry_in, entries_from};
ghost use Rattle.f_tree.specs.Nests.{is_within as is_within_read};
ghost use Rattle.lowering_laws.specs.Layout.{may_branch as may_branch_read, each_branches_well as each_branches_well_read, enters_outside};
ghost use Rattle.loop_entries.specs.declared.ranges.LoopRange as range;
ghost use Rattle.loop_entries.specs.Branches.{ArePlaces, is_entry as is_entry_written};
ghost use Rattle.loop_entries.specs.LoopRanges.{range_of, AreRanges};
ghost use Rattle.loop_entries.specs.PassedLabels.{told_by, TellsNames};
ghost use Rattle.loop_entries.specs.ReadLines.{IsReadAs};

use crate::branches::branch_labels;
use crate::labels::Scope;
use crate::ranges::{LoopRange, is_within};
use f_tree::{Body, Stmt};
use name_table::LabelTable;
use std::alloc::{AllocError, Global};

/// Whether a branch from one statement to another goes into a range from outside.
fn enters_range(ranges: &[LoopRange], from: usize, to: usize) -> bool
    ensures { result ≡ list_any (λ (r : range.LoopRange). is_within_read to (range_of r) && not (is_within_read from (range_of r))) ranges.now }
{
    ranges
        .iter()
        .any(|range| is_within(to, *range) && !is_within(from, *range))
}

/// Whether a branch from a statement to a label goes into no range from outside.
fn may_branch(ranges: &[LoopRange], places: &LabelTable<usize>, from: usize, label: u32) -> bool
    ensures { (p : ProgramUnit) → AreRanges p ranges.now → ArePlaces p places.now → result ≡ may_branch_read p from label }
{
    match places.get(label) {
        Some(to) => !enters_range(ranges, from, to),
        None => true,
    }
}

/// The same of branches to labels.
fn may_branch_to_each(
    ranges: &[LoopRange],
    places: &LabelTable<usize>,
    from: usize,
    labels: &[u32],
) -> bool
    ensures { (p : ProgramUnit) → AreRanges p ranges.now → ArePlaces p places.now → result ≡ list_all (may_branch_read p from) labels.now }
{
    for label in labels {
        if !may_branch(ranges, places, from, *label) {
            return false;
        }
    }
    true
}

/// Whether no branch goes into a range from outside. An error where memory ran out.
pub(crate) fn each_branches_well(
    alloc: Global,
    scope: &Scope,
    ranges: &[LoopRange],
    places: &LabelTable<usize>,
    statements: &[Stmt],
) -> Result<bool, AllocError>
    ensures { IfOk result (λ well. (p : ProgramUnit) (names : Naming) → IsReadAs p names statements.now → AreRanges p ranges.now → ArePlaces p places.now
        → TellsNames names (told_by scope.now) → well ≡ each_branches_well_read p 0 p.lines) }
{
    for place in 0..statements.len() {
        let labels = branch_labels(alloc, scope, &statements[place].body)?;
        if !may_branch_to_each(ranges, places, place, labels.as_slice()) {
            return Ok(false);
        }
    }
    Ok(true)
}

/// Whether a statement is ENTRY.
#[tactic(auto, using(crate::proofs::EntryLemmas::entry_forms))]
fn is_entry(body: &Body) -> bool
    ensures { result ≡ is_entry_written body.now }
{
    match body {
        Body::Entry(..) => true,
        _ => false,
    }
}

/// Whether a statement is in no range.
fn is_outside(ranges: &[LoopRange], place: usize) -> bool
    ensures { result ≡ list_all (λ (r : range.LoopRange). not (is_within_read place (range_of r))) ranges.now }
{
    ranges.iter().all(|range| !is_within(place, *range))
}

/// Whether a statement, if it is ENTRY, stands in no range, given the place of the statement behind it, where the entry begins.
fn entry_is_outside(ranges: &[LoopRange], body: &Body, start: usize) -> bool
    ensures { (p : ProgramUnit) (place : ℕ) → AreRanges p ranges.now → start ≡ suc place → result ≡ list_all (enters_outside p) (entry_in place body.now) }
{
    !is_entry(body) || is_outside(ranges, start)
}

/// Whether no ENTRY stands in a range.
pub(crate) fn entries_are_outside(ranges: &[LoopRange], statements: &[Stmt]) -> bool
    ensures { (p : ProgramUnit) → AreRanges p ranges.now → result ≡ list_all (enters_outside p) (entries_from 0 statements.now) }
{
    for place in 0..statements.len() {
        if !entry_is_outside(ranges, &statements[place].body, place + 1) {
            return false;
        }
    }
    true
}
