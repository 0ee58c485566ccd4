//! Where loops end: at the statement with the label that a DO names, or at its END DO. Section 11.10 and MIL-STD-1753. One walk from the last
//! statement to the first, with the END DO statements that no loop has yet.
#![tactic(auto)]

ghost use Rattle.std.specs.Prelude.{◌≡◌, ◌<◌, ◌∷◌, ℕ, None, OnOk, IfOk, length, reverse, slice_index_or, if◌then◌else◌};
ghost use Rattle.f_tree.specs.declared.names.Options.{Options};
ghost use Rattle.f_tree.specs.declared.statements.Stmt as stmt;
ghost use Rattle.f_tree.specs.Lines.{unit_read};
ghost use Rattle.found_rows.specs.declaration_rows.UnitRows.{range_to, range_in};
ghost use Rattle.name_table.specs.Named.{labelled};
ghost use Rattle.loop_ranges.specs.LoopForms.{form_of};
ghost use Rattle.loop_ranges.specs.LoopEnds.{is_named, end_by, closers_by, ends_from, unit_ends};

use crate::forms::{LoopForm, loop_form};
use crate::labels::{Labels, unit_labels};
use f_tree::{Stmt, Unit};
use std::alloc::{AllocError, Global};

/// Notes an END DO that is no terminal statement of a loop with a label.
fn note_closer(
    labels: &Labels,
    closers: &mut Vec<usize>,
    label: Option<u32>,
    place: usize,
) -> Result<(), AllocError>
    ensures { OnOk result (reverse closers.new.items ≡ (if is_named labels.now label then reverse closers.old.items else place ∷ reverse closers.old.items)) }
{
    if labels.ends_loop(label) {
        return Ok(());
    }
    closers.push(place)?;
    Ok(())
}

/// Where the loop ends that a statement begins, if it begins one that ends; `closers` are the END DO statements behind it that no loop behind it
/// has, the nearest last.
fn end_at(
    labels: &Labels,
    closers: &mut Vec<usize>,
    statement: &Stmt,
    place: usize,
) -> Result<Option<usize>, AllocError>
    ensures end { IfOk result (λ end. end ≡ end_by (labelled labels.now.places) (form_of statement.now.body) (reverse closers.old.items)) }
    ensures closers { OnOk result (reverse closers.new.items
        ≡ closers_by (form_of statement.now.body) (is_named labels.now statement.now.label) place (reverse closers.old.items)) }
{
    match loop_form(&statement.body) {
        LoopForm::ToLabel(label) => Ok(labels.places.get(label)),
        LoopForm::ToEndDo => Ok(closers.pop()),
        LoopForm::EndDo => {
            note_closer(labels, closers, statement.label, place)?;
            Ok(None)
        }
        LoopForm::Other => Ok(None),
    }
}

/// Where the loops of statements end, the last statement first.
fn ends_backwards(
    alloc: Global,
    labels: &Labels,
    statements: &[Stmt],
) -> Result<Vec<Option<usize>>, AllocError>
    ensures { IfOk result (λ ends. reverse ends.items ≡ ends_from (labelled labels.now.places) (is_named labels.now) 0 statements.now) }
{
    let mut ends = Vec::new(alloc);
    let mut closers = Vec::new(alloc);
    for behind in 0..statements.len() {
        let place = statements.len() - 1 - behind;
        let end = end_at(labels, &mut closers, &statements[place], place)?;
        ends.push(end)?;
    }
    Ok(ends)
}

/// Where the loop ends that each statement begins, none where it begins no loop or one that does not end. An error where memory ran out.
pub fn loop_ends(alloc: Global, statements: &[Stmt]) -> Result<Vec<Option<usize>>, AllocError>
    ensures { IfOk result (λ ends. ends.items ≡ unit_ends statements.now) }
{
    let labels = unit_labels(alloc, statements)?;
    let mut ends = ends_backwards(alloc, &labels, statements)?;
    ends.reverse();
    Ok(ends)
}

/// Where the loop ends that each statement of a unit begins: the place of its terminal statement, counted from 0; none where the statement begins
/// no loop, or one that does not end. An error where memory ran out.
pub fn terminal_places(alloc: Global, unit: &Unit) -> Result<Vec<Option<usize>>, AllocError>
    ensures count { IfOk result (λ ends. length ends.items ≡ length unit.now.statements) }
    ensures ranges { IfOk result (λ ends. (options : Options) → (place : ℕ) → (s : stmt.Stmt) → place < length unit.now.statements
        → range_to place (slice_index_or ends.items place None) ≡ range_in (unit_read options unit.now) place (slice_index_or unit.now.statements place s).body) }
{
    loop_ends(alloc, unit.statements.as_slice())
}
