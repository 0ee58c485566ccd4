//! The loops of a unit.

ghost use Rattle.std.specs.Prelude.{◌≡◌, ◌&&◌, IfOk, length};
ghost use Rattle.f_tree.specs.declared.names.Options.{Options as GivenOptions};
ghost use Rattle.f_tree.specs.Lines.{unit_read};
ghost use Rattle.lowering_laws.specs.Layout.{each_branches_well as each_branches_well_read};
ghost use Rattle.name_facts.specs.GivenFacts.{AreNameFacts};
ghost use Rattle.plain_forms.specs.PlainUnits.{loops_are_nested, loops_are_entered_well, loops_fit};
ghost use Rattle.loop_entries.specs.LoopRanges.{terminals_of, AreRanges};

use crate::arms::next_arms;
use crate::blocks::blocks_are_whole;
use crate::entering::{each_branches_well, entries_are_outside};
use crate::functions::function_labels;
use crate::labels::Scope;
use crate::nested::{are_nested, has_loops};
use crate::ranges::{LoopRange, loop_ranges};
use f_tree::Unit;
use loop_ranges::labels::label_places;
use loop_ranges::terminal_places;
use name_facts::NameFacts;
use std::alloc::{AllocError, Global};

/// Where the loop ends that each statement of a unit begins.
fn terminals(alloc: Global, unit: &Unit) -> Result<Vec<Option<usize>>, AllocError>
    ensures count { IfOk result (λ ends. length ends.items ≡ length unit.now.statements) }
    ensures ends { IfOk result (λ ends. (options : GivenOptions) → ends.items ≡ terminals_of (unit_read options unit.now)) }
{
    terminal_places(alloc, unit)
}

/// Whether no branch of a unit goes into the range of a loop from outside.
fn branches_stay_outside(
    alloc: Global,
    unit: &Unit,
    table: &NameFacts,
    ranges: &[LoopRange],
) -> Result<bool, AllocError>
    requires { AreNameFacts unit.now table.now }
    ensures { IfOk result (λ well. (options : GivenOptions) → AreRanges (unit_read options unit.now) ranges.now
        → well ≡ each_branches_well_read (unit_read options unit.now) 0 (unit_read options unit.now).lines) }
{
    let statements = unit.statements.as_slice();
    let places = label_places(alloc, statements)?;
    let functions = function_labels(alloc, table, unit)?;
    let scope = Scope {
        table,
        functions: &functions,
        dummies: &[],
    };
    each_branches_well(alloc, &scope, ranges, &places, statements)
}

/// Whether the loops of a unit are each in one arm of a block or around the whole of it, and are entered by their DO alone, given where the loop
/// ends that each statement begins.
fn are_entered_well(
    alloc: Global,
    unit: &Unit,
    table: &NameFacts,
    ends: &[Option<usize>],
) -> Result<bool, AllocError>
    requires table { AreNameFacts unit.now table.now }
    requires ends { (options : GivenOptions) → ends.now ≡ terminals_of (unit_read options unit.now) }
    ensures { IfOk result (λ well. (options : GivenOptions) → well ≡ loops_are_entered_well (unit_read options unit.now)) }
{
    let statements = unit.statements.as_slice();
    let ranges = loop_ranges(alloc, ends)?;
    let next = next_arms(alloc, statements)?;
    if !blocks_are_whole(statements, ranges.as_slice(), next.as_slice()) {
        return Ok(false);
    }
    if !branches_stay_outside(alloc, unit, table, ranges.as_slice())? {
        return Ok(false);
    }
    Ok(entries_are_outside(ranges.as_slice(), statements))
}

/// Whether the loops of a unit are nested, and entered well.
fn are_nested_and_entered(alloc: Global, unit: &Unit, table: &NameFacts) -> Result<bool, AllocError>
    requires { AreNameFacts unit.now table.now }
    ensures { IfOk result (λ well. (options : GivenOptions) → well ≡ (loops_are_nested (unit_read options unit.now) && loops_are_entered_well (unit_read options unit.now))) }
{
    let ends = terminals(alloc, unit)?;
    if !are_nested(alloc, unit.statements.as_slice(), ends.as_slice())? {
        return Ok(false);
    }
    are_entered_well(alloc, unit, table, ends.as_slice())
}

/// Whether a unit has no loops, or loops that are nested and entered well. The table tells what the names of the unit are.
///
/// # Errors
///
/// Want of memory.
pub fn do_loops_fit(alloc: Global, unit: &Unit, table: &NameFacts) -> Result<bool, AllocError>
    requires { AreNameFacts unit.now table.now }
    ensures { IfOk result (λ fit. (options : GivenOptions) → fit ≡ loops_fit (unit_read options unit.now)) }
{
    if !has_loops(unit.statements.as_slice()) {
        return Ok(true);
    }
    are_nested_and_entered(alloc, unit, table)
}
