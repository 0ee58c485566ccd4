//! The loops that are open at a statement, in one walk over the statements of a unit.

ghost use Rattle.std.specs.Prelude.{◌≡◌, ◌++◌, false, nat_le, nat_lt, OnOk, IfOk, filter, map, reverse};
ghost use Rattle.std.specs.List.{list_any};
ghost use Rattle.open_loops.specs.declared.ranges.OpenLoop.{OpenLoop};
ghost use Rattle.f_tree.specs.Nests.{goes_past};
ghost use Rattle.open_loops.specs.OpenRanges.{begun_at, open_behind, innermost_first};

use std::alloc::{AllocError, Global};

/// A loop that is open: the place of its DO or DO WHILE statement and that of its terminal statement, counted from 0.
#[derive(Clone, Copy, Debug, PartialEq, Eq)]
pub(crate) struct OpenLoop {
    pub(crate) first: usize,
    pub(crate) last: usize,
}

/// Whether one of some loops ends at a statement or before it.
fn has_ended(loops: &[OpenLoop], place: usize) -> bool
    ensures { result ≡ list_any (λ (l : OpenLoop). nat_le l.last place) loops.now }
{
    loops.iter().any(|range| range.last <= place)
}

/// Keeps the loops that end behind a statement.
fn keep_behind(loops: &mut Vec<OpenLoop>, place: usize)
    ensures { loops.new.items ≡ filter (λ (l : OpenLoop). nat_lt place l.last) loops.old.items }
{
    loops.retain(|range| place < range.last);
}

/// Forgets the loops that end at a statement or before it; whether there were any.
fn forget_ended(loops: &mut Vec<OpenLoop>, place: usize) -> bool
    ensures kept { innermost_first loops.new.items ≡ filter (goes_past place) (innermost_first loops.old.items) }
    ensures changed { result ≡ false → loops.new.items ≡ loops.old.items }
{
    if !has_ended(loops.as_slice(), place) {
        return false;
    }
    keep_behind(loops, place);
    true
}

/// Notes the loop that a statement begins, if it goes past the statement; whether it does.
fn note_range(loops: &mut Vec<OpenLoop>, first: usize, last: usize) -> Result<bool, AllocError>
    ensures noted { OnOk result (innermost_first loops.new.items ≡ begun_at first (Some last) ++ innermost_first loops.old.items) }
    ensures changed { IfOk result (λ changed. changed ≡ false → loops.new.items ≡ loops.old.items) }
{
    if last <= first {
        return Ok(false);
    }
    loops.push(OpenLoop { first, last })?;
    Ok(true)
}

/// The same for a statement that may begin no loop, or one that does not end.
fn note_begun(
    loops: &mut Vec<OpenLoop>,
    place: usize,
    end: Option<usize>,
) -> Result<bool, AllocError>
    ensures noted { OnOk result (innermost_first loops.new.items ≡ begun_at place end ++ innermost_first loops.old.items) }
    ensures changed { IfOk result (λ changed. changed ≡ false → loops.new.items ≡ loops.old.items) }
{
    match end {
        Some(last) => note_range(loops, place, last),
        None => Ok(false),
    }
}

/// Passes a statement, given where the loop ends that it begins: from the loops that are open at it to those that are open behind it. Whether
/// these are others.
pub(crate) fn pass_statement(
    loops: &mut Vec<OpenLoop>,
    place: usize,
    end: Option<usize>,
) -> Result<bool, AllocError>
    ensures passed { OnOk result (innermost_first loops.new.items ≡ open_behind place end (innermost_first loops.old.items)) }
    ensures changed { IfOk result (λ changed. changed ≡ false → loops.new.items ≡ loops.old.items) }
{
    let ended = forget_ended(loops, place);
    let begun = note_begun(loops, place, end)?;
    Ok(ended || begun)
}

/// The places where the loops begin that end with a statement, the innermost first.
pub(crate) fn ended_loops(
    alloc: Global,
    loops: &[OpenLoop],
    place: usize,
) -> Result<Vec<usize>, AllocError>
    ensures { IfOk result (λ ended. ended.items ≡ map (λ (l : OpenLoop). l.first) (filter (λ (l : OpenLoop). nat_le l.last place) (reverse loops.now))) }
{
    loops
        .iter()
        .rev()
        .filter(|range| range.last <= place)
        .map(|range| range.first)
        .collect(alloc)
}
