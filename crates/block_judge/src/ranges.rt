//! The DO ranges that statements stand in. Section 11.10.2. Of each statement the range is kept that begins last; the one around a range is
//! that of the statement which begins it. A range that has ended before the statement may stand in between where ranges cross.
#![tactic(auto)]

ghost use Rattle.std.specs.Prelude.{◌≡◌, ◌<◌, ◌+◌, not, IfOk, length};
ghost use Rattle.std.specs.List.{list_any};
ghost use Rattle.declaration_rows.specs.UnitRows.{range_to};
ghost use Rattle.declaration_rows.specs.BlockRows.{is_in_range, enters_range_of};
ghost use Rattle.loop_ranges.specs.OpenRanges.{ranges_at};
ghost use Rattle.block_judge.specs.Ranges as spec;
ghost use Rattle.block_judge.specs.Ranges.{innermost, AreAround};

use crate::places::place_at;
use std::alloc::{AllocError, Global};

/// Whether a range lasts up to a place.
#[tactic(auto, unfolding(crate::specs::Ranges::lasts_to))]
fn lasts_to(place: usize, end: Option<usize>) -> bool
    ensures { result ≡ spec.lasts_to place end }
{
    match end {
        Some(last) => place <= last,
        None => false,
    }
}

/// Of the ranges that last to the place behind one, where the one begins that begins last.
fn range_behind(ends: &[Option<usize>], around: &[Option<usize>], place: usize) -> Option<usize>
    requires place { place < length ends.now }
    requires count { length around.now ≡ place + 1 }
    requires around { AreAround ends.now around.now }
    ensures { result ≡ innermost ends.now (place + 1) (place + 1) }
{
    let mut range = Some(place);
    while let Some(first) = range {
        if lasts_to(place + 1, place_at(ends, first)) {
            return range;
        }
        let outer = place_at(around, first);
        range = outer;
    }
    None
}

/// Of each statement, where the range begins that begins last of those that it stands in, given where the loop of each statement ends. An error
/// where memory ran out.
pub(crate) fn ranges_around(
    alloc: Global,
    ends: &[Option<usize>],
) -> Result<Vec<Option<usize>>, AllocError>
    ensures count { IfOk result (λ around. length around.items ≡ length ends.now) }
    ensures around { IfOk result (λ around. AreAround ends.now around.items) }
{
    let mut around = Vec::new(alloc);
    let mut range = None;
    for place in 0..ends.len() {
        around.push(range)?;
        range = range_behind(ends, around.as_slice(), place);
    }
    Ok(around)
}

/// Whether a statement stands in the range of the loop that begins at a place.
#[tactic(auto, unfolding(declaration_rows::specs::UnitRows::range_to, declaration_rows::specs::BlockRows::is_in_range))]
fn stands_in_range(place: usize, first: usize, end: Option<usize>) -> bool
    ensures { result ≡ list_any (is_in_range place) (range_to first end) }
{
    match end {
        Some(last) => first < place && place <= last,
        None => false,
    }
}

/// Whether a branch goes into the range of the loop that begins at a place.
fn goes_into(first: usize, end: Option<usize>, from: usize, to: usize) -> bool
    ensures { result ≡ enters_range_of (range_to first end) from to }
{
    let ends_in = stands_in_range(to, first, end);
    let begins_in = stands_in_range(from, first, end);
    ends_in && !begins_in
}

/// Whether a branch from one statement to another goes into a range from outside.
pub(crate) fn enters_range(
    ends: &[Option<usize>],
    around: &[Option<usize>],
    from: usize,
    to: usize,
) -> bool
    requires count { length around.now ≡ length ends.now }
    requires around { AreAround ends.now around.now }
    requires to { to < length around.now }
    ensures { result ≡ enters_range_of (ranges_at 0 ends.now) from to }
{
    let mut range = place_at(around, to);
    while let Some(first) = range {
        if goes_into(first, place_at(ends, first), from, to) {
            return true;
        }
        let outer = place_at(around, first);
        range = outer;
    }
    false
}

/// Whether a statement stands in no range.
pub(crate) fn is_outside_ranges(
    ends: &[Option<usize>],
    around: &[Option<usize>],
    place: usize,
) -> bool
    requires count { length around.now ≡ length ends.now }
    requires around { AreAround ends.now around.now }
    requires place { place < length around.now }
    ensures { result ≡ not (list_any (is_in_range place) (ranges_at 0 ends.now)) }
{
    place_at(around, place).is_none()
}
