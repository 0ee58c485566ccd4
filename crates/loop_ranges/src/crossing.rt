//! Ranges of DO loops that cross: of two, the one that begins first ends first, in the range of the other. Section 11.10. One walk over the
//! statements, which keeps the ranges that are open, and the first of the loops whose ranges end at a place.
#![tactic(auto)]

ghost use Rattle.std.specs.Prelude.{◌≡◌, ◌++◌, ℕ, [], OnOk, IfOk, length};
ghost use Rattle.f_tree.specs.Attributes.{first_of_two};
ghost use Rattle.loop_ranges.specs.FirstLoops.{first_at};
ghost use Rattle.found_rows.specs.declaration_rows.UnitRows.{range_to, crossing_rows};
ghost use Rattle.loop_ranges.specs.OpenRanges as spec;
ghost use Rattle.loop_ranges.specs.OpenRanges.{innermost_first, ranges_at, Passes, AreRanges};

use crate::firsts::FirstLoops;
use f_tree::{Kind, Refusal, Stmt};
use found_rows::add_unless;
use std::alloc::{AllocError, Global};

/// The range of a loop: the place of its DO statement and that of its terminal statement, counted from 0.
#[derive(Clone, Copy, Debug, PartialEq, Eq)]
pub(crate) struct Range {
    first: usize,
    last: usize,
}

/// What is kept of the ranges that begin before a place.
#[derive(Drop)]
pub(crate) struct Ranges {
    /// The first of the loops whose ranges end at a place.
    firsts: FirstLoops,
    /// The ranges that may end behind the place, the innermost last.
    open_ranges: Vec<Range>,
}

/// No loops have begun.
fn no_ranges(alloc: Global) -> Ranges
    ensures { AreRanges [] 0 result }
{
    Ranges {
        firsts: FirstLoops::new(alloc),
        open_ranges: Vec::new(alloc),
    }
}

/// Notes the range of a loop.
fn note_range(
    firsts: &mut FirstLoops,
    open_ranges: &mut Vec<Range>,
    first: usize,
    end: Option<usize>,
) -> Result<(), AllocError>
    ensures firsts { OnOk result ((k : ℕ) → first_at firsts.new k ≡ first_of_two (first_at firsts.old k) (spec.first_ending k (range_to first end))) }
    ensures open_ranges { OnOk result (innermost_first open_ranges.new.items ≡ range_to first end ++ innermost_first open_ranges.old.items) }
{
    match end {
        Some(last) => {
            open_ranges.push(Range { first, last })?;
            firsts.note(last, first)
        }
        None => Ok(()),
    }
}

/// Whether the innermost range has ended at a place or before it.
#[tactic(auto, unfolding(crate::specs::OpenRanges::has_ended))]
fn has_ended(open_ranges: &[Range], place: usize) -> bool
    ensures { result ≡ spec.has_ended place (innermost_first open_ranges.now) }
{
    match open_ranges {
        [.., range] => range.last <= place,
        [] => false,
    }
}

/// Forgets the innermost ranges that have ended at a place or before it.
fn forget_ended(open_ranges: &mut Vec<Range>, place: usize)
    ensures { innermost_first open_ranges.new.items ≡ spec.without_ended place (innermost_first open_ranges.old.items) }
{
    while has_ended(open_ranges.as_slice(), place) {
        open_ranges.pop();
    }
}

/// Where the innermost range begins.
#[tactic(auto, unfolding(crate::specs::OpenRanges::first_of_innermost))]
fn first_of_innermost(open_ranges: &[Range]) -> Option<usize>
    ensures { result ≡ spec.first_of_innermost (innermost_first open_ranges.now) }
{
    match open_ranges {
        [.., range] => Some(range.first),
        [] => None,
    }
}

/// Whether a loop begins before another.
#[tactic(auto, unfolding(crate::specs::OpenRanges::begins_before, crate::specs::OpenRanges::is_before))]
fn begins_before(first: Option<usize>, inner: Option<usize>) -> bool
    ensures { result ≡ spec.begins_before first inner }
{
    match (first, inner) {
        (Some(first), Some(inner)) => first < inner,
        (Some(_), None) | (None, _) => false,
    }
}

/// Passes a statement, given where the loop ends that it begins; whether a range that ends at the statement crosses another.
fn pass_place(ranges: &mut Ranges, place: usize, end: Option<usize>) -> Result<bool, AllocError>
    ensures { IfOk result (λ crosses. Passes place end ranges.old ranges.new crosses) }
{
    note_range(&mut ranges.firsts, &mut ranges.open_ranges, place, end)?;
    forget_ended(&mut ranges.open_ranges, place);
    let first = ranges.firsts.get(place);
    let inner = first_of_innermost(ranges.open_ranges.as_slice());
    Ok(begins_before(first, inner))
}

/// Adds the rows of the statements at which a range ends that crosses another, given where the loop of each statement ends.
pub fn add_range_rows(
    alloc: Global,
    found: &mut Vec<Refusal>,
    ends: &[Option<usize>],
    statements: &[Stmt],
) -> Result<(), AllocError>
    requires { length ends.now ≡ length statements.now }
    ensures { OnOk result (found.new.items ≡ found.old.items ++ crossing_rows (ranges_at 0 ends.now) 0 statements.now) }
{
    let mut ranges = no_ranges(alloc);
    for place in 0..statements.len() {
        let crosses = pass_place(&mut ranges, place, ends[place])?;
        add_unless(found, &statements[place], !crosses, Kind::BadDoNest)?;
    }
    Ok(())
}
