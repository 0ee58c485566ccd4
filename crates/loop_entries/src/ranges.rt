//! The ranges of the loops of a unit. Section 11.10 and MIL-STD-1753.

ghost use Rattle.std.specs.Prelude.{◌≡◌, ◌++◌, OnOk, IfOk};
ghost use Rattle.f_tree.specs.Facts.{ProgramUnit};
ghost use Rattle.f_tree.specs.Nests.{range_to, is_within as is_within_read};
ghost use Rattle.loop_entries.specs.LoopRanges.{range_of, ranges_in, ranges_to, terminals_of, AreRanges};

use std::alloc::{AllocError, Global};

/// The range of a loop: the place of its DO or DO WHILE statement and that of its terminal statement, counted from 0.
#[derive(Clone, Copy, Debug, PartialEq, Eq)]
pub(crate) struct LoopRange {
    pub(crate) first: usize,
    pub(crate) last: usize,
}

/// Whether a statement is in a range: behind the DO statement, up to and with the terminal statement.
#[tactic(auto, unfolding(f_tree::specs::Nests::is_within, crate::specs::LoopRanges::range_of))]
pub(crate) fn is_within(place: usize, range: LoopRange) -> bool
    ensures { result ≡ is_within_read place (range_of range) }
{
    range.first < place && place <= range.last
}

/// Adds the range of a loop, if it ends.
#[tactic(auto, unfolding(f_tree::specs::Nests::range_to, crate::specs::LoopRanges::range_of))]
fn add_range(
    ranges: &mut Vec<LoopRange>,
    first: usize,
    end: Option<usize>,
) -> Result<(), AllocError>
    ensures { OnOk result (ranges_in ranges.new.items ≡ ranges_in ranges.old.items ++ range_to first end) }
{
    match end {
        Some(last) => {
            ranges.push(LoopRange { first, last })?;
            Ok(())
        }
        None => Ok(()),
    }
}

/// The ranges of loops in the order of their DO statements, given where the loop ends that each statement begins.
fn ranges_between(alloc: Global, ends: &[Option<usize>]) -> Result<Vec<LoopRange>, AllocError>
    ensures { IfOk result (λ ranges. ranges_in ranges.items ≡ ranges_to 0 ends.now) }
{
    let mut ranges = Vec::new(alloc);
    for (place, end) in ends.iter().enumerate() {
        add_range(&mut ranges, place, *end)?;
    }
    Ok(ranges)
}

/// The ranges of the loops of a unit, given where the loop ends that each of its statements begins. An error where memory ran out.
pub(crate) fn loop_ranges(
    alloc: Global,
    ends: &[Option<usize>],
) -> Result<Vec<LoopRange>, AllocError>
    ensures { IfOk result (λ ranges. (p : ProgramUnit) → ends.now ≡ terminals_of p → AreRanges p ranges.items) }
{
    ranges_between(alloc, ends)
}
