//! Whether each loop stands in one arm of a block, or around the whole of it. Sections 11.6 to 11.9 and 11.10.1.

ghost use Rattle.std.specs.Prelude.{◌≡◌, ℕ, ◌<◌, ◌&&◌, not, nat_eq, None, length, slice_index_or};
ghost use Rattle.std.specs.List.{list_all};
ghost use Rattle.f_tree.specs.Facts.{ProgramUnit};
ghost use Rattle.f_tree.specs.Places.{arm_after};
ghost use Rattle.f_tree.specs.Lines.{Naming};
ghost use Rattle.f_tree.specs.Nests.{is_within as is_within_read};
ghost use Rattle.lowering_laws.specs.Layout.{same_truth, none_ends_at as none_ends_at_read, are_alike as are_alike_read, is_whole_by, blocks_are_whole as blocks_are_whole_read};
ghost use Rattle.order_judge.specs.NestSteps.{mark_in};
ghost use Rattle.loop_entries.specs.declared.ranges.LoopRange as range;
ghost use Rattle.loop_entries.specs.LoopRanges.{range_of, AreRanges};
ghost use Rattle.loop_entries.specs.ReadLines.{IsReadAs};

use crate::ranges::{LoopRange, is_within};
use f_tree::Stmt;
use order_judge::marks::{BlockMark, mark_of};

/// Whether no loop ends with a statement.
fn none_ends_at(ranges: &[LoopRange], place: usize) -> bool
    ensures { result ≡ list_all (λ (r : range.LoopRange). not (nat_eq r.last place)) ranges.now }
{
    ranges.iter().all(|range| range.last != place)
}

/// Whether two answers are both yes, or both no.
#[tactic(auto, unfolding(lowering_laws::specs::Layout::same_truth))]
fn agree(one: bool, other: bool) -> bool
    ensures { result ≡ same_truth one other }
{
    if one { other } else { !other }
}

/// Whether two statements are in the same ranges.
fn are_in_same(ranges: &[LoopRange], one: usize, other: usize) -> bool
    ensures { result ≡ list_all (λ (r : range.LoopRange). same_truth (is_within_read one (range_of r)) (is_within_read other (range_of r))) ranges.now }
{
    ranges.iter().all(|range| agree(is_within(one, *range), is_within(other, *range)))
}

/// Whether a statement that begins an arm of a block, and the next arm or the end of the block, are in the same ranges.
fn are_alike(ranges: &[LoopRange], place: usize, next: Option<usize>) -> bool
    ensures { (p : ProgramUnit) → AreRanges p ranges.now → result ≡ are_alike_read p place next }
{
    match next {
        Some(next) => are_in_same(ranges, place, next),
        None => true,
    }
}

/// Whether no loop ends with the statement that begins an arm of a block, and the next arm or the end of the block is in the same ranges.
fn arm_is_whole(ranges: &[LoopRange], place: usize, next: Option<usize>) -> bool
    ensures { (p : ProgramUnit) → AreRanges p ranges.now → next ≡ arm_after p place → result ≡ (none_ends_at_read p place && are_alike_read p place (arm_after p place)) }
{
    none_ends_at(ranges, place) && are_alike(ranges, place, next)
}

/// Whether no loop ends with the statement that ends a block.
fn end_is_whole(ranges: &[LoopRange], place: usize) -> bool
    ensures { (p : ProgramUnit) → AreRanges p ranges.now → result ≡ none_ends_at_read p place }
{
    none_ends_at(ranges, place)
}

/// Whether the ranges are whole as far as a statement tells, given how it stands in the nest of blocks, and the next arm.
#[tactic(auto, unfolding(lowering_laws::specs::Layout::is_whole_by, order_judge::specs::NestSteps::mark_in))]
fn is_whole(ranges: &[LoopRange], place: usize, mark: BlockMark, next: Option<usize>) -> bool
    ensures { (p : ProgramUnit) → AreRanges p ranges.now → next ≡ arm_after p place → result ≡ is_whole_by p place (mark_in mark) }
{
    match mark {
        BlockMark::Plain => true,
        BlockMark::Opens | BlockMark::Arm => arm_is_whole(ranges, place, next),
        BlockMark::Closes => end_is_whole(ranges, place),
    }
}

/// Whether each range stands in one arm of a block, or around the whole of it, given the next arms.
pub(crate) fn blocks_are_whole(
    statements: &[Stmt],
    ranges: &[LoopRange],
    next: &[Option<usize>],
) -> bool
    requires { length next.now ≡ length statements.now }
    ensures { (p : ProgramUnit) (names : Naming) → IsReadAs p names statements.now → AreRanges p ranges.now
        → ((i : ℕ) → i < length statements.now → slice_index_or next.now i None ≡ arm_after p i) → result ≡ blocks_are_whole_read p 0 p.lines }
{
    for place in 0..statements.len() {
        let mark = mark_of(&statements[place].body);
        if !is_whole(ranges, place, mark, next[place]) {
            return false;
        }
    }
    true
}
