//! How many steps the ways of a unit pass. Sections 11.6 to 11.10.

ghost use Rattle.std.specs.Prelude.{◌≡◌, None, IfOk, slice_index_or};
ghost use Rattle.f_tree.specs.Facts.{Arm};
ghost use Rattle.order_judge.specs.NestSteps.{mark_in};
ghost use Rattle.statement_places.specs.StepWays as spec;
ghost use Rattle.statement_places.specs.StepWays.{room_to, arm_room_in, exit_in, room_behind, loop_room_in, room_in, skip_in};

use crate::arms::{NextArm, arm_at, end_behind};
use crate::layout::Layout;
use crate::loops::{ended_at, turn_size};
use crate::positions::Positions;
use crate::sums::add;
use f_tree::Stmt;
use order_judge::marks::BlockMark;
use std::alloc::AllocError;

/// How many steps are passed up to the next arm.
#[tactic(auto, unfolding(crate::specs::StepWays::room_to))]
fn room_to(positions: &Positions, place: usize, next: Option<NextArm>) -> usize
    ensures { result ≡ room_to positions.now place next }
{
    match next {
        Some(arm) => {
            let from = positions.get(place);
            let to = positions.get(arm.at);
            to.own_start.saturating_sub(from.own_end)
        }
        None => 0,
    }
}

/// How many steps the condition of a block passes where it does not hold.
#[tactic(auto, unfolding(crate::specs::StepWays::arm_room_in))]
fn arm_room(layout: &Layout, place: usize) -> usize
    ensures { result ≡ arm_room_in layout.now place }
{
    let next = arm_at(layout.arms.as_slice(), place);
    room_to(&layout.positions, place, next)
}

/// The steps of the loops that end with a statement, up to and with those of one of them.
fn turns_to(statements: &[Stmt], first: usize, firsts: &[usize]) -> Result<usize, AllocError>
    ensures { IfOk result (λ n. n ≡ spec.turns_to statements.now first firsts.now) }
{
    let mut sum = 0;
    for other in firsts {
        sum = add(sum, turn_size(statements, *other))?;
        if *other == first {
            return Ok(sum);
        }
    }
    Ok(sum)
}

/// The position behind a loop.
#[tactic(auto, unfolding(crate::specs::StepWays::exit_in))]
fn loop_exit(
    statements: &[Stmt],
    layout: &Layout,
    first: usize,
    last: usize,
) -> Result<usize, AllocError>
    ensures { IfOk result (λ n. n ≡ exit_in statements.now layout.now first last) }
{
    let turns = turns_to(statements, first, ended_at(layout.loops.as_slice(), last))?;
    add(layout.positions.get(last).own_end, turns)
}

/// How many steps are passed up to the end of a loop, if it has a range.
#[tactic(auto, unfolding(crate::specs::StepWays::room_behind))]
fn room_behind(
    statements: &[Stmt],
    layout: &Layout,
    place: usize,
    end: Option<usize>,
) -> Result<usize, AllocError>
    ensures { IfOk result (λ n. n ≡ room_behind statements.now layout.now place end) }
{
    match end {
        Some(last) if place < last => {
            let exit = loop_exit(statements, layout, place, last)?;
            Ok(exit.saturating_sub(layout.positions.get(place).own_end))
        }
        Some(_) | None => Ok(0),
    }
}

/// How many steps the test of a loop passes where it does not hold.
#[tactic(auto, using(std::proofs::lemmas::Option::gets), unfolding(crate::specs::StepWays::loop_room_in))]
fn loop_room(statements: &[Stmt], layout: &Layout, place: usize) -> Result<usize, AllocError>
    ensures { IfOk result (λ n. n ≡ loop_room_in statements.now layout.now place) }
{
    room_behind(
        statements,
        layout,
        place,
        end_at(layout.ends.as_slice(), place),
    )
}

/// Where the loop ends that a statement begins.
#[tactic(auto, using(std::proofs::lemmas::Option::gets))]
fn end_at(ends: &[Option<usize>], place: usize) -> Option<usize>
    ensures { result ≡ slice_index_or ends.now place None }
{
    match ends.get(place) {
        Some(end) => *end,
        None => None,
    }
}

/// How many steps the condition of a statement passes where it does not hold.
#[tactic(auto, unfolding(crate::specs::StepWays::room_in, order_judge::specs::NestSteps::mark_in))]
pub(crate) fn room(
    statements: &[Stmt],
    layout: &Layout,
    mark: BlockMark,
    place: usize,
) -> Result<usize, AllocError>
    ensures { IfOk result (λ n. n ≡ room_in statements.now layout.now (mark_in mark) place) }
{
    match mark {
        BlockMark::Opens | BlockMark::Arm => Ok(arm_room(layout, place)),
        BlockMark::Plain | BlockMark::Closes => loop_room(statements, layout, place),
    }
}

/// How many steps an arm that comes to its end passes.
#[tactic(auto, unfolding(crate::specs::StepWays::skip_in))]
fn skip_of_arm(layout: &Layout, place: usize) -> usize
    ensures { result ≡ skip_in layout.now Arm place }
{
    let end = end_behind(place, arm_at(layout.arms.as_slice(), place));
    let to = layout.positions.get(end);
    to.start
        .saturating_sub(layout.positions.get(place).own_start)
}

/// How many steps are passed before an ELSE IF or ELSE; 0 before others.
#[tactic(auto, unfolding(crate::specs::StepWays::skip_in, order_judge::specs::NestSteps::mark_in))]
pub(crate) fn skip(layout: &Layout, mark: BlockMark, place: usize) -> usize
    ensures { result ≡ skip_in layout.now (mark_in mark) place }
{
    match mark {
        BlockMark::Arm => skip_of_arm(layout, place),
        BlockMark::Plain | BlockMark::Opens | BlockMark::Closes => 0,
    }
}
