//! What equations make of numbers and of the blocks that begin with some of them. Sections 8.2.3 and 17.1.

ghost use Rattle.std.specs.Prelude.{IfOk, length};
ghost use Rattle.offset_classes.specs.Standing.{AreBelow, links_of};
ghost use Rattle.placed_numbers.specs.Owned.{AreWithin, AreRooted, HavePlaces, SayOf};

use crate::clear::are_clear;
use crate::reaching::is_near;
use offset_classes::{Equation, Place, Solution, solve};
use std::alloc::{AllocError, Global};

/// What equations make of numbers and of the blocks that begin with some of them.
#[derive(Drop)]
pub enum Standing {
    /// No block is joined to another one or extended before its start; the place of each number.
    Sound(Vec<Place>),
    /// A block is joined to another one, or extended before its start.
    JoinedOrExtended,
    /// The equations contradict each other.
    Contradicted,
}

/// What the places of numbers make of the blocks that begin with some of them.
fn standing_of(alloc: Global, places: Vec<Place>, firsts: &[usize]) -> Result<Standing, AllocError>
    requires rooted { AreRooted places.items }
    requires within { AreWithin (length places.items) firsts.now }
    ensures { IfOk result (λ standing. HavePlaces places.items firsts.now standing) }
{
    if are_clear(alloc, places.as_slice(), firsts)? {
        return Ok(Standing::Sound(places));
    }
    Ok(Standing::JoinedOrExtended)
}

/// What equations between the numbers below a count make of these, and of the blocks that begin with some of them, whatever names the numbers
/// stand for.
///
/// # Errors
///
/// Want of memory, or distances whose sum a place has no room for.
pub fn judge_numbers(
    alloc: Global,
    count: usize,
    equations: &[Equation],
    firsts: &[usize],
) -> Result<Standing, AllocError>
    requires below { AreBelow count (links_of equations.now) }
    requires within { AreWithin count firsts.now }
    ensures { IfOk result (λ standing. SayOf count (links_of equations.now) firsts.now standing) }
{
    if !is_near(equations) {
        return Err(AllocError);
    }
    match solve(alloc, count, equations)? {
        Solution::Solved(places) => standing_of(alloc, places, firsts),
        Solution::Contradicts(_) => Ok(Standing::Contradicted),
    }
}
