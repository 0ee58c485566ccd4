//! The ends of loops. Section 11.10.

ghost use Rattle.std.specs.Prelude.{◌≡◌, IfOk};
ghost use Rattle.statement_places.specs.StepWays.{back_to, back_in, turns_in};

use crate::loops::{is_counted, turn_size};
use crate::places::Turn;
use crate::positions::Positions;
use crate::sums::add;
use f_tree::Stmt;
use std::alloc::{AllocError, Global};

/// How many steps the way back of a DO loop goes: to its range where it is run at least once, or to its test.
#[tactic(auto, unfolding(crate::specs::StepWays::back_to))]
fn back_to(once: bool, from: usize, to: usize) -> Result<usize, AllocError>
    ensures { IfOk result (λ n. n ≡ back_to once from to) }
{
    let way = from.saturating_sub(to);
    if once { Ok(way) } else { add(way, 1) }
}

/// How many steps the way back of a loop goes, given where the steps behind its terminal statement begin.
#[tactic(auto, unfolding(crate::specs::StepWays::back_in))]
fn way_back(
    once: bool,
    statements: &[Stmt],
    positions: &Positions,
    first: usize,
    from: usize,
) -> Result<usize, AllocError>
    ensures { IfOk result (λ n. n ≡ back_in once statements.now positions.now first from) }
{
    let position = positions.get(first);
    if is_counted(statements, first) {
        back_to(once, add(from, 1)?, position.own_end)
    } else {
        Ok(from.saturating_sub(position.own_start))
    }
}

/// The ends of the loops that end with a statement, given where its own steps end.
pub(crate) fn turns(
    alloc: Global,
    once: bool,
    statements: &[Stmt],
    positions: &Positions,
    from: usize,
    firsts: &[usize],
) -> Result<Vec<Turn>, AllocError>
    ensures { IfOk result (λ turns. turns.items ≡ turns_in once statements.now positions.now from firsts.now) }
{
    let mut turns = Vec::new(alloc);
    let mut at = from;
    for first in firsts {
        let back = way_back(once, statements, positions, *first, at)?;
        turns.push(Turn {
            first: *first,
            at,
            back,
        })?;
        at = add(at, turn_size(statements, *first))?;
    }
    Ok(turns)
}
