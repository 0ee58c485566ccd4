//! The next arms of IF blocks. Sections 11.6 to 11.9. One walk from the last statement to the first, with the next arms of the blocks around.

ghost use Rattle.std.specs.Prelude.{◌≡◌, IfOk, OnOk, None, reverse, slice_index_or};
ghost use Rattle.order_judge.specs.NestSteps.{mark_in};
ghost use Rattle.statement_places.specs.NextArms as spec;
ghost use Rattle.statement_places.specs.NextArms.{arms_around, arms_before, next_from};

use f_tree::Stmt;
use order_judge::marks::{BlockMark, mark_of};
use std::alloc::{AllocError, Global};

/// The next ELSE IF, ELSE or END IF of a block.
#[derive(Clone, Copy, Debug, PartialEq, Eq)]
pub(crate) struct NextArm {
    /// Its place.
    pub at: usize,
    /// The place of the END IF of the block.
    pub end: usize,
}

/// The next arm of the innermost block.
#[tactic(auto, unfolding(crate::specs::NextArms::first_arm))]
fn first_arm(arms: &[NextArm]) -> Option<NextArm>
    ensures { result ≡ spec.first_arm (reverse arms.now) }
{
    match arms {
        [.., arm] => Some(*arm),
        [] => None,
    }
}

/// Forgets the innermost block.
fn forget_arm(arms: &mut Vec<NextArm>)
    ensures { reverse arms.new.items ≡ arms_around (reverse arms.old.items) }
{
    arms.pop();
}

/// Where the block ends of an arm, given the next one.
#[tactic(auto, unfolding(crate::specs::NextArms::end_behind))]
pub(crate) fn end_behind(place: usize, next: Option<NextArm>) -> usize
    ensures { result ≡ spec.end_behind place next }
{
    match next {
        Some(arm) => arm.end,
        None => place,
    }
}

/// Passes a statement on the way to the first.
#[tactic(auto, unfolding(crate::specs::NextArms::arms_before, order_judge::specs::NestSteps::mark_in))]
fn pass_statement(
    arms: &mut Vec<NextArm>,
    mark: BlockMark,
    place: usize,
    next: Option<NextArm>,
) -> Result<(), AllocError>
    requires { next ≡ spec.first_arm (reverse arms.old.items) }
    ensures { OnOk result (reverse arms.new.items ≡ arms_before (mark_in mark) place (reverse arms.old.items)) }
{
    match mark {
        BlockMark::Plain => {}
        BlockMark::Opens => forget_arm(arms),
        BlockMark::Arm => {
            forget_arm(arms);
            let end = end_behind(place, next);
            arms.push(NextArm { at: place, end })?;
        }
        BlockMark::Closes => {
            arms.push(NextArm {
                at: place,
                end: place,
            })?;
        }
    }
    Ok(())
}

/// The next arms behind statements, the last statement first.
fn next_backwards(alloc: Global, statements: &[Stmt]) -> Result<Vec<Option<NextArm>>, AllocError>
    ensures { IfOk result (λ next. reverse next.items ≡ next_from 0 statements.now) }
{
    let mut all = Vec::new(alloc);
    let mut arms = Vec::new(alloc);
    for behind in 0..statements.len() {
        let place = statements.len() - 1 - behind;
        let next = first_arm(arms.as_slice());
        all.push(next)?;
        pass_statement(&mut arms, mark_of(&statements[place].body), place, next)?;
    }
    Ok(all)
}

/// The next ELSE IF, ELSE or END IF of the block around each statement, or of the block that it opens.
pub(crate) fn next_arms(
    alloc: Global,
    statements: &[Stmt],
) -> Result<Vec<Option<NextArm>>, AllocError>
    ensures { IfOk result (λ next. next.items ≡ next_from 0 statements.now) }
{
    let mut all = next_backwards(alloc, statements)?;
    all.reverse();
    Ok(all)
}

/// The next arm behind the statement at a place.
#[tactic(auto, using(std::proofs::lemmas::Option::gets))]
pub(crate) fn arm_at(next: &[Option<NextArm>], place: usize) -> Option<NextArm>
    ensures { result ≡ slice_index_or next.now place None }
{
    match next.get(place) {
        Some(arm) => *arm,
        None => None,
    }
}
