//! The next arms of IF blocks. Sections 11.6 to 11.9. One walk from the last statement to the first, with the next arms of the blocks around.

ghost use Rattle.std.specs.Prelude.{◌≡◌, ℕ, ◌<◌, IfOk, OnOk, None, length, reverse, slice_index_or};
ghost use Rattle.f_tree.specs.Facts.{ProgramUnit};
ghost use Rattle.f_tree.specs.Places.{arm_after};
ghost use Rattle.f_tree.specs.Lines.{Naming};
ghost use Rattle.order_judge.specs.NestSteps.{mark_in};
ghost use Rattle.loop_entries.specs.NextArms as spec;
ghost use Rattle.loop_entries.specs.NextArms.{arms_around, arms_before, next_from};
ghost use Rattle.loop_entries.specs.ReadLines.{IsReadAs};

use f_tree::Stmt;
use order_judge::marks::{BlockMark, mark_of};
use std::alloc::{AllocError, Global};

/// The next arm of the innermost block.
#[tactic(auto, unfolding(crate::specs::NextArms::first_arm))]
fn first_arm(arms: &[usize]) -> Option<usize>
    ensures { result ≡ spec.first_arm (reverse arms.now) }
{
    match arms {
        [.., arm] => Some(*arm),
        [] => None,
    }
}

/// Forgets the innermost block.
fn forget_arm(arms: &mut Vec<usize>)
    ensures { reverse arms.new.items ≡ arms_around (reverse arms.old.items) }
{
    arms.pop();
}

/// Passes a statement on the way to the first.
#[tactic(auto, unfolding(crate::specs::NextArms::arms_before, order_judge::specs::NestSteps::mark_in))]
fn pass_statement(arms: &mut Vec<usize>, mark: BlockMark, place: usize) -> Result<(), AllocError>
    ensures { OnOk result (reverse arms.new.items ≡ arms_before (mark_in mark) place (reverse arms.old.items)) }
{
    match mark {
        BlockMark::Plain => {}
        BlockMark::Opens => forget_arm(arms),
        BlockMark::Arm => {
            forget_arm(arms);
            arms.push(place)?;
        }
        BlockMark::Closes => arms.push(place)?,
    }
    Ok(())
}

/// The next arms behind statements, the last statement first.
fn next_backwards(alloc: Global, statements: &[Stmt]) -> Result<Vec<Option<usize>>, AllocError>
    ensures { IfOk result (λ next. reverse next.items ≡ next_from 0 statements.now) }
{
    let mut all = Vec::new(alloc);
    let mut arms = Vec::new(alloc);
    for behind in 0..statements.len() {
        let place = statements.len() - 1 - behind;
        let next = first_arm(arms.as_slice());
        all.push(next)?;
        pass_statement(&mut arms, mark_of(&statements[place].body), place)?;
    }
    Ok(all)
}

/// The next ELSE IF, ELSE or END IF of the block around each statement, or of the block that it opens. An error where memory ran out.
pub(crate) fn next_arms(
    alloc: Global,
    statements: &[Stmt],
) -> Result<Vec<Option<usize>>, AllocError>
    ensures count { IfOk result (λ next. length next.items ≡ length statements.now) }
    ensures arms { IfOk result (λ next. (p : ProgramUnit) (names : Naming) → IsReadAs p names statements.now
        → (i : ℕ) → i < length statements.now → slice_index_or next.items i None ≡ arm_after p i) }
{
    let mut all = next_backwards(alloc, statements)?;
    all.reverse();
    Ok(all)
}
