//! The arms of IF blocks that statements stand in. Sections 11.6 to 11.9. Of each statement the innermost arm is kept, by the place of the
//! statement that begins it; the arms around an arm are those that this statement stands in.
#![tactic(auto)]

ghost use Rattle.std.specs.Prelude.{◌≡◌, ◌<◌, List, IfOk, length, nat_eq};
ghost use Rattle.std.specs.List.{list_any};
ghost use Rattle.f_tree.specs.declared.statements.Stmt as stmt;
ghost use Rattle.declaration_rows.specs.BlockRows as written;
ghost use Rattle.order_judge.specs.NestSteps.{mark_in};
ghost use Rattle.block_judge.specs.Arms as spec;
ghost use Rattle.block_judge.specs.Arms.{arms_in, AreArms, AreNumbered};

use crate::places::place_at;
use f_tree::Stmt;
use order_judge::marks::{BlockMark, mark_of};
use std::alloc::{AllocError, Global};

/// The innermost of the arms around an arm.
#[tactic(auto, unfolding(crate::specs::Arms::arm_around))]
fn arm_around(arms: &[Option<usize>], inner: Option<usize>) -> Option<usize>
    ensures { result ≡ spec.arm_around arms.now inner }
{
    match inner {
        Some(arm) => place_at(arms, arm),
        None => None,
    }
}

/// The innermost arm that a statement stands in, given the one behind the statement before it.
#[tactic(auto, unfolding(crate::specs::Arms::arm_at, order_judge::specs::NestSteps::mark_in))]
fn arm_at(arms: &[Option<usize>], mark: BlockMark, inner: Option<usize>) -> Option<usize>
    ensures { result ≡ spec.arm_at arms.now (mark_in mark) inner }
{
    match mark {
        BlockMark::Plain | BlockMark::Opens => inner,
        BlockMark::Arm | BlockMark::Closes => arm_around(arms, inner),
    }
}

/// The innermost arm behind a statement, given the one before it and the one that the statement stands in.
#[tactic(auto, unfolding(crate::specs::Arms::arm_behind, crate::specs::Arms::arm_instead, order_judge::specs::NestSteps::mark_in))]
fn arm_behind(
    mark: BlockMark,
    place: usize,
    inner: Option<usize>,
    stands_in: Option<usize>,
) -> Option<usize>
    ensures { result ≡ spec.arm_behind (mark_in mark) place inner stands_in }
{
    match (mark, inner) {
        (BlockMark::Plain, _) => inner,
        (BlockMark::Opens, _) | (BlockMark::Arm, Some(_)) => Some(place),
        (BlockMark::Arm, None) => None,
        (BlockMark::Closes, _) => stands_in,
    }
}

/// Of each statement, where the innermost arm begins that it stands in. An error where memory ran out.
pub(crate) fn innermost_arms(
    alloc: Global,
    statements: &[Stmt],
) -> Result<Vec<Option<usize>>, AllocError>
    ensures count { IfOk result (λ arms. length arms.items ≡ length statements.now) }
    ensures numbered { IfOk result (λ arms. AreNumbered arms.items) }
    ensures arms { IfOk result (λ arms. AreArms statements.now arms.items) }
{
    let mut arms = Vec::new(alloc);
    let mut inner = None;
    for place in 0..statements.len() {
        let mark = mark_of(&statements[place].body);
        let stands_in = arm_at(arms.as_slice(), mark, inner);
        arms.push(stands_in)?;
        inner = arm_behind(mark, place, inner, stands_in);
    }
    Ok(arms)
}

/// Whether a statement stands in an arm.
fn stands_in_arm(arms: &[Option<usize>], place: usize, arm: usize) -> bool
    requires numbered { AreNumbered arms.now }
    requires place { place < length arms.now }
    ensures { (ss : List stmt.Stmt) → AreArms ss arms.now → result ≡ list_any (nat_eq arm) (arms_in ss place) }
{
    let mut inner = place_at(arms, place);
    while let Some(other) = inner {
        if arm == other {
            return true;
        }
        let outer = place_at(arms, other);
        inner = outer;
    }
    false
}

/// Whether a branch from one statement to another goes into an arm from outside. One that stands in the innermost arm of the other stands in
/// those around it too.
pub(crate) fn enters_arm(arms: &[Option<usize>], from: usize, to: usize) -> bool
    requires numbered { AreNumbered arms.now }
    requires from { from < length arms.now }
    requires to { to < length arms.now }
    ensures { (ss : List stmt.Stmt) → AreArms ss arms.now → result ≡ spec.enters_arm ss from to }
{
    match place_at(arms, to) {
        Some(arm) => !stands_in_arm(arms, from, arm),
        None => false,
    }
}

/// Whether a statement stands in no arm.
pub(crate) fn is_outside_arms(arms: &[Option<usize>], place: usize) -> bool
    requires { place < length arms.now }
    ensures { (ss : List stmt.Stmt) → AreArms ss arms.now → result ≡ written.is_outside_arms (arms_in ss place) }
{
    place_at(arms, place).is_none()
}
