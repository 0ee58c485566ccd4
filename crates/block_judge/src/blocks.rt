//! The arms of IF blocks and the DO ranges of a unit, and the places of its labels.
#![tactic(auto)]

ghost use Rattle.std.specs.Prelude.{◌≡◌, ◌<◌, List, Some, IfOk, length};
ghost use Rattle.std.specs.List.{list_any};
ghost use Rattle.f_tree.specs.declared.statements.Stmt as stmt;
ghost use Rattle.loop_ranges.specs.LoopEnds.{labelled_at};
ghost use Rattle.block_judge.specs.Blocks.{IsSound, AreBlocks, enters_in, is_outside_in};

use crate::arms::{enters_arm, innermost_arms, is_outside_arms};
use crate::ranges::{enters_range, is_outside_ranges, ranges_around};
use f_tree::Stmt;
use loop_ranges::labels::label_places;
use loop_ranges::loop_ends;
use name_table::LabelTable;
use std::alloc::{AllocError, Global};

/// The blocks of a unit, and the places of its labels.
#[derive(Drop)]
pub(crate) struct Blocks {
    /// The first place of each label.
    places: LabelTable<usize>,
    /// Of each statement, where the innermost arm begins that it stands in.
    arms: Vec<Option<usize>>,
    /// Where the loop ends that each statement begins.
    ends: Vec<Option<usize>>,
    /// Of each statement, where the DO range begins that begins last of those that it stands in.
    around: Vec<Option<usize>>,
}

/// The blocks of the statements of a unit. An error where memory ran out.
pub(crate) fn unit_blocks(alloc: Global, statements: &[Stmt]) -> Result<Blocks, AllocError>
    ensures sound { IfOk result (λ blocks. IsSound blocks) }
    ensures count { IfOk result (λ blocks. length blocks.arms.items ≡ length statements.now) }
    ensures blocks { IfOk result (λ blocks. AreBlocks statements.now blocks) }
{
    let places = label_places(alloc, statements)?;
    let arms = innermost_arms(alloc, statements)?;
    let ends = loop_ends(alloc, statements)?;
    let around = ranges_around(alloc, ends.as_slice())?;
    Ok(Blocks {
        places,
        arms,
        ends,
        around,
    })
}

impl Blocks {
    /// Whether a branch from one statement to another goes into a block from outside.
    fn enters_place(&self, from: usize, to: usize) -> bool
        requires sound { IsSound self.now }
        requires from { from < length self.now.arms.items }
        requires to { to < length self.now.arms.items }
        ensures { (ss : List stmt.Stmt) → AreBlocks ss self.now → result ≡ enters_in ss from (Some to) }
    {
        let into_arm = enters_arm(self.arms.as_slice(), from, to);
        let into_range = enters_range(self.ends.as_slice(), self.around.as_slice(), from, to);
        into_arm || into_range
    }

    /// Whether a branch from a statement to a label goes into a block from outside.
    fn enters(&self, from: usize, label: u32) -> bool
        requires sound { IsSound self.now }
        requires from { from < length self.now.arms.items }
        ensures { (ss : List stmt.Stmt) → AreBlocks ss self.now → result ≡ enters_in ss from (labelled_at 0 ss label) }
    {
        match self.places.get(label) {
            Some(to) => self.enters_place(from, to),
            None => false,
        }
    }

    /// Whether a branch from a statement to one of some labels does.
    pub(crate) fn enters_any(&self, from: usize, labels: &[u32]) -> bool
        requires sound { IsSound self.now }
        requires from { from < length self.now.arms.items }
        ensures { (ss : List stmt.Stmt) → AreBlocks ss self.now → result ≡ list_any (λ label. enters_in ss from (labelled_at 0 ss label)) labels.now }
    {
        for label in labels {
            if self.enters(from, *label) {
                return true;
            }
        }
        false
    }

    /// Whether a statement stands outside all blocks.
    pub(crate) fn is_outside(&self, place: usize) -> bool
        requires sound { IsSound self.now }
        requires place { place < length self.now.arms.items }
        ensures { (ss : List stmt.Stmt) → AreBlocks ss self.now → result ≡ is_outside_in ss place }
    {
        let outside_arms = is_outside_arms(self.arms.as_slice(), place);
        let outside_ranges = is_outside_ranges(self.ends.as_slice(), self.around.as_slice(), place);
        outside_arms && outside_ranges
    }
}
