//! What is known of all statements of a unit before the ways among them are.

use crate::arms::NextArm;
use crate::positions::Positions;
use name_table::LabelTable;
use open_loops::LoopPlace;

/// What is known of the statements of a unit.
#[derive(Drop)]
pub(crate) struct Layout {
    /// Whether the ranges of DO loops are run at least once.
    pub once: bool,
    /// What the loops make of each statement.
    pub loops: Vec<LoopPlace>,
    /// The labels that branches name.
    pub named: LabelTable<()>,
    /// Where the steps of each statement stand.
    pub positions: Positions,
    /// The next arm behind each statement.
    pub arms: Vec<Option<NextArm>>,
    /// Where the loop ends that each statement begins.
    pub ends: Vec<Option<usize>>,
}
