//! The text of a program unit. Sections 3.5 and 11.

use indexmap::IndexMap;
use lowered_tree::Step;

/// How the steps of loops and blocks belong together. A mark is no step: it stands before one.
#[derive(Clone, Copy, Debug, PartialEq, Eq)]
pub enum Mark {
    /// The steps of the statement on this card begin, counted from 1.
    Card(u32),
    /// A loop begins whose variable is defined, tested, and defined again behind the turn. Section 11.10.
    OpensLoop,
    /// The same, tested behind each turn alone.
    OpensLoopOnce,
    ClosesLoop,
    /// A loop begins by its test, to which the end goes back. MIL-STD-1753.
    OpensWhile,
    ClosesWhile,
    /// The steps of an arm, which a condition passes, begin. Section 11.6.
    OpensArm,
    /// The next arm begins. Sections 11.7 and 11.8.
    NextArm,
    /// The arms end. Section 11.9.
    ClosesArm,
}

/// A mark before a step.
#[derive(Clone, Copy, Debug, PartialEq, Eq)]
pub struct Marked {
    /// The position of the step, from 0.
    pub at: usize,
    pub mark: Mark,
}

/// A lowered program unit.
#[derive(Drop)]
pub struct LoweredText {
    pub steps: Vec<Step>,
    /// The positions where the steps of labelled statements begin, by their labels.
    pub labels: IndexMap<u32, usize>,
    /// The marks, in the order of their statements.
    pub marks: Vec<Marked>,
}
