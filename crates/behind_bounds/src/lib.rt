//! A lowered text whose steps are numbered from a number on, and the laws of it. The functions here do nothing; their contracts are the laws.
//! ANSI X3.9-1978, sections 5.1.1 and 5.5.1.
#![tactic(auto)]

ghost use Rattle.behind_bounds.specs.BehindBounds.{StepsStandBehind, ItemsStandBehind};

/// The steps of a text stand behind the steps that were put before them, each as it was.
pub fn steps_stand_behind()
    ensures { StepsStandBehind }
{}

/// The item of a step that stands behind others is its item where its own steps are numbered from 0, and each item is so many places further on.
pub fn items_stand_behind()
    ensures { ItemsStandBehind }
{}
