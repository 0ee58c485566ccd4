//! The law of lowered units behind what keeps the bounds of their dummy arrays. The function here does nothing; its contract is the law.
//! ANSI X3.9-1978, sections 5.5.1 and 11.
#![tactic(auto)]

ghost use Rattle.behind_units.specs.BehindUnits.{LoweredUnitsStandBehind};

/// The text of a lowered unit may stand behind others: its ways back go to its own steps, what is known before each step stays, and no label and no loop
/// stands among the steps before it.
pub fn units_stand_behind()
    ensures { LoweredUnitsStandBehind }
{}
