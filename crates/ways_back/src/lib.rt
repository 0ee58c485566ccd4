//! Laws of the loops of a lowered unit: their ways back go to a step of the unit, and they open behind its first step. The functions here do nothing;
//! their contracts are the laws. ANSI X3.9-1978, section 11.10.
#![tactic(auto)]

ghost use Rattle.ways_back.specs.WaysBack.{WaysBackStayWithin, WaysBackIfStayWithin, LoopsOpenBehind};

/// A step that goes back goes back no further than to the first step of its unit.
pub fn ways_back()
    ensures { WaysBackStayWithin }
{}

/// Nor does a step that goes back where a condition holds.
pub fn ways_back_if()
    ensures { WaysBackIfStayWithin }
{}

/// A loop opens behind the first step of its unit.
pub fn loops_open_behind()
    ensures { LoopsOpenBehind }
{}
