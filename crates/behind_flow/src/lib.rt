//! Laws of a lowered text whose steps are numbered from a number on: what is read off it is what is read off the text as it was. The functions here do
//! nothing; their contracts are the laws. ANSI X3.9-1978, sections 4.1, 11, 12.9 and 15.5.
#![tactic(auto)]

ghost use Rattle.behind_flow.specs.BehindFlow.{FlowsAreBehind, OutlinesAreBehind, ContentsAreBehind};

/// What is known before each step stays, and nothing is known before the steps that were put before.
pub fn flows_behind()
    ensures { FlowsAreBehind }
{}

/// Labels and loops stand where they stood among the steps, and none before.
pub fn outlined_behind()
    ensures { OutlinesAreBehind }
{}

/// Control lists and strings are those of the same steps, and temporaries and functions that are called stay.
pub fn contents_behind()
    ensures { ContentsAreBehind }
{}
