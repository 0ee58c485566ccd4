//! From both layers of the translator to whole programs: where each unit is simulated by its function through its lowered text, the runs of the units
//! are those of the C texts. The functions here do nothing; their contracts are the laws.
#![tactic(auto)]

pub mod examples;
pub mod runs;
