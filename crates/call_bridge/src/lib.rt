//! From both layers of the translator to whole programs whose units call each other: where each unit is simulated by its function through its lowered
//! text, with calls and answers, the runs of the units are those of the C texts. The functions here do nothing; their contracts are the laws.
#![tactic(auto)]

pub mod runs;
