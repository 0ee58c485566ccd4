//! Small programs that a near but wrong reading of the standard would give another meaning. The functions here do nothing; their contracts are the rows.
#![tactic(auto)]

pub mod rows;
