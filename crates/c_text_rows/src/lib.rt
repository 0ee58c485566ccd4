//! Worked C texts, computed: texts with the trees that they spell, and texts that are refused, with their lines.
#![tactic(auto)]

pub mod refused_rows;
pub mod texts;
