//! Worked texts of statements, computed: their kinds, their pieces and the rows by which they are refused.
#![tactic(auto)]

pub mod computed_texts;
