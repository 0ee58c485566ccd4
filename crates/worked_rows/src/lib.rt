//! Worked rows over several layers, computed: a source and its translation run side by side, a tree and its printed text.
#![tactic(auto)]

pub mod printed_rows;
pub mod side_by_side;
