//! Worked programs of the FORTRAN meaning, computed: what each run comes to, where its names stand, and that its units are
//! well formed.
#![tactic(auto)]

pub mod bit_rows;
pub mod course_rows;
pub mod example_rows;
pub mod loop_rows;
pub mod nest_rows;
pub mod range_rows;
pub mod rows;
pub mod well_formed_rows;
