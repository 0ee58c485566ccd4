//! Runs of linked programs over a table of external units (CSTR 149, appendix on the run time library; C89, 3.7.1).
#![tactic(auto)]

mod runs;

pub use runs::run_on_units;
