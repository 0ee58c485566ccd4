//! From pieces to the statements of input and output, with their lists of controls. Section 12 of the standard, ANSI X3.9-1978.
#![tactic(auto)]

mod control_tests;
mod controls;

pub use controls::{
    backspace_statement, close_statement, endfile_statement, open_statement, print_statement,
    read_statement, rewind_statement, write_statement,
};
