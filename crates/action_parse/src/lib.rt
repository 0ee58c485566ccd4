//! From pieces to statements that assign, branch, loop and call, and to ENTRY, FORMAT and INCLUDE. Sections 10, 11, 13 and 15 of the standard, ANSI X3.9-1978.
#![tactic(auto)]

mod actions;
mod calls;
mod loops;

pub use actions::{
    arithmetic_if_statement, assign_statement, assignment_statement, block_if_statement,
    else_if_statement, goto_statement, sign_labels, test,
};
pub use calls::{
    call_statement, entry_statement, format_statement, include_statement, return_statement,
    stop_statement,
};
pub use loops::{do_statement, do_while_statement};
