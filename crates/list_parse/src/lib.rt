//! From pieces to the lists of READ, WRITE, PRINT and DATA, with their implied DO loops. Sections 9 and 12.8.2 of the standard, ANSI X3.9-1978.
#![tactic(auto)]

mod data_lists;
mod lists;

pub use data_lists::data_statement;
pub use lists::{
    behind_piece, enclosed_expressions, failed, first_and_others, keyed, list_items, with,
};
