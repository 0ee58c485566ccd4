//! The statements that tokens of a C text spell (C89, 3.6). Each function reads what stands first in tokens, in one pass, and goes by the labels
//! that stand and are named so far in the function.
#![tactic(auto)]

mod blocks;
mod case_list;
mod cases;
mod flows;
mod heads;
mod jumps;
mod label_list;
mod labels;
mod leads;
mod nodes;
mod parts;
mod signs;
mod simple;
mod statements;
mod within;

pub use blocks::{read_body, read_statements};
pub use cases::read_cases;
pub use labels::LabelsSeen;
pub use statements::read_statement;
