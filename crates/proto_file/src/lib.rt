//! Prototype files, printed and read by one grammar, and told from the functions of a C tree (C89, 3.5.4.3). Linear in the text, but for the sets in
//! which the names of parameters are kept.
#![tactic(auto)]

mod compare;
mod line;
mod printer;
mod protos;
mod reader;
mod tree;
mod types;
mod words;

pub use compare::changed;
pub use printer::print_protos;
pub use protos::Protos;
pub use reader::{ProtoFail, read_protos};
pub use tree::protos_of;
