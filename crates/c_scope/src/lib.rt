//! The names that are declared at a place of a C text, and what they stand for (C89, 3.1.2.1 and 3.1.2.2).
#![tactic(auto)]

mod class;
mod names;
mod scope;

pub use class::NameClass;
pub use names::is_name;
pub use scope::CScope;
