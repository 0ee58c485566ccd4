//! A box and a growable list that contracts see as plain data: the value and the list.
//!
//! Trees are built over them, so two trees are equal in a contract where their parts are, without
//! addresses or capacities, and a contract can say that a tree equals what a definition computes.
//! Both come from a kept crate; the name of this one is the name that trees use.
#![tactic(auto)]

pub use sqlite_items::{Boxed, Items};
