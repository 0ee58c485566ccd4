//! Expressions and flat items once they are linked, as data: what a runner of C texts holds of a program (C89, 3.3 and 3.6). Names and
//! strings are the numbers of their objects and functions. What the data mean is said of the terms and items of `c_tree`, which `specs/`
//! reads off them.
#![tactic(auto)]

pub mod field_names;
pub mod fields;
pub mod items;
pub mod naming;
pub mod terms;

pub use field_names::{FieldName, UnlistedName};
pub use fields::{ListField, list_field};
pub use items::{LinkedCallee, LinkedCase, LinkedCases, LinkedItem, LinkedUse};
pub use naming::field_name;
pub use terms::{LinkedPlace, LinkedTerm};
