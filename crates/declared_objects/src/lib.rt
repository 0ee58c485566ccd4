//! The objects of the declarations at the head of a function, and the strings to which its lists point (C89, 3.1.2.4, 3.5 and 3.5.7).
#![tactic(auto)]

mod locals;

pub use locals::{automatic_object, put_list_strings, static_object};
