//! The names that entities of a FORTRAN file have in the C text, and those that the translator gives by itself (CSTR 149, in this project's profile).
#![tactic(auto)]

mod names;

pub use names::{
    constant_name, control_list_name, external_name, lower_bound_name, made_label_name,
    result_name, size_name, statement_label_name, temporary_name, variable_name,
};
