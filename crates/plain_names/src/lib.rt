//! Whether a program unit is a main program with one entry and storage of its own, whose names are integers and logicals, and can be spelled in C.
//! Sections 2.4, 4.1, 5.1 and 8 of the standard, ANSI X3.9-1978.
#![tactic(auto)]

mod bounds;
mod name;
mod names;
mod spelling;
mod units;

pub use name::{has_constant_bounds, has_plain_bounds, is_name, is_number, is_plain_variable};
pub use names::{has_plain_names, is_spellable};
pub use spelling::begins_with_letter;
pub use units::{has_own_storage, have_no_entry, is_main};
