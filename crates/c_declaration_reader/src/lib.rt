//! The declarations that tokens of a C text spell (C89, 3.5 and 3.7): values, external objects, constants, and the parameters and the
//! declarations at the head of a function. Each function reads what stands first in tokens, in one pass.
#![tactic(auto)]

mod endings;
mod fields;
mod heads;
mod images;
mod lasting;
mod leads;
mod locals;
mod nodes;
mod objects;
mod parameters;
mod types;
mod values;
mod wanted;

pub use heads::read_locals;
pub use images::{read_numbers, read_text};
pub use nodes::{Named, NamedConstant};
pub use objects::{read_characters_behind, read_constant, read_integers_behind, read_object};
pub use parameters::read_parameters;
pub use types::{read_argument_types, read_result_type};
pub use values::read_value;
pub use wanted::{a_name_of_the_file, a_name_of_the_function};
