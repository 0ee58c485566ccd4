//! The words of a command line that name FORTRAN files and prototype files, and the places that a translation goes from and to: the FORTRAN files and the
//! C files of their translations, and the files of their prototypes, or Input and Output.
#![tactic(auto)]

mod files;
mod places;

pub use files::{have_one_output, is_file_word, is_prototype_word};
pub use places::{files_named, inputs_of, outputs_of, prototype_outputs, prototypes_named};
