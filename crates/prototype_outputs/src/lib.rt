//! The outputs of the translation of FORTRAN files: their C texts and the texts of their prototypes (CSTR 149); and what old and further prototype files say.
#![tactic(auto)]

mod forms;
mod outputs;

pub use forms::{FormFail, check_forms, is_unchanged};
pub use outputs::{lists_of, outputs_are_of_their_files, outputs_of};
