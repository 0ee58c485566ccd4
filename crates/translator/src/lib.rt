//! The C files of the FORTRAN files of a set, one for each, or the first statement of a form that is not translated. Sections 2.4, 3.5 and 4 to 15 of the
//! standard, ANSI X3.9-1978; CSTR 149.
#![tactic(auto)]

mod bounds;
mod files;
mod fitting;
mod forms;
mod functions;
mod heading;
mod procedures;
mod rows;
mod spelling;
mod tests;
mod texts;
mod unit;

pub use files::translate_files;
