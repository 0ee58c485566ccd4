//! The functions of FORTRAN over numbers that C has in its library: powers, SIGN, DIM and the functions of bits. Sections 6.1.2.1 and 15.10 of the
//! standard, ANSI X3.9-1978; MIL-STD-1753; CSTR 149, on the run time library.
#![tactic(auto)]

mod table;

pub use table::{LibraryFunction, library_function, library_functions, library_type};
