//! Programs once they are linked, as data: what a runner of C texts holds of the files of a program (C89, 3.1.2.2, 3.5 and 3.7). Names are
//! the numbers of objects and functions, and jumps are positions. What the data mean is said of the programs of `c_tree`, which `specs/`
//! reads off them.
#![tactic(auto)]

pub mod functions;
pub mod objects;
pub mod programs;

pub use functions::LinkedFunction;
pub use objects::LinkedObject;
pub use programs::LinkedProgram;
