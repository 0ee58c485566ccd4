//! OPEN, CLOSE, BACKSPACE, REWIND and ENDFILE as functions of the library, over the objects of a run and its external units
//! (ANSI X3.9-1978, 12.10; CSTR 149, appendix on the run time library).
//!
//! Each stands outside every transfer: in one it is the fault `Library`, which is the caller's to answer. None takes memory.
//!
//! Each function that changes a unit table has a `requires` that always holds: a function with one is proved whatever devices there are,
//! and one without where those that its callees may make are among them.
#![tactic(auto)]

mod files;
mod moves;
mod statement_ends;

pub use files::{f_clos, f_open};
pub use moves::{f_back, f_end, f_rew};
