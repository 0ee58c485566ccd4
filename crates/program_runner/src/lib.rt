//! Runs a linked program step by step, as the meaning of C texts has it (C89, 3.3.2.2, 3.6 and 3.7.1). A step searches neither names (but
//! that of a field which no list has, a fault) nor the functions that are active, and takes no memory: the stack has a frame for each
//! function, since one that is active is not called again, and the frame notes whether it is. Where the device of an external unit fails, or
//! a call is to count more than 64 bits tell, the run is over, and it is known how it stood before that step. At a fault the units that the
//! last step left are told by the call of the library that it made, if it made one. A run answers how many steps it has taken.
#![tactic(auto)]

mod events;
mod laws;
mod machine;
mod runs;
mod signatures;
mod stack;

pub use laws::next_calls_are_made;
pub use runs::{RunOutcome, RunTaken, begin, run, run_program};
pub use stack::{ActiveFunction, CallFrame, CallStack, frame_room};
