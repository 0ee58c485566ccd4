//! The lines that a run of C files writes on Fault. They are put in pieces, so that a message takes no memory.
#![tactic(auto)]

mod lines;

pub use lines::{
    fault_text, say_device_fault, say_fault, say_io_error, say_link, say_not_c, say_out_of_steps,
    say_range, say_stop, say_uncounted,
};
