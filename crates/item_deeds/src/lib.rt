//! What a flat item does in a function, over the objects of a run (C89, 3.3.2.2 and 3.6). Calls are told and not made: the values of
//! their arguments stand in a buffer that is handed in. Nothing takes memory.
#![tactic(auto)]

mod argument_values;
mod calls;
mod cases;
mod deeds;
mod views;

pub use deeds::{Deed, next_position, perform};
pub use views::{CallView, CallWants};
