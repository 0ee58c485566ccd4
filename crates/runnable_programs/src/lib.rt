//! Linked programs that are ready to run: the frames of their functions stand among their objects, and it is known how much room the
//! arguments of their calls take (C89, 3.1.2.4, 3.3.2.2 and 3.7.1).
#![tactic(auto)]

mod frames;
mod rooms;

pub use frames::frames_stand;
pub use rooms::argument_room;
