//! A small translation that is proved by the law of `simulation`: its worked instance.
//!
//! Units with two dummies, over a block of shared cells, are lowered to steps with temporaries, and
//! these become functions with frames at fixed places and pointers. It is small, but has what is hard:
//! two dummies that are one cell, a call inside an expression whose left operand is saved, values that
//! are passed in the caller's frame, a second name with a wrapper, jumps, and runs that never end.
//!
//! `translate::translate` carries the theorem: for every block at the start and every n there is an m,
//! from n to factor times n, such that the functions after m steps have the same block, the same
//! active texts and the same ending as the units after n, or the units have broken by then.
#![tactic(auto)]

pub mod emission;
pub mod example;
pub mod lowered;
pub mod lowering;
pub mod source;
pub mod target;
pub mod translate;
