//! Emission of procedures, as definitions: the C items for calls and returns, what a call and its answer are on both sides, and what is asked of the C
//! function of a program unit.
#![tactic(auto)]
