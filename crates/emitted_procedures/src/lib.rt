//! Procedures in the second layer of the translator: the lowered text of a main program, a subroutine or a function of numbers and its C function, side
//! by side, with calls and answers. The functions here do nothing; their contracts are the laws.
#![tactic(auto)]

pub mod procedures;
