//! Laws of linking: where the functions and objects of files stand in their program, what names stand for, and the code of functions that were built
//! for it. The functions here do nothing; their contracts are the laws.
#![tactic(auto)]

pub mod links;
