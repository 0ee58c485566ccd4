//! Proofs alone: the C function of a program unit keeps the loops of the unit. Section 11.10 of the standard, ANSI X3.9-1978; C89, 3.6.5.
#![tactic(auto)]

pub mod kept;
