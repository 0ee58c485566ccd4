//! Proofs alone: the items of lowered steps have no strings but the texts of STOP statements. Section 11.12 of the standard, ANSI X3.9-1978; C89, 3.1.4.
#![tactic(auto)]

pub mod strings;
