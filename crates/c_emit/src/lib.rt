//! Emission, as definitions: the C expressions for the values that a lowered unit computes. Forms that are not emitted yet are told.
#![tactic(auto)]
