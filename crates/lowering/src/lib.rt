//! Lowering, as definitions: the steps that an expression, a statement and a program unit become, with the values and effects of the
//! FORTRAN meaning in their order. Forms that are not lowered yet are told.
#![tactic(auto)]
