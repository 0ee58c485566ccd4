//! The lowered language, as definitions: a program unit as numbered steps over the FORTRAN store, in which control, temporaries,
//! operands that are kept for later and calls are explicit. Pure values have no effect and no order of their own.
#![tactic(auto)]
