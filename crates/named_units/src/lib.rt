//! Definitions alone: the C functions of units that call each other, from the items of kept bounds and of their steps by names. Sections 5.5.1, 10 to 12 and
//! 15 of the standard, ANSI X3.9-1978; C89, 3.6 and 3.7.1.
#![tactic(auto)]
