//! Definitions alone: the statements of a main program's function from its items by names. Sections 10 to 12 of the standard, ANSI X3.9-1978.
#![tactic(auto)]
