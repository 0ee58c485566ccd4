//! Definitions alone: what the C files of units that call each other have, read off their lowered texts, and their statements. Sections 4.1, 5.1, 12.8, 15.5 and 15.6
//! of the standard, ANSI X3.9-1978.
#![tactic(auto)]
