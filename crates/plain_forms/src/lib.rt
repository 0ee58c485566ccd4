//! Definitions alone: which written main programs are plain, and where their names stand in storage. Sections 2.4, 4.1, 5.1, 8, 9, 11.10 and 15.7 of the
//! standard, ANSI X3.9-1978.
#![tactic(auto)]
