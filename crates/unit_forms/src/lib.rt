//! Definitions alone: which written program units that call each other are plain, and where their names stand in storage. Sections 2.4, 4.1, 5.1, 8, 9, 11.10
//! and 15 of the standard, ANSI X3.9-1978.
#![tactic(auto)]
