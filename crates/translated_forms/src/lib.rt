//! Definitions alone: which forms are translated today, the C file of a file of these, and the first statement of another form.
//! Sections 2.4, 6 and 8 to 15 of the standard, ANSI X3.9-1978.
#![tactic(auto)]
