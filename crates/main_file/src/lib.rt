//! The C file of a main program, as definitions: what its function declares, what its objects are numbered, and what the function goes by.
#![tactic(auto)]
