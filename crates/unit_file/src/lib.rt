//! The C file of several program units, as definitions alone: its constants and functions, and where the objects of each function stand.
#![tactic(auto)]
