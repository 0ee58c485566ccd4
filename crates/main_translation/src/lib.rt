//! How a main program of numbers is translated, as definitions: what is known before each step of its lowered text, what its C file has, and its statements.
#![tactic(auto)]
