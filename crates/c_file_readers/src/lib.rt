//! Readers of the tokens of a C file (C89, 3.7): definitions alone, and they stand in `specs/`. A reader gives the external object, the constant,
//! the function or the file that tokens spell, or the token at which nothing goes on.
#![tactic(auto)]
